//! H', the hash function of variable length (RFC 9106, 3.3): a chain of BLAKE2b hashes.

ghost use Rattle.std.specs.Prelude.{◌≡◌, ◌<◌, ◌≤◌, ◌^◌, ◌+◌, ◌-◌, ◌*◌, ◌++◌, List, ℕ, length, replicate, take};
ghost use Rattle.argon2_blocks.specs.Standard.Blake2b.{blake2b};
ghost use Rattle.argon2_blocks.specs.Standard.Hprime.{chain_length, hash_chain, hprime};
ghost use Rattle.argon2_blocks.specs.Standard.Word.{words_of};

use super::{blake2b, compress_f, initial_state, read_words, wipe, write_words};
use crate::basics::{copy_from_slice, fill, u32_to_le_bytes};
use crate::common::BLAKE2B_OUT_LENGTH;

/// How many bytes of each V but the last go into the hash: its first half, W.
const HALF_LENGTH: usize = 32;

/// r: how many V come before the last V in a hash of `len` bytes. `len` is more than 64.
fn chain_length(len: usize) -> usize
    requires { 64 < len }
    ensures { result ≡ chain_length len }
{
    // r is ceil(len / 32) - 2 (RFC 9106, 3.3), and ceil(len / 32) is floor((len - 1) / 32) + 1.
    (len - 1) / HALF_LENGTH - 1
}

/// Fills a block with the words of a V, and zeros, since a V is half a block.
fn write_half_block(block: &mut [u64; 16], v: &[u8; BLAKE2B_OUT_LENGTH])
    ensures { block.new ≡ words_of 8 v.now ++ replicate 8 0 }
{
    read_words(&mut block[..8], v);
    fill(&mut block[8..], 0);
}

/// A V of the chain, and the buffers for hashing the next. One link serves the whole chain and is
/// overwritten at its end, since wiping takes longer than computing a V.
#[derive(Drop)]
struct Link {
    /// V.
    bytes: [u8; BLAKE2B_OUT_LENGTH],
    block: [u64; 16],
    /// h.
    state: [u64; 8],
}

impl Link {
    /// A link whose V is zeros.
    fn new() -> Link {
        Link {
            bytes: [0; BLAKE2B_OUT_LENGTH],
            block: [0; 16],
            state: [0; 8],
        }
    }

    /// Replaces V by the next V, which is the hash of V. This hash takes one F and no hasher.
    #[tactic(auto, using(crate::proofs::Hashing::blake2b_half_block))]
    fn advance(&mut self)
        ensures { self.new.bytes ≡ blake2b 64 self.old.bytes }
    {
        write_half_block(&mut self.block, &self.bytes);
        self.state = initial_state(BLAKE2B_OUT_LENGTH);
        let count = BLAKE2B_OUT_LENGTH as u128;
        compress_f(&mut self.state, &self.block, count, true);
        write_words(&mut self.bytes, &self.state);
    }

    /// Overwrites V and the buffers that were used to hash it.
    fn wipe(&mut self)
        ensures bytes { self.new.bytes ≡ replicate 64 0 }
        ensures block { self.new.block ≡ replicate 16 0 }
        ensures state { self.new.state ≡ replicate 8 0 }
    {
        wipe(&mut self.bytes, 0);
        wipe(&mut self.block, 0);
        wipe(&mut self.state, 0);
    }
}

/// Writes W, the first half of a V, at an index.
fn write_half(out: &mut [u8], at: usize, v: &[u8; BLAKE2B_OUT_LENGTH])
    requires { at + 32 ≤ length out.old }
    ensures len { length out.new ≡ length out.old }
    ensures front { take (at + 32) out.new ≡ take at out.old ++ take 32 v.now }
{
    copy_from_slice(&mut out[at..at + HALF_LENGTH], &v[..HALF_LENGTH]);
}

/// Fills a hash of more than 64 bytes with W 1 to W r and then V (r + 1), the remaining 33 to 64
/// bytes. The link has V 1 at the start, and is overwritten at the end.
fn write_chain(out: &mut [u8], link: &mut Link)
    requires { 64 < length out.old }
    ensures chain { let r = chain_length (length out.old) in
        (input : List ℕ) → link.old.bytes ≡ blake2b 64 input →
        out.new ≡ hash_chain r (length out.old - 32 * r) input }
    ensures bytes_wiped { link.new.bytes ≡ replicate 64 0 }
    ensures block_wiped { link.new.block ≡ replicate 16 0 }
    ensures state_wiped { link.new.state ≡ replicate 8 0 }
{
    let r = chain_length(out.len());
    write_half(out, 0, &link.bytes);
    for i in 1..r {
        link.advance();
        write_half(out, HALF_LENGTH * i, &link.bytes);
    }
    blake2b(&mut out[HALF_LENGTH * r..], &[&link.bytes]);
    link.wipe();
    wipe_frames();
}

/// Overwrites the stack below its caller, where frames of F held words of a chain. It is never
/// inlined, so that its frame lies where theirs lay.
#[inline(never)]
fn wipe_frames() {
    let mut frames = [[0u64; 16]; 16];
    wipe(&mut frames, [0; 16]);
}

/// H' (RFC 9106, 3.3): hashes `input`, and fills `out`, of 1 to 2^32 - 1 bytes, with a hash of that
/// length. It allocates nothing.
pub fn hprime(out: &mut [u8], input: &[u8])
    requires some { 0 < length out.old }
    requires few { length out.old < 2 ^ 32 }
    ensures { out.new ≡ hprime (length out.old) input.now }
{
    let len = u32_to_le_bytes(out.len() as u32);
    if out.len() <= BLAKE2B_OUT_LENGTH {
        blake2b(out, &[&len, input]);
    } else {
        let mut link = Link::new();
        blake2b(&mut link.bytes, &[&len, input]);
        write_chain(out, &mut link);
    }
}
