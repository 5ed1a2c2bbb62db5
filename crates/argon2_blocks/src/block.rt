//! Blocks of Argon2's memory and their compression (RFC 9106, 3.2, 3.5 and 3.6).

mod kernel;
mod lanes;
mod parts;

ghost use Rattle.std.specs.Prelude.{◌≡◌, ◌<◌, ◌↔◌, ⊤, IsTrue, ℕ, List, Some, nat_eq, slice_index};
ghost use Rattle.std.specs.Cmp.Lexicographic.{nat_list_eq_equiv, pointwise};
ghost use Rattle.std.specs.Cmp.{partial_equiv_from_equiv};
ghost use Rattle.std.specs.Fmt.{debug_list, decimal};
ghost use Rattle.argon2_blocks.specs.Standard.Block.{block_bytes, block_of_bytes, xor, zero_block};

use crate::blake2b::{read_words, wipe, write_words};
use crate::common::{BLOCK_SIZE, QWORDS_IN_BLOCK};
pub use kernel::fill_block;
pub use lanes::permute_lanes;
pub use parts::first_and_others;
use std::alloc::AllocError;
use std::fmt;
use std::marker::Model;
use std::ops::{BitXorAssign, Index, IndexMut};

/// A block of memory: 128 words of 64 bits, which are 1024 bytes (RFC 9106, 3.2). It has the layout
/// of C, so that C may pass slices of blocks.
#[derive(Drop)]
#[repr(C)]
pub struct Block {
    words: [u64; QWORDS_IN_BLOCK],
}

/// Contracts see a block as the list of its words.
impl Model for Block {
    ghost Value = { List ℕ };

    ghost view = { λ b. b.words };

    ghost inverse = { λ v. record { words = v } };
}

impl Block {
    /// The block of zeros.
    pub fn zero() -> Block
        ensures { result ≡ zero_block }
    {
        Block {
            words: [0; QWORDS_IN_BLOCK],
        }
    }

    /// Overwrites all words with zeros.
    pub fn wipe(&mut self)
        ensures { self.new ≡ zero_block }
    {
        wipe(&mut self.words, 0);
    }

    /// The block of these words.
    pub fn from_words(words: [u64; QWORDS_IN_BLOCK]) -> Block
        ensures { result ≡ words }
    {
        Block { words }
    }

    /// Copies this block to `dst`, in place, without a third block.
    pub fn copy_to(&self, dst: &mut Block)
        ensures { dst.new ≡ self.now }
    {
        dst.words = self.words;
    }

    /// The bytes of all words in order, the lowest byte of each first.
    pub fn as_u8(&self) -> [u8; BLOCK_SIZE]
        ensures bytes { result ≡ block_bytes self.now }
        ensures back { block_of_bytes result ≡ self.now }
    {
        let mut bytes = [0; BLOCK_SIZE];
        write_words(&mut bytes, &self.words);
        bytes
    }

    /// Makes this the block with these bytes, the lowest byte of each word first.
    pub fn set_u8(&mut self, bytes: &[u8; BLOCK_SIZE])
        ensures words { self.new ≡ block_of_bytes bytes.now }
        ensures back { block_bytes self.new ≡ bytes.now }
    {
        read_words(&mut self.words, bytes);
    }
}

/// Blocks are equal exactly where all words are.
impl PartialEq for Block {
    ghost eq = { pointwise nat_eq };

    ghost laws = { partial_equiv_from_equiv nat_list_eq_equiv };

    fn eq(&self, other: &Block) -> bool
        ensures words { result ≡ pointwise nat_eq self.now other.now }
        ensures same { IsTrue result ↔ (self.now ≡ other.now) }
    {
        self.words == other.words
    }
}

impl Eq for Block {
    ghost laws = { nat_list_eq_equiv };
}

/// A copy, which cannot fail, since a block has its words in itself.
impl Clone for Block {
    ghost is_clone = { λ x y. y ≡ x };

    ghost is_infallible = { λ _. ⊤ };

    fn clone(&self) -> Result<Block, AllocError> {
        Ok(Block { words: self.words })
    }
}

/// The list of the words, in decimal.
impl fmt::Debug for Block {
    ghost debug_output = { debug_list (λ word. Some (decimal word)) };

    fn fmt<W: fmt::Write>(&self, f: &mut fmt::Formatter<W>) -> fmt::Result {
        fmt::Debug::fmt(&self.words, f)
    }
}

/// The word at an index below 128.
impl Index<usize> for Block {
    type Output = u64;

    ghost can_index = { λ b i. i < 128 };

    ghost index_gives = { λ b i x. x ≡ slice_index b i };

    fn index(&self, index: usize) -> &u64 {
        &self.words[index]
    }
}

/// The word at an index below 128, to be written.
impl IndexMut<usize> for Block {
    ghost use Rattle.std.specs.Borrow.{sem};
    ghost use Rattle.argon2_blocks.specs.Views.Lends.{lends_word};

    fn index_mut(&mut self, index: usize) -> &mut u64
        requires { index < 128 }
        ensures* writes_back { sem 𝓛 (lends_word self.entry index result) }
        ensures value { result.now ≡ slice_index self.old index }
    {
        &mut self.words[index]
    }
}

/// The exclusive or, word by word.
impl BitXorAssign<&Block> for Block {
    // Inlined into a loop, it would leave words where nobody overwrites them.
    #[inline(never)]
    fn bitxor_assign(&mut self, rhs: &Block)
        ensures words { self.new ≡ xor self.old rhs.now }
        ensures twice { xor self.new rhs.now ≡ self.old }
    {
        for i in 0..QWORDS_IN_BLOCK {
            self.words[i] ^= rhs.words[i];
        }
    }
}
