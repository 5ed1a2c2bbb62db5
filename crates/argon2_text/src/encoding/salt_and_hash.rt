//! The salt and the hash in a PHC string, written to and decoded into caller-provided buffers.
//!
//! The characters of the hash are secret, so they are computed by sums (`put_hash`, `read_item`).
//! The salt is public. The calls of this crate encode and decode it by the tables of crate `base64`
//! (`put_salt`, `read_salt`). C's calls use the sums for it too (`put_salt_by_sums`, `read_item`),
//! since crate `base64` calls the language's library, which the C library does without
//! (docs/DECISIONS.md).

ghost use Rattle.std.specs.Prelude.{◌≡◌, ◌+◌, ◌*◌, ◌/◌, ◌++◌, ◌<◌, ◌≤◌, length, take};
ghost use Rattle.argon2_standard.specs.Standard.Grammar.{IsItem};
ghost use Rattle.argon2_standard.specs.Standard.Text.{base64};
ghost use Rattle.argon2_text.specs.Views.Faults.{IsSomeItem};
ghost use Rattle.argon2_text.specs.Views.Letters.{bytes_read};
ghost use Rattle.base64.specs.Rfc4648.{unpadded_len};

use crate::encoding::lengths::characters;
use crate::encoding::letters::{bits, four_letters, letter, three_bytes};
use crate::encoding::placing::put;
use base64::engine::general_purpose::STANDARD_NO_PAD;

/// Puts the unpadded base64 of a salt behind the first `at` bytes of a buffer. Returns where it
/// ends.
pub fn put_salt(out: &mut [u8], at: usize, salt: &[u8]) -> usize
    requires { at + unpadded_len (length salt.now) ≤ length out.old }
    ensures end { result ≡ at + unpadded_len (length salt.now) }
    ensures front { take result out.new ≡ take at out.old ++ base64 salt.now }
    ensures len { length out.new ≡ length out.old }
{
    match STANDARD_NO_PAD.encode_slice(salt, &mut out[at..]) {
        Ok(len) => at + len,
        Err(_) => unreachable!(),
    }
}

/// Puts the unpadded base64 of a salt behind the first `at` bytes of a buffer, by sums. Returns
/// where it ends.
pub fn put_salt_by_sums(out: &mut [u8], at: usize, salt: &[u8]) -> usize
    requires { at + unpadded_len (length salt.now) ≤ length out.old }
    ensures end { result ≡ at + unpadded_len (length salt.now) }
    ensures front { take result out.new ≡ take at out.old ++ base64 salt.now }
    ensures len { length out.new ≡ length out.old }
{
    let end = at + characters(salt.len() as u64) as usize;
    put_hash(&mut out[..end], at, salt);
    end
}

/// Puts the unpadded base64 of a hash behind the first `at` bytes of a buffer, which it fills.
pub fn put_hash(out: &mut [u8], at: usize, hash: &[u8])
    requires { at + unpadded_len (length hash.now) ≡ length out.old }
    ensures { out.new ≡ take at out.old ++ base64 hash.now }
{
    let mut at = at;
    let mut rest = hash;
    while rest.len() >= 3 {
        at = put(out, at, &four_letters(&rest[..3]));
        rest = &rest[3..];
    }
    put_last_letters(out, at, rest);
}

/// Puts the characters of the last 0 to 2 bytes at the end of a buffer.
fn put_last_letters(out: &mut [u8], at: usize, tail: &[u8])
    requires few { length tail.now < 3 }
    requires room { at + unpadded_len (length tail.now) ≡ length out.old }
    ensures { out.new ≡ take at out.old ++ base64 tail.now }
{
    match *tail {
        [] => {}
        [a] => {
            let a = a as u32;
            put(out, at, &[letter(a / 4), letter(a % 4 * 16)]);
        }
        [a, b, ..] => {
            let (a, b) = (a as u32, b as u32);
            let letters = [
                letter(a / 4),
                letter(a % 4 * 16 + b / 16),
                letter(b % 16 * 4),
            ];
            put(out, at, &letters);
        }
    }
}

/// Decodes a salt's base64 into a buffer of exactly its length, by tables.
pub fn read_salt(text: &[u8], salt: &mut [u8])
    requires item { IsSomeItem text.now }
    requires length { length salt.old ≡ 3 * length text.now / 4 }
    ensures { IsItem text.now salt.new }
{
    let Ok(_) = STANDARD_NO_PAD.decode_slice(text, salt) else {
        unreachable!();
    };
}

/// Decodes the base64 of a salt or a hash into a buffer of exactly its length, by sums.
pub fn read_item(text: &[u8], item: &mut [u8])
    requires item { IsSomeItem text.now }
    requires length { length item.old ≡ 3 * length text.now / 4 }
    ensures { IsItem text.now item.new }
{
    let mut at = 0;
    let mut rest = text;
    while rest.len() >= 4 {
        at = put(item, at, &three_bytes(&rest[..4]));
        rest = &rest[4..];
    }
    put_last_bytes(item, at, rest);
}

/// Puts the bytes of the characters after the last group of four at the end of a buffer.
fn put_last_bytes(out: &mut [u8], at: usize, tail: &[u8])
    requires few { length tail.now < 4 }
    requires room { at + 3 * length tail.now / 4 ≡ length out.old }
    ensures { out.new ≡ take at out.old ++ bytes_read tail.now }
{
    match *tail {
        [] | [_] => {}
        [a, b] => {
            put(out, at, &[((bits(a) * 4 + bits(b) / 16) % 256) as u8]);
        }
        [a, b, c, ..] => {
            let (a, b, c) = (bits(a), bits(b), bits(c));
            let bytes = [
                ((a * 4 + b / 16) % 256) as u8,
                ((b * 16 + c / 4) % 256) as u8,
            ];
            put(out, at, &bytes);
        }
    }
}
