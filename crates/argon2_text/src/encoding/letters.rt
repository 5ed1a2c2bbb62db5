//! Base64 by sums, character by character.
//!
//! Caches show which entry of a table was read, and times show which way a branch went. So no
//! branch here depends on a character or a byte. The faults of all characters are gathered and
//! returned once, at the end.

ghost use Rattle.std.specs.Prelude.{◌≡◌, ◌<◌, ◌↔◌, ◌*◌, ◌/◌, ℕ, IsTrue, List, length, ◌≤◌};
ghost use Rattle.argon2_standard.specs.Standard.Grammar.{IsItem};
ghost use Rattle.argon2_standard.specs.Standard.Text.{base64};
ghost use Rattle.argon2_text.specs.Views.Faults.{IsSomeItem};
ghost use Rattle.argon2_text.specs.Views.Letters.{bits_of, bytes_read, fault_of, faults_of, letter_of, reaches};

/// Whether a string is the unpadded base64 of some bytes. It goes on to the last character, and
/// allocates nothing, so that invalid base64 is found even without memory.
pub fn is_item(text: &[u8]) -> bool
    ensures { IsTrue result ↔ IsSomeItem text.now }
{
    // As wide as a length, since each character may have a fault.
    let mut faults: usize = 0;
    let mut rest = text;
    while rest.len() >= 4 {
        faults += group_faults(&rest[..4]) as usize;
        rest = &rest[4..];
    }
    // `&` and not `&&`, so that one branch decides for all characters.
    (faults == 0) & (tail_faults(rest) == 0)
}

/// The faults of the characters behind the last group of four. Leftover bits have to be 0, so that
/// bytes have one encoding alone (RFC 4648, 3.5).
fn tail_faults(tail: &[u8]) -> u32
    requires { length tail.now < 4 }
    ensures { result ≡ faults_of tail.now }
{
    match *tail {
        [] => 0,
        [_] => 1,
        [a, b] => fault(a) + fault(b) + bits(b) % 16,
        [a, b, c, ..] => fault(a) + fault(b) + fault(c) + bits(c) % 4,
    }
}

/// How many bytes an unpadded base64 string encodes. It decodes none, so that lengths can be
/// checked before memory is allocated.
#[tactic(auto, using(crate::proofs::Writing::lengths))]
pub fn item_len(text: &[u8]) -> u64
    ensures value { result ≡ 3 * length text.now / 4 }
    ensures exact { (bytes : List ℕ) → IsItem text.now bytes → result ≡ length bytes }
{
    let len = text.len() as u64;
    // By parts, since three times a length may not fit 64 bits.
    3 * (len / 4) + 3 * (len % 4) / 4
}

/// 1 where a byte is not below a bound, else 0. It is a sum, since compilers turn comparisons into
/// jumps.
fn reaches(byte: u32, bound: u32) -> u32
    requires { (byte < 256) × (bound ≤ 256) }
    ensures { result ≡ reaches byte bound }
{
    (byte + 256 - bound) / 256
}

/// The character of six bits. A table would show its index in the cache.
pub fn letter(bits: u32) -> u8
    requires { bits < 64 }
    ensures { result ≡ letter_of bits }
{
    // `A` from 0 on, `a` from 26, `0` from 52, `+` at 62 and `/` at 63. What is added comes first,
    // so that no difference is below 0.
    let ahead = 65 + bits + 6 * reaches(bits, 26) + 3 * reaches(bits, 63);
    (ahead - 75 * reaches(bits, 52) - 15 * reaches(bits, 62)) as u8
}

/// The six bits of a base64 character, and some number for any other byte. `fault` tells them
/// apart, since a branch here would look at a character.
pub fn bits(letter: u8) -> u32
    ensures { result ≡ bits_of letter }
{
    let letter = letter as u32;
    // The same ranges in the order of bytes: `+`, `/`, digits, capitals, small letters.
    let ahead = letter + 19 - 3 * reaches(letter, 47) - 12 * reaches(letter, 48);
    ahead - 69 * reaches(letter, 65) - 6 * reaches(letter, 97)
}

/// 0 for a base64 character, and 1 for any other byte.
fn fault(letter: u8) -> u32
    ensures value { result ≡ fault_of letter }
    ensures few { result ≤ 1 }
{
    let letter = letter as u32;
    // Within a range of base64 characters, one more range has begun than has ended.
    let behind = reaches(letter, 44)
        + reaches(letter, 58)
        + reaches(letter, 91)
        + reaches(letter, 123);
    let begun = reaches(letter, 43)
        + reaches(letter, 47)
        + reaches(letter, 65)
        + reaches(letter, 97);
    1 + behind - begun
}

/// How many of four characters are not base64. It goes on to the last character.
#[tactic(auto, using(crate::proofs::Letters::group_faults))]
fn group_faults(group: &[u8]) -> u32
    requires { length group.now ≡ 4 }
    ensures value { result ≡ faults_of group.now }
    ensures few { result ≤ 4 }
{
    fault(group[0]) + fault(group[1]) + fault(group[2]) + fault(group[3])
}

/// The three bytes of four characters.
///
/// It is never inlined. In a function that calls no other, LLVM keeps values below the stack
/// pointer, where Windows may overwrite them. So each function that decodes calls this one. This
/// function calls no other, but the registers have room for its values.
#[inline(never)]
#[tactic(auto, using(crate::proofs::Letters::placed), unfolding(crate::specs::Views::Letters::bytes_read))]
pub fn three_bytes(group: &[u8]) -> [u8; 3]
    requires { length group.now ≡ 4 }
    ensures { result ≡ bytes_read group.now }
{
    let (a, b) = (bits(group[0]), bits(group[1]));
    let (c, d) = (bits(group[2]), bits(group[3]));
    [
        ((a * 4 + b / 16) % 256) as u8,
        ((b * 16 + c / 4) % 256) as u8,
        ((c * 64 + d) % 256) as u8,
    ]
}

/// The four characters of three bytes.
#[tactic(auto, using(crate::proofs::Letters::three_written))]
pub fn four_letters(group: &[u8]) -> [u8; 4]
    requires { length group.now ≡ 3 }
    ensures { result ≡ base64 group.now }
{
    let (a, b) = (group[0] as u32, group[1] as u32);
    let c = group[2] as u32;
    [
        letter(a / 4),
        letter(a % 4 * 16 + b / 16),
        letter(b % 16 * 4 + c / 64),
        letter(c % 64),
    ]
}
