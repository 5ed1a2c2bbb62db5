//! What our crates need of the language's own library, under its names.
//!
//! Code reachable from C's calls uses these functions, so that the C library contains no code of
//! the language's library, which comes without a licence (docs/DECISIONS.md).

ghost use Rattle.std.specs.Prelude.{◌≡◌, ◌≢◌, ◌%◌, length, min, replicate};
ghost use Rattle.std.specs.Bool.{MatchBool};
ghost use Rattle.std.specs.Int.{w32, w64, from_le_bytes, to_le_bytes};

/// The lesser of two numbers.
pub fn min(one: usize, other: usize) -> usize
    ensures { result ≡ min one other }
{
    if other < one { other } else { one }
}

/// The lowest byte of a word.
fn low_byte(word: u64) -> u8
    ensures { result ≡ word % 256 }
{
    (word % 256) as u8
}

/// The bytes of a number, the lowest first.
pub fn u32_to_le_bytes(number: u32) -> [u8; 4]
    ensures { result ≡ to_le_bytes w32 number }
{
    let value = number as u64;
    [
        low_byte(value),
        low_byte(value >> 8),
        low_byte(value >> 16),
        low_byte(value >> 24),
    ]
}

/// The bytes of a word, the lowest first.
pub fn u64_to_le_bytes(word: u64) -> [u8; 8]
    ensures { result ≡ to_le_bytes w64 word }
{
    [
        low_byte(word),
        low_byte(word >> 8),
        low_byte(word >> 16),
        low_byte(word >> 24),
        low_byte(word >> 32),
        low_byte(word >> 40),
        low_byte(word >> 48),
        low_byte(word >> 56),
    ]
}

/// The word of eight bytes, the lowest first.
pub fn u64_from_le_bytes(bytes: [u8; 8]) -> u64
    ensures { result ≡ from_le_bytes w64 bytes }
{
    let [a, b, c, d, e, f, g, h] = bytes;
    let low = a as u64 + b as u64 * 0x100 + c as u64 * 0x1_0000 + d as u64 * 0x100_0000;
    let high = e as u64 + f as u64 * 0x100 + g as u64 * 0x1_0000 + h as u64 * 0x100_0000;
    low + high * 0x1_0000_0000
}

/// Copies the elements of a slice of the same length.
pub fn copy_from_slice<T: Copy>(to: &mut [T], from: &[T])
    requires { length to.old ≡ length from.now }
    ensures len { length to.new ≡ length to.old }
    ensures after { to.new ≡ from.now }
{
    for i in 0..to.len() {
        to[i] = from[i];
    }
}

/// Sets all elements to a value.
pub fn fill<T: Copy>(items: &mut [T], value: T)
    ensures len { length items.new ≡ length items.old }
    ensures after { items.new ≡ replicate (length items.old) value }
{
    for i in 0..items.len() {
        items[i] = value;
    }
}

/// Whether two byte strings are the same. It may stop at the first difference, so it is not for
/// secrets.
pub fn eq(one: &[u8], other: &[u8]) -> bool
    ensures { MatchBool result (one.now ≡ other.now) (one.now ≢ other.now) }
{
    if one.len() != other.len() {
        return false;
    }
    for at in 0..other.len() {
        if one[at] != other[at] {
            return false;
        }
    }
    true
}
