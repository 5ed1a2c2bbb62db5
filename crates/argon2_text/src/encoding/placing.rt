//! Bytes that are put into a caller-provided buffer, each piece behind the one before it.

ghost use Rattle.std.specs.Prelude.{◌≡◌, ◌+◌, ◌++◌, ◌≤◌, length, take};
ghost use Rattle.std.specs.Fmt.{decimal};

use argon2_blocks::basics::copy_from_slice;

/// Puts bytes behind the first `at` of a buffer. Returns where they end.
pub fn put(out: &mut [u8], at: usize, bytes: &[u8]) -> usize
    requires { at + length bytes.now ≤ length out.old }
    ensures end { result ≡ at + length bytes.now }
    ensures front { take result out.new ≡ take at out.old ++ bytes.now }
    ensures len { length out.new ≡ length out.old }
{
    let end = at + bytes.len();
    copy_from_slice(&mut out[at..end], bytes);
    end
}

/// Puts the plain decimal of a number behind the first `at` bytes. Returns where it ends.
pub fn put_number(out: &mut [u8], at: usize, number: u32) -> usize
    requires { at + length (decimal number) ≤ length out.old }
    ensures end { result ≡ at + length (decimal number) }
    ensures front { take result out.new ≡ take at out.old ++ decimal number }
    ensures len { length out.new ≡ length out.old }
{
    if number < 10 {
        return put(out, at, &[b'0' + number as u8]);
    }
    let at = put_number(out, at, number / 10);
    put(out, at, &[b'0' + (number % 10) as u8])
}
