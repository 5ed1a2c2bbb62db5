//! An encoded hash as C passes it.

ghost use Rattle.std.specs.Prelude.{◌≡◌, MatchResult, bit_or};
ghost use Rattle.std.specs.List.{fold};
ghost use Rattle.argon2_c.specs.Reading.{HasHead, HasNone};

use crate::errors::CallError;
use argon2::Error;
use argon2_text::encoding::{Head, spelling_of};

/// The least byte that is not ASCII.
const FIRST_NOT_ASCII: u8 = 128;

/// The head of an encoded hash. Bytes that are not all ASCII are `NotAscii`, and a string that
/// decodes to no hash is `DecodingFail`.
pub fn head_of(bytes: &[u8]) -> Result<Head<'_>, CallError>
    ensures { MatchResult result (HasHead bytes.now) (HasNone bytes.now) }
{
    if all_bits(bytes) >= FIRST_NOT_ASCII {
        return Err(CallError::NotAscii);
    }
    match spelling_of(bytes) {
        Some(head) => Ok(head),
        None => Err(CallError::Library(Error::DecodingFail)),
    }
}

/// All bytes, combined by OR. One comparison decides for all, so that no branch depends on a single
/// character of the hash.
fn all_bits(bytes: &[u8]) -> u8
    ensures { result ≡ fold (λ bits byte. bit_or bits byte) 0 bytes.now }
{
    let mut bits = 0;
    for at in 0..bytes.len() {
        bits |= bytes[at];
    }
    bits
}
