//! The pieces of an encoded hash, cut and decoded from left to right. Nothing here allocates.

ghost use Rattle.std.specs.Prelude.{◌≡◌, ◌≢◌, ◌<◌, ◌^◌, ℕ, List, MatchOption, length, option_map, slice_index};
ghost use Rattle.std.specs.Str.Parse.{IsNumeral, digits_value};
ghost use Rattle.argon2_text.specs.Views.Cutting.{cut, piece, pieces_of, strip, version_piece};
ghost use Rattle.argon2_text.specs.Views.Faults.{HasSplit, IsNoNumber, IsNoVersion};
ghost use Rattle.argon2_standard.specs.Standard.Grammar.{IsNumber, IsVersion, SpellsNothing};
ghost use Rattle.argon2_text.specs.Views.Texts.{IsHeadOf, IsSpellingOf, pieces_view, two_texts, version_and_rest, version_text_of};
ghost use Rattle.argon2_standard.specs.Standard.Variant.{IsName};
ghost use Rattle.argon2_standard.specs.Views.Names.{IsNoName};

use crate::encoding::letters::{is_item, item_len};
use crate::numbers::Numbers;
use argon2_standard::variant::Variant;
use argon2_standard::version::Version;

/// The greatest number of a piece.
const MAX_NUMBER: u64 = 0xFFFF_FFFF;

/// The pieces of an encoded hash, not decoded.
#[derive(Clone, Copy)]
struct Pieces<'a> {
    name: &'a [u8],
    version: Option<&'a [u8]>,
    memory: &'a [u8],
    time: &'a [u8],
    lanes: &'a [u8],
    salt: &'a [u8],
    hash: &'a [u8],
}

/// The decoded values of an encoded hash, with its salt and its hash still in base64.
#[derive(Clone, Copy)]
pub struct Head<'a> {
    /// The variant.
    pub variant: Variant,

    /// The version. A string that names none means version 0x10.
    pub version: Version,

    /// The memory in KiB.
    pub mem_cost: u32,

    /// The number of passes.
    pub time_cost: u32,

    /// The number of lanes.
    pub parallelism: u32,

    /// The base64 of the salt.
    pub salt: &'a [u8],

    /// The base64 of the hash.
    pub hash: &'a [u8],
}

impl Head<'_> {
    ghost use Rattle.argon2_standard.specs.Standard.Grammar.{IsItem};
    ghost use Rattle.argon2_text.specs.Views.Texts.{numbers_of, spelled_with};

    /// The head with the lengths of its salt and its hash, if these are base64. It decodes neither.
    pub fn numbers(&self) -> Numbers
        ensures { (salt hash : List ℕ) → IsItem self.now.salt.now salt
            → IsItem self.now.hash.now hash
            → result ≡ numbers_of (spelled_with self.now salt hash) }
    {
        Numbers {
            variant: self.variant,
            version: self.version,
            mem_cost: self.mem_cost,
            time_cost: self.time_cost,
            parallelism: self.parallelism,
            salt_len: item_len(self.salt),
            hash_len: item_len(self.hash),
        }
    }
}

/// The head of a string that decodes to a hash. It allocates nothing.
pub fn spelling_of(text: &[u8]) -> Option<Head<'_>>
    ensures { MatchOption result (SpellsNothing text.now) (IsSpellingOf text.now) }
{
    let Some(head) = head_of(text) else {
        return None;
    };
    // `&&` skips the hash where the salt is not base64, since no salt is a secret.
    if is_item(head.salt) && is_item(head.hash) {
        Some(head)
    } else {
        None
    }
}

/// The head of a string that has all its pieces, if those before the salt decode.
fn head_of(text: &[u8]) -> Option<Head<'_>>
    ensures { MatchOption result (HasSplit text.now → ⊥) (IsHeadOf text.now) }
{
    let Some(pieces) = pieces_of(text) else {
        return None;
    };
    let Some(version) = version_of(pieces.version) else {
        return None;
    };
    let Some(variant) = Variant::from_name(pieces.name) else {
        return None;
    };
    let Some(mem_cost) = number(pieces.memory) else {
        return None;
    };
    let Some(time_cost) = number(pieces.time) else {
        return None;
    };
    let Some(parallelism) = number(pieces.lanes) else {
        return None;
    };
    Some(Head {
        variant,
        version,
        mem_cost,
        time_cost,
        parallelism,
        salt: pieces.salt,
        hash: pieces.hash,
    })
}

/// The pieces of a string, if it has them; the version is optional. The hash is all that is left:
/// no byte of it is looked at here.
#[tactic(auto, unfolding(crate::specs::Views::Cutting::pieces_of))]
fn pieces_of(text: &[u8]) -> Option<Pieces<'_>>
    ensures { option_map pieces_view result ≡ pieces_of text.now }
{
    let Some((name, rest)) = piece(text, b"$", b'$') else {
        return None;
    };
    let Some((version, rest)) = version_piece(rest) else {
        return None;
    };
    let Some((memory, rest)) = piece(rest, b"m=", b',') else {
        return None;
    };
    let Some((time, rest)) = piece(rest, b"t=", b',') else {
        return None;
    };
    let Some((lanes, rest)) = piece(rest, b"p=", b'$') else {
        return None;
    };
    let Some((salt, hash)) = cut(rest, b'$') else {
        return None;
    };
    Some(Pieces {
        name,
        version,
        memory,
        time,
        lanes,
        salt,
        hash,
    })
}

/// The piece between `front` and the first `mark` after it, and what is after the mark.
#[tactic(auto, unfolding(crate::specs::Views::Cutting::piece))]
fn piece<'a>(text: &'a [u8], front: &[u8], mark: u8) -> Option<(&'a [u8], &'a [u8])>
    ensures { option_map two_texts result ≡ piece front.now mark text.now }
{
    match strip(text, front) {
        Some(rest) => cut(rest, mark),
        None => None,
    }
}

/// The version up to its `$`, if the string begins with `v=`, and what is after the `$`.
#[tactic(auto, unfolding(crate::specs::Views::Cutting::version_piece))]
fn version_piece(text: &[u8]) -> Option<(Option<&[u8]>, &[u8])>
    ensures { option_map version_and_rest result ≡ version_piece text.now }
{
    let Some(rest) = strip(text, b"v=") else {
        return Some((None, text));
    };
    let Some((version, rest)) = cut(rest, b'$') else {
        return None;
    };
    Some((Some(version), rest))
}

/// What is after `front`.
fn strip<'a>(text: &'a [u8], front: &[u8]) -> Option<&'a [u8]>
    ensures { option_map (λ x. x.now) result ≡ strip front.now text.now }
{
    if text.len() < front.len() {
        return None;
    }
    for at in 0..front.len() {
        if text[at] != front[at] {
            return None;
        }
    }
    Some(&text[front.len()..])
}

/// What is before the first `mark`, and what is after it. It looks at no byte behind the mark; a
/// search of many bytes at a time would.
fn cut(text: &[u8], mark: u8) -> Option<(&[u8], &[u8])>
    ensures { option_map two_texts result ≡ cut mark text.now }
{
    for at in 0..text.len() {
        if text[at] == mark {
            return Some((&text[..at], &text[at + 1..]));
        }
    }
    None
}

/// The version that a piece names; version 0x10 if there is no piece.
fn version_of(piece: Option<&[u8]>) -> Option<Version>
    ensures { let text = version_text_of piece.entry in
        MatchOption result (IsNoVersion text) (IsVersion text) }
{
    match piece {
        None => Some(Version::Version10),
        Some(text) => Version::from_digits(text),
    }
}

/// The number that a piece names: a plus or nothing, and decimal digits.
fn number(text: &[u8]) -> Option<u32>
    ensures { MatchOption result (IsNoNumber text.now) (IsNumber text.now) }
{
    if text.len() > 0 && text[0] == b'+' {
        return digits(&text[1..]);
    }
    digits(text)
}

/// The value of one or more decimal digits, if it fits 32 bits.
fn digits(bytes: &[u8]) -> Option<u32>
    ensures { MatchOption result
        (IsNumeral 10 bytes.now → digits_value 10 bytes.now < 2 ^ 32 → ⊥)
        (λ n. IsNumeral 10 bytes.now × (digits_value 10 bytes.now ≡ n) × (n < 2 ^ 32)) }
{
    if bytes.len() == 0 {
        return None;
    }
    let mut number: u32 = 0;
    let mut rest = bytes;
    while rest.len() > 0 {
        let digit = rest[0];
        if digit < b'0' || digit > b'9' {
            return None;
        }
        let longer = number as u64 * 10 + (digit - b'0') as u64;
        if longer > MAX_NUMBER {
            return None;
        }
        number = longer as u32;
        rest = &rest[1..];
    }
    Some(number)
}
