//! The variants of Argon2, their names and their numbers.

ghost use Rattle.std.specs.Prelude.{◌≡◌, MatchOption, MatchResult, Some};
ghost use Rattle.argon2_standard.specs.Standard.Variant.{IsName, lowercase_name, capitalised_name, variant_number};
ghost use Rattle.argon2_standard.specs.Views.Names.{IsNoName, IsNoVariantNumber};
ghost use Rattle.argon2_standard.specs.declared.variant.Variant.{Variant};

use crate::error::Error;
use crate::result::Result;
use argon2_blocks::basics::eq;
use std::fmt;

/// The variant of Argon2 (RFC 9106, 1 and 3.2): whether the contents of blocks decide which block a
/// new block refers to. Variants are ordered by their numbers.
#[derive(Clone, Copy, Debug, Eq, PartialEq, PartialOrd, Ord)]
pub enum Variant {
    /// References depend on the contents of blocks: for uses that side channels do not threaten.
    Argon2d = 0,

    /// References do not depend on the contents of blocks.
    Argon2i = 1,

    /// References do not depend on the contents of blocks in the first half of the first pass.
    /// After that they do. The variant to choose for passwords.
    Argon2id = 2,
}

impl Variant {
    /// The name in lower case, as it is written in an encoded hash.
    pub fn as_lowercase_str(&self) -> &'static str
        ensures { result.now ≡ lowercase_name self.now }
    {
        match *self {
            Variant::Argon2d => "argon2d",
            Variant::Argon2i => "argon2i",
            Variant::Argon2id => "argon2id",
        }
    }

    /// The name with a capital.
    pub fn as_uppercase_str(&self) -> &'static str
        ensures { result.now ≡ capitalised_name self.now }
    {
        match *self {
            Variant::Argon2d => "Argon2d",
            Variant::Argon2i => "Argon2i",
            Variant::Argon2id => "Argon2id",
        }
    }

    /// The number that is hashed for the variant: 0, 1 or 2 (RFC 9106, 3.2).
    pub fn as_u32(&self) -> u32
        ensures { result ≡ variant_number self.now }
    {
        *self as u32
    }

    /// The same number in 64 bits, for a word of an address block's input (RFC 9106, 3.4.1.2).
    pub fn as_u64(&self) -> u64
        ensures { result ≡ variant_number self.now }
    {
        *self as u64
    }

    /// The variant of one of its two names, in lower case or with a capital. Any other string is
    /// `DecodingFail`.
    pub fn from_str(name: &str) -> Result<Variant>
        ensures read { MatchResult result (IsName name.now) (λ e. (e ≡ Error.DecodingFail)
            × IsNoName name.now) }
        ensures undoes { (variant : Variant) → IsName name.now variant → result ≡ Ok variant }
    {
        match Variant::from_name(name.as_bytes()) {
            Some(variant) => Ok(variant),
            None => Err(Error::DecodingFail),
        }
    }

    /// The variant of a name in bytes, as `from_str` reads it.
    pub fn from_name(name: &[u8]) -> Option<Variant>
        ensures read { MatchOption result (IsNoName name.now) (IsName name.now) }
        ensures undoes { (variant : Variant) → IsName name.now variant → result ≡ Some variant }
    {
        if eq(name, b"argon2d") || eq(name, b"Argon2d") {
            return Some(Variant::Argon2d);
        }
        if eq(name, b"argon2i") || eq(name, b"Argon2i") {
            return Some(Variant::Argon2i);
        }
        if eq(name, b"argon2id") || eq(name, b"Argon2id") {
            return Some(Variant::Argon2id);
        }
        None
    }

    /// The variant of a number. A number above 2 is `IncorrectType`.
    pub fn from_u32(number: u32) -> Result<Variant>
        ensures read { MatchResult result (λ variant. variant_number variant ≡ number)
            (λ e. (e ≡ Error.IncorrectType) × IsNoVariantNumber number) }
        ensures undoes { (variant : Variant) → variant_number variant ≡ number
            → result ≡ Ok variant }
    {
        match number {
            0 => Ok(Variant::Argon2d),
            1 => Ok(Variant::Argon2i),
            2 => Ok(Variant::Argon2id),
            _ => Err(Error::IncorrectType),
        }
    }
}

impl Default for Variant {
    ghost use Rattle.argon2_standard.specs.declared.variant.Variant.TheVariants.{Argon2i};

    ghost is_default = { λ variant. variant ≡ Argon2i };

    /// Argon2i, as in rust-argon2, so that programs keep their tags. `Config::default` has
    /// Argon2id.
    fn default() -> Variant {
        Variant::Argon2i
    }
}

/// The name in lower case, since `encode_string` writes it so.
impl fmt::Display for Variant {
    ghost output = { λ variant. Some (lowercase_name variant) };

    fn fmt<W: fmt::Write>(&self, f: &mut fmt::Formatter<W>) -> fmt::Result {
        f.write_str(self.as_lowercase_str())
    }
}
