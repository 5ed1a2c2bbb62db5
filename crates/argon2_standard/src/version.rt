//! The versions of Argon2 and their numbers.

ghost use Rattle.std.specs.Prelude.{◌≡◌, MatchOption, MatchResult, Some};
ghost use Rattle.std.specs.Fmt.{decimal};
ghost use Rattle.argon2_standard.specs.Views.Names.{IsNoVersionNumber, IsNoVersionText};
ghost use Rattle.argon2_standard.specs.Standard.Version.{version_number, version_text};
ghost use Rattle.argon2_standard.specs.declared.version.Version.{Version};

use crate::error::Error;
use crate::result::Result;
use argon2_blocks::basics::eq;
use std::fmt;

/// The version of Argon2. Versions are ordered by their numbers.
#[derive(Clone, Copy, Debug, Eq, PartialEq, PartialOrd, Ord)]
pub enum Version {
    /// Version 0x10: a later pass writes over the blocks of the pass before.
    Version10 = 0x10,

    /// Version 0x13, that of RFC 9106: a later pass combines its blocks with those of the pass
    /// before. The one to choose.
    Version13 = 0x13,
}

impl Version {
    /// The number: 16 or 19.
    pub fn as_u32(&self) -> u32
        ensures { result ≡ version_number self.now }
    {
        *self as u32
    }

    /// The version of the string `16` or `19`. Any other string is `DecodingFail`.
    #[tactic(auto, using(crate::proofs::Versions::version_in_digits))]
    pub fn from_str(number: &str) -> Result<Version>
        ensures read { MatchResult result (λ version. number.now ≡ version_text version)
            (λ e. (e ≡ Error.DecodingFail) × IsNoVersionText number.now) }
        ensures undoes { (version : Version) → number.now ≡ version_text version
            → result ≡ Ok version }
        ensures printed { (version : Version) → number.now ≡ decimal (version_number version)
            → result ≡ Ok version }
    {
        match Version::from_digits(number.as_bytes()) {
            Some(version) => Ok(version),
            None => Err(Error::DecodingFail),
        }
    }

    /// The version of a number in decimal digits, as `from_str` reads it.
    #[tactic(auto, using(crate::proofs::Versions::version_in_digits))]
    pub fn from_digits(number: &[u8]) -> Option<Version>
        ensures read { MatchOption result (IsNoVersionText number.now)
            (λ version. number.now ≡ version_text version) }
        ensures undoes { (version : Version) → number.now ≡ version_text version
            → result ≡ Some version }
    {
        if eq(number, b"16") {
            return Some(Version::Version10);
        }
        if eq(number, b"19") {
            return Some(Version::Version13);
        }
        None
    }

    /// The version of the number 16 or 19. Any other number is `IncorrectVersion`.
    pub fn from_u32(number: u32) -> Result<Version>
        ensures read { MatchResult result (λ version. version_number version ≡ number)
            (λ e. (e ≡ Error.IncorrectVersion) × IsNoVersionNumber number) }
        ensures undoes { (version : Version) → version_number version ≡ number
            → result ≡ Ok version }
    {
        match number {
            0x10 => Ok(Version::Version10),
            0x13 => Ok(Version::Version13),
            _ => Err(Error::IncorrectVersion),
        }
    }
}

impl Default for Version {
    ghost use Rattle.argon2_standard.specs.declared.version.Version.TheVariants.{Version13};

    ghost is_default = { λ version. version ≡ Version13 };

    fn default() -> Version {
        Version::Version13
    }
}

/// The decimal number, since `encode_string` writes it so.
impl fmt::Display for Version {
    ghost output = { λ version. Some (decimal (version_number version)) };

    fn fmt<W: fmt::Write>(&self, f: &mut fmt::Formatter<W>) -> fmt::Result {
        write!(f, "{}", self.as_u32())
    }
}
