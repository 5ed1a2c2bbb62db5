//! The errors of the crate's calls, and their messages.

ghost use Rattle.std.specs.Prelude.{◌≡◌, Some};
ghost use Rattle.argon2_standard.specs.Views.Messages.{message_of};
ghost use Rattle.argon2_standard.specs.declared.error.Error.TheVariants.{DecodingFail, OutOfMemory};

use base64::DecodeError;
use serde::{Deserialize, Serialize};
use std::alloc::{AllocError, AllocFailed};
use std::fmt;

/// Why a call failed. The cases that are never returned are those of rust-argon2, for programs that
/// name them.
#[derive(Clone, Debug, Drop, PartialEq, Serialize, Deserialize)]
#[serde(rename_all = "snake_case")]
pub enum Error {
    /// The length of the hash is below 4 bytes.
    OutputTooShort,

    /// The length of the hash is above 2^32 - 1 bytes.
    OutputTooLong,

    /// Never returned: a password may be empty.
    PwdTooShort,

    /// The password is longer than 2^32 - 1 bytes.
    PwdTooLong,

    /// The salt is shorter than 8 bytes.
    SaltTooShort,

    /// The salt is longer than 2^32 - 1 bytes.
    SaltTooLong,

    /// Never returned: associated data may be empty.
    AdTooShort,

    /// The associated data is longer than 2^32 - 1 bytes.
    AdTooLong,

    /// Never returned: a secret may be empty.
    SecretTooShort,

    /// The secret is longer than 2^32 - 1 bytes.
    SecretTooLong,

    /// The number of passes is 0.
    TimeTooSmall,

    /// Never returned: no number of passes that a `u32` holds is too large.
    TimeTooLarge,

    /// The memory cost is below 8 KiB, or below 8 KiB a lane.
    MemoryTooLittle,

    /// Never returned: no memory cost that a `u32` holds is too large.
    MemoryTooMuch,

    /// The number of lanes is 0.
    LanesTooFew,

    /// The number of lanes is above 2^24 - 1.
    LanesTooMany,

    /// No variant has this number.
    IncorrectType,

    /// No version has this number.
    IncorrectVersion,

    /// The string decodes to no hash, no variant or no version.
    DecodingFail,

    /// An allocation failed.
    OutOfMemory,

    /// A worker thread could not be started, or a lane was never filled.
    WorkerRefused,
}

impl Error {
    /// The message of the error.
    pub fn message(&self) -> &'static str
        ensures { result.now ≡ message_of self.now }
    {
        match *self {
            // messages, by .ci/pages/presets
            Error::OutputTooShort => "Output is too short",
            Error::OutputTooLong => "Output is too long",
            Error::PwdTooShort => "Password is too short",
            Error::PwdTooLong => "Password is too long",
            Error::SaltTooShort => "Salt is too short",
            Error::SaltTooLong => "Salt is too long",
            Error::AdTooShort => "Associated data is too short",
            Error::AdTooLong => "Associated data is too long",
            Error::SecretTooShort => "Secret is too short",
            Error::SecretTooLong => "Secret is too long",
            Error::TimeTooSmall => "Time cost is too small",
            Error::TimeTooLarge => "Time cost is too large",
            Error::MemoryTooLittle => "Memory cost is too small",
            Error::MemoryTooMuch => "Memory cost is too large",
            Error::LanesTooFew => "Too few lanes",
            Error::LanesTooMany => "Too many lanes",
            Error::IncorrectType => "There is no such type of Argon2",
            Error::IncorrectVersion => "There is no such version of Argon2",
            Error::DecodingFail => "Decoding failed",
            Error::OutOfMemory => "Out of memory",
            Error::WorkerRefused => "A worker was refused",
            // end
        }
    }
}

impl fmt::Display for Error {
    ghost output = { λ error. Some (message_of error) };

    fn fmt<W: fmt::Write>(&self, f: &mut fmt::Formatter<W>) -> fmt::Result {
        f.write_str(self.message())
    }
}

impl std::error::Error for Error {}

impl From<AllocError> for Error {
    ghost from_gives = { λ _ error. error ≡ OutOfMemory };

    fn from(_error: AllocError) -> Error {
        Error::OutOfMemory
    }
}

impl<T: Drop> From<AllocFailed<T>> for Error {
    ghost from_gives = { λ _ error. error ≡ OutOfMemory };

    fn from(_error: AllocFailed<T>) -> Error {
        Error::OutOfMemory
    }
}

impl From<DecodeError> for Error {
    ghost from_gives = { λ _ error. error ≡ DecodingFail };

    fn from(_error: DecodeError) -> Error {
        Error::DecodingFail
    }
}
