//! The errors of the C calls and their numbers.

ghost use Rattle.std.specs.Prelude.{◌≡◌};
ghost use Rattle.argon2_standard.specs.declared.error.Error.{Error};
ghost use Rattle.argon2_c.specs.Answers.{judgement_of};
ghost use Rattle.argon2_c.specs.ErrorTable.{library_number, number_of, code_of};
ghost use Rattle.argon2_c.specs.declared.errors.CallError.{CallError};

use argon2::Error;

/// Why a C call failed.
#[derive(Debug, Drop, PartialEq)]
pub enum CallError {
    /// The library returned this error.
    Library(Error),

    /// The password, the secret or the associated data is not the one of the hash.
    Mismatch,

    /// A buffer, a tag or a hash has the wrong length, or the buffer for an encoded hash has no
    /// room for the zero behind it.
    WrongLength,

    /// The string is not ASCII.
    NotAscii,

    /// No call returns this. The C driver uses its message for a number that no error has.
    UnknownNumber,

    /// The encoded hash was made with other settings.
    NeedsRehash,

    /// The encoded hash exceeds a limit.
    TooCostly,

    /// The numbers are those of no job.
    NoJob,

    /// The job has no such pass, slice or lane.
    NoPlace,

    /// There are more or fewer blocks than the memory, the slice or the segment has.
    WrongBlocks,
}

/// The number of an error of the library: its place among them, counted from 1. Each number is
/// written as a literal and never changes, since C programs are compiled with the numbers.
fn library_number(error: &Error) -> u32
    ensures { result ≡ library_number error.now }
{
    match *error {
        // numbers, by .ci/pages/presets
        Error::OutputTooShort => 1,
        Error::OutputTooLong => 2,
        Error::PwdTooShort => 3,
        Error::PwdTooLong => 4,
        Error::SaltTooShort => 5,
        Error::SaltTooLong => 6,
        Error::AdTooShort => 7,
        Error::AdTooLong => 8,
        Error::SecretTooShort => 9,
        Error::SecretTooLong => 10,
        Error::TimeTooSmall => 11,
        Error::TimeTooLarge => 12,
        Error::MemoryTooLittle => 13,
        Error::MemoryTooMuch => 14,
        Error::LanesTooFew => 15,
        Error::LanesTooMany => 16,
        Error::IncorrectType => 17,
        Error::IncorrectVersion => 18,
        Error::DecodingFail => 19,
        Error::OutOfMemory => 20,
        Error::WorkerRefused => 21,
        // end
    }
}

impl CallError {
    /// The number of the error, as C sees it.
    pub fn number(&self) -> u32
        ensures { result ≡ number_of self.now }
    {
        match self {
            CallError::Library(error) => library_number(error),
            // numbers of C, by .ci/pages/presets
            CallError::Mismatch => 64,
            CallError::WrongLength => 65,
            CallError::NotAscii => 66,
            CallError::UnknownNumber => 67,
            CallError::NeedsRehash => 68,
            CallError::TooCostly => 69,
            CallError::NoJob => 70,
            CallError::NoPlace => 71,
            CallError::WrongBlocks => 72,
            // end
        }
    }
}

/// What a call returns to C: 0, or the number of the error.
pub fn code_of(answer: &Result<(), CallError>) -> u32
    ensures { result ≡ code_of answer.now }
{
    match answer {
        Ok(()) => 0,
        Err(error) => error.number(),
    }
}

/// What a verifying call returns to C. The number is computed from the verdict, so that no branch
/// and no table index depends on the verdict.
pub fn code_of_verdict(verdict: &Result<bool, CallError>) -> u32
    ensures { result ≡ code_of (judgement_of verdict.now) }
{
    match verdict {
        Ok(matches) => 64 - 64 * *matches as u32,
        Err(other) => other.number(),
    }
}
