//! What may go wrong, and how the program ends then.

ghost use Rattle.std.specs.Prelude.{◌≡◌, ◌≢◌, OnOk};
ghost use Rattle.std.specs.IoError.{error_kind};
ghost use Rattle.std.specs.Io.KnownBytes.{Appends};
ghost use Rattle.argon2_standard.specs.declared.error.Error.TheVariants.{OutOfMemory};
ghost use Rattle.argon2_commands.specs.Fault.{fault_status, line_of};
ghost use Rattle.argon2_commands.specs.declared.fault.Fault.TheVariants.{Refused};

use argon2::Error;
use std::alloc::{AllocError, AllocFailed};
use std::io;
use std::io::{ErrorKind, Write};

/// Why the program has no result, or could not write it.
#[derive(Debug, Drop, PartialEq)]
pub enum Fault {
    /// The arguments are those of no command.
    Usage,

    /// The password could not be read.
    Input,

    /// The call returned this error, or memory was denied before there was a result.
    Refused(Error),

    /// The result could not be written.
    Output,

    /// The output lacked memory to take all of the result. It is not `Refused`, since some of the
    /// result may be written.
    OutputShort,
}

impl Fault {
    /// The fault of a stream that failed: `short` for lack of memory, `other` for anything else.
    pub fn of_stream(error: &io::Error, short: Fault, other: Fault) -> Fault
        ensures short { error_kind error.now ≡ ErrorKind.OutOfMemory → result ≡ short }
        ensures other { error_kind error.now ≢ ErrorKind.OutOfMemory → result ≡ other }
    {
        match error.kind() {
            ErrorKind::OutOfMemory => short,
            _ => other,
        }
    }

    /// The exit status: 2 for an error of the call and for lack of memory, 3 for wrong arguments, 4
    /// where a stream failed for another reason.
    pub fn status(&self) -> u8
        ensures { result ≡ fault_status self.now }
    {
        match *self {
            Fault::Refused(_) | Fault::OutputShort => 2,
            Fault::Usage => 3,
            Fault::Input | Fault::Output => 4,
        }
    }

    /// Writes the fault's line, if it has one, and returns the exit status, which does not depend
    /// on whether the line could be written.
    pub fn report<W: Write>(&self, errors: &mut W) -> u8
        ensures { result ≡ fault_status self.now }
    {
        let _ = self.write_line(errors);
        self.status()
    }

    /// Writes the fault's line, if it has one.
    fn write_line<W: Write>(&self, errors: &mut W) -> io::Result<()>
        ensures { OnOk result (Appends (W.contents errors.old) (W.contents errors.new)
            (line_of self.now)) }
    {
        match self {
            Fault::Usage => errors.write_all(b"usage\n")?,
            Fault::Input => errors.write_all(b"input\n")?,
            Fault::Refused(error) => writeln!(errors, "{error}")?,
            Fault::OutputShort => {
                let error = Error::OutOfMemory;
                writeln!(errors, "{error}")?;
            }
            Fault::Output => {}
        }
        errors.flush()
    }
}

impl From<Error> for Fault {
    ghost from_gives = { λ error fault. fault ≡ Refused error };

    fn from(error: Error) -> Fault {
        Fault::Refused(error)
    }
}

impl From<AllocError> for Fault {
    ghost from_gives = { λ _ fault. fault ≡ Refused OutOfMemory };

    fn from(_error: AllocError) -> Fault {
        Fault::Refused(Error::OutOfMemory)
    }
}

impl<T: Drop> From<AllocFailed<T>> for Fault {
    ghost from_gives = { λ _ fault. fault ≡ Refused OutOfMemory };

    fn from(_error: AllocFailed<T>) -> Fault {
        Fault::Refused(Error::OutOfMemory)
    }
}
