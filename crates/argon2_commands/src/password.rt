//! How a password is read from the input.

ghost use Rattle.std.specs.Prelude.{◌≡◌, ◌⊎◌, ◌+◌, IfErr, IfOk, IfSome, take};
ghost use Rattle.argon2_standard.specs.declared.error.Error.TheVariants.{OutOfMemory};
ghost use Rattle.argon2_standard.specs.Standard.SettingsTable.{max_length};
ghost use Rattle.argon2_commands.specs.Answer.{ReadsUpTo};

use crate::fault::Fault;
use argon2::Error;
use argon2::parts::common::MAX_PWD_LENGTH;
use std::alloc::Global;
use std::io;
use std::io::{ErrorKind, Read};

// What is read at a time, in bytes.
const PIECE: usize = 4096;

/// All of the input: a password may have any bytes, also a newline at its end. Reading stops after
/// the first byte that makes the password too long for every call. The call then rejects the bytes
/// that were read, because they are too long.
pub(crate) fn read_password<I: Read>(alloc: Global, input: &mut I) -> Result<Vec<u8>, Fault>
    ensures bytes { IfOk result (λ password. IfSome (I.remaining input.old) (λ bytes.
        password.items ≡ take (max_length + 1) bytes)) }
    ensures fault { IfErr result (λ fault. (fault ≡ Fault.Input)
        ⊎ (fault ≡ Fault.Refused OutOfMemory)) }
    ensures stops { ReadsUpTo (max_length + 1) (I.remaining input.old) (I.remaining input.new) }
{
    read_up_to(alloc, input, MAX_PWD_LENGTH as usize + 1)
}

/// Reads the input up to `most` bytes, or to its end. A reader's lack of memory is reported
/// separately: it is a resource error, not a fault of the input.
fn read_up_to<I: Read>(alloc: Global, input: &mut I, most: usize) -> Result<Vec<u8>, Fault>
    ensures bytes { IfOk result (λ password. IfSome (I.remaining input.old) (λ bytes.
        password.items ≡ take most bytes)) }
    ensures fault { IfErr result (λ fault. (fault ≡ Fault.Input)
        ⊎ (fault ≡ Fault.Refused OutOfMemory)) }
    ensures stops { ReadsUpTo most (I.remaining input.old) (I.remaining input.new) }
{
    let mut password = Vec::new(alloc);
    let mut piece = [0u8; PIECE];
    // The bound only shows the prover that the loop ends: memory cannot hold so many pieces.
    for _ in 0..u64::MAX {
        let room = piece.len().min(most - password.len());
        if room == 0 {
            return Ok(password);
        }
        match input.read(&mut piece[..room]) {
            Ok(0) => return Ok(password),
            Ok(count) => password.extend_from_slice(&piece[..count])?,
            Err(error) => fault_of_read(&error)?,
        }
    }
    Err(Fault::Input)
}

/// The fault of a failed read. A read that a signal interrupted is repeated.
fn fault_of_read(error: &io::Error) -> Result<(), Fault>
    ensures { IfErr result (λ fault. (fault ≡ Fault.Input) ⊎ (fault ≡ Fault.Refused OutOfMemory)) }
{
    if error.kind() == ErrorKind::Interrupted {
        return Ok(());
    }
    Err(Fault::of_stream(error, Fault::Refused(Error::OutOfMemory), Fault::Input))
}
