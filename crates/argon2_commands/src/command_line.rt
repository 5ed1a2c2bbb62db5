//! The arguments that the program is started with.

ghost use Rattle.std.specs.Prelude.{◌≡◌, ◌⊎◌, ℕ, IfErr, IfOk, List, None, Option};
ghost use Rattle.argon2_standard.specs.declared.error.Error.TheVariants.{OutOfMemory};
ghost use Rattle.argon2_commands.specs.Words.{AreWords, HasNoText, IsArgument, texts_of};

use crate::fault::Fault;
use argon2::Error;
use std::alloc::Global;
use std::env::{Env, FillError};

/// What a program is started with. It is a trait, since the toolchain's `Env` promises nothing
/// about a process's arguments: the proofs cover any command line whose arguments are known.
pub trait CommandLine {
    /// The bytes of the arguments, the program's name first, where they are known.
    ghost arguments: { Self → Option (List (List ℕ)) } = { λ _. None };

    /// The bytes of the argument at an index, or None past the last.
    fn argument(&self, alloc: Global, index: usize) -> Result<Option<Vec<u8>>, Fault>
        ensures found { IfOk result (IsArgument (arguments self.now) index) }
        ensures fault { IfErr result (λ fault. fault ≡ Fault.Refused OutOfMemory) };
}

/// The command line of the process, whose arguments the toolchain does not know.
#[derive(Drop)]
pub struct OfProcess<'a, R>(pub &'a R);

impl<R: Env> CommandLine for OfProcess<'_, R> {
    /// Nothing says how long an argument is, so the room for it is doubled, from 256 bytes on,
    /// until it fits.
    fn argument(&self, alloc: Global, index: usize) -> Result<Option<Vec<u8>>, Fault> {
        for bits in 8..usize::BITS {
            let mut bytes = vec![in alloc; 0u8; 1usize << bits]?;
            match self.0.arg(index, bytes.as_mut_slice()) {
                Ok(length) => {
                    bytes.truncate(length);
                    return Ok(Some(bytes));
                }
                Err(FillError::NotPresent) => return Ok(None),
                Err(FillError::TooLong) => {}
            }
        }
        Err(Fault::Refused(Error::OutOfMemory))
    }
}

/// All arguments after the program's name, in their order. One that is not UTF-8 is a usage error:
/// `Fault::Usage`.
pub fn arguments<L: CommandLine>(line: &L, alloc: Global) -> Result<Vec<String>, Fault>
    ensures all { IfOk result (λ words. AreWords (L.arguments line.now) (texts_of words.items)) }
    ensures fault { IfErr result (λ fault. (fault ≡ Fault.Usage × HasNoText (L.arguments line.now))
        ⊎ (fault ≡ Fault.Refused OutOfMemory)) }
{
    let mut words = Vec::new(alloc);
    // The bound only shows the prover that the loop ends: memory cannot hold so many arguments.
    for index in 1..usize::MAX {
        let Some(bytes) = line.argument(alloc, index)? else {
            return Ok(words);
        };
        let Ok(word) = String::from_utf8(bytes) else {
            return Err(Fault::Usage);
        };
        words.push(word)?;
    }
    Err(Fault::Refused(Error::OutOfMemory))
}
