//! The stages of a run: the command of the arguments, its answer, and the output.

ghost use Rattle.std.specs.Prelude.{◌≡◌, ◌↔◌, IfErr, IfOk, MatchResult, OnOk};
ghost use Rattle.std.specs.Io.KnownBytes.{Appends, Keeps};
ghost use Rattle.argon2_commands.specs.Run.{AppendsFront, Answered, HasAnswer, MayFailWith, NeedNoInput, Reads, WritesAnswer};
ghost use Rattle.argon2_standard.specs.declared.error.Error.{Error};
ghost use Rattle.argon2_commands.specs.Fault.{IsBeforeOutput};
ghost use Rattle.argon2_commands.specs.Words.{IsCommand, IsNoCommand, texts_of};

use crate::answer::Answer;
use crate::command::Command;
use crate::fault::Fault;
use std::alloc::Global;
use std::io;
use std::io::{ErrorKind, Read, Write};
use std::marker::Sync;
use std::sync::Wait;
use std::thread::Threads;

/// Writes the result of the arguments' command, and returns the exit status or the fault. The fault
/// distinguishes an error of the call from an output that lacked memory; they share a status.
/// Before a fault, nothing was written unless the output failed.
pub fn attempt<R: Threads + Wait + Sync, I: Read, O: Write>(
    rt: &R,
    alloc: Global,
    words: &[String],
    input: &mut I,
    output: &mut O,
) -> Result<u8, Fault>
    ensures answered { IfOk result (Answered (texts_of words.now) (I.remaining input.old)
        (O.contents output.old) (O.contents output.new)) }
    ensures usage { (result ≡ Err Fault.Usage) ↔ IsNoCommand (texts_of words.now) }
    ensures refused { IfErr result (λ fault. (error : Error) → fault ≡ Fault.Refused error
        → MayFailWith (texts_of words.now) (I.remaining input.old) error) }
    ensures short { IfErr result (λ fault. fault ≡ Fault.OutputShort
        → HasAnswer (texts_of words.now) (I.remaining input.old)) }
    ensures unwritten { IfErr result (λ fault. IsBeforeOutput fault
        → Keeps (O.contents output.old) (O.contents output.new)) }
    ensures written { WritesAnswer (texts_of words.now) (I.remaining input.old)
        (O.contents output.old) (O.contents output.new) }
    ensures stops { Reads (texts_of words.now) (I.remaining input.old)
        (I.remaining input.new) }
    ensures unread { NeedNoInput (texts_of words.now)
        → Keeps (I.remaining input.old) (I.remaining input.new) }
{
    let command = command_of(words)?;
    let answer = Answer::to(rt, alloc, &command, input)?;
    match write_lines(output, answer.lines()) {
        Ok(()) => Ok(answer.status()),
        Err(error) => Err(Fault::of_stream(&error, Fault::OutputShort, Fault::Output)),
    }
}

fn command_of(words: &[String]) -> Result<Command<'_>, Fault>
    ensures { MatchResult result (IsCommand (texts_of words.now)) (λ fault.
        IsNoCommand (texts_of words.now) × (fault ≡ Fault.Usage)) }
{
    match Command::from_words(words) {
        Some(command) => Ok(command),
        None => Err(Fault::Usage),
    }
}

/// Writes all lines, and flushes them: an output may take them and fail only when it is flushed.
fn write_lines<O: Write>(output: &mut O, lines: &str) -> io::Result<()>
    ensures whole { OnOk result (Appends (O.contents output.old) (O.contents output.new) lines.now) }
    ensures front { AppendsFront (O.contents output.old) (O.contents output.new) lines.now }
{
    write_bytes(output, lines.as_bytes())?;
    output.flush()
}

/// As `write_all`, whose contract does not say what was written before an error.
fn write_bytes<O: Write>(output: &mut O, bytes: &[u8]) -> io::Result<()>
    ensures whole { OnOk result (Appends (O.contents output.old) (O.contents output.new) bytes.now) }
    ensures front { AppendsFront (O.contents output.old) (O.contents output.new) bytes.now }
{
    let mut written = 0;
    // The bound only shows the prover that the loop ends: nobody tries so often.
    for _ in 0..u64::MAX {
        if written == bytes.len() {
            return Ok(());
        }
        match output.write(&bytes[written..]) {
            Ok(0) => return Err(io::Error::from(ErrorKind::WriteZero)),
            Ok(count) => written += count,
            Err(error) => {
                if error.kind() != ErrorKind::Interrupted {
                    return Err(error);
                }
            }
        }
    }
    Err(io::Error::from(ErrorKind::WriteZero))
}
