//! Where the program begins: `start` with a command line, `run` with its arguments.

ghost use Rattle.std.specs.Prelude.{◌≡◌, ◌<◌, ◌↔◌, ◌⊎◌};
ghost use Rattle.std.specs.Process.{exit_status};
ghost use Rattle.std.specs.Io.KnownBytes.{Keeps};
ghost use Rattle.argon2_commands.specs.Words.{HasNoText, IsNoCommand, texts_of};
ghost use Rattle.argon2_commands.specs.Run.{Answered, HasAnswer, IsShortOrFails, NeedNoInput, OfWords, Reads, WritesAnswer};

use crate::command_line::{CommandLine, arguments};
use crate::runs::attempt;
use argon2::parts::memory::wipe_stack;
use std::alloc::Global;
use std::io::{Read, Write};
use std::marker::Sync;
use std::process::ExitCode;
use std::sync::Wait;
use std::thread::Threads;

/// Runs the program on a command line, and exits with the run's status. Arguments that are not UTF-8
/// are a usage error.
pub fn start<R: Threads + Wait + Sync, L: CommandLine, I: Read, O: Write, E: Write>(
    rt: &R,
    alloc: Global,
    line: &L,
    input: &mut I,
    output: &mut O,
    errors: &mut E,
) -> ExitCode
    ensures bounded { exit_status result < 5 }
    ensures answered { exit_status result < 2 → OfWords (L.arguments line.now) (λ words.
        Answered words (I.remaining input.old) (O.contents output.old) (O.contents output.new)
        (exit_status result)) }
    ensures usage { exit_status result ≡ 3 → HasNoText (L.arguments line.now)
        ⊎ OfWords (L.arguments line.now) IsNoCommand }
    ensures refused { exit_status result ≡ 2 → Keeps (O.contents output.old) (O.contents output.new)
        ⊎ OfWords (L.arguments line.now) (λ words. HasAnswer words (I.remaining input.old)) }
    ensures unwritten { exit_status result ≡ 3
        → Keeps (O.contents output.old) (O.contents output.new) }
    ensures written { OfWords (L.arguments line.now) (λ words. WritesAnswer words
        (I.remaining input.old) (O.contents output.old) (O.contents output.new)) }
    ensures silent { exit_status result < 2
        → Keeps (E.contents errors.old) (E.contents errors.new) }
{
    let words = match arguments(line, alloc) {
        Ok(words) => words,
        Err(fault) => return ExitCode::from(fault.report(errors)),
    };
    let status = run(rt, alloc, words.as_slice(), input, output, errors);
    wipe_stack();
    ExitCode::from(status)
}

/// Does what the arguments after the program's name say, and returns the exit status.
///
/// | Arguments | Output |
/// |---|---|
/// | `hash VARIANT VERSION T M P LEN MODE SALT` | the tag in lower-case hexadecimal and the encoded hash, a line each |
/// | `verify TEXT` | `true` or `false`: whether the input is the password of the encoded hash |
/// | `rehash VARIANT VERSION T M P LEN TEXT` | `true` or `false`: whether the encoded hash was made with other settings |
///
/// The salt is the bytes of its argument. The password is all of `input`; `rehash` does not read
/// it. The result is written to `output`, with status 0, or 1 for `false`. Otherwise a line is
/// written to `errors`: the message of the call's error (status 2), `usage` for arguments that are
/// none of these (3), or `input` if the input cannot be read (4). If the output cannot be written,
/// the status is 4 and no line is added; but if the output lacked memory, the status is 2, and the
/// line is the message of `OutOfMemory`. Only the first fault is reported, in the order arguments,
/// input, call, output, and nothing is written to `output` before the result is complete. The input
/// is not read beyond the first byte that makes a password too long for every call.
// Its frames have H0. It is never inlined, so that `start` may overwrite them.
#[inline(never)]
pub fn run<R: Threads + Wait + Sync, I: Read, O: Write, E: Write>(
    rt: &R,
    alloc: Global,
    words: &[String],
    input: &mut I,
    output: &mut O,
    errors: &mut E,
) -> u8
    ensures bounded { result < 5 }
    ensures answered { result < 2 → Answered (texts_of words.now) (I.remaining input.old)
        (O.contents output.old) (O.contents output.new) result }
    ensures usage { (result ≡ 3) ↔ IsNoCommand (texts_of words.now) }
    ensures refused { result ≡ 2 → IsShortOrFails (texts_of words.now) (I.remaining input.old)
        (O.contents output.old) (O.contents output.new) }
    ensures unwritten { result ≡ 3 → Keeps (O.contents output.old) (O.contents output.new) }
    ensures written { WritesAnswer (texts_of words.now) (I.remaining input.old)
        (O.contents output.old) (O.contents output.new) }
    ensures stops { Reads (texts_of words.now) (I.remaining input.old) (I.remaining input.new) }
    ensures unread { NeedNoInput (texts_of words.now)
        → Keeps (I.remaining input.old) (I.remaining input.new) }
    ensures silent { result < 2 → Keeps (E.contents errors.old) (E.contents errors.new) }
{
    match attempt(rt, alloc, words, input, output) {
        Ok(status) => status,
        Err(fault) => fault.report(errors),
    }
}
