//! What a command prints and returns.

ghost use Rattle.std.specs.Prelude.{◌≡◌, IfErr, IfOk, IsNone, OnOk, length, string_bytes};
ghost use Rattle.std.specs.Io.KnownBytes.{Keeps};
ghost use Rattle.argon2_standard.specs.Standard.Outcome.{IsResourceError};
ghost use Rattle.argon2_standard.specs.Standard.ThreadModes.{may_lack_workers};
ghost use Rattle.argon2_standard.specs.Standard.SettingsTable.{table_error};
ghost use Rattle.argon2_commands.specs.Answer.{IsAnswer, IsHashError, MayFail, NeedsNoInput, ReadsUpTo, answer_status, hash_lines, lines_of, most_read};

use crate::command::Command;
use crate::fault::Fault;
use crate::password::read_password;
use argon2::parts::context::Context;
use argon2::parts::encoding::encode_string;
use argon2::parts::fill::tag;
use argon2::parts::memory::{Memory, release};
use argon2::{Config, needs_rehash, verify_encoded};
use std::alloc::Global;
use std::io::Read;
use std::marker::Sync;
use std::sync::Wait;
use std::thread::Threads;

/// What a command prints where nothing went wrong.
#[derive(Debug, Drop)]
pub enum Answer {
    /// The tag in lower-case hexadecimal and the encoded hash, a line each.
    Hashed(String),

    /// Whether the password matches the encoded hash, or whether a rehash is needed.
    Verdict(bool),
}

impl Answer {
    /// The output of a command. If the command needs a password, that is all of the input.
    pub fn to<R: Threads + Wait + Sync, I: Read>(
        rt: &R,
        alloc: Global,
        command: &Command<'_>,
        input: &mut I,
    ) -> Result<Answer, Fault>
        ensures answer { IfOk result (IsAnswer command.now (I.remaining input.old)) }
        ensures fault { IfErr result (MayFail command.now (I.remaining input.old)) }
        ensures unread { NeedsNoInput command.now
            → Keeps (I.remaining input.old) (I.remaining input.new) }
        ensures stops { ReadsUpTo (most_read command.now) (I.remaining input.old)
            (I.remaining input.new) }
    {
        // The input is read first, since a fault of the input is reported before any fault of the
        // call.
        match command {
            Command::Hash { config, salt } => {
                let password = read_password(alloc, input)?;
                let lines = hash_lines(rt, alloc, password.as_slice(), salt.as_bytes(), *config)?;
                Ok(Answer::Hashed(lines))
            }
            Command::Verify { encoded } => {
                let password = read_password(alloc, input)?;
                let verdict = verify_encoded(rt, alloc, encoded, password.as_slice())?;
                Ok(Answer::Verdict(verdict))
            }
            Command::Rehash { config, encoded } => {
                Ok(Answer::Verdict(needs_rehash(alloc, encoded, config)?))
            }
        }
    }

    /// The lines that are written.
    pub fn lines(&self) -> &str
        ensures { result.now ≡ lines_of self.now }
    {
        match self {
            Answer::Hashed(lines) => lines.as_str(),
            Answer::Verdict(true) => "true\n",
            Answer::Verdict(false) => "false\n",
        }
    }

    /// The exit status: 1 for `false`, else 0.
    pub fn status(&self) -> u8
        ensures { result ≡ answer_status self.now }
    {
        match *self {
            Answer::Hashed(_) | Answer::Verdict(true) => 0,
            Answer::Verdict(false) => 1,
        }
    }
}

/// The tag of an accepted call in lower-case hexadecimal and its encoded hash, a line each. It
/// calls `tag` and not `hash_encoded`, so that one computation yields both lines.
fn tag_lines<R: Threads + Wait + Sync>(
    rt: &R,
    alloc: Global,
    context: &Context<'_>,
) -> argon2::Result<String>
    ensures lines { let c = context.now in
        IfOk result (λ lines. string_bytes lines ≡ hash_lines c.config c.salt.now c.pwd.now) }
    ensures refused { IfErr result (IsResourceError (may_lack_workers context.now.config)) }
{
    let mut memory = Memory::empty(alloc);
    let tag = tag(rt, alloc, context, &mut memory);
    release(memory);
    let tag = tag?;
    let text = encode_string(alloc, context, tag.as_slice())?;
    let hexadecimal = hex::encode(alloc, tag.as_slice())?;
    Ok(format!(in alloc; "{hexadecimal}\n{text}\n")?)
}

/// Checks the settings, and then returns the lines of `tag_lines` for a password.
fn hash_lines<R: Threads + Wait + Sync>(
    rt: &R,
    alloc: Global,
    password: &[u8],
    salt: &[u8],
    config: Config<'_>,
) -> argon2::Result<String>
    ensures lines { IfOk result (λ lines. string_bytes lines
        ≡ hash_lines config.entry salt.now password.now) }
    ensures accepted { OnOk result (IsNone (table_error config.entry (length password.now)
        (length salt.now) config.entry.hash_length)) }
    ensures refused { IfErr result (IsHashError config.entry salt.now password.now) }
{
    match Context::new(config, password, salt) {
        Ok(context) => tag_lines(rt, alloc, &context),
        Err(error) => Err(error),
    }
}
