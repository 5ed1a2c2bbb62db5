//! What a line asks.

ghost use Rattle.std.specs.Prelude.{◌≡◌, ◌++◌, IfOk, codes, string_bytes};
ghost use Rattle.argon2_standard.specs.Views.Messages.{message_of};

use crate::line::{Inputs, Words};
use crate::modes::Asked;
use crate::{commands, hashes, small_types, stages, texts};
use anyhow::Result;
use std::alloc::Global;
use std::marker::Sync;
use std::sync::Wait;
use std::thread::Threads;

pub fn answer<R: Threads + Wait + Sync>(rt: &R, alloc: Global, line: &str) -> Result<String> {
    let (call, rest) = match line.split_once(' ') {
        Some((call, rest)) => (call, Some(rest)),
        None => (line, None),
    };
    let mut words = Words::new(rest);
    let answered = match call {
        "hash_raw" | "hash_encoded" | "verify_raw" => in_modes(rt, alloc, call, &mut words),
        "verify_encoded" => texts::verdict_and_text(rt, alloc, words.text(alloc)?.as_str()),
        "verify_encoded_ext" => texts::verdict(rt, alloc, &mut words),
        _ if is_of_the_program(call) => commands::answer(rt, alloc, call, &mut words),
        _ => answer_alone(alloc, call, &mut words),
    }?;
    words.end()?;
    Ok(answered)
}

/// Whether a call is a run or a start of the program.
fn is_of_the_program(call: &str) -> bool {
    call == "run" || call == "start" || call.starts_with("run/")
}

/// The answer of a call that may work in several threads.
fn in_modes<R: Threads + Wait + Sync>(
    rt: &R,
    alloc: Global,
    call: &str,
    words: &mut Words<'_>,
) -> Result<String> {
    let inputs = Inputs::read(alloc, words)?;
    match call {
        "hash_raw" => Asked::Tag.answer(rt, alloc, &inputs),
        "hash_encoded" => Asked::Text.answer(rt, alloc, &inputs),
        _ => {
            let hash = words.bytes(alloc)?;
            Asked::Verdict(hash.as_slice()).answer(rt, alloc, &inputs)
        }
    }
}

/// The answer of a call that starts no worker.
fn answer_alone(alloc: Global, call: &str, words: &mut Words<'_>) -> Result<String> {
    match call {
        "needs_rehash" => texts::rehash(alloc, words),
        "decode_string" => texts::decoded(alloc, words),
        "encode_string" => texts::encoded(alloc, words),
        "encoded_len" => texts::text_length(alloc, words),
        "base64_len" => texts::item_length(alloc, words),
        "num_len" => texts::digits(alloc, words),
        "first_refusal" => stages::first_error(alloc, words),
        "Context::new" => stages::context(alloc, words),
        "Job::new" => stages::job(alloc, words),
        "fill_sequential" => stages::writes(alloc, words),
        "reference_positions" => stages::positions(alloc, words),
        "blake2b" => hashes::plain(alloc, words),
        "hprime" => hashes::stretched(alloc, words),
        "arguments" => commands::words_given(alloc, words),
        _ => small_types::answer(alloc, call, words),
    }
}

pub fn told_error(alloc: Global, error: &argon2::Error) -> Result<String>
    ensures { IfOk result (λ text. string_bytes text ≡ codes "ERR " ++ message_of error.now) }
{
    Ok(format!(in alloc; "ERR {error}")?)
}

/// How a tag is printed, or why there is none.
pub fn told_bytes(alloc: Global, answer: argon2::Result<Vec<u8>>) -> Result<String> {
    match answer {
        Ok(tag) => Ok(hex::encode(alloc, tag.as_slice())?),
        Err(error) => told_error(alloc, &error),
    }
}

/// How an encoded hash is printed, or why there is none.
pub fn told_text(alloc: Global, answer: argon2::Result<String>) -> Result<String> {
    match answer {
        Ok(text) => Ok(text),
        Err(error) => told_error(alloc, &error),
    }
}

/// How a verdict is printed, or why there is none.
pub fn told_verdict(alloc: Global, answer: argon2::Result<bool>) -> Result<String> {
    match answer {
        Ok(verdict) => Ok(format!(in alloc; "{verdict}")?),
        Err(error) => told_error(alloc, &error),
    }
}
