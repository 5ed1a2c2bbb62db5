//! Questions on the program's commands: what a run ends with, and what it wrote.
//!
//! | Line | The run's streams |
//! |---|---|
//! | `run INPUT WORDS` | an input with these bytes |
//! | `run/broken INPUT WORDS` | an input that gives these bytes one at a time, then fails |
//! | `run/full ROOM WORDS` | the input `password`; the output and the error stream take so many bytes, and cannot be flushed |
//! | `run/stuck ROOM WORDS` | the input `password`; the output and the error stream take so many bytes, and then none, without a failure |
//! | `run/without_memory WORDS` | the input `password`, and an output without memory |
//! | `run/fails_once STEP REASON WORDS` | the input `password`, and an output whose first `write` or `flush` fails, for want of `memory` or for `another` reason |
//! | `start ARGUMENT..` | the input `password`; the process's arguments, its name first, are checked before the run |
//! | `arguments ARGUMENT..` | none: the answer is the number of words, then each word after its count in a row |
//!
//! The answer of a run is its status, and what it wrote to the output and to the error stream. The
//! answer of a start is without the status. An argument is bytes, as in `line`; a number and `*` before
//! it say how often it is repeated.

use crate::line::{Words, bytes_of, repeated};
use crate::streams::{Flaw, Input, Output, Started};
use anyhow::{Result, bail};
use argon2_commands::{Fault, OfProcess, arguments, run, start};
use std::alloc::Global;
use std::io::ErrorKind;
use std::marker::Sync;
use std::sync::Wait;
use std::thread::Threads;

pub fn answer<R: Threads + Wait + Sync>(
    rt: &R,
    alloc: Global,
    call: &str,
    words: &mut Words<'_>,
) -> Result<String> {
    let streams = call.strip_prefix("run").unwrap_or(call);
    if streams == "start" {
        return started(rt, alloc, words);
    }
    let is_broken = streams == "/broken";
    let bytes = if is_broken || streams.is_empty() {
        words.bytes(alloc)?
    } else {
        b"password".to_vec(alloc)?
    };
    let mut input = Input {
        bytes: bytes.as_slice(),
        is_broken,
    };
    let (flaw, of_errors) = flaws(streams, words)?;
    let (mut output, mut errors) = (Output::new(alloc, flaw), Output::new(alloc, of_errors));
    let words = words_of(alloc, words.others())?;
    let words = words.as_slice();
    let status = run(rt, alloc, words, &mut input, &mut output, &mut errors);
    told(alloc, Some(status), output, errors)
}

/// What is wrong with the output and with the error stream of a run.
fn flaws(streams: &str, words: &mut Words<'_>) -> Result<(Flaw, Flaw)> {
    Ok(match streams {
        "" | "/broken" => (Flaw::None, Flaw::None),
        "/full" => {
            let room = Flaw::Room(words.number()? as usize);
            (room, room)
        }
        "/stuck" => {
            let room = Flaw::Stuck(words.number()? as usize);
            (room, room)
        }
        "/without_memory" => (Flaw::Memory, Flaw::None),
        "/fails_once" => {
            let step = words.word()?;
            let kind = match words.word()? {
                "memory" => ErrorKind::OutOfMemory,
                _ => ErrorKind::Other,
            };
            match step {
                "write" => (Flaw::Write(kind), Flaw::None),
                _ => (Flaw::Flush(kind), Flaw::None),
            }
        }
        _ => bail!("there is no run of this name"),
    })
}

/// What came of a run: its status, if that is known, and what it wrote.
fn told(alloc: Global, status: Option<u8>, output: Output, errors: Output) -> Result<String> {
    let Output { taken, .. } = output;
    let written = String::from_utf8(taken)?;
    let Output { taken, .. } = errors;
    let errors = String::from_utf8(taken)?;
    match status {
        Some(status) => Ok(format!(in alloc; "{status} {written:?} {errors:?}")?),
        None => Ok(format!(in alloc; "{written:?} {errors:?}")?),
    }
}

fn words_of(alloc: Global, line: &str) -> Result<Vec<String>> {
    let mut words = Vec::new(alloc);
    for word in line.split_whitespace() {
        words.push(String::from_str(alloc, word)?)?;
    }
    Ok(words)
}

fn given(alloc: Global, line: &str) -> Result<Vec<Vec<u8>>> {
    let mut arguments = Vec::new(alloc);
    for word in line.split_whitespace() {
        let (count, argument) = repeated(word)?;
        add(alloc, &mut arguments, count, argument)?;
    }
    Ok(arguments)
}

fn add(alloc: Global, arguments: &mut Vec<Vec<u8>>, count: u32, argument: &str) -> Result<()> {
    for _ in 0..count {
        arguments.push(bytes_of(alloc, argument)?)?;
    }
    Ok(())
}

/// A run that begins with the process's arguments.
fn started<R: Threads + Wait + Sync>(
    rt: &R,
    alloc: Global,
    words: &mut Words<'_>,
) -> Result<String> {
    let given = given(alloc, words.others())?;
    let started = Started(given.as_slice());
    let mut input = b"password".as_slice();
    let mut output = Output::new(alloc, Flaw::None);
    let mut errors = Output::new(alloc, Flaw::None);
    let line = OfProcess(&started);
    start(rt, alloc, &line, &mut input, &mut output, &mut errors);
    told(alloc, None, output, errors)
}

/// The words that the arguments of a process are.
pub fn words_given(alloc: Global, words: &mut Words<'_>) -> Result<String> {
    let given = given(alloc, words.others())?;
    match arguments(&OfProcess(&Started(given.as_slice())), alloc) {
        Ok(words) => counted(alloc, words.as_slice()),
        Err(Fault::Usage) => Ok(String::from_str(alloc, "usage")?),
        Err(_) => Ok(String::from_str(alloc, "another fault")?),
    }
}

/// How many words there are, and each word after how often it is repeated in a row.
fn counted(alloc: Global, words: &[String]) -> Result<String> {
    let mut text = format!(in alloc; "{}", words.len())?;
    let mut same = 0u32;
    for (index, word) in words.iter().enumerate() {
        same = same.saturating_add(1);
        let next = words.get(index.wrapping_add(1));
        if !next.is_some_and(|next| next.as_str() == word.as_str()) {
            text.push_str(format!(in alloc; " {same}*{word:?}")?.as_str())?;
            same = 0;
        }
    }
    Ok(text)
}
