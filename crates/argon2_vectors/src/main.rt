//! Answers questions about public calls, so that rows of tests are data. Standard input has one
//! question on each line. A line is the name of a call and its words, with single blanks between
//! them. docs/CLAIMS.md says where the answers in this crate's `stdout` come from.
//!
//! | Line | Answer |
//! |---|---|
//! | `hash_raw INPUTS` | the tag in hexadecimal |
//! | `hash_encoded INPUTS` | the encoded hash |
//! | `verify_raw INPUTS HASH` | `true` or `false` |
//! | `verify_encoded TEXT` | `true` or `false` for the password `password`, and the encoded hash as it is written anew |
//! | `verify_encoded_ext PASSWORD SECRET DATA TEXT` | `true` or `false` |
//! | `needs_rehash INPUTS TEXT` | `true` or `false` |
//! | `decode_string TEXT` | what the string decodes to |
//! | `encode_string INPUTS HASH` | the encoded hash of a tag |
//! | `encoded_len VARIANT M T P SALT_LEN HASH_LEN`, `base64_len LEN`, `num_len NUMBER` | the length |
//! | `first_refusal INPUTS PASSWORD_LEN SALT_LEN HASH_LEN` | `None`, or the error |
//! | `Context::new INPUTS`, `Job::new INPUTS` | what is shown of it |
//! | `fill_sequential INPUTS` | how many blocks are written before the fill, and by it |
//! | `reference_positions INPUTS PASS SLICE LANE FIRST COUNT` | `LANE,COLUMN` of each |
//! | `blake2b LENGTH PIECE..` | the hash in hexadecimal |
//! | `hprime LENGTHS MESSAGE` | the hash, cut into pieces of these lengths |
//! | `Config::NAME` | the preset, and whether it uses one thread |
//! | `ThreadMode::from_threads N`, `Variant::from_u32 N`, `Version::from_str WORD`, .. | the value and its names |
//! | `Error NAME` | the error that `serde` reads from this name: its case, what `serde` writes, its message |
//! | `common` | the constants |
//! | `run INPUT WORDS`, `run/broken`, `run/full`, `run/stuck`, `run/without_memory`, `arguments`, `start`, .. | see `commands.rt` |
//!
//! INPUTS are `VARIANT VERSION T M P LEN MODE PASSWORD SALT SECRET DATA`. MODE is `seq`, `par`,
//! `max` and a number, or `all`: then all thread modes, and the call that ignores the mode, have to
//! return the same. Bytes are `-` for none, text behind a `'`, or hexadecimal (`line.rt`). TEXT is
//! the rest of the line, or behind `hex` its bytes in hexadecimal. For an error the answer is `ERR`
//! and its message.
#![tactic(auto)]

mod commands;
mod hashes;
mod line;
mod modes;
mod question;
mod small_types;
mod stages;
mod streams;
mod texts;

use anyhow::{Context, Result};
use question::answer;
use std::io;
use std::io::{BufRead, BufReader, BufWriter, Write};

/// Answers line by line. A line that is no question ends the run with an error that names its
/// number.
fn main(rt: HostRuntime) -> Result<()> {
    let alloc = rt.alloc();
    let mut output = BufWriter::new(alloc, io::writer(&rt))?;
    let lines = BufReader::new(alloc, rt.reader())?.lines(alloc);
    for (number, line) in (1u64..).zip(lines) {
        let answered = answer(&rt, alloc, line?.as_str());
        let text = answered.context(format_args!("line {number}"))?;
        writeln!(output, "{text}")?;
    }
    output.flush()?;
    Ok(())
}
