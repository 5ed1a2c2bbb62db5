//! Questions on BLAKE2b and on H'.

use crate::line::{Words, bytes_of};
use anyhow::{Context, Result, anyhow, ensure};
use argon2::parts::blake2b::{blake2b, hprime};
use std::alloc::Global;

/// The most bytes of H' that are asked for.
const ROOM: usize = 1024;

/// The hash, of the given length, of some pieces.
pub fn plain(alloc: Global, words: &mut Words<'_>) -> Result<String> {
    let length = words.number()? as usize;
    let mut pieces = Vec::new(alloc);
    for word in words.others().split_whitespace() {
        pieces.push(bytes_of(alloc, word)?)?;
    }
    let mut input = Vec::new(alloc);
    for piece in pieces.iter() {
        input.push(piece.as_slice())?;
    }
    ensure!(0 < length && length <= 64, "the length of the hash");
    let mut out = [0; 64];
    blake2b(&mut out[..length], input.as_slice());
    Ok(hex::encode(alloc, &out[..length])?)
}

/// H' of a message, in pieces.
pub fn stretched(alloc: Global, words: &mut Words<'_>) -> Result<String> {
    let lengths = words.word()?;
    let message = words.bytes(alloc)?;
    let length = sum_of(lengths)?;
    ensure!(0 < length && length <= ROOM, "the length of the hash");
    let mut out = [0; ROOM];
    hprime(&mut out[..length], message.as_slice());
    in_pieces(alloc, &out[..length], lengths)
}

/// The sum of the lengths that a word joins by `+`.
fn sum_of(lengths: &str) -> Result<usize> {
    let mut sum = 0usize;
    for length in lengths.split('+') {
        let length = length.parse::<usize>().context("a length")?;
        sum = sum
            .checked_add(length)
            .ok_or_else(|| anyhow!("the lengths are too many"))?;
    }
    Ok(sum)
}

/// Bytes in hexadecimal, with blanks between pieces of these lengths.
fn in_pieces(alloc: Global, bytes: &[u8], lengths: &str) -> Result<String> {
    let mut rest = bytes;
    let mut text = String::new(alloc);
    for length in lengths.split('+') {
        let length = length.parse::<usize>().context("a length")?;
        ensure!(length <= rest.len(), "the lengths are too many");
        let (piece, others) = rest.split_at(length);
        rest = others;
        if !text.is_empty() {
            text.push(' ')?;
        }
        text.push_str(hex::encode(alloc, piece)?.as_str())?;
    }
    Ok(text)
}
