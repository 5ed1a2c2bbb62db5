//! The words of a line, and the hash inputs that they name.

use anyhow::{Context, Result, anyhow, bail, ensure};
use argon2::parts::context;
use argon2::{Config, ThreadMode, Variant, Version};
use std::alloc::Global;
use std::str::FromStr;

/// What is still to be read of a line, in which single blanks stand between words.
#[derive(Drop)]
pub struct Words<'a>(Option<&'a str>);

impl<'a> Words<'a> {
    /// The words of a line behind its first.
    pub fn new(rest: Option<&'a str>) -> Words<'a> {
        Words(rest)
    }

    pub fn word(&mut self) -> Result<&'a str> {
        let Some(rest) = self.0 else {
            bail!("a word is missing");
        };
        match rest.split_once(' ') {
            Some((word, others)) => {
                self.0 = Some(others);
                Ok(word)
            }
            None => {
                self.0 = None;
                Ok(rest)
            }
        }
    }

    pub fn number(&mut self) -> Result<u32> {
        let word = self.word()?;
        word.parse::<u32>()
            .context(format_args!("reading {word:?}"))
    }

    /// The number of 64 bits of the next word.
    pub fn long_number(&mut self) -> Result<u64> {
        let word = self.word()?;
        word.parse::<u64>()
            .context(format_args!("reading {word:?}"))
    }

    pub fn bytes(&mut self, alloc: Global) -> Result<Vec<u8>> {
        bytes_of(alloc, self.word()?)
    }

    /// The text of all remaining words, with their blanks. After `hex`, its bytes follow in
    /// hexadecimal.
    pub fn text(&mut self, alloc: Global) -> Result<String> {
        let Some(rest) = self.0.take() else {
            bail!("the text is missing");
        };
        match rest.strip_prefix("hex ") {
            Some(digits) => Ok(String::from_utf8(bytes_of(alloc, digits)?)?),
            None => Ok(String::from_str(alloc, rest)?),
        }
    }

    /// The rest of the line, for other functions to cut.
    pub fn others(&mut self) -> &'a str {
        self.0.take().unwrap_or("")
    }

    pub fn end(&self) -> Result<()> {
        ensure!(self.0.is_none(), "it has too many words");
        Ok(())
    }
}

/// The bytes of a word. `-` means none, and text follows a `'`. Otherwise they are hexadecimal digits, in
/// parts that `+` joins; a number and `*` before a part repeat it.
pub fn bytes_of(alloc: Global, word: &str) -> Result<Vec<u8>> {
    if word == "-" {
        return Ok(Vec::new(alloc));
    }
    if let Some(text) = word.strip_prefix("'") {
        return Ok(text.as_bytes().to_vec(alloc)?);
    }
    let mut bytes = Vec::new(alloc);
    for part in word.split('+') {
        let (count, digits) = repeated(part)?;
        let piece = hex::decode(alloc, digits).context(format_args!("reading {word:?}"))?;
        add(&mut bytes, count, piece.as_slice())?;
    }
    Ok(bytes)
}

fn add(bytes: &mut Vec<u8>, count: u32, piece: &[u8]) -> Result<()> {
    for _ in 0..count {
        bytes.extend_from_slice(piece)?;
    }
    Ok(())
}

/// How often a part is repeated, and the part. The number and `*` before it may be missing.
pub fn repeated(part: &str) -> Result<(u32, &str)> {
    let Some((count, rest)) = part.split_once('*') else {
        return Ok((1, part));
    };
    Ok((count.parse::<u32>().context("how often")?, rest))
}

#[derive(Drop)]
pub struct Inputs {
    variant: Variant,
    version: Version,
    time_cost: u32,
    mem_cost: u32,
    lanes: u32,
    hash_length: u32,
    /// None for all modes.
    pub mode: Option<ThreadMode>,
    pub password: Vec<u8>,
    pub salt: Vec<u8>,
    pub secret: Vec<u8>,
    pub ad: Vec<u8>,
}

impl Inputs {
    /// Reads `VARIANT VERSION T M P LEN MODE PASSWORD SALT SECRET DATA`.
    pub fn read(alloc: Global, words: &mut Words<'_>) -> Result<Inputs> {
        Ok(Inputs {
            variant: Variant::from_str(words.word()?).map_err(|_| anyhow!("the variant"))?,
            version: Version::from_str(words.word()?).map_err(|_| anyhow!("the version"))?,
            time_cost: words.number()?,
            mem_cost: words.number()?,
            lanes: words.number()?,
            hash_length: words.number()?,
            mode: mode_of(words.word()?)?,
            password: words.bytes(alloc)?,
            salt: words.bytes(alloc)?,
            secret: words.bytes(alloc)?,
            ad: words.bytes(alloc)?,
        })
    }

    pub fn config(&self, thread_mode: ThreadMode) -> Config<'_> {
        Config {
            ad: self.ad.as_slice(),
            hash_length: self.hash_length,
            lanes: self.lanes,
            mem_cost: self.mem_cost,
            secret: self.secret.as_slice(),
            thread_mode,
            time_cost: self.time_cost,
            variant: self.variant,
            version: self.version,
        }
    }

    /// The configuration in the named mode, or in one thread.
    pub fn own_config(&self) -> Config<'_> {
        self.config(self.mode.unwrap_or(ThreadMode::Sequential))
    }

    /// The call with that configuration, or why it is rejected.
    pub fn context(&self) -> argon2::Result<context::Context<'_>> {
        context::Context::new(
            self.own_config(),
            self.password.as_slice(),
            self.salt.as_slice(),
        )
    }
}

/// The mode of `seq`, `par`, or `max` and a number; None for `all`.
pub fn mode_of(word: &str) -> Result<Option<ThreadMode>> {
    match word {
        "all" => Ok(None),
        "seq" => Ok(Some(ThreadMode::Sequential)),
        "par" => Ok(Some(ThreadMode::Parallel)),
        _ => {
            let Some(most) = word.strip_prefix("max") else {
                bail!("the thread mode");
            };
            Ok(Some(ThreadMode::AtMost(most.parse::<u32>().context("the thread mode")?)))
        }
    }
}
