//! Questions on encoded hashes.

use crate::line::{Inputs, Words};
use crate::question::{told_error, told_text, told_verdict};
use anyhow::{Result, anyhow, bail, ensure};
use argon2::parts::context::Context;
use argon2::parts::decoded::Decoded;
use argon2::parts::encoding::{base64_len, decode_string, encode_string, num_len};
use argon2::{
    Config, Error, ThreadMode, Variant, encoded_len, needs_rehash, verify_encoded,
    verify_encoded_ext, verify_encoded_sequential,
};
use std::alloc::Global;
use std::marker::Sync;
use std::sync::Wait;
use std::thread::Threads;

/// The password for questions that name none.
const PASSWORD: &[u8; 8] = b"password";

/// The verdict on an encoded hash and, if it decodes, how its decoded value is encoded again.
pub fn verdict_and_text<R: Threads + Wait + Sync>(
    rt: &R,
    alloc: Global,
    encoded: &str,
) -> Result<String> {
    let verdict = verify_encoded(rt, alloc, encoded, PASSWORD);
    ensure!(
        verify_encoded_sequential(alloc, encoded, PASSWORD, &[], &[]) == verdict,
        "one thread gives another answer"
    );
    match (decode_string(alloc, encoded), verdict) {
        (Ok(decoded), Ok(verdict)) => {
            let written = rewritten(alloc, &decoded)?;
            Ok(format!(in alloc; "{verdict} {written}")?)
        }
        (Ok(_), Err(error)) => {
            ensure!(error != Error::DecodingFail, "it decodes, and is no hash");
            told_error(alloc, &error)
        }
        (Err(fault), verdict) => {
            let expected = Err(fault.clone()?);
            ensure!(verdict == expected, "no hash has a verdict");
            told_error(alloc, &fault)
        }
    }
}

/// The encoded hash that a decoded value is written as.
fn rewritten(alloc: Global, decoded: &Decoded) -> Result<String> {
    let config = Config {
        ad: &[],
        hash_length: u32::try_from(decoded.hash.len())?,
        lanes: decoded.parallelism,
        mem_cost: decoded.mem_cost,
        secret: &[],
        thread_mode: ThreadMode::Sequential,
        time_cost: decoded.time_cost,
        variant: decoded.variant,
        version: decoded.version,
    };
    let context = match Context::new(config, PASSWORD, decoded.salt.as_slice()) {
        Ok(context) => context,
        Err(error) => bail!("it has a verdict and {error}"),
    };
    encode_string(alloc, &context, decoded.hash.as_slice()).map_err(|error| anyhow!(
        "it cannot be written: {error}"
    ))
}

/// The verdict on an encoded hash with a password, a secret and associated data.
pub fn verdict<R: Threads + Wait + Sync>(
    rt: &R,
    alloc: Global,
    words: &mut Words<'_>,
) -> Result<String> {
    let password = words.bytes(alloc)?;
    let (secret, ad) = (words.bytes(alloc)?, words.bytes(alloc)?);
    let text = words.text(alloc)?;
    let (password, encoded) = (password.as_slice(), text.as_str());
    let (secret, ad) = (secret.as_slice(), ad.as_slice());
    let verdict = verify_encoded_ext(rt, alloc, encoded, password, secret, ad);
    let alone = verify_encoded_sequential(alloc, encoded, password, secret, ad);
    ensure!(alone == verdict, "one thread gives another answer");
    if secret.is_empty() && ad.is_empty() {
        let plain = verify_encoded(rt, alloc, encoded, password);
        ensure!(plain == verdict, "without both it is another answer");
    }
    told_verdict(alloc, verdict)
}

/// Whether an encoded hash was made with other settings.
pub fn rehash(alloc: Global, words: &mut Words<'_>) -> Result<String> {
    let inputs = Inputs::read(alloc, words)?;
    let text = words.text(alloc)?;
    let answer = needs_rehash(alloc, text.as_str(), &inputs.own_config());
    told_verdict(alloc, answer)
}

pub fn decoded(alloc: Global, words: &mut Words<'_>) -> Result<String> {
    let text = words.text(alloc)?;
    match decode_string(alloc, text.as_str()) {
        Ok(decoded) => Ok(format!(in alloc; "{decoded:?}")?),
        Err(fault) => told_error(alloc, &fault),
    }
}

pub fn encoded(alloc: Global, words: &mut Words<'_>) -> Result<String> {
    let inputs = Inputs::read(alloc, words)?;
    let hash = words.bytes(alloc)?;
    match inputs.context() {
        Ok(context) => told_text(alloc, encode_string(alloc, &context, hash.as_slice())),
        Err(error) => told_error(alloc, &error),
    }
}

pub fn text_length(alloc: Global, words: &mut Words<'_>) -> Result<String> {
    let variant = Variant::from_str(words.word()?).map_err(|_| anyhow!("the variant"))?;
    let (memory, passes, lanes) = (words.number()?, words.number()?, words.number()?);
    let (salt, hash) = (words.number()?, words.number()?);
    let length = encoded_len(variant, memory, passes, lanes, salt, hash);
    Ok(format!(in alloc; "{length}")?)
}

pub fn item_length(alloc: Global, words: &mut Words<'_>) -> Result<String> {
    Ok(format!(in alloc; "{}", base64_len(words.number()?))?)
}

pub fn digits(alloc: Global, words: &mut Words<'_>) -> Result<String> {
    Ok(format!(in alloc; "{}", num_len(words.number()?))?)
}
