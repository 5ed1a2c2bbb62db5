//! Questions on the small types: presets, names, numbers, errors and constants.

use crate::line::Words;
use crate::question::told_error;
use anyhow::{Result, anyhow, bail};
use argon2::parts::common::{
    ADDRESSES_IN_BLOCK, BLAKE2B_OUT_LENGTH, BLOCK_SIZE, MAX_AD_LENGTH, MAX_HASH_LENGTH, MAX_LANES,
    MAX_MEMORY, MAX_PWD_LENGTH, MAX_SALT_LENGTH, MAX_SECRET_LENGTH, MAX_TIME, MIN_AD_LENGTH,
    MIN_HASH_LENGTH, MIN_LANES, MIN_MEMORY, MIN_PWD_LENGTH, MIN_SALT_LENGTH, MIN_SECRET_LENGTH,
    MIN_TIME, PREHASH_DIGEST_LENGTH, PREHASH_SEED_LENGTH, QWORDS_IN_BLOCK, SYNC_POINTS,
};
use argon2::{Config, Error, ThreadMode, Variant, Version};
use std::alloc::{AllocError, Global};

/// The answer to a line on a small type.
pub fn answer(alloc: Global, call: &str, words: &mut Words<'_>) -> Result<String> {
    match call {
        "Variant::from_u32" => variant(alloc, Variant::from_u32(words.number()?)),
        "Variant::from_str" => variant(alloc, Variant::from_str(words.word()?)),
        "Variant::default" => variant(alloc, Ok(Variant::default())),
        "Version::from_u32" => version(alloc, Version::from_u32(words.number()?)),
        "Version::from_str" => version(alloc, Version::from_str(words.word()?)),
        "Version::default" => version(alloc, Ok(Version::default())),
        "ThreadMode::from_threads" => mode(alloc, ThreadMode::from_threads(words.number()?)),
        "ThreadMode::AtMost" => mode(alloc, ThreadMode::AtMost(words.number()?)),
        "ThreadMode::default" => mode(alloc, ThreadMode::default()),
        "Error" => error(alloc, words.word()?),
        "common" => constants(alloc),
        _ => preset(alloc, call),
    }
}

/// How a variant is shown, its names, its numbers, and whether it comes after Argon2d and Argon2i.
fn variant(alloc: Global, read: argon2::Result<Variant>) -> Result<String> {
    let variant = match read {
        Ok(variant) => variant,
        Err(error) => return told_error(alloc, &error),
    };
    let (lower, upper) = (variant.as_lowercase_str(), variant.as_uppercase_str());
    let (above_d, above_i) = (variant > Variant::Argon2d, variant > Variant::Argon2i);
    let numbers = (variant.as_u32(), variant.as_u64());
    Ok(format!(in alloc; "{variant:?} {variant} {lower} {upper} {numbers:?} {above_d} {above_i}")?)
}

fn version(alloc: Global, read: argon2::Result<Version>) -> Result<String> {
    let version = match read {
        Ok(version) => version,
        Err(error) => return told_error(alloc, &error),
    };
    let is_above = version > Version::Version10;
    Ok(format!(in alloc; "{version:?} {version} {} {is_above}", version.as_u32())?)
}

fn mode(alloc: Global, mode: ThreadMode) -> Result<String> {
    Ok(format!(in alloc; "{mode:?}")?)
}

/// The message of any value that is a `std::error::Error`.
fn text_of<E: std::error::Error>(alloc: Global, error: &E) -> Result<String, AllocError> {
    format!(in alloc; "{error}")
}

/// The error that `serde` reads from a name, how it is shown, what `serde` writes and its message.
fn error(alloc: Global, name: &str) -> Result<String> {
    let quoted = format!(in alloc; "\"{name}\"")?;
    let read = serde_json::from_str::<Error>(alloc, quoted.as_str());
    let error = read.map_err(|_| anyhow!("no error"))?;
    let written = serde_json::to_string(alloc, &error).map_err(|_| anyhow!("it is not written"))?;
    let text = text_of(alloc, &error)?;
    Ok(format!(in alloc; "{error:?} {written} {text}")?)
}

/// A preset, and whether it uses one thread.
fn preset(alloc: Global, call: &str) -> Result<String> {
    let config = match call {
        // presets, by .ci/pages/presets
        "Config::original" => Config::original(),
        "Config::owasp1" => Config::owasp1(),
        "Config::owasp2" => Config::owasp2(),
        "Config::owasp3" => Config::owasp3(),
        "Config::owasp4" => Config::owasp4(),
        "Config::owasp5" => Config::owasp5(),
        "Config::rfc9106" => Config::rfc9106(),
        "Config::rfc9106_low_mem" => Config::rfc9106_low_mem(),
        // end
        "Config::default" => Config::default(),
        _ => bail!("there is no call of this name"),
    };
    Ok(format!(in alloc; "{config:?} {}", config.uses_sequential())?)
}

/// The least and the greatest value of each input, and the sizes.
fn constants(alloc: Global) -> Result<String> {
    let limits = [
        (MIN_LANES, MAX_LANES),
        (MIN_MEMORY, MAX_MEMORY),
        (MIN_TIME, MAX_TIME),
        (MIN_HASH_LENGTH, MAX_HASH_LENGTH),
        (MIN_PWD_LENGTH, MAX_PWD_LENGTH),
        (MIN_SALT_LENGTH, MAX_SALT_LENGTH),
        (MIN_SECRET_LENGTH, MAX_SECRET_LENGTH),
        (MIN_AD_LENGTH, MAX_AD_LENGTH),
        (SYNC_POINTS, ADDRESSES_IN_BLOCK),
    ];
    let sizes = [
        BLOCK_SIZE,
        QWORDS_IN_BLOCK,
        PREHASH_DIGEST_LENGTH,
        PREHASH_SEED_LENGTH,
        BLAKE2B_OUT_LENGTH,
    ];
    Ok(format!(in alloc; "{limits:?} {sizes:?}")?)
}
