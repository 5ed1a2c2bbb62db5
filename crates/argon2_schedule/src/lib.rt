//! The root calls that may start workers, with inputs, settings and answers passed by value. The
//! machine value that such a call returns therefore holds the whole answer, so that a theorem about
//! every schedule of the machine's model can describe the answer.
#![tactic(auto)]

ghost use Rattle.std.specs.Prelude.{◌≡◌, ◌<◌, ◌^◌, IsUtf8, length};
ghost use Rattle.argon2_schedule.specs.Answers.{
  IsTextLength,
  JudgesHash,
  JudgesText,
  JudgesTextWithin,
  ReturnsTag,
  ReturnsText,
  mode_at,
  variant_at,
  version_at,
};

use argon2::{
    Config, Limits, Result, ThreadMode, Unverified, Variant, Version, hash_encoded, hash_raw,
    verify_encoded_ext, verify_encoded_within, verify_raw,
};
use std::alloc::Global;
use std::marker::Sync;
use std::sync::Wait;
use std::thread::Threads;
use std::{result, str};

/// Returns the variant of a number: 0 for Argon2d, 1 for Argon2i, any other for Argon2id.
fn variant_of(number: u32) -> Variant
    ensures { result ≡ variant_at number }
{
    match number {
        0 => Variant::Argon2d,
        1 => Variant::Argon2i,
        _ => Variant::Argon2id,
    }
}

/// Returns version 0x13 if `newest` is true, and version 0x10 otherwise.
fn version_of(newest: bool) -> Version
    ensures { result ≡ version_at newest }
{
    if newest {
        Version::Version13
    } else {
        Version::Version10
    }
}

/// Returns the thread mode: 0 means as many workers as lanes, any other n means at most n workers.
fn mode_of(threads: u32) -> ThreadMode
    ensures { result ≡ mode_at threads }
{
    if threads == 0 {
        ThreadMode::Parallel
    } else {
        ThreadMode::AtMost(threads)
    }
}

/// Returns the bytes in an array of N bytes.
fn array_of<const N: usize>(bytes: &[u8]) -> [u8; N]
    requires { length bytes.now ≡ N }
    ensures { result ≡ bytes.now }
{
    let mut array = [0; N];
    array.copy_from_slice(bytes);
    array
}

/// Returns the tag that `hash_raw` returns, in an array, or its error. It also returns the runtime.
pub fn hash_raw_by_value<
    const P: usize,
    const S: usize,
    const K: usize,
    const X: usize,
    const T: usize,
    R: Threads + Wait + Sync,
>(
    rt: R,
    alloc: Global,
    pwd: [u8; P],
    salt: [u8; S],
    secret: [u8; K],
    ad: [u8; X],
    variant: u32,
    newest: bool,
    mem_cost: u32,
    time_cost: u32,
    lanes: u32,
    threads: u32,
) -> (Result<[u8; T]>, R)
    requires { T < 2 ^ 32 }
    ensures { ReturnsTag (record {
      pwd = pwd.entry;
      salt = salt.entry;
      secret = secret.entry;
      ad = ad.entry;
      variant = variant;
      newest = newest;
      mem_cost = mem_cost;
      time_cost = time_cost;
      lanes = lanes;
      threads = threads;
      length = T;
    }) result.0 }
{
    let config = Config {
        ad: &ad,
        hash_length: T as u32,
        lanes,
        mem_cost,
        secret: &secret,
        thread_mode: mode_of(threads),
        time_cost,
        variant: variant_of(variant),
        version: version_of(newest),
    };
    let answer = match hash_raw(&rt, alloc, &pwd, &salt, &config) {
        Ok(tag) => Ok(array_of(tag.as_slice())),
        Err(error) => Err(error),
    };
    (answer, rt)
}

/// Returns the encoded hash that `hash_encoded` returns, in an array of N bytes, or its error. It
/// also returns the runtime.
pub fn hash_encoded_by_value<
    const P: usize,
    const S: usize,
    const K: usize,
    const X: usize,
    const N: usize,
    R: Threads + Wait + Sync,
>(
    rt: R,
    alloc: Global,
    pwd: [u8; P],
    salt: [u8; S],
    secret: [u8; K],
    ad: [u8; X],
    variant: u32,
    newest: bool,
    mem_cost: u32,
    time_cost: u32,
    lanes: u32,
    threads: u32,
    hash_length: u32,
) -> (Result<[u8; N]>, R)
    requires size { N < 2 ^ 63 }
    requires text { IsTextLength (record {
      pwd = pwd;
      salt = salt;
      secret = secret;
      ad = ad;
      variant = variant;
      newest = newest;
      mem_cost = mem_cost;
      time_cost = time_cost;
      lanes = lanes;
      threads = threads;
      length = hash_length;
    }) N }
    ensures { ReturnsText (record {
      pwd = pwd.entry;
      salt = salt.entry;
      secret = secret.entry;
      ad = ad.entry;
      variant = variant;
      newest = newest;
      mem_cost = mem_cost;
      time_cost = time_cost;
      lanes = lanes;
      threads = threads;
      length = hash_length;
    }) result.0 }
{
    let config = Config {
        ad: &ad,
        hash_length,
        lanes,
        mem_cost,
        secret: &secret,
        thread_mode: mode_of(threads),
        time_cost,
        variant: variant_of(variant),
        version: version_of(newest),
    };
    let answer = match hash_encoded(&rt, alloc, &pwd, &salt, &config) {
        Ok(text) => Ok(array_of(text.as_bytes())),
        Err(error) => Err(error),
    };
    (answer, rt)
}

/// Returns the verdict that `verify_raw` returns, or its error. It also returns the runtime.
pub fn verify_raw_by_value<
    const P: usize,
    const S: usize,
    const H: usize,
    const K: usize,
    const X: usize,
    R: Threads + Wait + Sync,
>(
    rt: R,
    alloc: Global,
    pwd: [u8; P],
    salt: [u8; S],
    hash: [u8; H],
    secret: [u8; K],
    ad: [u8; X],
    variant: u32,
    newest: bool,
    mem_cost: u32,
    time_cost: u32,
    lanes: u32,
    threads: u32,
    hash_length: u32,
) -> (Result<bool>, R)
    ensures { JudgesHash (record {
      pwd = pwd.entry;
      salt = salt.entry;
      secret = secret.entry;
      ad = ad.entry;
      variant = variant;
      newest = newest;
      mem_cost = mem_cost;
      time_cost = time_cost;
      lanes = lanes;
      threads = threads;
      length = hash_length;
    })
        hash.entry result.0 }
{
    let config = Config {
        ad: &ad,
        hash_length,
        lanes,
        mem_cost,
        secret: &secret,
        thread_mode: mode_of(threads),
        time_cost,
        variant: variant_of(variant),
        version: version_of(newest),
    };
    let answer = verify_raw(&rt, alloc, &pwd, &salt, &hash, &config);
    (answer, rt)
}

/// Returns what `verify_encoded_ext` returns for a UTF-8 string. It also returns the runtime.
pub fn verify_encoded_by_value<
    const E: usize,
    const P: usize,
    const K: usize,
    const X: usize,
    R: Threads + Wait + Sync,
>(
    rt: R,
    alloc: Global,
    encoded: [u8; E],
    pwd: [u8; P],
    secret: [u8; K],
    ad: [u8; X],
) -> (Result<bool>, R)
    requires { IsUtf8 encoded }
    ensures { JudgesText (record {
      encoded = encoded.entry;
      pwd = pwd.entry;
      secret = secret.entry;
      ad = ad.entry;
    }) result.0 }
{
    let text = unsafe { str::from_utf8_unchecked(&encoded) };
    let answer = verify_encoded_ext(&rt, alloc, text, &pwd, &secret, &ad);
    (answer, rt)
}

/// Returns what `verify_encoded_within` returns for a UTF-8 string. It also returns the runtime.
pub fn verify_within_by_value<
    const E: usize,
    const P: usize,
    const K: usize,
    const X: usize,
    R: Threads + Wait + Sync,
>(
    rt: R,
    alloc: Global,
    encoded: [u8; E],
    pwd: [u8; P],
    secret: [u8; K],
    ad: [u8; X],
    mem_cost: u32,
    time_cost: u32,
    lanes: u32,
    work: u64,
) -> (result::Result<bool, Unverified>, R)
    requires { IsUtf8 encoded }
    ensures { JudgesTextWithin (record {
      encoded = encoded.entry;
      pwd = pwd.entry;
      secret = secret.entry;
      ad = ad.entry;
    }) (record {
      mem_cost = mem_cost;
      time_cost = time_cost;
      lanes = lanes;
      work = work;
    }) result.0 }
{
    let limits = Limits {
        mem_cost,
        time_cost,
        lanes,
        work,
    };
    let text = unsafe { str::from_utf8_unchecked(&encoded) };
    let answer = verify_encoded_within(&rt, alloc, text, &pwd, &secret, &ad, &limits);
    (answer, rt)
}
