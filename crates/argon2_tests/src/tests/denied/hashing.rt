//! Hashing, to a tag and to an encoded hash.

use super::{PASSWORD, SALT, TEXT, in_mode, print_answer, tag_of};
use crate::tests::small;
use argon2::ThreadMode::{AtMost, Parallel, Sequential};
use argon2::Variant::{Argon2d, Argon2i, Argon2id};
use argon2::{
    Config, ThreadMode, Variant, Version, hash_encoded, hash_encoded_sequential, hash_raw,
    hash_raw_sequential,
};
use std::alloc::Global;
use std::marker::Sync;
use std::sync::Wait;
use std::test::Fail;
use std::thread::Threads;

// The tag of one pass over 320 KiB in 40 lanes, by libargon2.
const OF_40_LANES: [u8; 32] = [
    0x0c, 0x0b, 0xca, 0xe2, 0x21, 0x4e, 0x5f, 0x1a, 0x99, 0x7a, 0x25, 0xc7, 0xc6, 0xb2, 0xab, 0x0b,
    0x59, 0x31, 0xa5, 0x21, 0x28, 0xb9, 0x34, 0xae, 0xed, 0xbc, 0x03, 0x5a, 0xff, 0x89, 0xd8, 0x1f,
];

/// Whether hashing returns RFC 9106's tag.
fn hash<R: Threads + Wait + Sync>(
    rt: &R,
    alloc: Global,
    variant: Variant,
    mode: ThreadMode,
) -> argon2::Result<bool> {
    let raw = hash_raw(rt, alloc, &PASSWORD, &SALT, &in_mode(variant, mode))?;
    Ok(raw.as_slice() == tag_of(variant))
}

/// Whether the call that ignores the thread mode returns RFC 9106's tag.
fn hash_sequential(alloc: Global, variant: Variant) -> argon2::Result<bool> {
    let config = in_mode(variant, Parallel);
    let raw = hash_raw_sequential(alloc, &PASSWORD, &SALT, &config)?;
    Ok(raw.as_slice() == tag_of(variant))
}

/// Whether hashing returns the encoded hash of RFC 9106's tag.
fn encode<R: Threads + Wait + Sync>(
    rt: &R,
    alloc: Global,
    mode: ThreadMode,
) -> argon2::Result<bool> {
    let config = in_mode(Argon2id, mode);
    let text = hash_encoded(rt, alloc, &PASSWORD, &SALT, &config)?;
    Ok(text.as_str() == TEXT)
}

#[test]
fn hash_raw_by_workers_argon2d_denied_in_turn(rt: HostRuntime) -> Result<(), Fail> {
    print_answer(&rt, hash(&rt, rt.alloc(), Argon2d, Parallel))
}

#[test]
fn hash_raw_by_two_workers_argon2d_denied_in_turn(rt: HostRuntime) -> Result<(), Fail> {
    print_answer(&rt, hash(&rt, rt.alloc(), Argon2d, AtMost(2)))
}

#[test]
fn hash_raw_in_one_thread_argon2d_denied_in_turn(rt: HostRuntime) -> Result<(), Fail> {
    print_answer(&rt, hash(&rt, rt.alloc(), Argon2d, Sequential))
}

#[test]
fn hash_raw_sequential_argon2d_denied_in_turn(rt: HostRuntime) -> Result<(), Fail> {
    print_answer(&rt, hash_sequential(rt.alloc(), Argon2d))
}

#[test]
fn hash_raw_by_workers_argon2i_denied_in_turn(rt: HostRuntime) -> Result<(), Fail> {
    print_answer(&rt, hash(&rt, rt.alloc(), Argon2i, Parallel))
}

#[test]
fn hash_raw_by_two_workers_argon2i_denied_in_turn(rt: HostRuntime) -> Result<(), Fail> {
    print_answer(&rt, hash(&rt, rt.alloc(), Argon2i, AtMost(2)))
}

#[test]
fn hash_raw_in_one_thread_argon2i_denied_in_turn(rt: HostRuntime) -> Result<(), Fail> {
    print_answer(&rt, hash(&rt, rt.alloc(), Argon2i, Sequential))
}

#[test]
fn hash_raw_sequential_argon2i_denied_in_turn(rt: HostRuntime) -> Result<(), Fail> {
    print_answer(&rt, hash_sequential(rt.alloc(), Argon2i))
}

#[test]
fn hash_raw_by_workers_argon2id_denied_in_turn(rt: HostRuntime) -> Result<(), Fail> {
    print_answer(&rt, hash(&rt, rt.alloc(), Argon2id, Parallel))
}

#[test]
fn hash_raw_by_two_workers_argon2id_denied_in_turn(rt: HostRuntime) -> Result<(), Fail> {
    print_answer(&rt, hash(&rt, rt.alloc(), Argon2id, AtMost(2)))
}

#[test]
fn hash_raw_in_one_thread_argon2id_denied_in_turn(rt: HostRuntime) -> Result<(), Fail> {
    print_answer(&rt, hash(&rt, rt.alloc(), Argon2id, Sequential))
}

#[test]
fn hash_raw_sequential_argon2id_denied_in_turn(rt: HostRuntime) -> Result<(), Fail> {
    print_answer(&rt, hash_sequential(rt.alloc(), Argon2id))
}

#[test]
fn hash_encoded_by_workers_denied_in_turn(rt: HostRuntime) -> Result<(), Fail> {
    print_answer(&rt, encode(&rt, rt.alloc(), Parallel))
}

#[test]
fn hash_encoded_by_two_workers_denied_in_turn(rt: HostRuntime) -> Result<(), Fail> {
    print_answer(&rt, encode(&rt, rt.alloc(), AtMost(2)))
}

#[test]
fn hash_encoded_in_one_thread_denied_in_turn(rt: HostRuntime) -> Result<(), Fail> {
    print_answer(&rt, encode(&rt, rt.alloc(), Sequential))
}

#[test]
fn hash_encoded_sequential_denied_in_turn(rt: HostRuntime) -> Result<(), Fail> {
    let config = in_mode(Argon2id, Parallel);
    let answer = hash_encoded_sequential(rt.alloc(), &PASSWORD, &SALT, &config);
    print_answer(&rt, answer.map(|text| text.as_str() == TEXT))
}

// More workers than `run_workers` can hold handles of in one call, and a single pass.
#[test]
fn hash_raw_by_forty_workers_denied_in_turn(rt: HostRuntime) -> Result<(), Fail> {
    let config = Config {
        mem_cost: 320,
        thread_mode: Parallel,
        time_cost: 1,
        ..small(Argon2id, Version::Version13, 40)
    };
    let tag = hash_raw(&rt, rt.alloc(), b"password", b"somesalt", &config);
    print_answer(&rt, tag.map(|tag| tag.as_slice() == OF_40_LANES.as_slice()))
}
