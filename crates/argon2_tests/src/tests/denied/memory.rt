//! The matrix, call by call, and each call twice in a reusable buffer: a denied allocation returns
//! its error.

use super::{AD, ARGON2D, ARGON2ID, PASSWORD, SALT, SECRET, TEXT, in_mode, print_answer};
use argon2::parts::blake2b::hprime;
use argon2::parts::context::Context;
use argon2::parts::fill::{
    fill_memory_blocks, fill_sequential, finalize, initialize, prepare_memory,
};
use argon2::parts::memory::Memory;
use argon2::{
    Config, ThreadMode, Variant, hash_encoded_in, hash_encoded_in_sequential, hash_raw_in,
    hash_raw_in_sequential, verify_encoded_in, verify_encoded_in_sequential, verify_raw_in,
    verify_raw_in_sequential,
};
use std::alloc::Global;
use std::marker::Sync;
use std::sync::Wait;
use std::test::Fail;
use std::thread::Threads;

// ---- the matrix, its fill and its hash, call by call

/// The context of RFC 9106, section 5, in a thread mode.
fn context(variant: Variant, mode: ThreadMode) -> argon2::Result<Context<'static>> {
    Context::new(in_mode(variant, mode), &PASSWORD, &SALT)
}

#[test]
fn memory_new_denied_in_turn(rt: HostRuntime) -> Result<(), Fail> {
    let memory = Memory::new(rt.alloc(), 4, 8);
    let answer = memory.map(|memory| memory.lanes() == 4 && memory.writes() == 0);
    print_answer(&rt, answer)
}

/// Whether a memory of 4 lanes of 8 blocks is filled, and H' writes 100 bytes.
fn filled(alloc: Global, variant: Variant) -> argon2::Result<bool> {
    let context = context(variant, ThreadMode::Parallel)?;
    let mut memory = Memory::empty(alloc);
    prepare_memory(alloc, &context, &mut memory)?;
    initialize(&context, &mut memory);
    fill_sequential(&context, &mut memory);
    let mut stretched = [0; 100];
    hprime(&mut stretched, &[1; 72]);
    Ok(memory.writes() == 96 && stretched != [0; 100])
}

// Each has to allocate what `memory_new` does, and nothing else. Argon2i's references depend on no
// block, Argon2d's on blocks, Argon2id's first on none and then on blocks.
#[test]
fn memory_new_and_filled_argon2d_denied_in_turn(rt: HostRuntime) -> Result<(), Fail> {
    print_answer(&rt, filled(rt.alloc(), Variant::Argon2d))
}

#[test]
fn memory_new_and_filled_argon2i_denied_in_turn(rt: HostRuntime) -> Result<(), Fail> {
    print_answer(&rt, filled(rt.alloc(), Variant::Argon2i))
}

#[test]
fn memory_new_and_filled_argon2id_denied_in_turn(rt: HostRuntime) -> Result<(), Fail> {
    print_answer(&rt, filled(rt.alloc(), Variant::Argon2id))
}

/// Whether a memory is filled in a thread mode.
fn filled_in_mode<R: Threads + Wait + Sync>(
    rt: &R,
    alloc: Global,
    mode: ThreadMode,
) -> argon2::Result<bool> {
    let context = context(Variant::Argon2d, mode)?;
    let mut memory = Memory::empty(alloc);
    prepare_memory(alloc, &context, &mut memory)?;
    initialize(&context, &mut memory);
    fill_memory_blocks(rt, alloc, &context, &mut memory)?;
    Ok(memory.writes() == 96)
}

#[test]
fn fill_memory_blocks_by_workers_denied_in_turn(rt: HostRuntime) -> Result<(), Fail> {
    print_answer(&rt, filled_in_mode(&rt, rt.alloc(), ThreadMode::Parallel))
}

#[test]
fn fill_memory_blocks_by_two_workers_denied_in_turn(rt: HostRuntime) -> Result<(), Fail> {
    print_answer(&rt, filled_in_mode(&rt, rt.alloc(), ThreadMode::AtMost(2)))
}

#[test]
fn fill_memory_blocks_in_one_thread_denied_in_turn(rt: HostRuntime) -> Result<(), Fail> {
    print_answer(&rt, filled_in_mode(&rt, rt.alloc(), ThreadMode::Sequential))
}

/// Whether the hash of a filled memory is the tag.
fn hashed(alloc: Global) -> argon2::Result<bool> {
    let context = context(Variant::Argon2d, ThreadMode::Parallel)?;
    let mut memory = Memory::empty(alloc);
    prepare_memory(alloc, &context, &mut memory)?;
    initialize(&context, &mut memory);
    fill_sequential(&context, &mut memory);
    let tag = finalize(alloc, &context, &memory)?;
    Ok(tag.as_slice() == ARGON2D.as_slice())
}

#[test]
fn finalize_denied_in_turn(rt: HostRuntime) -> Result<(), Fail> {
    print_answer(&rt, hashed(rt.alloc()))
}

// ---- each call twice in a reusable buffer of the caller. The second call allocates no blocks, and
// each call writes each block once a pass. Then one call in a buffer of another shape

// The writes of two calls: 3 passes over 32 blocks.
const WRITES: u64 = 2 * 3 * 32;

/// The settings of RFC 9106's tag of Argon2id, by workers.
fn by_workers() -> Config<'static> {
    in_mode(Variant::Argon2id, ThreadMode::Parallel)
}

/// Whether a call over a memory gives what it has to, twice.
fn twice<F: Fn(&mut Memory) -> argon2::Result<bool>>(alloc: Global, call: F) -> argon2::Result<bool>
    requires { F.IsAlwaysCallable call }
{
    let mut memory = Memory::empty(alloc);
    let (first, second) = (call(&mut memory)?, call(&mut memory)?);
    Ok(first && second && memory.writes() == WRITES)
}

#[test]
fn hash_raw_in_twice_denied_in_turn(rt: HostRuntime) -> Result<(), Fail> {
    let (alloc, config) = (rt.alloc(), by_workers());
    let answer = twice(alloc, |memory| {
        let tag = hash_raw_in(&rt, alloc, memory, &PASSWORD, &SALT, &config)?;
        Ok(tag.as_slice() == ARGON2ID.as_slice())
    });
    print_answer(&rt, answer)
}

#[test]
fn hash_raw_in_sequential_twice_denied_in_turn(rt: HostRuntime) -> Result<(), Fail> {
    let (alloc, config) = (rt.alloc(), by_workers());
    let answer = twice(alloc, |memory| {
        let tag = hash_raw_in_sequential(alloc, memory, &PASSWORD, &SALT, &config)?;
        Ok(tag.as_slice() == ARGON2ID.as_slice())
    });
    print_answer(&rt, answer)
}

/// Whether hashing returns the tag if the buffer has twice the blocks, and so has to be freed
/// first.
fn hash_in_another_shape(alloc: Global) -> argon2::Result<bool> {
    let (config, mut memory) = (by_workers(), Memory::new(alloc, 4, 16)?);
    let tag = hash_raw_in_sequential(alloc, &mut memory, &PASSWORD, &SALT, &config)?;
    Ok(tag.as_slice() == ARGON2ID.as_slice() && memory.lane_length() == 8)
}

#[test]
fn hash_raw_in_another_shape_denied_in_turn(rt: HostRuntime) -> Result<(), Fail> {
    print_answer(&rt, hash_in_another_shape(rt.alloc()))
}

#[test]
fn hash_encoded_in_twice_denied_in_turn(rt: HostRuntime) -> Result<(), Fail> {
    let (alloc, config) = (rt.alloc(), by_workers());
    let answer = twice(alloc, |memory| {
        let text = hash_encoded_in(&rt, alloc, memory, &PASSWORD, &SALT, &config)?;
        Ok(text.as_str() == TEXT)
    });
    print_answer(&rt, answer)
}

#[test]
fn hash_encoded_in_sequential_twice_denied_in_turn(rt: HostRuntime) -> Result<(), Fail> {
    let (alloc, config) = (rt.alloc(), by_workers());
    let answer = twice(alloc, |memory| {
        let text = hash_encoded_in_sequential(alloc, memory, &PASSWORD, &SALT, &config)?;
        Ok(text.as_str() == TEXT)
    });
    print_answer(&rt, answer)
}

#[test]
fn verify_raw_in_twice_denied_in_turn(rt: HostRuntime) -> Result<(), Fail> {
    let (alloc, config) = (rt.alloc(), by_workers());
    let answer = twice(alloc, |memory| {
        verify_raw_in(&rt, alloc, memory, &PASSWORD, &SALT, &ARGON2ID, &config)
    });
    print_answer(&rt, answer)
}

#[test]
fn verify_raw_in_sequential_twice_denied_in_turn(rt: HostRuntime) -> Result<(), Fail> {
    let (alloc, config) = (rt.alloc(), by_workers());
    let answer = twice(alloc, |memory| {
        verify_raw_in_sequential(alloc, memory, &PASSWORD, &SALT, &ARGON2ID, &config)
    });
    print_answer(&rt, answer)
}

#[test]
fn verify_encoded_in_twice_denied_in_turn(rt: HostRuntime) -> Result<(), Fail> {
    let alloc = rt.alloc();
    let answer = twice(alloc, |memory| {
        verify_encoded_in(&rt, alloc, memory, TEXT, &PASSWORD, &SECRET, &AD)
    });
    print_answer(&rt, answer)
}

#[test]
fn verify_encoded_in_sequential_twice_denied_in_turn(rt: HostRuntime) -> Result<(), Fail> {
    let alloc = rt.alloc();
    let answer = twice(alloc, |memory| {
        verify_encoded_in_sequential(alloc, memory, TEXT, &PASSWORD, &SECRET, &AD)
    });
    print_answer(&rt, answer)
}
