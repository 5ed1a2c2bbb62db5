//! Fills by workers, some of which are not permitted.

ghost use Rattle.std.specs.Prelude.{◌==◌, not, true};

use super::{rfc9106, small};
use argon2::parts::board::{NoGate, Permit};
use argon2::parts::context::Context;
use argon2::parts::encoding::decode_string;
use argon2::parts::fill::{fill_parallel_with, finalize, initialize, prepare_memory};
use argon2::parts::memory::Memory;
use argon2::parts::stored::config_of;
use argon2::{
    Config, Error, ThreadMode, Variant, Version, hash_encoded_sequential, verify_encoded,
};
use std::alloc::Global;
use std::marker::Sync;
use std::process::Abort;
use std::sync::Wait;
use std::sync::atomic::{AtomicU64, Ordering};
use std::test::Fail;
use std::thread::Threads;

/// Permits each start of a worker except the one with this number.
#[derive(Clone, Copy)]
struct AllBut(u64);

impl Permit for AllBut {
    ghost permits = { λ all number. not (number == all.0) };

    fn may_start(&self, number: u64) -> bool {
        number != self.0
    }
}

/// Permits each start of a worker. It records for which numbers below 128 it was asked, and whether
/// it was asked for a greater number.
#[derive(Drop)]
struct Asked {
    low: AtomicU64,
    high: AtomicU64,
    other: AtomicU64,
}

impl Permit for Asked {
    ghost permits = { λ _ number. true };

    fn may_start(&self, number: u64) -> bool {
        if number < 64 {
            self.low.fetch_or(1 << number, Ordering::SeqCst);
        } else if number < 128 {
            self.high.fetch_or(1 << (number - 64), Ordering::SeqCst);
        } else {
            self.other.store(1, Ordering::SeqCst);
        }
        true
    }
}

/// The settings of RFC 9106, section 5, for Argon2d: 4 lanes, 3 passes.
fn config(thread_mode: ThreadMode) -> Config<'static> {
    Config {
        thread_mode,
        ..rfc9106(Variant::Argon2d)
    }
}

/// The tag of a context over a memory, which is filled by the workers that may start.
fn tag_with<R: Threads + Wait + Sync, P: Permit>(
    rt: &R,
    alloc: Global,
    context: &Context<'_>,
    memory: &mut Memory,
    permit: &P,
) -> argon2::Result<Vec<u8>> {
    prepare_memory(alloc, context, memory)?;
    initialize(context, memory);
    fill_parallel_with(rt, alloc, context, memory, &NoGate, permit)?;
    finalize(alloc, context, memory)
}

/// Checks that a fill fails, and leaves no memory, where this start is denied.
fn check_refused<R: Abort + Threads + Wait + Sync>(
    rt: &R,
    alloc: Global,
    context: &Context<'_>,
    number: u64,
) -> std::result::Result<(), Fail> {
    let mut memory = Memory::empty(alloc);
    let tag = tag_with(rt, alloc, context, &mut memory, &AllBut(number));
    assert_eq!(rt; tag.err(), Some(Error::WorkerRefused), "start {number}");
    let text = format!(in alloc; "{memory:?}")?;
    assert_eq!(rt; text.as_str(), "Memory { rows: 0, cols: 0 }");
    Ok(())
}

// Each start of a fill is denied alone: 12 slices with 4 workers, or with 2.
#[test]
fn refuses_a_fill_with_any_start_missing(rt: HostRuntime) -> std::result::Result<(), Fail> {
    let alloc = rt.alloc();
    for (thread_mode, starts) in [(ThreadMode::Parallel, 48), (ThreadMode::AtMost(2), 24)] {
        let Ok(context) = Context::new(config(thread_mode), &[1; 32], &[2; 16]) else {
            return Err(Fail::from("the settings are accepted"));
        };
        for number in 0..starts {
            check_refused(&rt, alloc, &context, number)?;
        }
        let mut memory = Memory::empty(alloc);
        let tag = tag_with(&rt, alloc, &context, &mut memory, &AllBut(starts))?;
        assert_eq!(rt;
            hex::encode(alloc, tag)?.as_str(),
            "512b391b6f1162975371d30919734294f868e3be3984f3c1a13a4db9fabe4acb"
        );
    }
    Ok(())
}

// An encoded hash of 20 lanes, as it is verified: 2 passes of 4 slices with 16 workers use the
// numbers from 0 to 127 and no other.
#[test]
fn starts_sixteen_workers_for_twenty_lanes(rt: HostRuntime) -> std::result::Result<(), Fail> {
    let alloc = rt.alloc();
    let config = small(Variant::Argon2id, Version::Version13, 20);
    let text = hash_encoded_sequential(alloc, b"password", b"somesalt", &config)?;
    let stored = decode_string(alloc, text.as_str())?;
    let verified_with = config_of(&stored, &[], &[]);
    assert_eq!(rt; verified_with.thread_mode, ThreadMode::AtMost(16));
    let context = Context::new(verified_with, b"password", b"somesalt")?;
    let permit = Asked {
        low: AtomicU64::new(0),
        high: AtomicU64::new(0),
        other: AtomicU64::new(0),
    };
    let tag = tag_with(&rt, alloc, &context, &mut Memory::empty(alloc), &permit)?;
    assert_eq!(rt; permit.low.load(Ordering::SeqCst), u64::MAX);
    assert_eq!(rt; permit.high.load(Ordering::SeqCst), u64::MAX);
    assert_eq!(rt; permit.other.load(Ordering::SeqCst), 0);
    assert!(rt; tag == stored.hash);
    assert!(rt; verify_encoded(&rt, alloc, text.as_str(), b"password")?);
    Ok(())
}
