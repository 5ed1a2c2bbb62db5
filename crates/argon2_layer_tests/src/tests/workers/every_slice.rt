//! All slices under one gate, which counts the calls of each slice separately.

ghost use Rattle.std.specs.Prelude.{IfOk};
ghost use Rattle.argon2_memory.specs.Standard.Kept.{HasShape};
ghost use Rattle.argon2_memory.specs.Views.Jobs.{setting_of_context};

use super::overlap::wait;
use super::{Tested, two_lanes};
use argon2_fill::fill::{finalize, initialize, prepare_memory};
use argon2_fill::workers::{AllPermitted, Claim, Filled, Gate, fill_parallel, fill_parallel_with};
use argon2_memory::memory::Memory;
use argon2_memory::segment::Snapshot;
use argon2_standard::config::Config;
use argon2_standard::context::Context;
use argon2_standard::result::Result;
use std::alloc::Global;
use std::marker::Sync;
use std::process::Abort;
use std::sync::Wait;
use std::sync::atomic::{AtomicU64, Ordering};
use std::thread::Threads;

/// Holds lane 0 of each slice in its filling until lane 1 was put, and lane 1 until lane 0's
/// filling has begun. So two workers fill each slice at once.
#[derive(Drop)]
struct EachSlice {
    begun: AtomicU64,
    puts: AtomicU64,
    late: AtomicU64,
    fills: AtomicU64,
}

impl EachSlice {
    fn new() -> EachSlice {
        EachSlice {
            begun: AtomicU64::new(0),
            puts: AtomicU64::new(0),
            late: AtomicU64::new(0),
            fills: AtomicU64::new(0),
        }
    }
}

impl Gate for EachSlice {
    fn fill(&self, claim: Claim, snapshot: &Snapshot<'_>) -> std::result::Result<Filled, Claim> {
        let job = claim.job();
        let slice = u64::from(job.pass() % 3 * 4 + job.slice() % 4);
        let lane = u64::from(claim.lane() % 2);
        // The calls for each lane of the twelve slices are counted in two bits.
        self.fills
            .fetch_add(1 << (2 * (2 * slice + lane)), Ordering::SeqCst);
        if lane == 0 {
            self.begun.store(slice + 1, Ordering::SeqCst);
            wait(&self.puts, slice + 1, &self.late);
        } else {
            wait(&self.begun, slice + 1, &self.late);
        }
        claim.fill(snapshot)
    }

    fn put(&self, lane: u32) {
        if lane == 1 {
            self.puts.fetch_add(1, Ordering::SeqCst);
        }
    }
}

/// A memory that is filled under a gate, with or without a permit.
fn filled<R: Threads + Wait + Sync>(
    rt: &R,
    alloc: Global,
    context: &Context<'_>,
    gate: &EachSlice,
    with_permit: bool,
) -> Result<Memory>
    ensures { IfOk result (λ memory. HasShape (setting_of_context context.now) memory) }
{
    let mut memory = Memory::empty(alloc);
    prepare_memory(alloc, context, &mut memory)?;
    initialize(context, &mut memory);
    if with_permit {
        fill_parallel_with(rt, alloc, context, &mut memory, gate, &AllPermitted)?;
    } else {
        fill_parallel(rt, alloc, context, &mut memory, gate)?;
    }
    Ok(memory)
}

/// Checks what the gate saw of the filling of twelve slices of two lanes.
fn check_gate(rt: &impl Abort, gate: &EachSlice) {
    assert!(rt; gate.late.load(Ordering::SeqCst) == 0, "the gate gave up");
    assert_eq!(rt; gate.fills.load(Ordering::SeqCst), 0x5555_5555_5555);
}

/// Fills twelve slices of two lanes by one of the two calls, in three passes: the first pass, the
/// first of the later ones, and one more. It checks what the gate saw, and that the tag is
/// libargon2's.
fn check_every_slice<R: Threads + Wait + Sync + Abort>(
    rt: &R,
    alloc: Global,
    with_permit: bool,
) -> Tested<()> {
    let config = Config {
        time_cost: 3,
        ..two_lanes()
    };
    let context = Context::new(config, b"password", b"somesalt")?;
    let gate = EachSlice::new();
    let memory = filled(rt, alloc, &context, &gate, with_permit)?;
    check_gate(rt, &gate);
    let tag = finalize(alloc, &context, &memory)?;
    assert_eq!(rt;
        hex::encode(alloc, tag)?.as_str(),
        "6259a0786f80fe870db0d9f16a559e9e124a0d8a1cfa64714c694feea5bfe040"
    );
    Ok(())
}

#[test]
fn gives_the_tag_under_a_gate(rt: HostRuntime) -> Tested<()> {
    check_every_slice(&rt, rt.alloc(), false)
}

#[test]
fn gives_the_tag_under_a_gate_and_a_permit(rt: HostRuntime) -> Tested<()> {
    check_every_slice(&rt, rt.alloc(), true)
}
