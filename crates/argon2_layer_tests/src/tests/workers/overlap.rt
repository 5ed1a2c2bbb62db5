//! Workers under gates that count those that start, or hold them back until others reach a point.

use super::{AllBut, Call, Tested, second_board, snapshot_of, two_lanes};
use argon2_fill::workers::Event::{Put, Take};
use argon2_fill::workers::{Claim, Event, Filled, Gate, Permit, fill_slice, fill_slice_with};
use argon2_memory::segment::Snapshot;
use argon2_standard::config::Config;
use argon2_standard::error::Error;
use std::alloc::Global;
use std::marker::Sync;
use std::process::Abort;
use std::sync::Wait;
use std::sync::atomic::{AtomicU64, Ordering};
use std::thread::Threads;

// ---- workers under a gate that holds one back until another has come so far

/// How often a gate looks before it gives up.
const LOOKS: u32 = 1_000_000_000;

/// Waits until a word is at least a number, and notes in `late` if that takes too long.
pub(super) fn wait(word: &AtomicU64, number: u64, late: &AtomicU64) {
    for _look in 0..LOOKS {
        if word.load(Ordering::SeqCst) >= number {
            return;
        }
    }
    late.store(1, Ordering::SeqCst);
}

/// Holds lane 0 in its filling until the last lane was put, and lane 1 until lane 0's filling has
/// begun.
#[derive(Drop)]
struct Hold {
    last: u32,
    begun: AtomicU64,
    put: AtomicU64,
    late: AtomicU64,
    fills: AtomicU64,
}

impl Hold {
    fn new(last: u32) -> Hold {
        Hold {
            last,
            begun: AtomicU64::new(0),
            put: AtomicU64::new(0),
            late: AtomicU64::new(0),
            fills: AtomicU64::new(0),
        }
    }
}

impl Gate for Hold {
    fn fill(&self, claim: Claim, snapshot: &Snapshot<'_>) -> std::result::Result<Filled, Claim> {
        // The calls for each lane are counted in 16 bits.
        self.fills
            .fetch_add(1 << (16 * (claim.lane() % 4)), Ordering::SeqCst);
        match claim.lane() {
            0 => {
                self.begun.store(1, Ordering::SeqCst);
                wait(&self.put, 1, &self.late);
            }
            1 => wait(&self.begun, 1, &self.late),
            _ => {}
        }
        claim.fill(snapshot)
    }

    fn put(&self, lane: u32) {
        if lane == self.last {
            self.put.store(1, Ordering::SeqCst);
        }
    }
}

/// Fills a slice by two workers under a gate, and checks the order of what happened.
fn check_overlap<R: Threads + Wait + Sync + Abort>(
    rt: &R,
    alloc: Global,
    call: &Call,
    log: &[Event],
) -> Tested<()> {
    let (board, slices) = second_board(alloc, call)?;
    let snapshot = snapshot_of(&board, &slices);
    let gate = Hold::new(call.config.lanes.wrapping_sub(1));
    let board = fill_slice(rt, board, &snapshot, &gate, 2)?;
    assert!(rt; gate.late.load(Ordering::SeqCst) == 0, "the gate gave up");
    let fills = gate.fills.load(Ordering::SeqCst);
    for lane in 0..4 {
        let calls = fills >> (16 * lane) & 0xffff;
        assert!(rt; calls == u64::from(lane < call.config.lanes), "lane {lane}");
    }
    assert_eq!(rt; board.log(), log);
    assert!(rt; board.finish().is_ok());
    Ok(())
}

#[test]
fn fills_two_lanes_at_once(rt: HostRuntime) -> Tested<()> {
    let log = [Take(0), Take(1), Put(1), Put(0)];
    check_overlap(&rt, rt.alloc(), &Call::of_two_lanes(), &log)
}

#[test]
fn fills_four_lanes_by_two_workers(rt: HostRuntime) -> Tested<()> {
    let log = [
        Take(0),
        Take(1),
        Put(1),
        Take(2),
        Put(2),
        Take(3),
        Put(3),
        Put(0),
    ];
    check_overlap(&rt, rt.alloc(), &Call::of_four_lanes(), &log)
}

// ---- workers that are all in their fillings at once

/// More workers than `run_workers` can hold handles of in one call.
const WORKERS: u32 = 40;

/// Keeps each lane in its filling until all are there.
#[derive(Drop)]
struct Meeting {
    there: AtomicU64,
    late: AtomicU64,
}

impl Gate for Meeting {
    fn fill(&self, claim: Claim, snapshot: &Snapshot<'_>) -> std::result::Result<Filled, Claim> {
        self.there.fetch_add(1, Ordering::SeqCst);
        wait(&self.there, u64::from(WORKERS), &self.late);
        claim.fill(snapshot)
    }

    fn put(&self, _lane: u32) {}
}

#[test]
fn forty_workers_fill_at_once(rt: HostRuntime) -> Tested<()> {
    let config = Config {
        lanes: WORKERS,
        mem_cost: 320,
        time_cost: 1,
        ..two_lanes()
    };
    let (board, slices) = second_board(rt.alloc(), &Call::of(config))?;
    let snapshot = snapshot_of(&board, &slices);
    let gate = Meeting {
        there: AtomicU64::new(0),
        late: AtomicU64::new(0),
    };
    let board = fill_slice(&rt, board, &snapshot, &gate, WORKERS)?;
    assert!(rt; board.finish().is_ok());
    assert!(rt; gate.late.load(Ordering::SeqCst) == 0, "they did not meet");
    assert_eq!(rt; gate.there.load(Ordering::SeqCst), u64::from(WORKERS));
    Ok(())
}

// ---- when a gate is told of a put

/// Holds lane 0 in its filling until the gate is told of lane 1's put. The worker that tells it
/// waits until lane 2's filling has begun; the other worker takes lane 2 after it has put lane 0.
#[derive(Drop)]
struct Told {
    begun: AtomicU64,
    told: AtomicU64,
    third: AtomicU64,
    late: AtomicU64,
}

impl Gate for Told {
    fn fill(&self, claim: Claim, snapshot: &Snapshot<'_>) -> std::result::Result<Filled, Claim> {
        match claim.lane() {
            0 => {
                self.begun.store(1, Ordering::SeqCst);
                wait(&self.told, 1, &self.late);
            }
            1 => wait(&self.begun, 1, &self.late),
            2 => self.third.store(1, Ordering::SeqCst),
            _ => {}
        }
        claim.fill(snapshot)
    }

    fn put(&self, lane: u32) {
        if lane == 1 {
            self.told.store(1, Ordering::SeqCst);
            wait(&self.third, 1, &self.late);
        }
    }
}

#[test]
fn a_put_is_reported_after_it_and_outside_the_lock(rt: HostRuntime) -> Tested<()> {
    let alloc = rt.alloc();
    let (board, slices) = second_board(alloc, &Call::of_four_lanes())?;
    let snapshot = snapshot_of(&board, &slices);
    let gate = Told {
        begun: AtomicU64::new(0),
        told: AtomicU64::new(0),
        third: AtomicU64::new(0),
        late: AtomicU64::new(0),
    };
    let board = fill_slice(&rt, board, &snapshot, &gate, 2)?;
    assert!(rt; gate.late.load(Ordering::SeqCst) == 0, "the gate gave up");
    let first = [Take(0), Take(1), Put(1), Put(0), Take(2)];
    assert!(rt; board.log().starts_with(&first), "{:?}", board.log());
    Ok(())
}

// ---- which workers start, counted by a gate

/// How often a filling looks whether too many are under way.
const LOOKS_AT_COUNT: u32 = 20_000_000;

/// Counts the fillings, and sees where more are under way at once than there are workers.
#[derive(Drop)]
struct Count {
    workers: u64,
    fills: AtomicU64,
    under_way: AtomicU64,
    too_many: AtomicU64,
}

impl Count {
    fn new(workers: u64) -> Count {
        Count {
            workers,
            fills: AtomicU64::new(0),
            under_way: AtomicU64::new(0),
            too_many: AtomicU64::new(0),
        }
    }
}

impl Gate for Count {
    fn fill(&self, claim: Claim, snapshot: &Snapshot<'_>) -> std::result::Result<Filled, Claim> {
        self.fills.fetch_add(1, Ordering::SeqCst);
        self.under_way.fetch_add(1, Ordering::SeqCst);
        for _look in 0..LOOKS_AT_COUNT {
            if self.under_way.load(Ordering::SeqCst) > self.workers {
                self.too_many.store(1, Ordering::SeqCst);
                break;
            }
        }
        self.under_way.fetch_sub(1, Ordering::SeqCst);
        claim.fill(snapshot)
    }

    fn put(&self, _lane: u32) {}
}

/// Permits no start of a worker.
#[derive(Clone, Copy)]
struct Nobody;

impl Permit for Nobody {
    ghost use Rattle.std.specs.Prelude.{false};

    ghost permits = { λ _ number. false };

    fn may_start(&self, _number: u64) -> bool {
        false
    }
}

#[test]
fn starts_the_others_of_a_refused_worker(rt: HostRuntime) -> Tested<()> {
    let alloc = rt.alloc();
    for denied in 0..2 {
        let (board, slices) = second_board(alloc, &Call::of_two_lanes())?;
        let snapshot = snapshot_of(&board, &slices);
        let gate = Count::new(1);
        let board = fill_slice_with(&rt, board, &snapshot, &gate, &AllBut(denied), 0, 2);
        assert!(rt; board.err() == Some(Error::WorkerRefused));
        assert_eq!(rt; gate.fills.load(Ordering::SeqCst), 2);
        assert!(rt; gate.too_many.load(Ordering::SeqCst) == 0, "two started");
    }
    Ok(())
}

#[test]
fn starts_nobody_without_a_permit(rt: HostRuntime) -> Tested<()> {
    let alloc = rt.alloc();
    let (board, slices) = second_board(alloc, &Call::of_two_lanes())?;
    let snapshot = snapshot_of(&board, &slices);
    let gate = Count::new(0);
    let board = fill_slice_with(&rt, board, &snapshot, &gate, &Nobody, 0, 2);
    assert!(rt; board.err() == Some(Error::WorkerRefused));
    assert_eq!(rt; gate.fills.load(Ordering::SeqCst), 0);
    Ok(())
}

#[test]
fn starts_no_more_than_asked(rt: HostRuntime) -> Tested<()> {
    let alloc = rt.alloc();
    let (board, slices) = second_board(alloc, &Call::of_four_lanes())?;
    let snapshot = snapshot_of(&board, &slices);
    let gate = Count::new(2);
    let board = fill_slice(&rt, board, &snapshot, &gate, 2)?;
    assert!(rt; board.finish().is_ok());
    assert_eq!(rt; gate.fills.load(Ordering::SeqCst), 4);
    assert_eq!(rt; gate.too_many.load(Ordering::SeqCst), 0);
    Ok(())
}
