//! The workers of one slice: which may be started, what each of them does, and how they are joined.

ghost use Rattle.std.specs.Prelude.{◌≡◌, ◌↔◌, ◌+◌, ◌^◌, ◌<◌, IsTrue, ◌≤◌, true, IfErr, IfOk};
ghost use Rattle.argon2_fill.specs.Views.Boards.{PermitsAll, AllDone, NoneOut};

use crate::stack_wiping::wipe_stack;
use crate::workers::board::{Board, Gate, is_filled, put_lane, take_lane};
use argon2_memory::segment::Snapshot;
use argon2_standard::error::Error;
use argon2_standard::result::Result;
use arrayvec::ArrayVec;
use std::marker::Sync;
use std::sync::{Mutex, Wait};
use std::thread;
use std::thread::{Builder, JoinHandle, Parker, Scope, Threads};
use std::time::Duration;

/// A set of numbers: the workers that may be started. Only the thread that starts a worker
/// consults it, so that threads need not share it.
pub trait Permit {
    ghost use Rattle.std.specs.Prelude.{ℕ, Bool};

    ghost permits: { Self → ℕ → Bool };

    /// Whether the worker of this number may be started: whether the number is in the set.
    fn may_start(&self, number: u64) -> bool
        ensures { result ≡ permits self.now number };
}

/// All numbers.
#[derive(Clone, Copy, Debug)]
pub struct AllPermitted;

impl Permit for AllPermitted {
    ghost use Rattle.std.specs.Prelude.{true};

    ghost permits = { λ _ number. true };

    fn may_start(&self, _number: u64) -> bool {
        true
    }
}

/// Whether the `count` numbers from `first` on are permitted.
fn all_permitted<P: Permit>(permit: &P, first: u64, count: u32) -> bool
    requires { first + count < 2 ^ 64 }
    ensures { IsTrue result ↔ PermitsAll (P.permits permit.now) first count }
{
    (0..count).all(|k| permit.may_start(first + u64::from(k)))
}

/// How many handles one call of `run_workers` has on its stack, where no allocation can fail. For
/// more workers it calls itself.
const ROOM: usize = 32;

/// The stack of a worker, in bytes. It used at most 16 KiB when measured, and `wipe_stack` uses
/// little more. The rest is for a program's thread-locals and the calls of a gate.
const STACK: usize = 256 * 1024;

/// One worker: it takes, fills and puts one lane after another, until none waits, or a fill or put
/// is rejected.
// Its frames have H0. It is never inlined, so that `work_and_wipe` may overwrite them.
#[inline(never)]
fn work<R: Wait, G: Gate>(rt: &R, board: &Mutex<Option<Board>>, snapshot: &Snapshot<'_>, gate: &G) {
    // Each lane goes out once, so no worker takes more lanes than there are. The prover needs this
    // bound, since it does not see the board behind the lock.
    for _claim in 0..snapshot.job().lanes() {
        let Some(claim) = take_lane(rt, board) else {
            return;
        };
        let lane = claim.lane();
        // A lane that is dropped here stays out, so `is_filled` is false in the end.
        let Ok(filled) = gate.fill(claim, snapshot) else {
            return;
        };
        if !put_lane(rt, board, filled) {
            return;
        }
        gate.put(lane);
    }
}

/// A worker's whole thread. Other threads may get its stack later.
fn work_and_wipe<R: Wait, G: Gate>(
    rt: &R,
    board: &Mutex<Option<Board>>,
    snapshot: &Snapshot<'_>,
    gate: &G,
) {
    work(rt, board, snapshot, gate);
    wipe_stack();
}

/// Tries once to start the worker of a number, which is permitted. Only the contract uses the
/// permit and the number. The thread gets neither, so threads need not share a permit.
fn try_to_start<'s, E, R: Wait + Sync, G: Gate, P: Permit>(
    scope: &Scope<'s, E>,
    rt: &'s R,
    board: &'s Mutex<Option<Board>>,
    snapshot: &'s Snapshot<'_>,
    gate: &'s G,
    _permit: &P,
    _number: u64,
) -> Option<JoinHandle<()>>
    requires permitted { P.permits _permit.now _number ≡ true }
{
    Builder::new()
        .stack_size(STACK)
        .spawn_scoped(scope, move || work_and_wipe(rt, board, snapshot, gate))
        .ok()
}

/// How often a start is tried before it counts as denied. Linux still counts a joined thread for a
/// moment, so a start may be denied although the limit will soon allow it.
const TRIES: u32 = 100;

/// The time between two tries, in milliseconds. A signal may end it early.
const PAUSE: u64 = 1;

/// Starts the worker of a number, which is permitted. It is tried up to `tries` times, once at
/// least, with a pause after each try but the last.
fn start<'s, E, R: Wait + Sync, G: Gate, P: Permit>(
    scope: &Scope<'s, E>,
    rt: &'s R,
    board: &'s Mutex<Option<Board>>,
    snapshot: &'s Snapshot<'_>,
    gate: &'s G,
    permit: &P,
    number: u64,
    tries: u32,
) -> Option<JoinHandle<()>>
    requires permitted { P.permits permit.now number ≡ true }
{
    for _again in 1..tries {
        let handle = try_to_start(scope, rt, board, snapshot, gate, permit, number);
        if handle.is_some() {
            return handle;
        }
        // A parker that nobody unparks pauses the thread, since a sleep would need a clock.
        Parker::new().park_timeout(rt, Duration::from_millis(PAUSE));
    }
    try_to_start(scope, rt, board, snapshot, gate, permit, number)
}

/// Starts the workers of the `count` numbers from `first` on, waits until all that were started
/// have ended, and returns whether all were started. After one is denied or not permitted, the
/// others of this call are tried once each, since the result is an error anyway. If `handles` is
/// full, another call starts the remaining numbers.
fn run_workers<'s, E, R: Threads + Wait + Sync, G: Gate, P: Permit>(
    scope: &Scope<'s, E>,
    rt: &'s R,
    board: &'s Mutex<Option<Board>>,
    snapshot: &'s Snapshot<'_>,
    gate: &'s G,
    permit: &P,
    first: u64,
    count: u32,
) -> bool
    requires numbers_fit { first + count < 2 ^ 64 }
{
    let mut handles: ArrayVec<Option<JoinHandle<()>>, ROOM> = ArrayVec::new();
    let mut all = true;
    for k in 0..count {
        let number = first + u64::from(k);
        // The others start before any of these is joined, so that all work at the same time. `&=`
        // and not `&&`: the others start even after a denied start.
        if handles.is_full() {
            all &= run_workers(scope, rt, board, snapshot, gate, permit, number, count - k);
            break;
        }
        let tries = if all { TRIES } else { 1 };
        let handle = if permit.may_start(number) {
            start(scope, rt, board, snapshot, gate, permit, number, tries)
        } else {
            None
        };
        all &= handle.is_some();
        handles.push(handle);
    }
    // A scope alone does not wait until a thread has ended. Lingering threads would count against a
    // thread limit when those of the next slice start.
    for handle in handles {
        if let Some(handle) = handle {
            handle.join(rt);
        }
    }
    all
}

/// Fills the lanes of a board by `workers` workers, at least one, and joins them. The board and the
/// snapshot must be of one job, and no lane may be out, since nobody could put it back. The workers
/// take and put lanes under one lock, and fill them outside it. The board is returned with all
/// lanes done. A denied start is tried again, 100 times in all, a millisecond apart. If all tries
/// were denied, the call returns `WorkerRefused`, even if the others finished the slice. It
/// allocates nothing of its own.
pub fn fill_slice<R: Threads + Wait + Sync, G: Gate>(
    rt: &R,
    board: Board,
    snapshot: &Snapshot<'_>,
    gate: &G,
    workers: u32,
) -> Result<Board>
    requires job { board.job ≡ snapshot.now.job }
    requires none_out { NoneOut board.places }
    requires some_worker { 0 < workers }
    ensures job { IfOk result (λ b. b.job ≡ snapshot.now.job) }
    ensures done { IfOk result (λ b. AllDone b.places) }
    ensures refused { IfErr result (λ e. e ≡ Error.WorkerRefused) }
{
    fill_slice_with(rt, board, snapshot, gate, &AllPermitted, 0, workers)
}

/// Fills the lanes of a board as `fill_slice` does, by workers that have to be permitted: they have
/// the numbers from `first` on. A worker that is not permitted counts as denied; the others are
/// still started.
pub fn fill_slice_with<R: Threads + Wait + Sync, G: Gate, P: Permit>(
    rt: &R,
    board: Board,
    snapshot: &Snapshot<'_>,
    gate: &G,
    permit: &P,
    first: u64,
    workers: u32,
) -> Result<Board>
    requires job { board.job ≡ snapshot.now.job }
    requires none_out { NoneOut board.places }
    requires some_worker { 0 < workers }
    requires numbers_fit { first + workers < 2 ^ 64 }
    ensures job { IfOk result (λ b. b.job ≡ snapshot.now.job) }
    ensures done { IfOk result (λ b. AllDone b.places) }
    ensures permitted { IfOk result (λ _. PermitsAll (P.permits permit.now) first workers) }
    ensures refused { IfErr result (λ e. e ≡ Error.WorkerRefused) }
{
    // All numbers are checked here, since `run_workers` promises nothing of its result.
    let permitted = all_permitted(permit, first, workers);
    // An `Option`, so that the board can be moved out of the lock when the workers have ended.
    let board = Mutex::new(Some(board));
    let shared = &board;
    // A closure has to state what the functions that it calls require.
    let started = thread::scope(
        thread::scope_env(),
        rt,
        |scope| -> bool
            requires { first + workers < 2 ^ 64 }
        { run_workers(scope, rt, shared, snapshot, gate, permit, first, workers) },
    );
    let back = board.lock(rt).take();
    match back {
        Some(board) if permitted && started && is_filled(&board, snapshot) => Ok(board),
        _ => Err(Error::WorkerRefused),
    }
}
