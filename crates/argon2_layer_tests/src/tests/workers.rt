//! Tests that take and put lanes on the board without workers, and tests of permits and resource
//! errors.

ghost use Rattle.std.specs.Prelude.{◌≡◌, IfOk};
ghost use Rattle.std.specs.List.{remove};
ghost use Rattle.argon2_fill.specs.Views.Boards.{NoneOut};
ghost use Rattle.argon2_memory.specs.Views.Filling.{IsSnapshot};
ghost use Rattle.argon2_memory.specs.Views.Memories.{AreSlices, segments_of};
ghost use Rattle.argon2_memory.specs.Views.Places.{places_in, AreFilledBelow};

mod every_slice;
mod overlap;

use super::{Tested, rfc9106, two_lanes};
use argon2_fill::fill::{fill_slice_in_turn, initialize, prepare_memory};
use argon2_fill::workers::{
    Board, Claim, Event, Filled, NoGate, Permit, Place, board_of, fill_slice, fill_slice_with,
};
use argon2_memory::job::{Job, facts_of_context, facts_of_job};
use argon2_memory::memory::{Memory, Slices, others, take_slices};
use argon2_memory::segment::{Segment, Snapshot};
use argon2_standard::config::Config;
use argon2_standard::context::Context;
use argon2_standard::error::Error;
use argon2_standard::result::Result;
use argon2_standard::variant::Variant;
use std::alloc::Global;
use std::marker::Sync;
use std::process::Abort;
use std::sync::Wait;
use std::thread::Threads;

/// A call.
#[derive(Clone, Copy)]
struct Call {
    password: &'static [u8],
    salt: &'static [u8],
    config: Config<'static>,
}

impl Call {
    fn of(config: Config<'static>) -> Call {
        Call {
            password: b"password",
            salt: b"somesalt",
            config,
        }
    }

    /// A call with two lanes.
    fn of_two_lanes() -> Call {
        Call::of(two_lanes())
    }

    /// A call with four lanes and the inputs of RFC 9106, section 5.
    fn of_four_lanes() -> Call {
        Call {
            password: &[1; 32],
            salt: &[2; 16],
            config: rfc9106(Variant::Argon2d),
        }
    }
}

/// The job at the second slice of the first pass, and the slices of a memory whose first slice is
/// filled.
fn begin(alloc: Global, call: &Call) -> Result<(Job, Slices)>
    ensures at { IfOk result (λ r. (r.0.pass ≡ 0) × (r.0.slice ≡ 1)) }
    ensures slices { IfOk result (λ r. AreSlices r.0.setting.lanes r.0.setting.segment_length
        (segments_of r.1)) }
    ensures ready { IfOk result (λ r. AreFilledBelow r.0.setting 0 1 (places_in (segments_of r.1))) }
{
    let context = Context::new(call.config, call.password, call.salt)?;
    let job = Job::new(&context);
    facts_of_job(&job);
    facts_of_context(&context);
    let mut memory = Memory::empty(alloc);
    prepare_memory(alloc, &context, &mut memory)?;
    initialize(&context, &mut memory);
    let mut slices = take_slices(&mut memory);
    fill_slice_in_turn(&job, &mut slices);
    Ok((job.at(0, 1), slices))
}

/// A board for the second slice, and the other slices.
fn second_board(alloc: Global, call: &Call) -> Result<(Board, Slices)>
    ensures none_out { IfOk result (λ r. NoneOut r.0.places) }
    ensures snapshot { IfOk result (λ r. IsSnapshot (record {
      job = r.0.job;
      others = remove (segments_of r.1) 1;
    })) }
{
    let (job, mut slices) = begin(alloc, call)?;
    let board = board_of(alloc, &job, &mut slices)?;
    Ok((board, slices))
}

/// The snapshot that the board's lanes are filled from.
fn snapshot_of<'a>(board: &Board, slices: &'a Slices) -> Snapshot<'a>
    requires { IsSnapshot (record {
      job = board.now.job;
      others = remove (segments_of slices.now) 1;
    }) }
    ensures { result.job ≡ board.now.job }
{
    Snapshot::new(*board.job(), others(slices, 1))
}

/// The next lane of a board on which one waits.
fn next(board: &mut Board, waits: &str) -> Tested<Claim> {
    Ok(board.take().ok_or(waits)?)
}

/// A lane, filled from a snapshot of its job.
fn filled(claim: Claim, snapshot: &Snapshot<'_>, is_of_job: &str) -> Tested<Filled> {
    Ok(claim.fill(snapshot).ok().ok_or(is_of_job)?)
}

/// The state of a lane, checked to be one of the board's.
fn place(rt: &impl Abort, board: &Board, lane: u32) -> Place {
    assert!(rt; lane < board.job().lanes());
    board.place(lane)
}

/// Takes two lanes, which are all, and puts the second before the first.
fn put_in_turn(rt: &impl Abort, board: &mut Board, snapshot: &Snapshot<'_>) -> Tested<()> {
    let first = next(board, "lane 0 waits")?;
    let second = next(board, "lane 1 waits")?;
    assert!(rt; first.lane() == 0 && second.lane() == 1);
    assert!(rt; board.take().is_none());
    let second = filled(second, snapshot, "the snapshot is of the job")?;
    assert!(rt; board.put(second).is_ok());
    assert!(rt; place(rt, board, 0) == Place::Out && place(rt, board, 1) == Place::Done);
    let first = filled(first, snapshot, "the snapshot is of the job")?;
    assert!(rt; board.put(first).is_ok());
    Ok(())
}

/// Lane 0 of another board of the same job, filled.
fn lane_of_another(alloc: Global, snapshot: &Snapshot<'_>) -> Tested<Filled> {
    let (mut another, _slices) = second_board(alloc, &Call::of_two_lanes())?;
    let claim = next(&mut another, "lane 0 waits")?;
    filled(claim, snapshot, "the snapshot is of the job")
}

#[test]
fn hands_out_lanes_in_order(rt: HostRuntime) -> Tested<()> {
    let alloc = rt.alloc();
    let (mut board, slices) = second_board(alloc, &Call::of_two_lanes())?;
    let snapshot = snapshot_of(&board, &slices);
    put_in_turn(&rt, &mut board, &snapshot)?;
    let again = lane_of_another(alloc, &snapshot)?;
    assert!(rt; board.put(again).is_err());
    let log = [Event::Take(0), Event::Take(1), Event::Put(1), Event::Put(0)];
    assert_eq!(rt; board.log(), log.as_slice());
    assert!(rt; board.finish()?.len() == 2);
    Ok(())
}

/// Takes two lanes, and puts the second alone.
fn put_one_of_two(rt: &impl Abort, board: &mut Board, snapshot: &Snapshot<'_>) -> Tested<()> {
    let first = next(board, "lane 0 waits")?;
    let second = next(board, "lane 1 waits")?;
    let second = filled(second, snapshot, "the snapshot is of the job")?;
    assert!(rt; board.put(second).is_ok());
    drop(first);
    Ok(())
}

#[test]
fn finishes_no_slice_with_a_lane_out(rt: HostRuntime) -> Tested<()> {
    let (mut board, slices) = second_board(rt.alloc(), &Call::of_two_lanes())?;
    let snapshot = snapshot_of(&board, &slices);
    put_one_of_two(&rt, &mut board, &snapshot)?;
    assert!(rt; board.finish().err() == Some(Error::WorkerRefused));
    Ok(())
}

/// Fills a lane of a board from a snapshot of another job, and checks that it comes back.
fn check_filling(rt: &impl Abort, ours: &mut Board, snapshot: &Snapshot<'_>) -> Tested<()> {
    let our_job = *ours.job();
    let claim = next(ours, "lane 0 waits")?;
    let claim = claim.fill(snapshot).err().ok_or("another job")?;
    assert!(rt; claim.lane() == 0 && *claim.job() == our_job);
    Ok(())
}

/// Puts a lane on the board of another job, and checks that it comes back.
fn check_putting(
    rt: &impl Abort,
    ours: &mut Board,
    theirs: &mut Board,
    snapshot: &Snapshot<'_>,
) -> Tested<()> {
    let their_job = *theirs.job();
    let stranger = filled(next(theirs, "lane 0 waits")?, snapshot, "its own job")?;
    let stranger = ours.put(stranger).err().ok_or("another job")?;
    assert!(rt; stranger.lane() == 0 && *stranger.job() == their_job);
    Ok(())
}

#[test]
fn returns_claims_and_lanes_of_another_job(rt: HostRuntime) -> Tested<()> {
    let alloc = rt.alloc();
    let (mut ours, _our_slices) = second_board(alloc, &Call::of_two_lanes())?;
    let another = Call {
        password: b"passworD",
        ..Call::of_two_lanes()
    };
    let (mut theirs, their_slices) = second_board(alloc, &another)?;
    let snapshot = snapshot_of(&theirs, &their_slices);
    check_filling(&rt, &mut ours, &snapshot)?;
    check_putting(&rt, &mut ours, &mut theirs, &snapshot)?;
    assert!(rt; ours.job().lanes() == 2);
    assert!(rt; ours.place(0) == Place::Out && ours.place(1) == Place::Waiting);
    assert_eq!(rt; ours.log(), [Event::Take(0)].as_slice());
    assert!(rt; ours.finish().err() == Some(Error::WorkerRefused));
    Ok(())
}

/// Permits all numbers of workers except one.
#[derive(Clone, Copy)]
struct AllBut(u64);

impl Permit for AllBut {
    ghost use Rattle.std.specs.Prelude.{not, ◌==◌};

    ghost permits = { λ permit number. not (number == permit.0) };

    fn may_start(&self, number: u64) -> bool {
        number != self.0
    }
}

#[test]
fn starts_permitted_workers_alone(rt: HostRuntime) -> Tested<()> {
    let alloc = rt.alloc();
    for denied in 6..10 {
        let (board, slices) = second_board(alloc, &Call::of_two_lanes())?;
        let snapshot = snapshot_of(&board, &slices);
        let permit = AllBut(denied);
        let board = fill_slice_with(&rt, board, &snapshot, &NoGate, &permit, 7, 2);
        let is_denied = denied == 7 || denied == 8;
        let expected = is_denied.then_some(Error::WorkerRefused);
        assert!(rt; board.err() == expected, "{denied}");
    }
    Ok(())
}

// Whatever allocation is denied, the result is the board or `OutOfMemory`.
#[test]
fn board_new_denied_in_turn(rt: HostRuntime) -> Tested<()> {
    let alloc = rt.alloc();
    let board = match begin(alloc, &Call::of_four_lanes()) {
        Ok((job, mut slices)) => board_of(alloc, &job, &mut slices),
        Err(e) => Err(e),
    };
    match board {
        Ok(board) => {
            assert!(rt; board.log().is_empty());
            println!(rt; "value")?;
        }
        Err(e) => {
            assert!(rt; e == Error::OutOfMemory);
            println!(rt; "OutOfMemory")?;
        }
    }
    Ok(())
}

/// The second slice, filled by four workers.
fn second_slice<R: Threads + Wait + Sync>(rt: &R, alloc: Global) -> Result<Vec<Segment>> {
    let (board, slices) = second_board(alloc, &Call::of_four_lanes())?;
    let snapshot = snapshot_of(&board, &slices);
    fill_slice(rt, board, &snapshot, &NoGate, 4)?.finish()
}

// Whatever allocation or worker is denied, the result is the slice or a resource error.
#[test]
fn fill_slice_denied_in_turn(rt: HostRuntime) -> Tested<()> {
    match second_slice(&rt, rt.alloc()) {
        Ok(segments) => {
            assert!(rt; segments.len() == 4);
            println!(rt; "value")?;
        }
        Err(e) => {
            assert!(rt; e == Error::OutOfMemory || e == Error::WorkerRefused);
            println!(rt; "{e:?}")?;
        }
    }
    Ok(())
}
