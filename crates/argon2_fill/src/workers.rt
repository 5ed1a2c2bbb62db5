//! The fill of all slices by workers, one slice after another. They claim the lanes of a slice and
//! put them back under one lock (`board`), and fill them outside it (`crew`).

ghost use Rattle.std.specs.Prelude.{◌≡◌, ◌+◌, ◌*◌, ◌^◌, ◌<◌, [], IfErr, IfOk, OnErr, OnOk, replicate, slice_set, true};
ghost use Rattle.std.specs.List.{remove};
ghost use Rattle.argon2_standard.specs.Standard.Outcome.{IsResourceError};
ghost use Rattle.argon2_standard.specs.Views.Presets.{workers_of};
ghost use Rattle.argon2_memory.specs.Views.Jobs.{setting_of_context};
ghost use Rattle.argon2_fill.specs.Views.Boards.{NoneOut, PermitsAll};
ghost use Rattle.argon2_memory.specs.Views.Filling.{IsSnapshot};
ghost use Rattle.argon2_memory.specs.Theorems.Schedule.{IsBegun};
ghost use Rattle.argon2_memory.specs.Standard.Kept.{HoldsLastPass, HasShape, block_of, no_memory};
ghost use Rattle.argon2_memory.specs.Views.Memories.{AreSlices, segments_of};
ghost use Rattle.argon2_memory.specs.Views.Places.{places_in, AreFilledBelow};

mod board;
mod crew;

use argon2_memory::job::{Job, facts_of_context, facts_of_job, numbered_job, slice_count};
use argon2_memory::memory::{Memory, Slices, memory_of_slices, others, take_slice, take_slices};
use argon2_memory::segment::Snapshot;
use argon2_standard::context::{Context, facts_of_workers};
use argon2_standard::error::Error;
use argon2_standard::result::Result;
pub use board::{Board, Claim, Event, Filled, Gate, NoGate, Place};
pub use crew::{AllPermitted, Permit, fill_slice, fill_slice_with};
use std::alloc::Global;
use std::marker::Sync;
use std::sync::Wait;
use std::thread::Threads;

/// Moves the job's slice out onto a board. The slices that stay are the job's snapshot.
pub fn board_of(alloc: Global, job: &Job, slices: &mut Slices) -> Result<Board>
    requires slices { AreSlices job.now.setting.lanes job.now.setting.segment_length
        (segments_of slices.old) }
    requires ready { AreFilledBelow job.now.setting job.now.pass job.now.slice
        (places_in (segments_of slices.old)) }
    ensures board { IfOk result (λ board. board
        ≡ record {
          job = job.now;
          places = replicate job.now.setting.lanes Place.Waiting;
          log = [];
        }) }
    ensures none_out { IfOk result (λ board. NoneOut board.places) }
    ensures left { segments_of slices.new ≡ slice_set (segments_of slices.old) job.now.slice [] }
    ensures snapshot { IsSnapshot (record {
      job = job.now;
      others = remove
          (segments_of slices.new) job.now.slice;
    }) }
    ensures refused { IfErr result (λ e. e ≡ Error.OutOfMemory) }
{
    facts_of_job(job);
    Board::new(alloc, *job, take_slice(slices, job.slice()))
}

/// Fills the job's slice by `workers` workers, at least one. They have the numbers from `first` on,
/// all of which have to be permitted. The slice moves onto a board and back, and no block is
/// copied. After an error the slice is lost.
fn fill_slice_by_workers<R: Threads + Wait + Sync, G: Gate, P: Permit>(
    rt: &R,
    alloc: Global,
    job: &Job,
    slices: &mut Slices,
    gate: &G,
    permit: &P,
    first: u64,
    workers: u32,
) -> Result<()>
    requires slices { AreSlices job.now.setting.lanes job.now.setting.segment_length
        (segments_of slices.old) }
    requires ready { AreFilledBelow job.now.setting job.now.pass job.now.slice
        (places_in (segments_of slices.old)) }
    requires some_worker { 0 < workers }
    requires numbers_fit { first + workers < 2 ^ 64 }
    ensures slices { OnOk result (AreSlices job.now.setting.lanes job.now.setting.segment_length
        (segments_of slices.new)) }
    ensures filled { OnOk result (AreFilledBelow job.now.setting job.now.pass (job.now.slice + 1)
        (places_in (segments_of slices.new))) }
    ensures permitted { OnOk result (PermitsAll (P.permits permit.now) first workers) }
    ensures refused { IfErr result (IsResourceError true) }
{
    let slice = job.slice();
    // All memory is allocated here, so that no allocation fails while workers run.
    let board = board_of(alloc, job, slices)?;
    let snapshot = Snapshot::new(*job, others(slices, slice));
    let board = fill_slice_with(rt, board, &snapshot, gate, permit, first, workers)?;
    slices[slice as usize] = board.finish()?;
    Ok(())
}

/// Fills all slices of all passes by as many workers as the context's configuration names. Each
/// worker calls the gate. The memory has the context's lanes and lane length, and the first two
/// blocks of each lane as `initialize` leaves them.
///
/// All memory of a slice is allocated before its first worker starts. If that fails, the call
/// returns `OutOfMemory`; if a worker cannot be started, `WorkerRefused`. The memory then has no
/// lanes.
pub fn fill_parallel<R: Threads + Wait + Sync, G: Gate>(
    rt: &R,
    alloc: Global,
    context: &Context<'_>,
    memory: &mut Memory,
    gate: &G,
) -> Result<()>
    requires shape { HasShape (setting_of_context context.now) memory.old }
    requires begun { IsBegun (setting_of_context context.now) (block_of memory.old) }
    ensures shape { OnOk result (HasShape (setting_of_context context.now) memory.new) }
    ensures filled { OnOk result (HoldsLastPass (setting_of_context context.now)
        (block_of memory.new)) }
    ensures left { OnErr result (memory.new ≡ no_memory) }
    ensures refused { IfErr result (IsResourceError true) }
{
    fill_parallel_with(rt, alloc, context, memory, gate, &AllPermitted)
}

/// Fills as `fill_parallel` does, by workers that have to be permitted. With w workers, those of
/// slice s in pass r have the w numbers from (4 r + s) w on. The fill succeeds only if each number
/// is permitted.
pub fn fill_parallel_with<R: Threads + Wait + Sync, G: Gate, P: Permit>(
    rt: &R,
    alloc: Global,
    context: &Context<'_>,
    memory: &mut Memory,
    gate: &G,
    permit: &P,
) -> Result<()>
    requires shape { HasShape (setting_of_context context.now) memory.old }
    requires begun { IsBegun (setting_of_context context.now) (block_of memory.old) }
    ensures shape { OnOk result (HasShape (setting_of_context context.now) memory.new) }
    ensures filled { OnOk result (HoldsLastPass (setting_of_context context.now)
        (block_of memory.new)) }
    ensures permitted { OnOk result (PermitsAll (P.permits permit.now) 0
        (4 * context.now.config.time_cost * workers_of context.now.config)) }
    ensures left { OnErr result (memory.new ≡ no_memory) }
    ensures refused { IfErr result (IsResourceError true) }
{
    facts_of_context(context);
    facts_of_workers(context);
    let workers = context.config.workers();
    let first_job = Job::new(context);
    // Moved out, as in `fill_sequential`. If memory or a worker is denied, they are lost.
    let mut slices = take_slices(memory);
    for n in 0..slice_count(&first_job) {
        let job = numbered_job(&first_job, n);
        let first = n * u64::from(workers);
        fill_slice_by_workers(rt, alloc, &job, &mut slices, gate, permit, first, workers)?;
    }
    *memory = memory_of_slices(first_job.lanes(), first_job.segment_length(), slices);
    Ok(())
}
