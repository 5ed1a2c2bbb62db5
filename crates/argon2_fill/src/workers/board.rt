//! The lanes of one slice, which workers claim and put back under one lock, and fill outside it.
//! Each lane is in exactly one state: it waits, is out, or is done.
//!
//! About a value that comes out of a lock, the prover knows only what its type states. So the types
//! of claims, filled lanes and boards state what the fill relies on. What no type states is checked
//! at run time.

ghost use Rattle.std.specs.Prelude.{◌≡◌, ◌<◌, ◌↔◌, IfErr, IfOk, IsOk, ◌+◌, ◌*◌, ◌^◌, ◌≤◌, ◌++◌, ◌∷◌, [], IfNone, IfSome, IsTrue, None, OnErr, OnOk, Some, length, map, replicate, slice_get, slice_set, true};
ghost use Rattle.argon2_fill.specs.Views.Boards.{IsReady-prop, AllDone, AreReady, HoldSlice, NoneOut, least_waiting, replay};
ghost use Rattle.argon2_memory.specs.Views.Segments.{IsReady, segment_at};

use argon2_memory::job::Job;
use argon2_memory::segment::{Segment, Snapshot, fill_segment};
use argon2_standard::error::Error;
use argon2_standard::result::Result;
use std::alloc::{AllocError, Global};
use std::marker::{Model, Sync};
use std::mem;
use std::sync::{Mutex, Wait};

/// The state of a lane of a slice.
#[derive(Clone, Copy, Debug, Eq, PartialEq)]
pub enum Place {
    /// Its segment waits to be filled.
    Waiting,

    /// A worker has it.
    Out,

    /// It is filled.
    Done,
}

/// What happened to a lane.
#[derive(Clone, Copy, Debug, Eq, PartialEq)]
pub enum Event {
    /// It went out.
    Take(u32),

    /// It came back, and is done.
    Put(u32),
}

/// A lane's slot, which has its segment unless a worker has it.
#[derive(Drop)]
pub(crate) enum Slot {
    Waiting(Segment),
    Out,
    Done(Segment),
}

/// A lane that is out: its segment is as `fill_segment` requires.
#[derive(Drop)]
pub struct Claim {
    pub(super) job: Job,
    pub(super) lane: u32,
    pub(super) segment: Segment,
    pub ghost lane_fits: { lane < job.setting.lanes },
    pub ghost ready: { IsReady job.setting job.pass job.slice lane segment.blocks } by { IsReady-prop job.setting job.pass job.slice lane segment.blocks },
}

/// A lane that is filled: its segment holds the blocks of its own job and lane.
#[derive(Drop)]
pub struct Filled {
    pub(super) job: Job,
    pub(super) lane: u32,
    pub(super) segment: Segment,
    pub ghost lane_fits: { lane < job.setting.lanes },
    pub ghost holds: { segment.blocks ≡ segment_at job.setting job.pass job.slice lane },
}

impl Claim {
    /// The job whose slice the lane is part of.
    pub fn job(&self) -> &Job
        ensures { result.now ≡ self.now.job }
    {
        &self.job
    }

    /// The lane.
    pub fn lane(&self) -> u32
        ensures { result ≡ self.now.lane }
    {
        self.lane
    }

    /// Fills the lane's segment from a snapshot of the same job. The claim comes back unchanged
    /// exactly if the snapshot is of another job.
    pub fn fill(self, snapshot: &Snapshot<'_>) -> std::result::Result<Filled, Claim>
        ensures exact { IsOk result ↔ (self.job ≡ snapshot.now.job) }
        ensures filled { IfOk result (λ filled. (filled.job ≡ self.job)
            × (filled.lane ≡ self.lane)) }
        ensures unchanged { IfErr result (λ claim. claim ≡ self) }
    {
        // A claim that came through a lock may be of any job.
        if self.job != *snapshot.job() {
            return Err(self);
        }
        // The segment moves from the claim into the result, so that no block is copied.
        let Claim {
            job,
            lane,
            mut segment,
        } = self;
        fill_segment(snapshot, lane, &mut segment);
        Ok(Filled { job, lane, segment })
    }
}

impl Filled {
    /// The job whose slice the lane is part of.
    pub fn job(&self) -> &Job
        ensures { result.now ≡ self.now.job }
    {
        &self.job
    }

    /// The lane.
    pub fn lane(&self) -> u32
        ensures { result ≡ self.now.lane }
    {
        self.lane
    }
}

/// What each worker calls around its work. All workers share it, so it can hold one back until
/// another has reached some point.
pub trait Gate: Sync {
    /// Fills the claim, and returns what `Claim::fill` does.
    fn fill(&self, claim: Claim, snapshot: &Snapshot<'_>) -> std::result::Result<Filled, Claim>
        ensures exact { IsOk result ↔ (claim.job ≡ snapshot.now.job) }
        ensures filled { IfOk result (λ filled. (filled.job ≡ claim.job)
            × (filled.lane ≡ claim.lane)) }
        ensures unchanged { IfErr result (λ back. back ≡ claim) };

    /// Is called for each lane that was put back on the board, after the lock was released, so that
    /// a gate that waits here delays no other worker.
    fn put(&self, lane: u32);
}

/// Holds nobody back.
#[derive(Clone, Copy, Debug)]
pub struct NoGate;

impl Gate for NoGate {
    fn fill(&self, claim: Claim, snapshot: &Snapshot<'_>) -> std::result::Result<Filled, Claim> {
        claim.fill(snapshot)
    }

    fn put(&self, _lane: u32) {}
}

/// The lanes of a job's slice, and the log of what happened to them. A lane that waits is ready to
/// be filled, and one that is done holds the blocks of the board's own job.
#[derive(Drop)]
pub struct Board {
    job: Job,
    // The least lane that waits, stored so that a take looks at one slot alone, under the lock.
    next: u32,
    slots: Vec<Slot>,
    // Stored so that contracts can say in which order lanes went out and came back.
    log: Vec<Event>,
    // Room for `finish`, reserved by `new`, so that no filled slice is lost for lack of memory.
    finished: Vec<Segment>,
}

impl Model for Board {
    ghost use Rattle.argon2_fill.specs.Views.Boards.{BoardValue};

    ghost Value = { BoardValue };

    ghost use Rattle.argon2_fill.specs.Views.Boards.{IsBoard, board_of};

    ghost view = { board_of };

    ghost invariant = { IsBoard };
}

/// A waiting slot for each segment. The slots are reserved first, since `collect` would try again
/// with less memory if an allocation is denied.
fn waiting_slots(
    alloc: Global,
    segments: Vec<Segment>,
) -> std::result::Result<Vec<Slot>, AllocError>
    ensures { IfOk result (λ slots. slots.items ≡ map Slot.Waiting segments.items) }
{
    let mut slots = Vec::with_capacity(alloc, segments.len())?;
    slots.extend(segments.into_iter().map(|segment| Slot::Waiting(segment)))?;
    Ok(slots)
}

impl Board {
    /// A board on which all lanes of the job wait, with a segment for each. All memory that the
    /// board ever needs is allocated here: if that fails, the segments are dropped, and the call
    /// returns `OutOfMemory`.
    pub fn new(alloc: Global, job: Job, segments: Vec<Segment>) -> Result<Board>
        requires ready { AreReady job segments.items }
        ensures board { IfOk result (λ board. board
            ≡ record { job = job; places = replicate job.setting.lanes Place.Waiting; log = [] }) }
        ensures none_out { IfOk result (λ board. NoneOut board.places) }
        ensures refused { IfErr result (λ e. e ≡ Error.OutOfMemory) }
    {
        let lanes = segments.len();
        // Each lane goes out once and comes back once.
        let log = Vec::with_capacity(alloc, 2 * lanes)?;
        let finished = Vec::with_capacity(alloc, lanes)?;
        let slots = waiting_slots(alloc, segments)?;
        Ok(Board {
            job,
            next: 0,
            slots,
            log,
            finished,
        })
    }

    /// The job whose lanes are on the board.
    pub fn job(&self) -> &Job
        ensures job { result.now ≡ self.now.job }
        ensures lanes { length self.now.places ≡ self.now.job.setting.lanes }
    {
        &self.job
    }

    /// The state of a lane of the job.
    pub fn place(&self, lane: u32) -> Place
        requires { lane < self.now.job.setting.lanes }
        ensures { slice_get self.now.places lane ≡ Some result }
    {
        match &self.slots[lane as usize] {
            Slot::Waiting(_) => Place::Waiting,
            Slot::Out => Place::Out,
            Slot::Done(_) => Place::Done,
        }
    }

    /// What happened so far: an event for each take that returned a claim and each put that was
    /// accepted. The states of the lanes follow from these events.
    pub fn log(&self) -> &[Event]
        ensures log { result.now ≡ self.now.log }
        ensures legal { replay self.now.job.setting.lanes self.now.log ≡ Some self.now.places }
    {
        self.log.as_slice()
    }

    /// Hands out the waiting lane of least number. `None` exactly where no lane waits.
    pub fn take(&mut self) -> Option<Claim>
        ensures lane { IfSome result (λ claim. least_waiting self.old.places ≡ Some claim.lane) }
        ensures job { IfSome result (λ claim. claim.job ≡ self.old.job) }
        ensures board { IfSome result (λ claim. self.new ≡ record self.old {
          places = slice_set self.old.places claim.lane Place.Out;
          log = self.old.log ++ Event.Take claim.lane ∷ [];
        }) }
        ensures none { IfNone result (least_waiting self.old.places ≡ None) }
        ensures unchanged { IfNone result (self.new ≡ self.old) }
    {
        if self.next == self.job.lanes() {
            return None;
        }
        let lane = self.next;
        // The segment is exchanged for a mark, and not copied.
        match mem::replace(&mut self.slots[lane as usize], Slot::Out) {
            Slot::Waiting(segment) => {
                self.next = lane + 1;
                self.log.push_reserved(Event::Take(lane));
                Some(Claim {
                    job: self.job,
                    lane,
                    segment,
                })
            }
            // The board's invariant: the lanes from `next` on wait.
            Slot::Out | Slot::Done(_) => unreachable!(),
        }
    }

    /// Puts a filled lane back: the lane is then done. Exactly if the filled lane is of another
    /// job, or is not out, the call returns it to the caller and leaves the board unchanged.
    pub fn put(&mut self, filled: Filled) -> std::result::Result<(), Filled>
        ensures exact { IsOk result
            ↔ ((filled.job ≡ self.old.job) × (slice_get self.old.places filled.lane
            ≡ Some Place.Out)) }
        ensures board { OnOk result (self.new ≡ record self.old {
          places = slice_set self.old.places filled.lane Place.Done;
          log = self.old.log ++ Event.Put filled.lane ∷ [];
        }) }
        ensures handed_back { IfErr result (λ back. back ≡ filled) }
        ensures unchanged { OnErr result (self.new ≡ self.old) }
    {
        // The job comes first: only a lane of the board's own job is known to have a slot.
        if filled.job != self.job {
            return Err(filled);
        }
        let lane = filled.lane;
        let Slot::Out = self.slots[lane as usize] else {
            return Err(filled);
        };
        self.slots[lane as usize] = Slot::Done(filled.segment);
        self.log.push_reserved(Event::Put(lane));
        Ok(())
    }

    /// Whether all lanes are done.
    fn is_done(&self) -> bool
        ensures { IsTrue result ↔ AllDone self.now.places }
    {
        for lane in 0..self.job.lanes() {
            let Place::Done = self.place(lane) else {
                return false;
            };
        }
        true
    }

    /// The filled segments of the slice, in order of lanes. `WorkerRefused` exactly where a lane is
    /// not done.
    pub fn finish(self) -> Result<Vec<Segment>>
        ensures exact { IsOk result ↔ AllDone self.places }
        ensures filled { IfOk result (λ segments. HoldSlice self.job segments.items) }
        ensures refused { IfErr result (λ e. e ≡ Error.WorkerRefused) }
    {
        let mut finished = self.finished;
        for slot in self.slots {
            match slot {
                Slot::Done(segment) => finished.push_reserved(segment),
                Slot::Waiting(_) | Slot::Out => return Err(Error::WorkerRefused),
            }
        }
        Ok(finished)
    }
}

/// Takes a lane. It is a function of its own, so that the lock is released before the lane is
/// filled.
pub(super) fn take_lane<R: Wait>(rt: &R, board: &Mutex<Option<Board>>) -> Option<Claim> {
    board.lock(rt).as_mut()?.take()
}

/// Puts a lane, and says whether it was accepted. It is a function of its own, so that the lock is
/// released before a gate is called.
pub(super) fn put_lane<R: Wait>(rt: &R, board: &Mutex<Option<Board>>, filled: Filled) -> bool {
    let mut guard = board.lock(rt);
    guard
        .as_mut()
        .is_some_and(|board| board.put(filled).is_ok())
}

/// Whether a board has the snapshot's job and all its lanes are done. It is checked, since a lock
/// could return any board.
pub(super) fn is_filled(board: &Board, snapshot: &Snapshot<'_>) -> bool
    ensures { IsTrue result ↔ ((board.now.job ≡ snapshot.now.job) × AllDone board.now.places) }
{
    board.job() == snapshot.job() && board.is_done()
}
