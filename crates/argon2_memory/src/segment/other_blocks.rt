//! The slices beside the one that is filled: segments of a memory, or caller-provided blocks.

ghost use Rattle.std.specs.Prelude.{◌≡◌, ◌*◌, ◌^◌, ◌<◌, [], map, slice_index_or, ◌≢◌, ℕ, ◌+◌, ◌/◌, ◌%◌, ◌≤◌, List, length};
ghost use Rattle.std.specs.List.{remove};
ghost use Rattle.argon2_memory.specs.Views.Filling.{IsAround, slices_of_blocks, SnapshotValue, IsBeside, other_blocks, block_seen};
ghost use Rattle.argon2_memory.specs.Views.Jobs.{position_of, first_index};
ghost use Rattle.argon2_memory.specs.Standard.Kept.{segment_in};
ghost use Rattle.argon2_memory.specs.Views.Segments.{IsBefore, source_block};
ghost use Rattle.argon2_standard.specs.Standard.Setting.{lane_length};
ghost use Rattle.argon2_standard.specs.Standard.Reference.{previous};

use super::own_blocks::{Segment, Source};
use crate::job::Job;
use argon2_blocks::block::Block;
use std::marker::Model;

/// Four slices, addressed by number, that are read while a segment is filled.
pub(crate) trait OtherBlocks {
    ghost use Rattle.std.specs.Prelude.{List};
    ghost use Rattle.argon2_standard.specs.Standard.Setting.{Setting};
    ghost use Rattle.argon2_memory.specs.Standard.Kept.{SegmentValue};

    ghost seen: { Setting → Self → List (List SegmentValue) };

    /// The block at an index of a lane in a slice.
    fn block(&self, job: &Job, slice: u32, lane: u32, index: u32) -> &Block
        requires four { length (seen job.now.setting self.now) ≡ 4 }
        requires slice_fits { slice < 4 }
        requires lane_fits { lane < job.now.setting.lanes }
        requires index_fits { index < job.now.setting.segment_length }
        requires lanes { length (slice_index_or (seen job.now.setting self.now) slice [])
            ≡ job.now.setting.lanes }
        requires blocks { length (segment_in (seen job.now.setting self.now) slice lane).blocks
            ≡ job.now.setting.segment_length }
        ensures { result.now
            ≡ slice_index_or (segment_in (seen job.now.setting self.now) slice lane).blocks index [] };
}

/// The segments of a memory.
impl<'a> OtherBlocks for [&'a [Segment]; 4] {
    ghost seen = { λ _ slices. map (λ o. o.now) slices };

    fn block(&self, _job: &Job, slice: u32, lane: u32, index: u32) -> &Block {
        let slices = &self[..];
        let segments = slices[slice as usize];
        segments[lane as usize].block(index as usize)
    }
}

/// The place of a block in a caller-provided slice, lane after lane.
fn place_in_slice(job: &Job, lane: u32, index: u32) -> usize
    requires lane_fits { lane < job.now.setting.lanes }
    requires index_fits { index < job.now.setting.segment_length }
    ensures value { result ≡ lane * job.now.setting.segment_length + index }
    ensures fits { result < job.now.setting.lanes * job.now.setting.segment_length }
    ensures few { result < 2 ^ 32 }
{
    (lane * job.segment_length() + index) as usize
}

/// Caller-provided blocks, lane after lane.
impl<'a> OtherBlocks for [&'a [Block]; 4] {
    ghost seen = { λ setting slices. slices_of_blocks setting slices };

    fn block(&self, job: &Job, slice: u32, lane: u32, index: u32) -> &Block {
        let place = place_in_slice(job, lane, index);
        let slices = &self[..];
        let blocks = slices[slice as usize];
        &blocks[place]
    }
}

/// A job and four slices by number, whatever their contents. Another slice stands in for the job's
/// own. So a block can be read by any slice number, even one that was drawn from blocks.
#[derive(Drop)]
pub(crate) struct Beside<S: OtherBlocks> {
    job: Job,
    slices: S,
}

impl<S: OtherBlocks> Model for Beside<S> {
    ghost Value = { SnapshotValue };

    ghost view = { λ b. record {
      job = b.job;
      others = remove (S.seen b.job.setting b.slices) b.job.slice;
    } };

    ghost invariant = { λ b. IsAround b.job (S.seen b.job.setting b.slices) };
}

/// Four slices by number, made of three: the first stands in for the missing one.
fn with_stand_in<T: Copy>(others: [T; 3], slice: u32) -> [T; 4]
    requires { slice < 4 }
    ensures count { length result ≡ 4 }
    ensures removed { remove result slice ≡ others }
    ensures stand_in { (d : T) → slice_index_or result slice d ≡ slice_index_or others 0 d }
{
    match slice {
        0 | 1 => [others[0], others[0], others[1], others[2]],
        2 => [others[0], others[1], others[0], others[2]],
        _ => [others[0], others[1], others[2], others[0]],
    }
}

/// The slice of a column, computed as a sum: a division takes long, and may take longer for some
/// columns. The column may be drawn from blocks.
pub(super) fn slice_of_column(job: &Job, column: u32) -> u32
    requires { column < lane_length job.now.setting }
    ensures value { result ≡ column / job.now.setting.segment_length }
    ensures fits { result < 4 }
    ensures begun { result * job.now.setting.segment_length ≤ column }
{
    let length = job.segment_length();
    let first = (column >= length) as u32;
    first + (column >= 2 * length) as u32 + (column >= 3 * length) as u32
}

/// The slices of a memory beside the job's, in rising order.
pub(super) fn beside_segments<'a>(
    job: Job,
    others: [&'a [Segment]; 3],
) -> Beside<[&'a [Segment]; 4]>
    requires { IsBeside (record { job = job; others = map (λ o. o.now) others }) }
    ensures { result ≡ record { job = job; others = map (λ o. o.now) others.entry } }
{
    let slice = job.slice();
    Beside {
        job,
        slices: with_stand_in(others, slice),
    }
}

/// The slices beside the job's, in rising order, each caller-provided, lane after lane.
pub(super) fn beside_blocks<'a>(job: Job, others: [&'a [Block]; 3]) -> Beside<[&'a [Block]; 4]>
    requires { IsBeside (record { job = job; others = slices_of_blocks job.setting others }) }
    ensures { result ≡ record { job = job; others = slices_of_blocks job.setting others.entry } }
{
    let slice = job.slice();
    Beside {
        job,
        slices: with_stand_in(others, slice),
    }
}

impl<S: OtherBlocks> Beside<S> {
    /// The job, by which the prover also learns the shape of the slices.
    pub(super) fn job(&self) -> &Job
        ensures value { result.now ≡ self.now.job }
        ensures beside { IsBeside self.now }
    {
        &self.job
    }

    /// The block of another slice. For the job's own slice, the result is some other block.
    pub(super) fn block(&self, slice: u32, lane: u32, index: u32) -> &Block
        requires slice_fits { slice < 4 }
        requires lane_fits { lane < self.now.job.setting.lanes }
        requires index_fits { index < self.now.job.setting.segment_length }
        ensures { slice ≢ self.now.job.slice
            → result.now ≡ slice_index_or (other_blocks self.now slice lane) index [] }
    {
        self.slices.block(&self.job, slice, lane, index)
    }

    /// The block at a lane and column, as the lane that is filled up to an index sees it. A block
    /// of another slice is always looked up, even if the column is in the job's own slice. The
    /// choice is then between two addresses and needs no branch.
    pub(super) fn source(&self, lane: u32, column: u32, index: u32) -> Source<'_>
        requires lane_fits { lane < self.now.job.setting.lanes }
        requires column_fits { column < lane_length self.now.job.setting }
        requires own_before { column / self.now.job.setting.segment_length ≡ self.now.job.slice
            → column % self.now.job.setting.segment_length < index }
        ensures value { (blocks : List (List ℕ))
            → source_block blocks result ≡ block_seen self.now blocks lane column }
        ensures beside { IsBeside self.now }
        ensures before { (end : ℕ) → index ≤ end → IsBefore end result }
    {
        let job = self.job();
        let slice = slice_of_column(job, column);
        let at = column - slice * job.segment_length();
        let other = self.block(slice, lane, at);
        if slice == job.slice() {
            Source::Own(at as usize)
        } else {
            Source::Other(other)
        }
    }
}

/// The column before the one at an index.
fn previous_column(job: &Job, index: u32) -> u32
    requires { index < job.now.setting.segment_length }
    ensures value { (lane : ℕ) → result ≡ (previous job.now.setting
        (position_of job.now lane index)).column }
    ensures fits { result < lane_length job.now.setting }
    ensures before { first_index job.now ≤ index
        → result / job.now.setting.segment_length ≡ job.now.slice
        → result % job.now.setting.segment_length < index }
{
    let column = job.start() + index;
    if column == 0 {
        job.lane_length() - 1
    } else {
        column - 1
    }
}

/// The block before the one at an index, as the lane that is filled sees it.
#[tactic(auto, using(crate::proofs::Filled::seen_before))]
pub(super) fn source_before<'a, S: OtherBlocks>(
    beside: &'a Beside<S>,
    lane: u32,
    index: u32,
) -> Source<'a>
    requires lane_fits { lane < beside.now.job.setting.lanes }
    requires index_fits { index < beside.now.job.setting.segment_length }
    requires later { first_index beside.now.job ≤ index }
    ensures value { let j = beside.now.job in (blocks : List (List ℕ)) →
        source_block blocks result ≡ block_seen beside.now blocks lane (previous j.setting
        (position_of j lane index)).column }
    ensures beside { IsBeside beside.now }
    ensures before { IsBefore index result }
{
    // Only the block at index 0 needs a search for the previous block's slice. The others skip the
    // search, which saves up to 2.5 % of the time.
    let job = beside.job();
    if index == 0 {
        let column = previous_column(job, index);
        beside.source(lane, column, index)
    } else {
        Source::Own(index as usize - 1)
    }
}
