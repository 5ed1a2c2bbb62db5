//! The steps of a hash over caller-provided blocks. Each checks its arguments itself: C may take
//! the steps in any order, with any numbers and lengths, so none trusts that another was taken.

ghost use Rattle.std.specs.Prelude.{◌≡◌, ◌*◌, ◌<◌, IsTrue, ◌↔◌, MatchResult, length};
ghost use Rattle.argon2_c.specs.Answers.{judgement_of};
ghost use Rattle.argon2_c.specs.Jobs.{setting_of_job};
ghost use Rattle.argon2_c.specs.Steps.{Begins, FillsLanes, FillsLanesAt, Finishes, IsPlace, IsSlice, Verifies};

use crate::errors::CallError;
use crate::jobs::CallerJob;
use crate::prefetching::Prefetches;
use argon2::parts::block::{Block, first_and_others};
use argon2::parts::common::SYNC_POINTS;
use argon2::parts::context::Job;
use argon2::parts::stored::are_equal;
use argon2_fill::caller_blocks::{begin_segment, finalize_slice};
use argon2_memory::job::facts_of_job;
use argon2_memory::segment::{fill_caller_pair, fill_caller_segment};

/// Whether a slice has the blocks of all lanes.
fn is_slice(job: &Job, blocks: &[Block]) -> bool
    ensures { IsTrue result ↔ IsSlice job.now.setting blocks.now }
{
    blocks.len() as u64 == job.lanes() as u64 * job.segment_length() as u64
}

/// Writes a lane's first two blocks into its segment of slice 0.
#[inline(never)]
pub fn begin(numbers: &CallerJob, lane: u32, own: &mut [Block]) -> Result<(), CallError>
    ensures { Begins (setting_of_job numbers.now) lane own.old own.new result }
{
    let job = match numbers.job() {
        Ok(job) => job,
        Err(error) => return Err(error),
    };
    if lane >= job.lanes() {
        return Err(CallError::NoPlace);
    }
    if own.len() != job.segment_length() as usize {
        return Err(CallError::WrongBlocks);
    }
    begin_segment(&job, lane, own);
    Ok(())
}

/// Fills a lane's segment of a slice in a pass, or the segments of a lane and of the next one, by
/// turns. `first`, `second` and `third` are the other three slices in rising order.
#[inline(never)]
pub fn fill(
    numbers: &CallerJob,
    pass: u32,
    slice: u32,
    lane: u32,
    first: &[Block],
    second: &[Block],
    third: &[Block],
    own: &mut [Block],
) -> Result<(), CallError>
    ensures { FillsLanes (setting_of_job numbers.now) pass slice lane first.now second.now third.now
        own.old own.new result }
{
    let job = match numbers.job() {
        Ok(job) => job,
        Err(error) => return Err(error),
    };
    if pass >= job.passes() || slice >= SYNC_POINTS || lane >= job.lanes() {
        return Err(CallError::NoPlace);
    }
    if !is_slice(&job, first) || !is_slice(&job, second) || !is_slice(&job, third) {
        return Err(CallError::WrongBlocks);
    }
    fill_lanes(&job.at(pass, slice), lane, first, second, third, own)
}

/// Fills one segment or two of the job's slice.
fn fill_lanes(
    job: &Job,
    lane: u32,
    first: &[Block],
    second: &[Block],
    third: &[Block],
    own: &mut [Block],
) -> Result<(), CallError>
    requires lane_fits { lane < job.now.setting.lanes }
    requires first_fits { IsSlice job.now.setting first.now }
    requires second_fits { IsSlice job.now.setting second.now }
    requires third_fits { IsSlice job.now.setting third.now }
    ensures { let j = job.now in FillsLanesAt j.setting j.pass j.slice lane first.now second.now
        third.now own.old own.new result }
{
    facts_of_job(job);
    let length = job.segment_length() as usize;
    let expects = Prefetches::FAR;
    if lane + 1 < job.lanes() && own.len() == 2 * length {
        let (own, other) = first_and_others(own, length);
        fill_caller_pair(&expects, job, lane, first, second, third, own, other);
        return Ok(());
    }
    if own.len() != length {
        return Err(CallError::WrongBlocks);
    }
    fill_caller_segment(&expects, job, lane, first, second, third, own);
    Ok(())
}

/// Writes the tag to a buffer of its length, assuming slice 3 holds the last pass's blocks.
#[inline(never)]
pub fn finish(numbers: &CallerJob, last: &[Block], out: &mut [u8]) -> Result<(), CallError>
    ensures { Finishes (setting_of_job numbers.now) numbers.now.hash_length last.now out.old out.new
        result }
{
    let job = match numbers.job() {
        Ok(job) => job,
        Err(error) => return Err(error),
    };
    if !is_slice(&job, last) {
        return Err(CallError::WrongBlocks);
    }
    if out.len() != numbers.hash_length as usize {
        return Err(CallError::WrongLength);
    }
    finalize_slice(&job, last, out);
    Ok(())
}

/// Whether `hash` is the tag. The tag is then in `tag`, which has the tag's length. The caller owns
/// this buffer and clears it, since a compiler may drop a write here that nobody reads.
#[inline(never)]
pub fn verify(
    numbers: &CallerJob,
    last: &[Block],
    hash: &[u8],
    tag: &mut [u8],
) -> Result<bool, CallError>
    ensures { Verifies (setting_of_job numbers.now) numbers.now.hash_length last.now hash.now
        tag.old tag.new (judgement_of result) }
{
    let job = match numbers.job() {
        Ok(job) => job,
        Err(error) => return Err(error),
    };
    if !is_slice(&job, last) {
        return Err(CallError::WrongBlocks);
    }
    let length = numbers.hash_length as usize;
    if hash.len() != length || tag.len() != length {
        return Err(CallError::WrongLength);
    }
    finalize_slice(&job, last, tag);
    Ok(are_equal(hash, tag))
}
