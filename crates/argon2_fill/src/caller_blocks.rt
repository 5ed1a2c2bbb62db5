//! The steps of a hash over a caller-provided memory, whatever its contents. The memory consists of
//! four slices of blocks, each stored lane after lane.

ghost use Rattle.std.specs.Prelude.{◌≡◌, ◌≢◌, ℕ, ◌+◌, ◌-◌, ◌*◌, ◌^◌, ◌<◌, ◌≤◌, [], ◌∷◌, length};
ghost use Rattle.std.specs.List.{fold};
ghost use Rattle.argon2_blocks.specs.Standard.Block.{xor, zero_block};
ghost use Rattle.argon2_memory.specs.Views.Places.{AreFilledBelow, FillsAmong, HoldOthers, HoldsSlice, IsReadySlice, among, last_blocks_in, blocks_of_lane, places_of_slices};
ghost use Rattle.argon2_memory.specs.Views.Segments.{IsReady};
ghost use Rattle.argon2_standard.specs.Standard.Setting.{memory_blocks};
ghost use Rattle.argon2_standard.specs.Standard.Tag.{last_blocks, tag_from, tag_of};

use crate::fill::{write_first_block, write_tag};
use argon2_blocks::block::{Block, first_and_others};
use argon2_blocks::common::SYNC_POINTS;
use argon2_memory::job::{Job, facts_of_context, facts_of_job, numbered_job, slice_count};
use argon2_memory::segment::{Expects, fill_caller_pair, fill_caller_segment};
use argon2_standard::context::Context;

/// Writes a lane's first two blocks (RFC 9106, section 3.2, steps 3 and 4) into its segment of
/// slice 0.
pub fn begin_segment(job: &Job, lane: u32, own: &mut [Block])
    requires lane_fits { lane < job.now.setting.lanes }
    requires own_fits { length own.old ≡ job.now.setting.segment_length }
    ensures { IsReady job.now.setting 0 0 lane own.new }
{
    facts_of_job(job);
    write_first_block(job, lane, 0, &mut own[0]);
    write_first_block(job, lane, 1, &mut own[1]);
}

/// The place of a lane's first block in a slice. It is a function of its own, so that one
/// proof shows that the lane's segment lies within the slice.
fn place_of_lane(job: &Job, lane: u32) -> usize
    requires { lane < job.now.setting.lanes }
    ensures value { result ≡ lane * job.now.setting.segment_length }
    ensures fits { result + job.now.setting.segment_length
        ≤ job.now.setting.lanes * job.now.setting.segment_length }
{
    (lane * job.segment_length()) as usize
}

/// Writes a lane's first two blocks into slice 0. It is apart from the loop over lanes, which
/// relies on the clause that the other lanes are unchanged.
fn begin_lane(job: &Job, lane: u32, slice: &mut [Block])
    requires lane_fits { lane < job.now.setting.lanes }
    requires slice_fits { length slice.old ≡ job.now.setting.lanes * job.now.setting.segment_length }
    ensures begun { IsReady job.now.setting 0 0 lane (blocks_of_lane job.now.setting slice.new lane) }
    ensures others { (l : ℕ) → l < job.now.setting.lanes → l ≢ lane
        → blocks_of_lane job.now.setting slice.new l ≡ blocks_of_lane job.now.setting slice.old l }
{
    let length = job.segment_length() as usize;
    let (_before, rest) = first_and_others(slice, place_of_lane(job, lane));
    let (own, _after) = first_and_others(rest, length);
    begin_segment(job, lane, own);
}

/// Writes the first two blocks of each lane into slice 0.
// Each stage of a hash is a function of its own in the machine code too, so that one statement says
// what the stage does, and another in which order the stages come.
#[inline(never)]
pub fn begin_slice(job: &Job, slice: &mut [Block])
    requires slice_fits { length slice.old ≡ job.now.setting.lanes * job.now.setting.segment_length }
    ensures { IsReadySlice job.now.setting 0 0 (blocks_of_lane job.now.setting slice.new) }
{
    for lane in 0..job.lanes() {
        begin_lane(job, lane, slice);
    }
}

/// Fills a lane's segment of a slice that the caller provides whole. It is apart from the loop over
/// lanes, which relies on the clause that the other lanes are unchanged.
fn fill_lane<E: Expects>(
    expects: &E,
    job: &Job,
    lane: u32,
    first: &[Block],
    second: &[Block],
    third: &[Block],
    slice: &mut [Block],
)
    requires lane_fits { lane < job.now.setting.lanes }
    requires first_fits { length first.now ≡ job.now.setting.lanes * job.now.setting.segment_length }
    requires second_fits { length second.now
        ≡ job.now.setting.lanes * job.now.setting.segment_length }
    requires third_fits { length third.now ≡ job.now.setting.lanes * job.now.setting.segment_length }
    requires slice_fits { length slice.old ≡ job.now.setting.lanes * job.now.setting.segment_length }
    ensures filled { let j = job.now in
        FillsAmong j lane (first.now ∷ second.now ∷ third.now ∷ [])
        (blocks_of_lane j.setting slice.old lane) (blocks_of_lane j.setting slice.new lane) }
    ensures others { (l : ℕ) → l < job.now.setting.lanes → l ≢ lane
        → blocks_of_lane job.now.setting slice.new l ≡ blocks_of_lane job.now.setting slice.old l }
{
    let length = job.segment_length() as usize;
    let (_before, rest) = first_and_others(slice, place_of_lane(job, lane));
    let (own, _after) = first_and_others(rest, length);
    fill_caller_segment(expects, job, lane, first, second, third, own);
}

/// Fills the segments of a lane and of the next one, by turns, of a slice that the caller provides
/// whole.
fn fill_pair<E: Expects>(
    expects: &E,
    job: &Job,
    lane: u32,
    first: &[Block],
    second: &[Block],
    third: &[Block],
    slice: &mut [Block],
)
    requires lanes_fit { lane + 1 < job.now.setting.lanes }
    requires first_fits { length first.now ≡ job.now.setting.lanes * job.now.setting.segment_length }
    requires second_fits { length second.now
        ≡ job.now.setting.lanes * job.now.setting.segment_length }
    requires third_fits { length third.now ≡ job.now.setting.lanes * job.now.setting.segment_length }
    requires slice_fits { length slice.old ≡ job.now.setting.lanes * job.now.setting.segment_length }
    ensures filled { let j = job.now in
        FillsAmong j lane (first.now ∷ second.now ∷ third.now ∷ [])
        (blocks_of_lane j.setting slice.old lane) (blocks_of_lane j.setting slice.new lane) }
    ensures other_filled { let j = job.now in
        FillsAmong j (lane + 1) (first.now ∷ second.now ∷ third.now ∷ [])
        (blocks_of_lane j.setting slice.old (lane + 1))
        (blocks_of_lane j.setting slice.new (lane + 1)) }
    ensures others { (l : ℕ) → l < job.now.setting.lanes → l ≢ lane → l ≢ lane + 1
        → blocks_of_lane job.now.setting slice.new l ≡ blocks_of_lane job.now.setting slice.old l }
{
    let length = job.segment_length() as usize;
    let (_before, rest) = first_and_others(slice, place_of_lane(job, lane));
    let _place = place_of_lane(job, lane + 1);
    let (own, rest) = first_and_others(rest, length);
    let (other, _after) = first_and_others(rest, length);
    fill_caller_pair(expects, job, lane, first, second, third, own, other);
}

/// Fills the job's slice, two lanes by turns and then the next two, beside the other three in rising
/// order. If the number of lanes is odd, the last one is filled alone.
#[inline(never)]
fn fill_caller_slice<E: Expects>(
    expects: &E,
    job: &Job,
    first: &[Block],
    second: &[Block],
    third: &[Block],
    slice: &mut [Block],
)
    requires first_fits { length first.now ≡ job.now.setting.lanes * job.now.setting.segment_length }
    requires second_fits { length second.now
        ≡ job.now.setting.lanes * job.now.setting.segment_length }
    requires third_fits { length third.now ≡ job.now.setting.lanes * job.now.setting.segment_length }
    requires slice_fits { length slice.old ≡ job.now.setting.lanes * job.now.setting.segment_length }
    ensures { let j = job.now in
        let others = places_of_slices j.setting (first.now ∷ second.now ∷ third.now ∷ []) in
        HoldOthers j (among j others)
        → IsReadySlice j.setting j.pass j.slice (blocks_of_lane j.setting slice.old)
        → HoldsSlice j.setting j.pass j.slice (blocks_of_lane j.setting slice.new) }
{
    let lanes = job.lanes();
    let mut lane = 0;
    while lane < lanes {
        if lane + 1 < lanes {
            fill_pair(expects, job, lane, first, second, third, slice);
            lane += 2;
        } else {
            fill_lane(expects, job, lane, first, second, third, slice);
            lane += 1;
        }
    }
}

/// Fills the job's slice of the four. They are four references, since one slice is written while
/// the others are read. The others keep their rising order, by which their blocks are found.
fn fill_one_of_four<E: Expects>(
    expects: &E,
    job: &Job,
    first: &mut [Block],
    second: &mut [Block],
    third: &mut [Block],
    fourth: &mut [Block],
)
    requires first_fits { length first.old ≡ job.now.setting.lanes * job.now.setting.segment_length }
    requires second_fits { length second.old
        ≡ job.now.setting.lanes * job.now.setting.segment_length }
    requires third_fits { length third.old ≡ job.now.setting.lanes * job.now.setting.segment_length }
    requires fourth_fits { length fourth.old
        ≡ job.now.setting.lanes * job.now.setting.segment_length }
    ensures { let j = job.now in AreFilledBelow j.setting j.pass j.slice
        (places_of_slices j.setting (first.old ∷ second.old ∷ third.old ∷ fourth.old ∷ []))
        → AreFilledBelow j.setting j.pass (j.slice + 1)
        (places_of_slices j.setting (first.new ∷ second.new ∷ third.new ∷ fourth.new ∷ [])) }
{
    facts_of_job(job);
    match job.slice() {
        0 => fill_caller_slice(expects, job, second, third, fourth, first),
        1 => fill_caller_slice(expects, job, first, third, fourth, second),
        2 => fill_caller_slice(expects, job, first, second, fourth, third),
        _ => fill_caller_slice(expects, job, first, second, third, fourth),
    }
}

/// Fills all slices of all passes, one after another.
pub fn fill_caller_slices<E: Expects>(
    expects: &E,
    job: &Job,
    first: &mut [Block],
    second: &mut [Block],
    third: &mut [Block],
    fourth: &mut [Block],
)
    requires first_fits { length first.old ≡ job.now.setting.lanes * job.now.setting.segment_length }
    requires second_fits { length second.old
        ≡ job.now.setting.lanes * job.now.setting.segment_length }
    requires third_fits { length third.old ≡ job.now.setting.lanes * job.now.setting.segment_length }
    requires fourth_fits { length fourth.old
        ≡ job.now.setting.lanes * job.now.setting.segment_length }
    ensures { let s = job.now.setting in IsReadySlice s 0 0 (blocks_of_lane s first.old)
        → (slice : ℕ) → slice < 4 → HoldsSlice s (s.passes - 1) slice
        (places_of_slices s (first.new ∷ second.new ∷ third.new ∷ fourth.new ∷ []) slice) }
{
    facts_of_job(job);
    // One loop over the slices of all passes, so that one invariant serves for all.
    for n in 0..slice_count(job) {
        fill_one_of_four(expects, &numbered_job(job, n), first, second, third, fourth);
    }
}

/// The exclusive or of the last blocks of all lanes.
fn combine_last_of_slice(job: &Job, slice: &[Block], out: &mut Block)
    requires zero { out.old ≡ zero_block }
    requires slice_fits { length slice.now ≡ job.now.setting.lanes * job.now.setting.segment_length }
    ensures { let s = job.now.setting in out.new ≡ fold xor zero_block
        (last_blocks_in s.lanes s.segment_length (blocks_of_lane s slice.now)) }
{
    let length = job.segment_length() as usize;
    for lane in 0..job.lanes() {
        let last = place_of_lane(job, lane) + (length - 1);
        *out ^= &slice[last];
    }
}

/// Writes the hash of the last blocks of all lanes, combined (RFC 9106, 3.2, steps 7 and 8): the
/// tag, if slice 3 holds the blocks of the last pass.
#[inline(never)]
pub fn finalize_slice(job: &Job, slice: &[Block], out: &mut [u8])
    requires slice_fits { length slice.now ≡ job.now.setting.lanes * job.now.setting.segment_length }
    requires some { 0 < length out.old }
    requires few { length out.old < 2 ^ 32 }
    ensures hash { let s = job.now.setting in
        out.new ≡ tag_from (last_blocks_in s.lanes s.segment_length (blocks_of_lane s slice.now))
        (length out.old) }
    ensures tag { let s = job.now.setting in
        HoldsSlice s (s.passes - 1) 3 (blocks_of_lane s slice.now)
        → out.new ≡ tag_from (last_blocks s) (length out.old) }
{
    facts_of_job(job);
    let mut block = Block::zero();
    combine_last_of_slice(job, slice, &mut block);
    write_tag(&mut block, out);
}

/// Writes the tag of a job, as long as `out`, into `out`. The tag is computed over a memory that
/// the caller provides whole, slice after slice, and `expects` is told of blocks before they are
/// read. The job's pass and slice are ignored. The call allocates nothing and always succeeds.
pub fn hash_job_over<E: Expects>(expects: &E, job: &Job, blocks: &mut [Block], out: &mut [u8])
    requires blocks_fit { length blocks.old ≡ memory_blocks job.now.setting }
    requires some { 0 < length out.old }
    requires few { length out.old < 2 ^ 32 }
    ensures { out.new ≡ tag_from (last_blocks job.now.setting) (length out.old) }
{
    facts_of_job(job);
    let length = blocks.len() / SYNC_POINTS as usize;
    let (first, others) = first_and_others(blocks, length);
    let (second, others) = first_and_others(others, length);
    let (third, fourth) = first_and_others(others, length);
    begin_slice(job, first);
    fill_caller_slices(expects, job, first, second, third, fourth);
    finalize_slice(job, fourth, out);
}

/// The tag of an accepted call, as `hash_job_over` computes it.
#[tactic(auto, unfolding(argon2_standard::specs::Standard::SettingsTable::table_error))]
pub fn hash_over<E: Expects>(
    expects: &E,
    context: &Context<'_>,
    blocks: &mut [Block],
    out: &mut [u8],
)
    requires blocks_fit { length blocks.old ≡ context.now.memory_blocks }
    requires out_fits { length out.old ≡ context.now.config.hash_length }
    ensures { let c = context.now in
        out.new ≡ tag_of c.pwd.now c.salt.now c.config c.config.hash_length }
{
    // The facts of an accepted context, without which the lengths below are not known to fit.
    facts_of_context(context);
    // Read for its range, since the prover knows it only where it is read.
    let _hash_length = context.config.hash_length;
    hash_job_over(expects, &Job::new(context), blocks, out);
}
