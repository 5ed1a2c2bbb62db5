//! The fill of two lanes' segments by turns, in one thread. A lane's next reference is known, and
//! its memory can be fetched, while a block of the other lane is written.

ghost use Rattle.std.specs.Prelude.{◌≡◌, ◌+◌, ◌*◌, ◌<◌, ◌≤◌, [], ◌∷◌, length, false};
ghost use Rattle.argon2_memory.specs.Views.Filling.{FillsOn, IsFilledTo, IsSnapshot};
ghost use Rattle.argon2_memory.specs.Views.Jobs.{first_index};
ghost use Rattle.argon2_memory.specs.Views.Places.{FillsAmong};
ghost use Rattle.argon2_memory.specs.Views.References.{IsPicked, reference_of};
ghost use Rattle.argon2_memory.specs.Views.Segments.{IsReady, segment_at};
ghost use Rattle.argon2_standard.specs.Standard.Reference.{is_data_independent};

use super::expecting::Expects;
use super::filling::{dependent_word, expect_reference, fill_independent, write_block};
use super::other_blocks::{Beside, OtherBlocks, beside_blocks};
use super::own_blocks::{CallerSegment, OwnBlocks};
use super::positions::pick;
use crate::job::{Job, facts_of_job, stretch};
use argon2_blocks::block::Block;

/// The reference of the block at an index, in a segment whose references depend on the blocks. It
/// tells which block that is, and which one will be written.
fn expected_reference<E: Expects, S: OtherBlocks, O: OwnBlocks>(
    expects: &E,
    beside: &Beside<S>,
    lane: u32,
    index: u32,
    own: &O,
) -> (u32, u32)
    requires dependent { is_data_independent beside.now.job.setting.variant beside.now.job.pass
        beside.now.job.slice ≡ false }
    requires lane_fits { lane < beside.now.job.setting.lanes }
    requires index_fits { index < beside.now.job.setting.segment_length }
    requires later { first_index beside.now.job ≤ index }
    requires long { length (O.seen own.now).blocks ≡ beside.now.job.setting.segment_length }
    ensures picked { IsPicked beside.now.job lane index result }
    ensures chosen { IsSnapshot beside.now
        → IsFilledTo beside.now.job lane index (O.seen own.now).blocks
        → result ≡ reference_of beside.now.job lane index }
{
    // The block to be written comes first: its lines often lie in a cache already, so that they
    // need not wait until those of the reference have arrived.
    expects.expect(own.block(index as usize));
    let word = dependent_word(beside, lane, index, own);
    let reference = pick(beside.job(), lane, index, word);
    expect_reference(expects, beside, lane, index, reference, own);
    reference
}

/// Fills `count` blocks of a lane and of the next one from an index on, by turns, whose references
/// depend on blocks. So the reference of a lane's next block is known while a block of the other
/// lane is written.
#[inline(never)]
fn fill_dependent_pair<E: Expects, S: OtherBlocks, O: OwnBlocks>(
    expects: &E,
    beside: &Beside<S>,
    lane: u32,
    first: u32,
    count: u32,
    own: &mut O,
    other: &mut O,
)
    requires dependent { is_data_independent beside.now.job.setting.variant beside.now.job.pass
        beside.now.job.slice ≡ false }
    requires lanes_fit { lane + 1 < beside.now.job.setting.lanes }
    requires later { first_index beside.now.job ≤ first }
    requires some { 0 < count }
    requires indexes_fit { first + count ≤ beside.now.job.setting.segment_length }
    requires long { length (O.seen own.old).blocks ≡ beside.now.job.setting.segment_length }
    requires other_long { length (O.seen other.old).blocks ≡ beside.now.job.setting.segment_length }
    ensures filled { FillsOn beside.now lane first (first + count) (O.seen own.old)
        (O.seen own.new) }
    ensures other_filled { FillsOn beside.now (lane + 1) first (first + count) (O.seen other.old)
        (O.seen other.new) }
    ensures long { length (O.seen own.new).blocks ≡ beside.now.job.setting.segment_length }
    ensures other_long { length (O.seen other.new).blocks ≡ beside.now.job.setting.segment_length }
    ensures same { O.loan own.new ≡ O.loan own.old }
    ensures other_same { O.loan other.new ≡ O.loan other.old }
{
    facts_of_job(beside.job());
    let last = first + (count - 1);
    let mut index = first;
    let mut reference = expected_reference(expects, beside, lane, index, own);
    let mut other_reference = expected_reference(expects, beside, lane + 1, index, other);
    while index < last {
        write_block(expects, beside, lane, index, reference, None, own);
        reference = expected_reference(expects, beside, lane, index + 1, own);
        write_block(
            expects,
            beside,
            lane + 1,
            index,
            other_reference,
            None,
            other,
        );
        other_reference = expected_reference(expects, beside, lane + 1, index + 1, other);
        index += 1;
    }
    write_block(expects, beside, lane, index, reference, None, own);
    write_block(
        expects,
        beside,
        lane + 1,
        index,
        other_reference,
        None,
        other,
    );
}

/// Fills at most 128 blocks of a lane and of the next one, from an index on.
fn fill_blocks_pair<E: Expects, S: OtherBlocks, O: OwnBlocks>(
    expects: &E,
    beside: &Beside<S>,
    lane: u32,
    first: u32,
    count: u32,
    own: &mut O,
    other: &mut O,
)
    requires lanes_fit { lane + 1 < beside.now.job.setting.lanes }
    requires later { first_index beside.now.job ≤ first }
    requires some { 0 < count }
    requires few { count ≤ 128 }
    requires indexes_fit { first + count ≤ beside.now.job.setting.segment_length }
    requires long { length (O.seen own.old).blocks ≡ beside.now.job.setting.segment_length }
    requires other_long { length (O.seen other.old).blocks ≡ beside.now.job.setting.segment_length }
    ensures filled { FillsOn beside.now lane first (first + count) (O.seen own.old)
        (O.seen own.new) }
    ensures other_filled { FillsOn beside.now (lane + 1) first (first + count) (O.seen other.old)
        (O.seen other.new) }
    ensures long { length (O.seen own.new).blocks ≡ beside.now.job.setting.segment_length }
    ensures other_long { length (O.seen other.new).blocks ≡ beside.now.job.setting.segment_length }
    ensures same { O.loan own.new ≡ O.loan own.old }
    ensures other_same { O.loan other.new ≡ O.loan other.old }
{
    if beside.job().is_independent() {
        fill_independent(expects, beside, lane, first, count, own);
        fill_independent(expects, beside, lane + 1, first, count, other);
    } else {
        fill_dependent_pair(expects, beside, lane, first, count, own, other);
    }
}

/// Fills the segments of a lane and of the next one, of the job's slice.
#[tactic(auto, using(crate::proofs::Filled::filled_none, crate::proofs::Filled::filled_all))]
fn fill_own_pair<E: Expects, S: OtherBlocks, O: OwnBlocks>(
    expects: &E,
    beside: &Beside<S>,
    lane: u32,
    own: &mut O,
    other: &mut O,
)
    requires lanes_fit { lane + 1 < beside.now.job.setting.lanes }
    requires long { length (O.seen own.old).blocks ≡ beside.now.job.setting.segment_length }
    requires other_long { length (O.seen other.old).blocks ≡ beside.now.job.setting.segment_length }
    ensures filled { let j = beside.now.job in IsSnapshot beside.now
        → IsReady j.setting j.pass j.slice lane (O.seen own.old).blocks
        → (O.seen own.new).blocks ≡ segment_at j.setting j.pass j.slice lane }
    ensures other_filled { let j = beside.now.job in IsSnapshot beside.now
        → IsReady j.setting j.pass j.slice (lane + 1) (O.seen other.old).blocks
        → (O.seen other.new).blocks ≡ segment_at j.setting j.pass j.slice (lane + 1) }
    ensures same { O.loan own.new ≡ O.loan own.old }
    ensures other_same { O.loan other.new ≡ O.loan other.old }
{
    let job = beside.job();
    let mut index = job.first_index();
    while index < job.segment_length() {
        let count = stretch(job, index);
        fill_blocks_pair(expects, beside, lane, index, count, own, other);
        index += count;
    }
}

/// Fills the segments of a lane and of the next one, as `fill_caller_segment` fills one.
pub fn fill_caller_pair<E: Expects>(
    expects: &E,
    job: &Job,
    lane: u32,
    first: &[Block],
    second: &[Block],
    third: &[Block],
    own: &mut [Block],
    other: &mut [Block],
)
    requires lanes_fit { lane + 1 < job.now.setting.lanes }
    requires first_fits { length first.now ≡ job.now.setting.lanes * job.now.setting.segment_length }
    requires second_fits { length second.now
        ≡ job.now.setting.lanes * job.now.setting.segment_length }
    requires third_fits { length third.now ≡ job.now.setting.lanes * job.now.setting.segment_length }
    requires own_fits { length own.old ≡ job.now.setting.segment_length }
    requires other_fits { length other.old ≡ job.now.setting.segment_length }
    ensures filled { FillsAmong job.now lane (first.now ∷ second.now ∷ third.now ∷ []) own.old own.new }
    ensures other_filled { FillsAmong job.now (lane + 1) (first.now ∷ second.now ∷ third.now ∷ [])
        other.old other.new }
{
    facts_of_job(job);
    let beside = beside_blocks(*job, [first, second, third]);
    let mut segment = CallerSegment::new(own);
    let mut next = CallerSegment::new(other);
    fill_own_pair(expects, &beside, lane, &mut segment, &mut next);
}
