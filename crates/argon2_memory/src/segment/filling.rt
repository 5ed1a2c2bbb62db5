//! The fill of one segment, block after block. The segment is part of a memory, or the caller
//! provides it.

ghost use Rattle.std.specs.Prelude.{◌≡◌, IfSome, ℕ, ◌+◌, ◌-◌, ◌*◌, ◌%◌, ◌^◌, ◌<◌, ◌≤◌, [], ◌∷◌, length, slice_index_or, true, false};
ghost use Rattle.argon2_memory.specs.Theorems.Schedule.{blocks_in_slice};
ghost use Rattle.argon2_memory.specs.Views.Filling.{FillsOn, IsFilledTo, IsSnapshot};
ghost use Rattle.argon2_memory.specs.Views.References.{IsPicked, reference_of};
ghost use Rattle.argon2_memory.specs.Views.Jobs.{position_of, first_index};
ghost use Rattle.argon2_memory.specs.Views.Places.{FillsAmong};
ghost use Rattle.argon2_memory.specs.Views.Segments.{IsReady, segment_at, IsBefore, source_block};
ghost use Rattle.argon2_standard.specs.Standard.Recurrence.{block_at, drawn_word};
ghost use Rattle.argon2_standard.specs.Standard.Reference.{is_data_independent};

use super::expecting::{Ahead, Expects, ExpectsNothing};
use super::other_blocks::{Beside, OtherBlocks, beside_blocks, slice_of_column, source_before};
use super::own_blocks::{CallerSegment, OwnBlocks, Segment, Source};
use super::positions::{ahead_of, pick, reference_positions};
use super::snapshot::Snapshot;
use crate::job::{Job, facts_of_job, stretch};
use argon2_blocks::block::Block;
use argon2_blocks::common::QWORDS_IN_BLOCK;

/// Writes the block at an index, from the one before it and the one that it refers to. Only if
/// references depend on blocks may it find the next reference in between.
#[inline(always)]
pub(super) fn write_block<E: Expects, S: OtherBlocks, O: OwnBlocks>(
    expects: &E,
    beside: &Beside<S>,
    lane: u32,
    index: u32,
    reference: (u32, u32),
    ahead: Option<Ahead>,
    own: &mut O,
)
    requires lane_fits { lane < beside.now.job.setting.lanes }
    requires index_fits { index < beside.now.job.setting.segment_length }
    requires later { first_index beside.now.job ≤ index }
    requires picked { IsPicked beside.now.job lane index reference }
    requires dependent { IfSome ahead (λ _. is_data_independent beside.now.job.setting.variant
        beside.now.job.pass beside.now.job.slice ≡ false) }
    requires long { length (O.seen own.old).blocks ≡ beside.now.job.setting.segment_length }
    ensures filled { reference ≡ reference_of beside.now.job lane index
        → FillsOn beside.now lane index (index + 1) (O.seen own.old) (O.seen own.new) }
    ensures long { length (O.seen own.new).blocks ≡ beside.now.job.setting.segment_length }
    ensures tally { (O.seen own.new).tally ≡ ((O.seen own.old).tally + 1) % 2 ^ 64 }
    ensures same { O.loan own.new ≡ O.loan own.old }
{
    let with_xor = beside.job().combines();
    let prev = source_before(beside, lane, index);
    let reference = beside.source(reference.0, reference.1, index);
    own.write(expects, index as usize, prev, reference, with_xor, ahead);
}

/// The block that a source names: one of the segment's own, or another.
fn named<'a, O: OwnBlocks>(own: &'a O, source: Source<'a>) -> &'a Block
    requires { IsBefore (length (O.seen own.now).blocks) source }
    ensures { result.now ≡ source_block (O.seen own.now).blocks source.entry }
{
    match source {
        Source::Own(index) => own.block(index),
        Source::Other(block) => block,
    }
}

/// The word that picks the reference of the block at an index, in a segment whose references depend
/// on the blocks.
pub(super) fn dependent_word<S: OtherBlocks, O: OwnBlocks>(
    beside: &Beside<S>,
    lane: u32,
    index: u32,
    own: &O,
) -> u64
    requires dependent { is_data_independent beside.now.job.setting.variant beside.now.job.pass
        beside.now.job.slice ≡ false }
    requires lane_fits { lane < beside.now.job.setting.lanes }
    requires index_fits { index < beside.now.job.setting.segment_length }
    requires later { first_index beside.now.job ≤ index }
    requires long { length (O.seen own.now).blocks ≡ beside.now.job.setting.segment_length }
    ensures { let s = beside.now.job.setting in IsSnapshot beside.now
        → IsFilledTo beside.now.job lane index (O.seen own.now).blocks
        → result ≡ drawn_word s (block_at s) (position_of beside.now.job lane index) }
{
    named(own, source_before(beside, lane, index))[0]
}

/// Fills `count` blocks from an index on, one after another, whose references depend on blocks.
#[inline(never)]
fn fill_dependent<E: Expects, S: OtherBlocks, O: OwnBlocks>(
    expects: &E,
    beside: &Beside<S>,
    lane: u32,
    first: u32,
    count: u32,
    own: &mut O,
)
    requires dependent { is_data_independent beside.now.job.setting.variant beside.now.job.pass
        beside.now.job.slice ≡ false }
    requires lane_fits { lane < beside.now.job.setting.lanes }
    requires later { first_index beside.now.job ≤ first }
    requires indexes_fit { first + count ≤ beside.now.job.setting.segment_length }
    requires long { length (O.seen own.old).blocks ≡ beside.now.job.setting.segment_length }
    ensures filled { FillsOn beside.now lane first (first + count) (O.seen own.old)
        (O.seen own.new) }
    ensures long { length (O.seen own.new).blocks ≡ beside.now.job.setting.segment_length }
    ensures tally { (O.seen own.new).tally ≡ ((O.seen own.old).tally + count) % 2 ^ 64 }
    ensures same { O.loan own.new ≡ O.loan own.old }
{
    // A copy, whose numbers need not be read anew for each block.
    let job = *beside.job();
    // The prover knows a number's range only where it is read.
    let _tally = own.tally();
    for k in 0..count {
        let index = first + k;
        let word = dependent_word(beside, lane, index, own);
        let reference = pick(&job, lane, index, word);
        let ahead = ahead_of(&job, index);
        if let None = ahead {
            expects.expect(own.block(index as usize));
        }
        write_block(expects, beside, lane, index, reference, ahead, own);
    }
}

/// The first of two blocks, or the second. Both are found before, so that it chooses between two
/// addresses and needs no branch.
fn one_of<'a>(is_first: bool, first: &'a Block, second: &'a Block) -> &'a Block {
    if is_first { first } else { second }
}

/// Tells which block the one at an index refers to.
pub(super) fn expect_reference<E: Expects, S: OtherBlocks, O: OwnBlocks>(
    expects: &E,
    beside: &Beside<S>,
    lane: u32,
    index: u32,
    reference: (u32, u32),
    own: &O,
)
    requires lane_fits { lane < beside.now.job.setting.lanes }
    requires index_fits { index < beside.now.job.setting.segment_length }
    requires later { first_index beside.now.job ≤ index }
    requires picked { IsPicked beside.now.job lane index reference }
    requires long { length (O.seen own.now).blocks ≡ beside.now.job.setting.segment_length }
{
    let job = beside.job();
    facts_of_job(job);
    let (other_lane, column) = reference;
    let slice = slice_of_column(job, column);
    let at = column - slice * job.segment_length();
    let other = beside.block(slice, other_lane, at);
    expects.expect(one_of(slice == job.slice(), own.block(at as usize), other));
}

/// Writes the blocks from an index on, whose references are known.
// Not inlined, for the reason that `pick` is not.
#[inline(never)]
fn write_blocks<E: Expects, S: OtherBlocks, O: OwnBlocks>(
    expects: &E,
    beside: &Beside<S>,
    lane: u32,
    first: u32,
    references: &[(u32, u32)],
    own: &mut O,
)
    requires lane_fits { lane < beside.now.job.setting.lanes }
    requires indexes_fit { first + length references.now ≤ beside.now.job.setting.segment_length }
    requires later { first_index beside.now.job ≤ first }
    requires chosen { (k : ℕ) → k < length references.now
        → slice_index_or references.now k (0, 0) ≡ reference_of beside.now.job lane (first + k) }
    requires long { length (O.seen own.old).blocks ≡ beside.now.job.setting.segment_length }
    ensures filled { FillsOn beside.now lane first (first + length references.now)
        (O.seen own.old) (O.seen own.new) }
    ensures long { length (O.seen own.new).blocks ≡ beside.now.job.setting.segment_length }
    ensures tally { (O.seen own.new).tally
        ≡ ((O.seen own.old).tally + length references.now) % 2 ^ 64 }
    ensures same { O.loan own.new ≡ O.loan own.old }
{
    facts_of_job(beside.job());
    // Read for its range, as in `fill_dependent`.
    let _tally = own.tally();
    for k in 0..references.len() {
        if k + 1 < references.len() {
            let next = first + (k + 1) as u32;
            expect_reference(expects, beside, lane, next, references[k + 1], own);
        }
        let index = first + k as u32;
        write_block(expects, beside, lane, index, references[k], None, own);
    }
}

/// Fills at most 128 blocks from an index on, whose references are data-independent.
pub(super) fn fill_independent<E: Expects, S: OtherBlocks, O: OwnBlocks>(
    expects: &E,
    beside: &Beside<S>,
    lane: u32,
    first: u32,
    count: u32,
    own: &mut O,
)
    requires independent { is_data_independent beside.now.job.setting.variant beside.now.job.pass
        beside.now.job.slice ≡ true }
    requires lane_fits { lane < beside.now.job.setting.lanes }
    requires later { first_index beside.now.job ≤ first }
    requires few { count ≤ 128 }
    requires indexes_fit { first + count ≤ beside.now.job.setting.segment_length }
    requires long { length (O.seen own.old).blocks ≡ beside.now.job.setting.segment_length }
    ensures filled { FillsOn beside.now lane first (first + count) (O.seen own.old)
        (O.seen own.new) }
    ensures long { length (O.seen own.new).blocks ≡ beside.now.job.setting.segment_length }
    ensures tally { (O.seen own.new).tally ≡ ((O.seen own.old).tally + count) % 2 ^ 64 }
    ensures same { O.loan own.new ≡ O.loan own.old }
{
    // On the stack, since a fill allocates nothing. All references are computed before the
    // first write, so that one address block is enough for them.
    let mut references = [(0, 0); QWORDS_IN_BLOCK];
    let some = &mut references[..count as usize];
    reference_positions(beside.job(), lane, first, some);
    write_blocks(expects, beside, lane, first, some, own);
}

/// Fills at most 128 blocks of a lane's segment of the job's slice, from an index on. The blocks
/// below the index are filled already.
fn fill_blocks<E: Expects, S: OtherBlocks, O: OwnBlocks>(
    expects: &E,
    beside: &Beside<S>,
    lane: u32,
    first: u32,
    count: u32,
    own: &mut O,
)
    requires lane_fits { lane < beside.now.job.setting.lanes }
    requires later { first_index beside.now.job ≤ first }
    requires few { count ≤ 128 }
    requires indexes_fit { first + count ≤ beside.now.job.setting.segment_length }
    requires long { length (O.seen own.old).blocks ≡ beside.now.job.setting.segment_length }
    ensures filled { FillsOn beside.now lane first (first + count) (O.seen own.old)
        (O.seen own.new) }
    ensures long { length (O.seen own.new).blocks ≡ beside.now.job.setting.segment_length }
    ensures tally { (O.seen own.new).tally ≡ ((O.seen own.old).tally + count) % 2 ^ 64 }
    ensures same { O.loan own.new ≡ O.loan own.old }
{
    if beside.job().is_independent() {
        fill_independent(expects, beside, lane, first, count, own);
    } else {
        fill_dependent(expects, beside, lane, first, count, own);
    }
}

/// Fills a lane's segment of the job's slice.
#[tactic(auto, using(crate::proofs::Filled::filled_none, crate::proofs::Filled::filled_all))]
fn fill_own<E: Expects, S: OtherBlocks, O: OwnBlocks>(
    expects: &E,
    beside: &Beside<S>,
    lane: u32,
    own: &mut O,
)
    requires lane_fits { lane < beside.now.job.setting.lanes }
    requires long { length (O.seen own.old).blocks ≡ beside.now.job.setting.segment_length }
    ensures filled { let j = beside.now.job in IsSnapshot beside.now
        → IsReady j.setting j.pass j.slice lane (O.seen own.old).blocks
        → (O.seen own.new).blocks ≡ segment_at j.setting j.pass j.slice lane }
    ensures tally { let j = beside.now.job in (O.seen own.new).tally
        ≡ ((O.seen own.old).tally + blocks_in_slice j.setting j.pass j.slice) % 2 ^ 64 }
    ensures same { O.loan own.new ≡ O.loan own.old }
{
    let job = beside.job();
    // Read for its range, as in `fill_dependent`.
    let _tally = own.tally();
    let mut index = job.first_index();
    while index < job.segment_length() {
        let count = stretch(job, index);
        fill_blocks(expects, beside, lane, index, count, own);
        index += count;
    }
}

/// Fills a lane's segment of the job's slice.
#[tactic(auto, using(crate::proofs::Filled::filled_none))]
pub fn fill_segment(snapshot: &Snapshot<'_>, lane: u32, segment: &mut Segment)
    requires lane_fits { lane < snapshot.now.job.setting.lanes }
    requires ready { IsReady snapshot.now.job.setting snapshot.now.job.pass snapshot.now.job.slice
        lane segment.old.blocks }
    ensures filled { segment.new.blocks ≡ segment_at snapshot.now.job.setting snapshot.now.job.pass
        snapshot.now.job.slice lane }
    ensures tally { segment.new.tally
        ≡ (segment.old.tally
        + blocks_in_slice snapshot.now.job.setting snapshot.now.job.pass snapshot.now.job.slice) % 2
        ^ 64 }
{
    fill_own(&ExpectsNothing, snapshot.beside(), lane, segment);
}

/// Fills a lane's segment of the job's slice. The caller provides the segment and the other three
/// slices, whatever their contents. The slices come in rising order, each stored lane after lane.
///
/// The segment then holds the blocks of the job's pass, provided that three conditions hold: the
/// segment was ready for a fill of the job, the slices below the job's hold the blocks of that
/// pass, and the slices above hold the blocks of the pass before.
pub fn fill_caller_segment<E: Expects>(
    expects: &E,
    job: &Job,
    lane: u32,
    first: &[Block],
    second: &[Block],
    third: &[Block],
    own: &mut [Block],
)
    requires lane_fits { lane < job.now.setting.lanes }
    requires first_fits { length first.now ≡ job.now.setting.lanes * job.now.setting.segment_length }
    requires second_fits { length second.now
        ≡ job.now.setting.lanes * job.now.setting.segment_length }
    requires third_fits { length third.now ≡ job.now.setting.lanes * job.now.setting.segment_length }
    requires own_fits { length own.old ≡ job.now.setting.segment_length }
    ensures { FillsAmong job.now lane (first.now ∷ second.now ∷ third.now ∷ []) own.old own.new }
{
    facts_of_job(job);
    let beside = beside_blocks(*job, [first, second, third]);
    let mut segment = CallerSegment::new(own);
    fill_own(expects, &beside, lane, &mut segment);
}
