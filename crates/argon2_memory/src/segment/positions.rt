//! The references of a block: the lane and column that a drawn word picks.

ghost use Rattle.std.specs.Prelude.{◌≡◌, IfSome, ℕ, ◌+◌, ◌-◌, ◌*◌, ◌/◌, ◌%◌, ◌^◌, ◌<◌, ◌≤◌, ◌==◌, length, take, drop, true, false};
ghost use Rattle.argon2_memory.specs.Views.References.{reference_set_column, reference_set_size, left_columns, pick_of, reference_positions_of};
ghost use Rattle.argon2_memory.specs.Views.Jobs.{position_of, first_index, IsJob};
ghost use Rattle.argon2_standard.specs.Standard.Recurrence.{addresses};
ghost use Rattle.argon2_standard.specs.Standard.Reference.{drawn_lane, relative_position, is_data_independent};
ghost use Rattle.argon2_standard.specs.Standard.Setting.{lane_length};

use super::expecting::Ahead;
use crate::job::{Job, facts_of_job};
use argon2_blocks::block::{Block, fill_block};
use argon2_blocks::common::{ADDRESSES_IN_BLOCK, QWORDS_IN_BLOCK};

/// A word has two halves of 32 bits. A division by this power of 2 is a shift, whose time tells
/// nothing of what is drawn.
const HALF: u64 = 1 << 32;

/// 1 if a number is not below a bound, else 0. It is a sum: a compiler may turn a comparison into a
/// branch, and no branch may depend on what is drawn from blocks.
fn reaches(number: u32, bound: u32) -> u32
    ensures below { number < bound → result ≡ 0 }
    ensures reached { bound ≤ number → result ≡ 1 }
{
    ((number as u64 + HALF - bound as u64) / HALF) as u32
}

/// The relative position that a word draws in a reference set of `size` blocks (RFC 9106, 3.4.2).
fn relative_position(size: u32, word: u64) -> u32
    requires { 0 < size }
    ensures value { result ≡ relative_position size word }
    ensures fits { result < size }
{
    let low = word % HALF;
    let square = low * low / HALF;
    let back = size as u64 * square / HALF;
    size - 1 - back as u32
}

/// How many columns of a lane still hold blocks of the pass before.
fn left_columns(job: &Job) -> u32
    ensures value { result ≡ left_columns job.now }
    ensures fits { result + job.now.slice * job.now.setting.segment_length +
        job.now.setting.segment_length
        ≤ lane_length job.now.setting }
{
    let end = job.start() + job.segment_length();
    if job.pass() == 0 {
        0
    } else {
        job.lane_length() - end
    }
}

/// How many blocks the reference set of the block at an index has, in its own lane (`is_own` is 1)
/// or in another (0). `is_own` is a factor and no `bool`, so that a drawn lane makes no branch.
pub fn reference_set_size(job: &Job, is_own: u32, index: u32) -> u32
    requires is_bit { is_own < 2 }
    requires index_fits { index < job.now.setting.segment_length }
    requires some { 0 < reference_set_size job.now (is_own == 1) index }
    ensures value { result ≡ reference_set_size job.now (is_own == 1) index }
    ensures fits { result ≤ lane_length job.now.setting }
{
    let elsewhere = left_columns(job) + job.start();
    if index == 0 {
        elsewhere - 1
    } else {
        elsewhere + is_own * (index - 1)
    }
}

/// The column at a relative position in the reference set: the columns after the slice come first,
/// then those from the start of the lane on.
pub fn reference_set_column(job: &Job, position: u32) -> u32
    requires { position < lane_length job.now.setting }
    ensures { result ≡ reference_set_column job.now position }
{
    let left = left_columns(job);
    let length = job.lane_length();
    // Neither a branch nor a remainder, since the position is drawn. The sum may exceed 32 bits
    // before the length is taken off.
    position
        .wrapping_add(length - left)
        .wrapping_sub(reaches(position, left) * length)
}

/// The lane that a word draws for a block, and 1 if this is the block's own lane, else 0.
fn drawn_lane(job: &Job, lane: u32, word: u64) -> (u32, u32)
    requires { lane < job.now.setting.lanes }
    ensures value { (index : ℕ) → index < job.now.setting.segment_length
        → result.0 ≡ drawn_lane job.now.setting word (position_of job.now lane index) }
    ensures is_bit { result.1 < 2 }
    ensures own { (result.1 == 1) ≡ (result.0 == lane) }
    ensures job { IsJob job.now }
{
    let lanes = job.lanes();
    if lanes == 1 || job.pass() == 0 && job.slice() == 0 {
        (lane, 1)
    } else {
        // A division, which may take longer for some words: docs/CLAIMS.md names it.
        let drawn = (word / HALF) as u32 % lanes;
        // Each reaches the other exactly where they are equal.
        (drawn, reaches(drawn, lane) + reaches(lane, drawn) - 1)
    }
}

/// The lane and column that a word picks for the block at an index.
// A function of its own in the machine code too, so that one statement about its few instructions
// serves for all fills.
#[inline(never)]
pub fn pick(job: &Job, lane: u32, index: u32, word: u64) -> (u32, u32)
    requires lane_fits { lane < job.now.setting.lanes }
    requires index_fits { index < job.now.setting.segment_length }
    requires later { first_index job.now ≤ index }
    ensures { result ≡ pick_of job.now lane index word }
{
    let (chosen, is_own) = drawn_lane(job, lane, word);
    let size = reference_set_size(job, is_own, index);
    let position = relative_position(size, word);
    (chosen, reference_set_column(job, position))
}

/// What the reference of the block after an index depends on besides the block at the index, if
/// there is one lane and if the segment has a block after it.
pub(super) fn ahead_of(job: &Job, index: u32) -> Option<Ahead>
    requires { index < job.now.setting.segment_length }
    ensures size { IfSome result (λ a. a.size ≡ reference_set_size job.now true (index + 1)) }
    ensures column { IfSome result
        (λ a. a.column ≡ job.now.slice * job.now.setting.segment_length + index) }
    ensures lane { IfSome result (λ a. a.lane_length ≡ lane_length job.now.setting) }
    ensures alone { IfSome result (λ _. job.now.setting.lanes ≡ 1) }
    ensures followed { IfSome result (λ _. index + 1 < job.now.setting.segment_length) }
{
    if job.lanes() > 1 || index + 1 == job.segment_length() {
        return None;
    }
    let column = job.start() + index;
    Some(Ahead {
        size: left_columns(job) + column,
        column,
        lane_length: job.lane_length(),
    })
}

/// Writes the words that the blocks at 128 indexes draw.
fn address_block(job: &Job, lane: u32, number: u32, out: &mut Block)
    ensures { out.new ≡ addresses job.now.setting job.now.pass lane job.now.slice number }
{
    let zero = Block::zero();
    let mut input = [0; QWORDS_IN_BLOCK];
    input[0] = job.pass() as u64;
    input[1] = lane as u64;
    input[2] = job.slice() as u64;
    input[3] = job.memory_blocks() as u64;
    input[4] = job.passes() as u64;
    input[5] = job.variant().as_u64();
    input[6] = number as u64 + 1;
    let mut once = Block::zero();
    fill_block(&zero, &Block::from_words(input), &mut once, false);
    fill_block(&zero, &once, out, false);
}

/// Makes `words` the address block of an index. Unless `is_first`, `words` must hold that of the
/// index before.
fn turn_to(job: &Job, lane: u32, index: u32, is_first: bool, words: &mut Block)
    requires { is_first ≡ false → words.old ≡ addresses job.now.setting job.now.pass lane
        job.now.slice ((index - 1) / 128) }
    ensures { words.new ≡ addresses job.now.setting job.now.pass lane job.now.slice (index / 128) }
{
    // The first index may be no multiple of 128: the first slice begins at 2.
    if is_first || index % ADDRESSES_IN_BLOCK == 0 {
        address_block(job, lane, index / ADDRESSES_IN_BLOCK, words);
    }
}

/// Writes the lanes and columns that the blocks from an index on refer to, in a segment whose
/// references depend on no block.
// Not inlined, for the reason that `pick` is not.
#[inline(never)]
pub fn reference_positions(job: &Job, lane: u32, first: u32, out: &mut [(u32, u32)])
    requires lane_fits { lane < job.now.setting.lanes }
    requires independent { is_data_independent job.now.setting.variant job.now.pass job.now.slice
        ≡ true }
    requires indexes_fit { first + length out.old ≤ job.now.setting.segment_length }
    requires later { first_index job.now ≤ first }
    ensures { let s = job.now.setting in
        out.new ≡ take (length out.old)
        (drop (first - first_index job.now)
        (reference_positions_of s.variant s.lanes s.segment_length s.passes job.now.pass
        job.now.slice lane)) }
{
    facts_of_job(job);
    let mut words = Block::zero();
    for k in 0..out.len() {
        let index = first + k as u32;
        turn_to(job, lane, index, k == 0, &mut words);
        out[k] = pick(
            job,
            lane,
            index,
            words[(index % ADDRESSES_IN_BLOCK) as usize],
        );
    }
}
