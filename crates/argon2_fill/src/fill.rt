//! The stages of a hash: a memory, the first blocks of each lane, the fill of all slices, the tag.

ghost use Rattle.std.specs.Prelude.{◌≡◌, ℕ, ◌+◌, ◌-◌, ◌*◌, ◌%◌, ◌^◌, ◌<◌, ◌≤◌, ◌++◌, [], IfErr, IfOk, IsOk, OnErr, OnOk, false, length, true, vec_len};
ghost use Rattle.argon2_standard.specs.Standard.Outcome.{IsResourceError};
ghost use Rattle.argon2_standard.specs.Standard.ThreadModes.{may_lack_workers, uses_sequential};
ghost use Rattle.argon2_memory.specs.Views.Jobs.{setting_of_context};
ghost use Rattle.argon2_memory.specs.Standard.Kept.{HasShape, HoldsFill, HoldsLastPass, IsLeft, block_of, no_memory};
ghost use Rattle.argon2_memory.specs.Theorems.Schedule.{IsBegun, matrix_with, blocks_in_slice};
ghost use Rattle.argon2_memory.specs.Views.Memories.{AreSlices, blocks_written, slice_writes, writes, writes_in, segments_of};
ghost use Rattle.argon2_memory.specs.Views.Places.{AreFilledBelow, HoldsSlice, IsReadySlice, lanes_in, last_blocks_in, places_in};
ghost use Rattle.argon2_standard.specs.Standard.Setting.{memory_blocks};
ghost use Rattle.argon2_standard.specs.Standard.Tag.{tag_of, tag_from};
ghost use Rattle.std.specs.Int.{to_le_bytes, w32};
ghost use Rattle.argon2_standard.specs.Standard.Recurrence.{first_block};
ghost use Rattle.std.specs.List.{fold};
ghost use Rattle.argon2_blocks.specs.Standard.Block.{block_bytes, xor, zero_block};
ghost use Rattle.argon2_blocks.specs.Standard.Hprime.{hprime};

use crate::workers::{NoGate, fill_parallel};
use argon2_blocks::basics::{copy_from_slice, u32_to_le_bytes};
use argon2_blocks::blake2b::{hprime, wipe};
use argon2_blocks::block::Block;
use argon2_blocks::common::{BLOCK_SIZE, PREHASH_DIGEST_LENGTH, PREHASH_SEED_LENGTH};
use argon2_memory::job::{
    Job, facts_of_context, facts_of_job, numbered_job, prehash_of_job, slice_count,
};
use argon2_memory::memory::{
    Memory, Slices, facts_of_memory, memory_of_slices, others, take_slice, take_slices,
};
use argon2_memory::segment::{Segment, Snapshot, fill_segment};
use argon2_standard::context::Context;
use argon2_standard::error::Error;
use argon2_standard::result::Result;
use std::alloc::Global;
use std::marker::Sync;
use std::sync::Wait;
use std::thread::Threads;

/// Makes a memory fit the context's lanes and lane length. One that fits is unchanged. Any other is
/// freed and allocated anew, of zeros. If memory cannot be allocated, the call returns
/// `OutOfMemory`, and the memory has no lanes.
pub fn prepare_memory(alloc: Global, context: &Context<'_>, memory: &mut Memory) -> Result<()>
    ensures shape { OnOk result (HasShape (setting_of_context context.now) memory.new) }
    ensures kept { HasShape (setting_of_context context.now) memory.old
        → IsOk result × (memory.new ≡ memory.old) }
    ensures left { OnErr result (memory.new ≡ no_memory) }
    ensures refused { IfErr result (λ e. e ≡ Error.OutOfMemory) }
{
    facts_of_context(context);
    let lanes = context.config.lanes;
    if memory.lanes() == lanes && memory.lane_length() == context.lane_length {
        // Not wiped, since a hash reads no block that it has not written.
        return Ok(());
    }
    // The old blocks are freed before the new ones are allocated, so that both never exist at once.
    *memory = Memory::empty(alloc);
    *memory = Memory::new(alloc, lanes, context.lane_length)?;
    Ok(())
}

/// Writes the first two blocks of each lane (RFC 9106, 3.2, steps 3 and 4), and no others. The
/// memory has the context's lanes and lane length.
pub fn initialize(context: &Context<'_>, memory: &mut Memory)
    requires shape { HasShape (setting_of_context context.now) memory.old }
    ensures shape { HasShape (setting_of_context context.now) memory.new }
    ensures begun { IsBegun (setting_of_context context.now) (block_of memory.new) }
    ensures others { (lane column : ℕ) → 2 ≤ column
        → block_of memory.new lane column ≡ block_of memory.old lane column }
    ensures writes { writes memory.new ≡ (writes memory.old + 2 * context.now.config.lanes) % 2 ^ 64 }
{
    facts_of_context(context);
    let job = Job::new(context);
    for lane in 0..job.lanes() {
        write_first(&job, lane, memory);
    }
}

/// Writes two byte strings, one behind the other.
fn put_both(out: &mut [u8], first: &[u8], second: &[u8])
    requires { length first.now + length second.now ≡ length out.old }
    ensures { out.new ≡ first.now ++ second.now }
{
    copy_from_slice(&mut out[..first.len()], first);
    copy_from_slice(&mut out[first.len()..], second);
}

/// Writes the H' input for a lane's first or second block.
fn first_input(prehash: &[u8; PREHASH_DIGEST_LENGTH], lane: u32, column: u32, out: &mut [u8])
    requires { length out.old ≡ 72 }
    ensures { out.new ≡ prehash.now ++ to_le_bytes w32 column ++ to_le_bytes w32 lane }
{
    let mut place = [0; 8];
    put_both(&mut place, &u32_to_le_bytes(column), &u32_to_le_bytes(lane));
    put_both(out, prehash, &place);
}

/// Writes one of a lane's first two blocks (RFC 9106, 3.2, steps 3 and 4).
#[tactic(auto, unfolding(argon2_standard::specs::Standard::Recurrence::first_block))]
pub fn write_first_block(job: &Job, lane: u32, column: u32, block: &mut Block)
    ensures { block.new ≡ first_block job.now.setting
        (record { pass = 0; lane = lane; column = column }) }
{
    let mut seed = [0; PREHASH_SEED_LENGTH];
    // Whoever has H0 can try a password at the cost of one BLAKE2b hash, so each copy of H0 is
    // overwritten.
    let mut prehash = prehash_of_job(job);
    first_input(&prehash, lane, column, &mut seed);
    wipe(&mut prehash, 0);
    let mut bytes = [0; BLOCK_SIZE];
    hprime(&mut bytes, &seed);
    block.set_u8(&bytes);
    wipe(&mut seed, 0);
    wipe(&mut bytes, 0);
}

/// Writes a lane's first two blocks. They are copied in, since `Memory` lends no block mutably.
fn write_first(job: &Job, lane: u32, memory: &mut Memory)
    requires shape { HasShape job.now.setting memory.old }
    requires lane_fits { lane < job.now.setting.lanes }
    ensures shape { HasShape job.now.setting memory.new }
    ensures blocks { let block = λ (column : ℕ). first_block job.now.setting
        (record { pass = 0; lane = lane; column = column }) in
        (l c : ℕ) → block_of memory.new l c ≡ matrix_with
        (matrix_with (block_of memory.old) lane 0 (block 0)) lane 1 (block 1) l c }
    ensures writes { writes memory.new ≡ (writes memory.old + 2) % 2 ^ 64 }
{
    facts_of_job(job);
    facts_of_memory(memory);
    let mut first = Block::zero();
    let mut second = Block::zero();
    write_first_block(job, lane, 0, &mut first);
    write_first_block(job, lane, 1, &mut second);
    memory.set(lane, 0, &first);
    memory.set(lane, 1, &second);
    first.wipe();
    second.wipe();
}

/// Fills all slices of all passes in the caller's thread, lane after lane. The memory has the
/// context's lanes and lane length, and the first two blocks of each lane as `initialize` leaves
/// them. It allocates nothing and always succeeds.
pub fn fill_sequential(context: &Context<'_>, memory: &mut Memory)
    requires shape { HasShape (setting_of_context context.now) memory.old }
    requires begun { IsBegun (setting_of_context context.now) (block_of memory.old) }
    ensures shape { HasShape (setting_of_context context.now) memory.new }
    ensures filled { HoldsLastPass (setting_of_context context.now) (block_of memory.new) }
    ensures writes { let c = context.now in
        writes memory.new ≡ (writes memory.old +
        (c.config.time_cost * c.memory_blocks - 2 * c.config.lanes)) % 2 ^ 64 }
{
    facts_of_context(context);
    let job = Job::new(context);
    // Each slice is moved out while it is filled. A `Memory` must have all its slices, so all of
    // them move out here.
    let mut slices = take_slices(memory);
    fill_slices(&job, &mut slices);
    *memory = memory_of_slices(job.lanes(), job.segment_length(), slices);
}

/// Fills all slices of all passes, one after another.
fn fill_slices(job: &Job, slices: &mut Slices)
    requires slices { AreSlices job.now.setting.lanes job.now.setting.segment_length
        (segments_of slices.old) }
    requires begun { AreFilledBelow job.now.setting 0 0 (places_in (segments_of slices.old)) }
    ensures slices { AreSlices job.now.setting.lanes job.now.setting.segment_length
        (segments_of slices.new) }
    ensures filled { AreFilledBelow job.now.setting job.now.setting.passes 0
        (places_in (segments_of slices.new)) }
    ensures writes { writes_in (segments_of slices.new)
        ≡ (writes_in (segments_of slices.old) + blocks_written job.now.setting
        (4 * job.now.setting.passes)) % 2 ^ 64 }
{
    facts_of_job(job);
    for n in 0..slice_count(job) {
        fill_slice_in_turn(&numbered_job(job, n), slices);
    }
}

/// Fills the job's slice, which is moved out and back: the others are read while it is written. No
/// block is copied.
pub fn fill_slice_in_turn(job: &Job, slices: &mut Slices)
    requires slices { AreSlices job.now.setting.lanes job.now.setting.segment_length
        (segments_of slices.old) }
    requires ready { AreFilledBelow job.now.setting job.now.pass job.now.slice
        (places_in (segments_of slices.old)) }
    ensures slices { AreSlices job.now.setting.lanes job.now.setting.segment_length
        (segments_of slices.new) }
    ensures filled { AreFilledBelow job.now.setting job.now.pass (job.now.slice + 1)
        (places_in (segments_of slices.new)) }
    ensures writes { writes_in (segments_of slices.new)
        ≡ (writes_in (segments_of slices.old)
        + job.now.setting.lanes * blocks_in_slice job.now.setting job.now.pass job.now.slice) % 2 ^
        64 }
{
    facts_of_job(job);
    let slice = job.slice();
    let mut segments = take_slice(slices, slice);
    let snapshot = Snapshot::new(*job, others(slices, slice));
    fill_lanes(&snapshot, &mut segments);
    slices[slice as usize] = segments;
}

/// Fills the segments of a slice, lane after lane.
fn fill_lanes(snapshot: &Snapshot<'_>, segments: &mut [Segment])
    requires lanes { length segments.old ≡ snapshot.now.job.setting.lanes }
    requires ready { let j = snapshot.now.job in
        IsReadySlice j.setting j.pass j.slice (lanes_in segments.old) }
    ensures filled { let j = snapshot.now.job in
        HoldsSlice j.setting j.pass j.slice (lanes_in segments.new) }
    ensures writes { let j = snapshot.now.job in slice_writes segments.new % 2 ^ 64
        ≡ (slice_writes segments.old + j.setting.lanes * blocks_in_slice j.setting j.pass j.slice) %
        2 ^ 64 }
{
    facts_of_job(snapshot.job());
    for lane in 0..segments.len() {
        fill_segment(snapshot, lane as u32, &mut segments[lane]);
    }
}

/// Fills all slices of all passes in the context's thread mode: in the caller's thread where
/// `uses_sequential` says so, and otherwise by workers. The memory has the context's lanes and lane
/// length, and the first two blocks of each lane as `initialize` leaves them.
///
/// With workers, it returns `OutOfMemory` if memory is denied, or `WorkerRefused` if a worker
/// cannot be started. The memory then has no lanes.
pub fn fill_memory_blocks<R: Threads + Wait + Sync>(
    rt: &R,
    alloc: Global,
    context: &Context<'_>,
    memory: &mut Memory,
) -> Result<()>
    requires shape { HasShape (setting_of_context context.now) memory.old }
    requires begun { IsBegun (setting_of_context context.now) (block_of memory.old) }
    ensures shape { OnOk result (HasShape (setting_of_context context.now) memory.new) }
    ensures filled { OnOk result (HoldsLastPass (setting_of_context context.now)
        (block_of memory.new)) }
    ensures left { OnErr result (memory.new ≡ no_memory) }
    ensures alone { uses_sequential context.now.config ≡ true → IsOk result }
    ensures refused { IfErr result (IsResourceError (may_lack_workers context.now.config)) }
{
    if context.config.uses_sequential() {
        fill_sequential(context, memory);
        return Ok(());
    }
    fill_parallel(rt, alloc, context, memory, &NoGate)
}

/// The exclusive or of the last blocks of all lanes.
fn combine_last_blocks(memory: &Memory, out: &mut Block)
    requires zero { out.old ≡ zero_block }
    requires some { 0 < memory.now.segment_length }
    ensures { let m = memory.now in
        out.new ≡ fold xor zero_block
        (last_blocks_in m.lanes m.segment_length (places_in m.slices 3)) }
{
    let last = memory.lane_length() - 1;
    for lane in 0..memory.lanes() {
        *out ^= &memory[(lane, last)];
    }
}

/// Writes the hash of the combined last blocks (RFC 9106, 3.2, step 8), and overwrites the combined
/// block, since it reveals the tag.
pub(crate) fn write_tag(block: &mut Block, out: &mut [u8])
    requires some { 0 < length out.old }
    requires few { length out.old < 2 ^ 32 }
    ensures hash { out.new ≡ hprime (length out.old) (block_bytes block.old) }
    ensures wiped { block.new ≡ zero_block }
{
    let mut bytes = block.as_u8();
    hprime(out, &bytes);
    wipe(&mut bytes, 0);
    block.wipe();
}

/// The hash of the last blocks of all lanes, combined (RFC 9106, 3.2, steps 7 and 8): the tag,
/// if the memory is filled. The memory has the context's lanes and lane length. If memory cannot
/// be allocated, the call returns `OutOfMemory`.
#[tactic(auto, unfolding(argon2_standard::specs::Standard::SettingsTable::table_error))]
pub fn finalize(alloc: Global, context: &Context<'_>, memory: &Memory) -> Result<Vec<u8>>
    requires shape { HasShape (setting_of_context context.now) memory.now }
    ensures hash { let m = memory.now in IfOk result (λ tag. tag.items
        ≡ tag_from (last_blocks_in m.lanes m.segment_length (places_in m.slices 3))
        context.now.config.hash_length) }
    ensures tag { let c = context.now in HoldsLastPass (setting_of_context c) (block_of memory.now)
        → IfOk result (λ tag. tag.items ≡ tag_of c.pwd.now c.salt.now c.config c.config.hash_length) }
    ensures length { IfOk result (λ tag. vec_len tag ≡ context.now.config.hash_length) }
    ensures refused { IfErr result (λ e. e ≡ Error.OutOfMemory) }
{
    facts_of_context(context);
    let mut block = Block::zero();
    combine_last_blocks(memory, &mut block);
    let mut tag = vec![in alloc; 0u8; context.config.hash_length as usize]?;
    write_tag(&mut block, &mut tag[..]);
    Ok(tag)
}

/// The tag of an accepted call, computed in a reusable buffer in the thread mode of the
/// configuration: all stages of a hash, one after another. Any memory serves. One with the
/// context's lanes and lane length is used as it is, and any other is freed first and allocated
/// anew.
///
/// The memory then holds the blocks of this computation. After a resource error (`OutOfMemory`, or
/// `WorkerRefused` if a worker could not be started) it may have no lanes.
pub fn tag<R: Threads + Wait + Sync>(
    rt: &R,
    alloc: Global,
    context: &Context<'_>,
    memory: &mut Memory,
) -> Result<Vec<u8>>
    ensures tag { let c = context.now in
        IfOk result (λ tag. tag.items ≡ tag_of c.pwd.now c.salt.now c.config c.config.hash_length) }
    ensures length { IfOk result (λ tag. vec_len tag ≡ context.now.config.hash_length) }
    ensures filled { OnOk result (HoldsFill (setting_of_context context.now) memory.new) }
    ensures left { OnErr result (IsLeft (may_lack_workers context.now.config)
        (setting_of_context context.now) memory.old memory.new) }
    ensures refused { IfErr result (IsResourceError (may_lack_workers context.now.config)) }
{
    prepare_memory(alloc, context, memory)?;
    initialize(context, memory);
    fill_memory_blocks(rt, alloc, context, memory)?;
    finalize(alloc, context, memory)
}

/// The tag of an accepted call, computed in a reusable buffer in the caller's thread. It does what
/// `tag` does, but it starts no worker, and a memory that fits never loses its blocks.
pub fn tag_sequential(alloc: Global, context: &Context<'_>, memory: &mut Memory) -> Result<Vec<u8>>
    ensures tag { let c = context.now in
        IfOk result (λ tag. tag.items ≡ tag_of c.pwd.now c.salt.now c.config c.config.hash_length) }
    ensures length { IfOk result (λ tag. vec_len tag ≡ context.now.config.hash_length) }
    ensures filled { OnOk result (HoldsFill (setting_of_context context.now) memory.new) }
    ensures left { OnErr result (IsLeft false (setting_of_context context.now)
        memory.old memory.new) }
    ensures refused { IfErr result (IsResourceError false) }
{
    prepare_memory(alloc, context, memory)?;
    initialize(context, memory);
    fill_sequential(context, memory);
    finalize(alloc, context, memory)
}
