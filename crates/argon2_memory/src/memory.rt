//! The matrix of blocks, as four slices of segments.

ghost use Rattle.std.specs.Prelude.{◌≡◌, ◌*◌, ◌%◌, ◌^◌, ◌<◌, [], IfOk, map, replicate, slice_index_or, slice_set, ◌+◌, ◌/◌, ◌≤◌, IfErr, length};
ghost use Rattle.std.specs.List.{remove};
ghost use Rattle.argon2_memory.specs.Views.Memories.{wiped_memory, slice_writes, writes_in, AreSlices, IsMemory, set_in, writes, zero_memory, segments_of};
ghost use Rattle.argon2_memory.specs.Standard.Kept.{MemoryValue, block_of, no_memory, segment_in};
ghost use Rattle.argon2_memory.specs.Views.Segments.{wiped_segment, zero_segment};

use crate::segment::Segment;
use argon2_blocks::block::Block;
use argon2_blocks::common::SYNC_POINTS;
use argon2_standard::error::Error;
use argon2_standard::result::Result;
use std::alloc::{AllocError, Global};
use std::marker::Model;
use std::ops::Index;
use std::{fmt, mem};

/// Four slices, each with a segment for each lane. Each is a vector of its own, so that one can be
/// moved out and written while the others are read, in one thread or in many.
pub type Slices = [Vec<Segment>; 4];

/// Moves a slice out, and leaves an empty one in its place. No block is copied.
pub fn take_slice(slices: &mut Slices, slice: u32) -> Vec<Segment>
    requires { slice < 4 }
    ensures taken { result.items ≡ slice_index_or (segments_of slices.old) slice [] }
    ensures left { segments_of slices.new ≡ slice_set (segments_of slices.old) slice [] }
{
    let slice = slice as usize;
    // An empty vector allocates nothing, so nothing can fail.
    let alloc = *slices[slice].allocator();
    mem::replace(&mut slices[slice], Vec::new(alloc))
}

/// The other three slices, in rising order.
pub fn others(slices: &Slices, slice: u32) -> [&[Segment]; 3]
    requires { slice < 4 }
    ensures { map (λ s. s.now) result ≡ remove (segments_of slices.now) slice }
{
    let all = &slices[..];
    match slice {
        0 => [all[1].as_slice(), all[2].as_slice(), all[3].as_slice()],
        1 => [all[0].as_slice(), all[2].as_slice(), all[3].as_slice()],
        2 => [all[0].as_slice(), all[1].as_slice(), all[3].as_slice()],
        _ => [all[0].as_slice(), all[1].as_slice(), all[2].as_slice()],
    }
}

/// Allocates room for a whole matrix at once, and frees it. A system that overcommits memory denies
/// a single request that it can never meet. It may grant the same amount in parts, and kill the
/// process that writes there.
fn ask_for_room(alloc: Global, lanes: u32, lane_length: u32) -> std::result::Result<(), AllocError>
    requires fits { lanes * lane_length < 2 ^ 32 }
{
    let blocks = lanes * lane_length;
    let room: Vec<Block> = Vec::with_capacity(alloc, blocks as usize)?;
    drop(room);
    Ok(())
}

/// A slice of zeros.
fn zero_slice(
    alloc: Global,
    lanes: u32,
    length: u32,
) -> std::result::Result<Vec<Segment>, AllocError>
    ensures { IfOk result (λ v. v.items ≡ replicate lanes (zero_segment length)) }
{
    let mut segments = Vec::with_capacity(alloc, lanes as usize)?;
    for _lane in 0..lanes {
        segments.push(Segment::new(alloc, length)?)?;
    }
    Ok(segments)
}

/// Four slices without segments.
fn empty_slices(alloc: Global) -> Slices
    ensures { segments_of result ≡ replicate 4 [] }
{
    [
        Vec::new(alloc),
        Vec::new(alloc),
        Vec::new(alloc),
        Vec::new(alloc),
    ]
}

fn wipe_slice(segments: &mut [Segment])
    ensures { segments.new ≡ map wiped_segment segments.old }
{
    for segment in segments.iter_mut() {
        segment.wipe();
    }
}

fn wipe_slices(slices: &mut Slices)
    ensures { segments_of slices.new ≡ map (map wiped_segment) (segments_of slices.old) }
{
    for slice in 0..slices.len() {
        wipe_slice(&mut slices[slice]);
    }
}

/// The sum of the tallies of a slice, modulo 2^64.
fn slice_tally(segments: &[Segment]) -> u64
    ensures { result ≡ slice_writes segments.now % 2 ^ 64 }
{
    let mut sum = 0u64;
    for segment in segments {
        sum = sum.wrapping_add(segment.tally());
    }
    sum
}

/// The sum of the tallies of all slices, modulo 2^64.
fn tally(slices: &Slices) -> u64
    ensures { result ≡ writes_in (segments_of slices.now) }
{
    let mut sum = 0u64;
    for segments in slices {
        sum = sum.wrapping_add(slice_tally(segments.as_slice()));
    }
    sum
}

/// The matrix of blocks of 1 KiB: a row for each lane. Column c of a lane of 4 L columns is the
/// block at index c mod L of the lane's segment in slice c / L (RFC 9106, 3.4).
///
/// Dropping it overwrites its blocks with zeros, since anyone who reads the blocks can try
/// passwords at a lower cost.
pub struct Memory {
    lanes: u32,
    segment_length: u32,
    slices: Slices,
}

impl Model for Memory {
    ghost Value = { MemoryValue };

    ghost view = { λ m. record {
      lanes = m.lanes;
      segment_length = m.segment_length;
      slices = map
          (λ v. v.items) m.slices;
    } };

    ghost invariant = { λ m. IsMemory (record {
      lanes = m.lanes;
      segment_length = m.segment_length;
      slices = map (λ v. v.items) m.slices;
    }) };
}

impl Drop for Memory {
    fn drop(self) {
        let Memory {
            lanes: _,
            segment_length: _,
            mut slices,
        } = self;
        wipe_slices(&mut slices);
    }
}

/// Tells the prover the bounds that each memory keeps, as `facts_of_job` does for a job.
pub fn facts_of_memory(memory: &Memory)
    ensures { IsMemory memory.now }
{
    let _lanes = memory.lanes();
}

/// Writes a block into one segment of the four slices.
fn put_among(slices: &mut [Vec<Segment>], slice: usize, lane: usize, index: usize, block: &Block)
    requires slice_fits { slice < length slices.old }
    requires lane_fits { lane < length (slice_index_or (map (λ v. v.items) slices.old) slice []) }
    requires index_fits { index < length (segment_in (map
        (λ v. v.items) slices.old) slice lane).blocks }
    ensures { map (λ v. v.items) slices.new ≡ set_in (map
        (λ v. v.items) slices.old) slice lane index block.now }
{
    let segments = &mut slices[slice];
    segments[lane].put(index, block);
}

impl Memory {
    /// A memory of zeros, with `lanes` lanes of `lane_length` blocks each. If memory cannot be
    /// allocated, the call returns `OutOfMemory`.
    pub fn new(alloc: Global, lanes: u32, lane_length: u32) -> Result<Memory>
        requires some_lane { 0 < lanes }
        requires whole_slices { lane_length % 4 ≡ 0 }
        requires some_blocks { 8 ≤ lane_length }
        requires fits { lanes * lane_length < 2 ^ 32 }
        ensures zeros { IfOk result (λ m. m ≡ zero_memory lanes (lane_length / 4)) }
        ensures refused { IfErr result (λ e. e ≡ Error.OutOfMemory) }
    {
        // First, so that nothing is written if the whole can never be allocated.
        ask_for_room(alloc, lanes, lane_length)?;
        let segment_length = lane_length / SYNC_POINTS;
        let slices = [
            zero_slice(alloc, lanes, segment_length)?,
            zero_slice(alloc, lanes, segment_length)?,
            zero_slice(alloc, lanes, segment_length)?,
            zero_slice(alloc, lanes, segment_length)?,
        ];
        Ok(Memory {
            lanes,
            segment_length,
            slices,
        })
    }

    /// A memory without lanes. It allocates nothing.
    pub fn empty(alloc: Global) -> Memory
        ensures { result ≡ no_memory }
    {
        Memory {
            lanes: 0,
            segment_length: 0,
            slices: empty_slices(alloc),
        }
    }

    /// Overwrites all blocks with zeros, and counts the writes from 0 again.
    pub fn wipe(&mut self)
        ensures { self.new ≡ wiped_memory self.old }
    {
        wipe_slices(&mut self.slices);
    }

    /// How many lanes there are.
    pub fn lanes(&self) -> u32
        ensures value { result ≡ self.now.lanes }
        ensures memory { IsMemory self.now }
    {
        self.lanes
    }

    /// How many columns there are: the blocks of a lane.
    pub fn lane_length(&self) -> u32
        ensures value { result ≡ 4 * self.now.segment_length }
        ensures memory { IsMemory self.now }
    {
        SYNC_POINTS * self.segment_length
    }

    /// Writes a block at a lane and column, and counts the write.
    pub fn set(&mut self, lane: u32, column: u32, block: &Block)
        requires lane_fits { lane < self.old.lanes }
        requires column_fits { column < 4 * self.old.segment_length }
        ensures { let len = self.old.segment_length in
            self.new ≡ record self.old {
              slices = set_in self.old.slices (column / len) lane
                  (column % len) block.now;
            } }
    {
        let slice = column / self.segment_length;
        let index = column % self.segment_length;
        put_among(
            &mut self.slices,
            slice as usize,
            lane as usize,
            index as usize,
            block,
        );
    }

    /// How many blocks were written since the memory was made or wiped, modulo 2^64.
    pub fn writes(&self) -> u64
        ensures { result ≡ writes self.now }
    {
        tally(&self.slices)
    }

    fn block(&self, lane: u32, column: u32) -> &Block
        requires lane_fits { lane < self.now.lanes }
        requires column_fits { column < 4 * self.now.segment_length }
        ensures { result.now ≡ block_of self.now lane column }
    {
        let slices = &self.slices[..];
        let segments = slices[(column / self.segment_length) as usize].as_slice();
        segments[lane as usize].block((column % self.segment_length) as usize)
    }
}

/// Moves all slices out, and leaves a memory without lanes. A slice that is dropped
/// outside a `Memory` is not overwritten.
pub fn take_slices(memory: &mut Memory) -> Slices
    ensures slices { map (λ v. v.items) result ≡ memory.old.slices }
    ensures memory { IsMemory memory.old }
    ensures left { memory.new ≡ no_memory }
{
    // Vectors without elements allocate nothing, so nothing can fail.
    let alloc = *memory.slices[0].allocator();
    memory.lanes = 0;
    memory.segment_length = 0;
    mem::replace(&mut memory.slices, empty_slices(alloc))
}

/// The memory of four slices.
pub fn memory_of_slices(lanes: u32, segment_length: u32, slices: Slices) -> Memory
    requires slices { AreSlices lanes segment_length (map (λ v. v.items) slices) }
    requires fits { 4 * lanes * segment_length < 2 ^ 32 }
    requires lane_fits { 4 * segment_length < 2 ^ 32 }
    ensures { result ≡ record {
      lanes = lanes;
      segment_length = segment_length;
      slices = map
          (λ v. v.items) slices;
    } }
{
    Memory {
        lanes,
        segment_length,
        slices,
    }
}

/// The block at a lane and column.
impl Index<(u32, u32)> for Memory {
    type Output = Block;

    ghost can_index = { λ m i. (i.0 < m.lanes) × (i.1 < 4 * m.segment_length) };

    ghost index_gives = { λ m i x. x ≡ block_of m i.0 i.1 };

    fn index(&self, index: (u32, u32)) -> &Block {
        self.block(index.0, index.1)
    }
}

/// The block of a number, counted lane after lane.
impl Index<u32> for Memory {
    type Output = Block;

    ghost can_index = { λ m n. n < 4 * m.lanes * m.segment_length };

    ghost index_gives = { λ m n x. x ≡ block_of m (n / (4 * m.segment_length)) (n %
        (4 * m.segment_length)) };

    fn index(&self, index: u32) -> &Block {
        &self[u64::from(index)]
    }
}

/// The block of a number, counted lane after lane.
impl Index<u64> for Memory {
    type Output = Block;

    ghost can_index = { λ m n. n < 4 * m.lanes * m.segment_length };

    ghost index_gives = { λ m n x. x ≡ block_of m (n / (4 * m.segment_length)) (n %
        (4 * m.segment_length)) };

    fn index(&self, index: u64) -> &Block {
        let length = u64::from(self.lane_length());
        self.block((index / length) as u32, (index % length) as u32)
    }
}

/// The numbers of lanes and of columns.
impl fmt::Debug for Memory {
    ghost use Rattle.std.specs.Prelude.{◌++◌, ◌*◌, Some, codes};
    ghost use Rattle.std.specs.Fmt.{decimal};

    ghost debug_output = { λ m. Some (codes "Memory { rows: " ++ decimal m.lanes ++ codes ", cols: " ++ decimal (4 * m.segment_length) ++ codes " }") };

    fn fmt<W: fmt::Write>(&self, f: &mut fmt::Formatter<W>) -> fmt::Result {
        let (rows, columns) = (self.lanes(), self.lane_length());
        write!(f, "Memory {{ rows: {rows}, cols: {columns} }}")
    }
}
