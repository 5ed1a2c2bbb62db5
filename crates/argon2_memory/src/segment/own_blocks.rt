//! The two kinds of segment: the blocks of one lane in one slice, in a memory or caller-provided.
//! Their fields are private to this file, so that no block is made in, or copied to, a segment
//! without being counted.

ghost use Rattle.std.specs.Prelude.{◌≡◌, ◌+◌, ◌%◌, ◌^◌, ◌<◌, ◌≤◌, [], IfOk, length, replicate, slice_index_or, slice_set, vec_capacity, vec_len};
ghost use Rattle.argon2_blocks.specs.Standard.Block.{zero_block};
ghost use Rattle.argon2_memory.specs.Views.Segments.{wiped_segment, zero_segment, with_block, IsMadeInPart, with_zeros, IsBefore, source_block};
ghost use Rattle.argon2_standard.specs.Standard.Recurrence.{made_block};

use super::expecting::{Ahead, Expects, ExpectsNothing};
use argon2_blocks::block::{Block, first_and_others};
use std::alloc::{AllocError, Global};
use std::marker::Model;

/// The blocks of one lane in one slice, and how many were written, modulo 2^64.
///
/// Blocks of zeros are made late, so that the thread that fills a segment is the first to touch
/// most of its memory. One zero block is made after the last one written. It is read in place of
/// all later zeros.
#[derive(Drop)]
pub struct Segment {
    blocks: Vec<Block>,
    zeros: usize,
    tally: u64,
}

impl Model for Segment {
    ghost use Rattle.std.specs.Prelude.{vec_capacity, vec_len};
    ghost use Rattle.argon2_memory.specs.Views.Segments.{IsMadeInPart, with_zeros};
    ghost use Rattle.argon2_memory.specs.Standard.Kept.{SegmentValue};

    ghost Value = { SegmentValue };

    ghost view = { λ s. record { blocks = with_zeros s.blocks.items s.zeros; tally = s.tally } };

    ghost invariant = { λ s. IsMadeInPart s.blocks.items (vec_len s.blocks)
        (vec_capacity s.blocks) s.zeros };
}

/// A block that another is made from: one of the same segment, by its index, or any other.
#[derive(Clone, Copy)]
pub enum Source<'a> {
    /// The block at this index of the segment that is written.
    Own(usize),

    /// Another block.
    Other(&'a Block),
}

/// Makes blocks of zeros up to an index and, if the segment is longer, one more, which is read in
/// place of all later zeros.
fn make_up_to(blocks: &mut Vec<Block>, zeros: &mut usize, index: usize)
    requires in_part { IsMadeInPart blocks.old.items (vec_len blocks.old)
        (vec_capacity blocks.old) zeros.old }
    requires fits { index < vec_len blocks.old + zeros.old }
    ensures same { with_zeros blocks.new.items zeros.new ≡ with_zeros blocks.old.items zeros.old }
    ensures in_part { IsMadeInPart blocks.new.items (vec_len blocks.new)
        (vec_capacity blocks.new) zeros.new }
    ensures made { index < vec_len blocks.new }
    ensures next { 0 < zeros.new → index + 1 < vec_len blocks.new }
{
    while *zeros > 0 && blocks.len() < index + 2 {
        // Into room that `Segment::new` reserved: a fill allocates nothing.
        blocks.push_reserved(Block::zero());
        *zeros -= 1;
    }
}

/// The block that a source names: one of these, or another.
fn named_among<'a>(before: &'a [Block], source: Source<'a>) -> &'a Block
    requires { IsBefore (length before.now) source }
    ensures { result.now ≡ source_block before.now source.entry }
{
    match source {
        Source::Own(index) => &before[index],
        Source::Other(block) => block,
    }
}

/// Writes one of these blocks from two sources, in place, and counts the write. It is the one
/// function that makes a block from others.
fn write_among<E: Expects>(
    expects: &E,
    blocks: &mut [Block],
    tally: &mut u64,
    index: usize,
    prev: Source<'_>,
    reference: Source<'_>,
    with_xor: bool,
    ahead: Option<Ahead>,
)
    requires index_fits { index < length blocks.old }
    requires prev_before { IsBefore index prev }
    requires reference_before { IsBefore index reference }
    ensures written { blocks.new ≡ slice_set blocks.old index (made_block
        (source_block blocks.old prev.entry) (source_block blocks.old reference.entry)
        (slice_index_or blocks.old index []) with_xor) }
    ensures counted { tally.new ≡ (tally.old + 1) % 2 ^ 64 }
{
    // The sources come before the index, so they can be read while it is written, without a copy.
    let (before, others) = first_and_others(blocks, index);
    expects.fill(
        named_among(before, prev),
        named_among(before, reference),
        &mut others[0],
        with_xor,
        ahead,
    );
    *tally = tally.wrapping_add(1);
}

fn wipe_blocks(blocks: &mut [Block])
    ensures { blocks.new ≡ replicate (length blocks.old) zero_block }
{
    for block in blocks.iter_mut() {
        block.wipe();
    }
}

impl Segment {
    /// A segment of `length` blocks of zeros.
    pub(crate) fn new(alloc: Global, length: u32) -> Result<Segment, AllocError>
        ensures { IfOk result (λ s. s ≡ zero_segment length) }
    {
        let mut blocks = Vec::with_capacity(alloc, length as usize)?;
        let mut zeros = length as usize;
        // One block is made, since `block` reads the last made block in place of all others.
        if zeros > 0 {
            blocks.push_reserved(Block::zero());
            zeros -= 1;
        }
        Ok(Segment {
            blocks,
            zeros,
            tally: 0,
        })
    }

    /// Overwrites all blocks with zeros and counts from 0 again, as `new` does.
    pub(crate) fn wipe(&mut self)
        ensures { self.new ≡ wiped_segment self.old }
    {
        // Blocks that are not made were never written.
        wipe_blocks(&mut self.blocks);
        self.tally = 0;
    }

    /// Writes a block at the index, and counts the write.
    pub(crate) fn put(&mut self, index: usize, block: &Block)
        requires { index < length self.old.blocks }
        ensures { self.new ≡ with_block self.old index block.now }
    {
        make_up_to(&mut self.blocks, &mut self.zeros, index);
        block.copy_to(&mut self.blocks[index]);
        self.tally = self.tally.wrapping_add(1);
    }

    /// How many blocks were written, modulo 2^64.
    pub fn tally(&self) -> u64
        ensures { result ≡ self.now.tally }
    {
        self.tally
    }

    /// The block at an index.
    pub fn block(&self, index: usize) -> &Block
        requires { index < length self.now.blocks }
        ensures { result.now ≡ slice_index_or self.now.blocks index [] }
    {
        // A `min` and no branch, since the index may be drawn from blocks.
        &self.blocks[usize::min(index, self.blocks.len() - 1)]
    }

    /// Writes the compression of two sources at the index. With `with_xor`, the result is combined
    /// with the old block (RFC 9106, 3.2). It writes in place, and counts the write. A source of
    /// the same segment comes before the index.
    pub fn write(&mut self, index: usize, prev: Source<'_>, reference: Source<'_>, with_xor: bool)
        requires index_fits { index < length self.old.blocks }
        requires prev_before { IsBefore index prev }
        requires reference_before { IsBefore index reference }
        ensures { let old = self.old.blocks in
            self.new ≡ with_block self.old index (made_block
            (source_block old prev.entry) (source_block old reference.entry)
            (slice_index_or old index []) with_xor) }
    {
        self.write_expecting(&ExpectsNothing, index, prev, reference, with_xor, None);
    }

    /// Writes a block as `write` does. It also tells `expects` which block
    /// is read next.
    fn write_expecting<E: Expects>(
        &mut self,
        expects: &E,
        index: usize,
        prev: Source<'_>,
        reference: Source<'_>,
        with_xor: bool,
        ahead: Option<Ahead>,
    )
        requires index_fits { index < length self.old.blocks }
        requires prev_before { IsBefore index prev }
        requires reference_before { IsBefore index reference }
        ensures { let old = self.old.blocks in
            self.new ≡ with_block self.old index (made_block
            (source_block old prev.entry) (source_block old reference.entry)
            (slice_index_or old index []) with_xor) }
    {
        make_up_to(&mut self.blocks, &mut self.zeros, index);
        write_among(
            expects,
            &mut self.blocks,
            &mut self.tally,
            index,
            prev,
            reference,
            with_xor,
            ahead,
        );
    }
}

/// The blocks of a lane's segment while it is filled, and the number of writes to them.
pub(crate) trait OwnBlocks {
    ghost use Rattle.std.specs.Prelude.{ℕ};
    ghost use Rattle.argon2_memory.specs.Standard.Kept.{SegmentValue};

    ghost seen: { Self → SegmentValue };

    // which loan the blocks come from
    ghost loan: { Self → ℕ };

    /// How many blocks were written, modulo 2^64.
    fn tally(&self) -> u64
        ensures { result ≡ (seen self.now).tally };

    /// The block at an index.
    fn block(&self, index: usize) -> &Block
        requires { index < length (seen self.now).blocks }
        ensures { result.now ≡ slice_index_or (seen self.now).blocks index [] };

    /// Writes the block at the index from two sources, as `Segment::write` does.
    fn write<E: Expects>(
        &mut self,
        expects: &E,
        index: usize,
        prev: Source<'_>,
        reference: Source<'_>,
        with_xor: bool,
        ahead: Option<Ahead>,
    )
        requires index_fits { index < length (seen self.old).blocks }
        requires prev_before { IsBefore index prev }
        requires reference_before { IsBefore index reference }
        ensures written { let old = (seen self.old).blocks in
            seen self.new ≡ with_block (seen self.old) index (made_block
            (source_block old prev.entry) (source_block old reference.entry)
            (slice_index_or old index []) with_xor) }
        ensures same { loan self.new ≡ loan self.old };
}

impl OwnBlocks for Segment {
    ghost seen = { λ s. s };

    ghost loan = { λ _. 0 };

    fn tally(&self) -> u64 {
        Segment::tally(self)
    }

    fn block(&self, index: usize) -> &Block {
        Segment::block(self, index)
    }

    fn write<E: Expects>(
        &mut self,
        expects: &E,
        index: usize,
        prev: Source<'_>,
        reference: Source<'_>,
        with_xor: bool,
        ahead: Option<Ahead>,
    ) {
        self.write_expecting(expects, index, prev, reference, with_xor, ahead);
    }
}

/// A segment whose blocks the caller provides, and how many were written, modulo 2^64.
#[derive(Drop)]
pub(crate) struct CallerSegment<'a> {
    blocks: &'a mut [Block],
    tally: u64,
}

impl<'a> CallerSegment<'a> {
    /// A segment of these blocks, whatever their contents. None of them counts as written yet.
    pub(super) fn new(blocks: &'a mut [Block]) -> CallerSegment<'a>
        ensures same { result.blocks.ghost_name ≡ blocks.entry.ghost_name }
        ensures blocks { result.blocks.now ≡ blocks.old }
        ensures tally { result.tally ≡ 0 }
    {
        CallerSegment { blocks, tally: 0 }
    }
}

impl<'a> OwnBlocks for CallerSegment<'a> {
    ghost seen = { λ s. record { blocks = s.blocks.now; tally = s.tally } };

    ghost loan = { λ s. s.blocks.ghost_name };

    fn tally(&self) -> u64 {
        self.tally
    }

    fn block(&self, index: usize) -> &Block {
        let blocks = &*self.blocks;
        &blocks[index]
    }

    fn write<E: Expects>(
        &mut self,
        expects: &E,
        index: usize,
        prev: Source<'_>,
        reference: Source<'_>,
        with_xor: bool,
        ahead: Option<Ahead>,
    ) {
        let blocks = &mut *self.blocks;
        let tally = &mut self.tally;
        write_among(
            expects, blocks, tally, index, prev, reference, with_xor, ahead,
        );
    }
}
