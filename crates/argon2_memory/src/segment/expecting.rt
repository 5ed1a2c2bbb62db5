//! Who is told which block will be read or overwritten next, so that its memory can be fetched
//! while another block is written. Nothing is promised about it, so no result depends on it.

ghost use Rattle.std.specs.Prelude.{◌≡◌, if◌then◌else◌};
ghost use Rattle.argon2_blocks.specs.Standard.Block.{xor};
ghost use Rattle.argon2_blocks.specs.Standard.Compression.{compress_g};

use argon2_blocks::block::{Block, fill_block};

/// What the reference of the block after one depends on besides the first word of the one, in a
/// memory of one lane.
#[derive(Clone, Copy, Debug)]
pub struct Ahead {
    /// How many blocks the next block's reference set has.
    pub size: u32,

    /// The column of the block that is written: how many blocks the lane has before it.
    pub column: u32,

    /// How many blocks the lane has.
    pub lane_length: u32,
}

/// One that is told of blocks before they are read or overwritten.
pub trait Expects {
    /// Takes note of a block that will be read or overwritten soon.
    fn expect(&self, block: &Block);

    /// Sets `next` as `fill_block` does. If it is passed `ahead`, it was not told of `next`, and it
    /// may find the reference of the block after `next` as soon as it knows the first word of
    /// `next`.
    fn fill(
        &self,
        prev: &Block,
        reference: &Block,
        next: &mut Block,
        with_xor: bool,
        ahead: Option<Ahead>,
    )
        ensures { let g = compress_g prev.now reference.now in
            next.new ≡ (if with_xor then xor g next.old else g) };
}

/// Takes no note.
#[derive(Clone, Copy, Debug)]
pub struct ExpectsNothing;

impl Expects for ExpectsNothing {
    fn expect(&self, _block: &Block) {}

    fn fill(
        &self,
        prev: &Block,
        reference: &Block,
        next: &mut Block,
        with_xor: bool,
        _ahead: Option<Ahead>,
    ) {
        fill_block(prev, reference, next, with_xor);
    }
}
