//! Which block will be read or overwritten soon, for the processor.

ghost use Rattle.std.specs.Prelude.{◌≡◌, ◌==◌, nat_lt, if◌then◌else◌};
ghost use Rattle.argon2_blocks.specs.Standard.Block.{xor};
ghost use Rattle.argon2_blocks.specs.Standard.Compression.{compress_g};

use argon2::parts::block::Block;
use argon2_blocks::block::fill_block;
use argon2_memory::segment::{Ahead, Expects};

/// Up to so many blocks lie in the processor's caches: 1 MiB.
const CACHED_BLOCKS: usize = 1024;

/// Calls `proved_argon2_expect` for each block, and `proved_argon2_fill_ahead` if the next block's
/// reference can be found ahead; neither if the blocks lie in the processor's caches anyway.
#[derive(Clone, Copy, Debug)]
pub struct Prefetches {
    is_far: bool,
}

impl Prefetches {
    /// For blocks that do not lie in the processor's caches.
    pub const FAR: Prefetches = Prefetches { is_far: true };

    /// For a memory of so many blocks.
    pub fn over(blocks: usize) -> Prefetches
        ensures { result.is_far ≡ nat_lt 1024 blocks }
    {
        Prefetches {
            is_far: blocks > CACHED_BLOCKS,
        }
    }
}

impl Expects for Prefetches {
    fn expect(&self, block: &Block) {
        if self.is_far {
            proved_argon2_expect(&block[0]);
        }
    }

    fn fill(
        &self,
        prev: &Block,
        reference: &Block,
        next: &mut Block,
        with_xor: bool,
        ahead: Option<Ahead>,
    ) {
        match ahead {
            Some(ahead) if self.is_far => {
                let columns = ahead.column as u64 + ((ahead.lane_length as u64) << 32);
                let size = ahead.size as u64;
                if with_xor {
                    proved_argon2_fill_ahead(prev, reference, next, size, columns, 1);
                } else {
                    proved_argon2_fill_ahead(prev, reference, next, size, columns, 0);
                }
            }
            _ => fill_block(prev, reference, next, with_xor),
        }
    }
}

/// Reads the first word of a block that will be read or overwritten soon. It promises nothing
/// about what it returns, so no result depends on it. `build/add_kernel` replaces its machine code
/// by prefetches.
#[unsafe(no_mangle)]
#[inline(never)]
pub extern "C" fn proved_argon2_expect(first: &u64) -> u64 {
    // A compiler would drop a call that only reads.
    std::hint::spin_loop();
    *first
}

/// Sets `next` as `fill_block` does. `size` is the size of the next block's reference set.
/// `columns` is how many blocks the lane has before `next` and, in its upper half, in all. It
/// promises nothing about what it returns, so no result depends on these numbers. For x86-64-v4,
/// `build/add_kernel` replaces its machine code by a compression that prefetches by them.
#[unsafe(no_mangle)]
#[inline(never)]
pub extern "C" fn proved_argon2_fill_ahead(
    prev: &Block,
    reference: &Block,
    next: &mut Block,
    size: u64,
    columns: u64,
    with_xor: u32,
) -> u64
    ensures { let g = compress_g prev.now reference.now in
        next.new ≡ (if with_xor == 0 then g else xor g next.old) }
{
    proved_argon2_expect(&next[0]);
    fill_block(prev, reference, next, with_xor != 0);
    // A compiler would drop numbers that nothing uses.
    size ^ columns
}
