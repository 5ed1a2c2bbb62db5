//! Two parts of a slice of blocks, which the caller can change at the same time.

ghost use Rattle.std.specs.Prelude.{◌≡◌, ◌+◌, ◌≤◌, drop, length, take};
ghost use Rattle.std.specs.Borrow.{sem};
ghost use Rattle.argon2_blocks.specs.Views.Lends.{lends_parts};

use super::Block;
use std::slice::from_raw_parts_mut;

/// The first blocks and the others, whose numbers the caller gives.
///
/// The borrow checker does not see that the two parts have no block in common. So this function
/// makes them from a raw pointer, and it is proved by hand
/// (proofs/block/parts/lend_parts/Proof.antt).
fn lend_parts(blocks: &mut [Block], first: usize, others: usize) -> (&mut [Block], &mut [Block])
    requires all { first + others ≡ length blocks.old }
    ensures* lent { sem 𝓛 (lends_parts blocks.entry result.0 result.1) }
    ensures first { result.0.now ≡ take first blocks.old }
    ensures others { result.1.now ≡ drop first blocks.old }
    ensures first_count { length result.0.now ≡ first }
    ensures others_count { length result.1.now ≡ others }
{
    let start = blocks.as_mut_ptr();
    unsafe {
        let behind = from_raw_parts_mut(start.add(first), others);
        (from_raw_parts_mut(start, first), behind)
    }
}

/// The first `count` blocks, and the others.
pub fn first_and_others(blocks: &mut [Block], count: usize) -> (&mut [Block], &mut [Block])
    requires enough { count ≤ length blocks.old }
    ensures* lent { sem 𝓛 (lends_parts blocks.entry result.0 result.1) }
    ensures first { result.0.now ≡ take count blocks.old }
    ensures others { result.1.now ≡ drop count blocks.old }
    ensures first_count { length result.0.now ≡ count }
    ensures others_count { length result.1.now + count ≡ length blocks.old }
{
    let others = blocks.len() - count;
    lend_parts(blocks, count, others)
}
