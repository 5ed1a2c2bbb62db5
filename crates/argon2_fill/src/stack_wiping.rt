//! Wiping what calls wrote to the stack.

use argon2_blocks::blake2b::wipe;

/// How many words are written at once: with more words, fewer steps are needed.
const WORDS: usize = 16;

/// How many pieces of that size are overwritten: 16 KiB in all. A call uses less than 11 KiB, and a
/// worker at most 16.
const PIECES_BELOW: usize = 128;

/// Overwrites the stack below its caller, where the frames of calls that have returned held H0. It
/// is never inlined, so that its frame lies where theirs lay.
#[inline(never)]
pub fn wipe_stack() {
    // A compiler may drop these zeros, which nobody reads, but not those that `wipe` writes.
    let mut below = [[0u64; WORDS]; PIECES_BELOW];
    wipe(&mut below, [0; WORDS]);
}
