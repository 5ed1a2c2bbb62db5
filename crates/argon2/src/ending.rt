//! The end of a call that allocated its own buffer.

use argon2_fill::stack_wiping::wipe_stack;
use argon2_memory::memory::{Memory, take_slices};

/// Ends a call that allocated its own buffer: overwrites the stack below, and frees the blocks
/// without overwriting them, which would slow each call down.
pub fn release(mut memory: Memory) {
    // Not `drop(memory)`, which overwrites the blocks.
    drop(take_slices(&mut memory));
    wipe_stack();
}
