//! The matrix, its fill in one thread or by workers, and the tag.
#![tactic(auto)]

pub mod caller_blocks;
pub mod fill;
pub mod stack_wiping;
pub mod theorems;
pub mod workers;
