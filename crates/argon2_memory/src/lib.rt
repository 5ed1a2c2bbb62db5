//! The job of a slice, the matrix of a hash, its segments, and the fill of one segment.
#![tactic(auto)]

pub mod job;
pub mod memory;
pub mod segment;
