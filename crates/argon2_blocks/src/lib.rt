//! BLAKE2b, the hash function of variable length H', and Argon2's blocks with their compression.
#![tactic(auto)]

pub mod basics;
pub mod blake2b;
pub mod block;
pub mod common;
pub mod theorems;
