//! Encoded hashes (PHC strings), written and decoded.
#![tactic(auto)]

pub mod decoded;
pub mod encoding;
pub mod numbers;
