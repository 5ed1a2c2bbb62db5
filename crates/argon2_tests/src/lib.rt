//! Tests of public calls, which use the crate `argon2` alone. CI (refusals) runs some of them with
//! each allocation and each start of a worker denied in turn. Tests that take minutes with the
//! checks of `rt try` are not in `tests`, so that a quick check leaves them to CI.
#![tactic(auto)]

#[cfg(test)]
mod documentation;
pub mod surface;
#[cfg(test)]
mod tests;
