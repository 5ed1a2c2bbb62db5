//! Tests of what the layers below `argon2` show each other and its users don't see.
#![tactic(auto)]

#[cfg(test)]
mod tests;
