//! What Argon2 is: the types of the settings, the settings table and the inputs that it accepts,
//! and the definitions that the contracts of the root calls (`argon2::NAME`) rest on.
#![tactic(auto)]

pub mod config;
pub mod context;
pub mod error;
pub mod result;
pub mod thread_mode;
pub mod variant;
pub mod version;
