//! Argon2 password hashing (RFC 9106), proved: a returned tag is the one that the recurrence
//! defines, and invalid settings return the error that a table names.
#![tactic(auto)]

mod ending;
mod hashing;
mod limits;
pub mod parts;
mod rehashing;
mod stored;
mod theorems;
mod verifying;

pub use argon2_standard::config::Config;
pub use argon2_standard::error::Error;
pub use argon2_standard::result::Result;
pub use argon2_standard::thread_mode::ThreadMode;
pub use argon2_standard::variant::Variant;
pub use argon2_standard::version::Version;
pub use argon2_text::encoding::encoded_len;
pub use hashing::{
    hash_encoded, hash_encoded_in, hash_encoded_in_sequential, hash_encoded_sequential, hash_raw,
    hash_raw_in, hash_raw_in_sequential, hash_raw_sequential,
};
pub use limits::{Limits, Unverified, verify_encoded_within, verify_encoded_within_sequential};
pub use rehashing::needs_rehash;
pub use verifying::{
    verify_encoded, verify_encoded_ext, verify_encoded_in, verify_encoded_in_sequential,
    verify_encoded_sequential, verify_raw, verify_raw_in, verify_raw_in_sequential,
    verify_raw_sequential,
};
