//! Each allocation and each start of a worker denied in turn.
//!
//! A test here makes one call, or calls that have to allocate nothing, and prints what came:
//! `value` for the stated value, else the error. CI (refusals) runs each of them again and
//! again, with another allocation or start denied each time.

mod allocates_nothing;
mod hashing;
mod limits;
mod memory;
mod verifying;

use super::rfc9106;
use argon2::{Config, Error, ThreadMode, Variant};
use std::io::Print;
use std::process::Abort;
use std::test::Fail;

// The tags of RFC 9106, section 5.
const ARGON2D: [u8; 32] = [
    0x51, 0x2b, 0x39, 0x1b, 0x6f, 0x11, 0x62, 0x97, 0x53, 0x71, 0xd3, 0x09, 0x19, 0x73, 0x42, 0x94,
    0xf8, 0x68, 0xe3, 0xbe, 0x39, 0x84, 0xf3, 0xc1, 0xa1, 0x3a, 0x4d, 0xb9, 0xfa, 0xbe, 0x4a, 0xcb,
];

const ARGON2I: [u8; 32] = [
    0xc8, 0x14, 0xd9, 0xd1, 0xdc, 0x7f, 0x37, 0xaa, 0x13, 0xf0, 0xd7, 0x7f, 0x24, 0x94, 0xbd, 0xa1,
    0xc8, 0xde, 0x6b, 0x01, 0x6d, 0xd3, 0x88, 0xd2, 0x99, 0x52, 0xa4, 0xc4, 0x67, 0x2b, 0x6c, 0xe8,
];

const ARGON2ID: [u8; 32] = [
    0x0d, 0x64, 0x0d, 0xf5, 0x8d, 0x78, 0x76, 0x6c, 0x08, 0xc0, 0x37, 0xa3, 0x4a, 0x8b, 0x53, 0xc9,
    0xd0, 0x1e, 0xf0, 0x45, 0x2d, 0x75, 0xb6, 0x5e, 0xb5, 0x25, 0x20, 0xe9, 0x6b, 0x01, 0xe6, 0x59,
];

// The encoded hash of RFC 9106's tag of Argon2id, in 4 lanes.
const TEXT: &str =
    "$argon2id$v=19$m=32,t=3,p=4$AgICAgICAgICAgICAgICAg$DWQN9Y14dmwIwDejSotTydAe8EUtdbZetSUg6WsB5lk";

// The inputs of RFC 9106, section 5.
const PASSWORD: [u8; 32] = [1; 32];

const SALT: [u8; 16] = [2; 16];

const SECRET: [u8; 8] = [3; 8];

const AD: [u8; 12] = [4; 12];

/// The tag of RFC 9106 of a variant.
fn tag_of(variant: Variant) -> &'static [u8] {
    match variant {
        Variant::Argon2d => &ARGON2D,
        Variant::Argon2i => &ARGON2I,
        Variant::Argon2id => &ARGON2ID,
    }
}

/// The settings of RFC 9106, section 5, in a thread mode.
fn in_mode(variant: Variant, thread_mode: ThreadMode) -> Config<'static> {
    Config {
        thread_mode,
        ..rfc9106(variant)
    }
}

/// Prints what came, which is the stated value or a resource error.
pub fn print_answer<R: Abort + Print>(rt: &R, answer: argon2::Result<bool>) -> Result<(), Fail> {
    match answer {
        Ok(is_stated) => {
            assert!(rt; is_stated, "another value");
            println!(rt; "value")?;
        }
        Err(error) => {
            let is_resource_error = error == Error::OutOfMemory || error == Error::WorkerRefused;
            assert!(rt; is_resource_error, "{error:?}");
            println!(rt; "{error:?}")?;
        }
    }
    Ok(())
}
