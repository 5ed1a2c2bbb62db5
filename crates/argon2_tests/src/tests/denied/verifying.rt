//! Verifying, against a tag and against an encoded hash, and what an encoded hash was made with.

use super::{AD, ARGON2ID, PASSWORD, SALT, SECRET, TEXT, in_mode, print_answer};
use crate::tests::small;
use argon2::{
    Config, ThreadMode, Variant, Version, needs_rehash, verify_encoded, verify_encoded_ext,
    verify_encoded_sequential, verify_raw, verify_raw_sequential,
};
use std::alloc::Global;
use std::marker::Sync;
use std::sync::Wait;
use std::test::Fail;
use std::thread::Threads;

// The hash of `password` in 16 lanes.
const OF_16_LANES: &str =
    "$argon2id$v=19$m=256,t=2,p=16$c29tZXNhbHQ$0gasyPnKXiBHQ5bft/bd4jrmy2DdtrLTX3JR9co7fRY";

// A hash in 20 lanes of another implementation, with its password and its secret.
const OF_20_LANES: &str =
    "$argon2id$v=16$m=195,t=2,p=20$7na1Wvixk3Q$0a7DOqb1u5XY2Br+8UeS6+ycGBYRgbVHcGzeg0b6PGY";

const PASSWORD_OF_20_LANES: [u8; 20] = [
    0xba, 0x03, 0x56, 0x20, 0x14, 0x5f, 0xf8, 0x3b, 0xed, 0xc5, 0x40, 0x35, 0x05, 0xe1, 0x33, 0x55,
    0x7a, 0xa1, 0xea, 0x3b,
];

const SECRET_OF_20_LANES: [u8; 128] = [
    0x30, 0x61, 0x31, 0x33, 0x87, 0xe1, 0xef, 0x9d, 0xf3, 0xce, 0x35, 0xe1, 0x4f, 0x76, 0x37, 0x61,
    0x75, 0x45, 0xc7, 0x2d, 0xc5, 0x5c, 0xf0, 0x65, 0x95, 0xbc, 0x84, 0x21, 0xec, 0xb1, 0x7d, 0x2a,
    0x12, 0x0a, 0x3b, 0xa6, 0x74, 0xd0, 0xf0, 0xe9, 0x0d, 0x1d, 0xef, 0xc2, 0x4c, 0x39, 0xc3, 0x25,
    0x02, 0xf3, 0x37, 0xec, 0x12, 0x2b, 0x44, 0xb9, 0x07, 0x56, 0x77, 0xcf, 0x29, 0x78, 0xa2, 0x96,
    0x00, 0xd8, 0x98, 0x5a, 0x49, 0x93, 0x1a, 0x78, 0xa9, 0x6a, 0x92, 0xbe, 0x2e, 0x20, 0xd0, 0xab,
    0x7f, 0xb5, 0xdd, 0x0a, 0xf9, 0x30, 0x3a, 0xc1, 0x70, 0xa3, 0xc2, 0xe6, 0xd3, 0xa3, 0xb1, 0x8b,
    0x86, 0x96, 0x5a, 0x23, 0xd6, 0x89, 0xab, 0x34, 0xae, 0x60, 0xe0, 0xff, 0xb5, 0x69, 0x04, 0x65,
    0x82, 0xb3, 0x4a, 0x17, 0x4c, 0xcd, 0x37, 0x13, 0xe5, 0x2a, 0x0b, 0x81, 0x82, 0xb3, 0x3d, 0xab,
];

/// Whether the tag of RFC 9106 is right.
fn verify<R: Threads + Wait + Sync>(
    rt: &R,
    alloc: Global,
    mode: ThreadMode,
) -> argon2::Result<bool> {
    let config = in_mode(Variant::Argon2id, mode);
    verify_raw(rt, alloc, &PASSWORD, &SALT, &ARGON2ID, &config)
}

#[test]
fn verify_raw_by_workers_denied_in_turn(rt: HostRuntime) -> Result<(), Fail> {
    print_answer(&rt, verify(&rt, rt.alloc(), ThreadMode::Parallel))
}

#[test]
fn verify_raw_by_two_workers_denied_in_turn(rt: HostRuntime) -> Result<(), Fail> {
    print_answer(&rt, verify(&rt, rt.alloc(), ThreadMode::AtMost(2)))
}

#[test]
fn verify_raw_in_one_thread_denied_in_turn(rt: HostRuntime) -> Result<(), Fail> {
    print_answer(&rt, verify(&rt, rt.alloc(), ThreadMode::Sequential))
}

#[test]
fn verify_raw_sequential_denied_in_turn(rt: HostRuntime) -> Result<(), Fail> {
    let config = in_mode(Variant::Argon2id, ThreadMode::Parallel);
    let answer = verify_raw_sequential(rt.alloc(), &PASSWORD, &SALT, &ARGON2ID, &config);
    print_answer(&rt, answer)
}

#[test]
fn verify_encoded_denied_in_turn(rt: HostRuntime) -> Result<(), Fail> {
    let answer = verify_encoded(&rt, rt.alloc(), OF_16_LANES, b"password");
    print_answer(&rt, answer)
}

#[test]
fn verify_encoded_ext_denied_in_turn(rt: HostRuntime) -> Result<(), Fail> {
    let answer = verify_encoded_ext(&rt, rt.alloc(), TEXT, &PASSWORD, &SECRET, &AD);
    print_answer(&rt, answer)
}

// 16 workers at most.
#[test]
fn verify_encoded_ext_of_20_lanes_denied_in_turn(rt: HostRuntime) -> Result<(), Fail> {
    let (password, secret) = (&PASSWORD_OF_20_LANES, &SECRET_OF_20_LANES);
    let answer = verify_encoded_ext(&rt, rt.alloc(), OF_20_LANES, password, secret, b"");
    print_answer(&rt, answer)
}

#[test]
fn verify_encoded_sequential_denied_in_turn(rt: HostRuntime) -> Result<(), Fail> {
    let answer = verify_encoded_sequential(rt.alloc(), TEXT, &PASSWORD, &SECRET, &AD);
    print_answer(&rt, answer)
}

// Another password than the encoded hash's: no denied request turns the result into `true`.
#[test]
fn verify_encoded_of_another_password_denied_in_turn(rt: HostRuntime) -> Result<(), Fail> {
    let answer = verify_encoded(&rt, rt.alloc(), OF_16_LANES, b"passwore");
    print_answer(&rt, answer.map(|is_password| !is_password))
}

#[test]
fn needs_rehash_denied_in_turn(rt: HostRuntime) -> Result<(), Fail> {
    let more = Config {
        time_cost: 3,
        ..small(Variant::Argon2id, Version::Version13, 16)
    };
    print_answer(&rt, needs_rehash(rt.alloc(), OF_16_LANES, &more))
}

#[test]
fn needs_no_rehash_denied_in_turn(rt: HostRuntime) -> Result<(), Fail> {
    let same = small(Variant::Argon2id, Version::Version13, 16);
    let answer = needs_rehash(rt.alloc(), OF_16_LANES, &same);
    print_answer(&rt, answer.map(|differs| !differs))
}
