//! Errors that are returned before any memory is allocated, whatever request is denied.

use super::print_answer;
use crate::tests::encoding::HEAD_FAULTS;
use crate::tests::small;
use argon2::Error::{
    LanesTooFew, LanesTooMany, MemoryTooLittle, OutputTooShort, SaltTooShort, TimeTooSmall,
};
use argon2::{
    Config, Error, ThreadMode, Variant, Version, hash_encoded, hash_encoded_sequential, hash_raw,
    hash_raw_sequential, needs_rehash, verify_encoded, verify_encoded_ext,
    verify_encoded_sequential, verify_raw, verify_raw_sequential,
};
use std::alloc::Global;
use std::marker::Sync;
use std::sync::Wait;
use std::test::Fail;
use std::thread::Threads;

/// Lanes, memory cost, time cost, salt and length of the hash, and the first error.
type Row = (u32, u32, u32, &'static [u8], u32, Error);

const ROWS: [Row; 8] = [
    (0, 7, 0, b"s", 3, LanesTooFew),
    (1, 7, 0, b"s", 3, MemoryTooLittle),
    (1, 8, 0, b"s", 3, TimeTooSmall),
    (1, 8, 1, b"s", 3, SaltTooShort),
    (1, 8, 1, b"somesalt", 3, OutputTooShort),
    (4, 31, 2, b"somesalt", 32, MemoryTooLittle),
    (16777216, 31, 2, b"somesalt", 32, LanesTooMany),
    (16777215, 134217719, 2, b"somesalt", 32, MemoryTooLittle),
];

// Strings whose heads are right, but which decode to no hash.
const ITEM_FAULTS: [&str; 5] = [
    "$argon2i$v=19$m=256,t=2,p=1$c29tZXNhbHQ=$iekCn0Y3spW+sCcFanM2xBT63UP2sghkUoHLIUpWRS8",
    "$argon2i$v=19$m=256,t=2,p=1$c29tZXNhbHR$iekCn0Y3spW+sCcFanM2xBT63UP2sghkUoHLIUpWRS8",
    "$argon2i$v=19$m=256,t=2,p=1$c29tZXNhb$iekCn0Y3spW+sCcFanM2xBT63UP2sghkUoHLIUpWRS8",
    "$argon2i$v=19$m=256,t=2,p=1$é$iekCn0Y3spW+sCcFanM2xBT63UP2sghkUoHLIUpWRS8",
    "$argon2i$v=19$m=256,t=2,p=1$c29tZXNhbHQ$iekCn0Y3spW+sCcFanM2xBT63UP2sghkUoHLIUpWRS8\n",
];

// Encoded hashes whose settings are rejected, and the first error.
const REJECTED: [(&str, Error); 11] = [
    (
        "$argon2i$v=19$m=256,t=2,p=16777216$c29tZXNhbHQ$iekCn0Y3spW+sCcFanM2xBT63UP2sghkUoHLIUpWRS8",
        LanesTooMany,
    ),
    (
        "$argon2i$v=19$m=4294967295,t=0,p=1$c29tZXNhbHQ$iekCn0Y3spW+sCcFanM2xBT63UP2sghkUoHLIUpWRS8",
        TimeTooSmall,
    ),
    (
        "$argon2i$v=19$m=4294967295,t=0,p=16777215$c29tZXNhbHQ$iekCn0Y3spW+sCcFanM2xBT63UP2sghkUoHLIUpWRS8",
        TimeTooSmall,
    ),
    (
        "$argon2i$v=19$m=15,t=2,p=2$c29tZXNhbHQ$iekCn0Y3spW+sCcFanM2xBT63UP2sghkUoHLIUpWRS8",
        MemoryTooLittle,
    ),
    ("$argon2i$v=19$m=7,t=0,p=0$$", LanesTooFew),
    ("$argon2i$v=19$m=7,t=0,p=1$$", MemoryTooLittle),
    ("$argon2i$v=19$m=8,t=0,p=1$$", TimeTooSmall),
    ("$argon2i$v=19$m=8,t=1,p=1$$", SaltTooShort),
    ("$argon2i$v=19$m=8,t=1,p=1$c29tZXNhbHQ$", OutputTooShort),
    ("$argon2i$v=19$m=8,t=1,p=1$c29tZXNhbHQ$AAAA", OutputTooShort),
    (
        "$argon2i$m=65536,t=2,p=1$$9sTbSlTio3Biev89thdrlKKiCaYsjjYVJxGAL3swxpQ",
        SaltTooShort,
    ),
];

/// Whether the result is this error.
fn is<T: Drop>(error: &Error, answer: argon2::Result<T>) -> bool {
    answer.err().is_some_and(|other| other == *error)
}

/// The settings of a row.
fn settings(row: &Row, thread_mode: ThreadMode) -> Config<'static> {
    Config {
        hash_length: row.4,
        mem_cost: row.1,
        thread_mode,
        time_cost: row.2,
        ..small(Variant::Argon2i, Version::Version13, row.0)
    }
}

#[test]
fn hashing_allocates_nothing_denied_in_turn(rt: HostRuntime) -> Result<(), Fail> {
    let alloc = rt.alloc();
    for row in &ROWS {
        let (salt, error) = (row.3, &row.5);
        for mode in [ThreadMode::Sequential, ThreadMode::Parallel] {
            let config = settings(row, mode);
            let tag = hash_raw(&rt, alloc, b"password", salt, &config);
            assert!(rt; is(error, tag), "{config:?}");
            let text = hash_encoded(&rt, alloc, b"password", salt, &config);
            assert!(rt; is(error, text), "{config:?}");
            let tag = hash_raw_sequential(alloc, b"password", salt, &config);
            assert!(rt; is(error, tag), "{config:?}");
            let text = hash_encoded_sequential(alloc, b"password", salt, &config);
            assert!(rt; is(error, text), "{config:?}");
        }
    }
    print_answer(&rt, Ok(true))
}

#[test]
fn verifying_a_tag_allocates_nothing_denied_in_turn(rt: HostRuntime) -> Result<(), Fail> {
    let alloc = rt.alloc();
    for row in &ROWS {
        let (salt, error) = (row.3, &row.5);
        let hash = &[0; 32][..row.4 as usize];
        for mode in [ThreadMode::Sequential, ThreadMode::Parallel] {
            let config = settings(row, mode);
            let answer = verify_raw(&rt, alloc, b"password", salt, hash, &config);
            assert!(rt; is(error, answer), "{config:?}");
            let answer = verify_raw_sequential(alloc, b"password", salt, hash, &config);
            assert!(rt; is(error, answer), "{config:?}");
        }
    }
    print_answer(&rt, Ok(true))
}

// Whatever length the settings name.
#[test]
fn verifying_an_empty_tag_allocates_nothing_denied_in_turn(rt: HostRuntime) -> Result<(), Fail> {
    let alloc = rt.alloc();
    for hash_length in [0, 4, 32, u32::MAX] {
        let config = Config {
            hash_length,
            thread_mode: ThreadMode::Parallel,
            ..small(Variant::Argon2i, Version::Version13, 1)
        };
        let answer = verify_raw(&rt, alloc, b"password", b"somesalt", &[], &config);
        assert!(rt; is(&OutputTooShort, answer), "{hash_length}");
        let answer = verify_raw_sequential(alloc, b"password", b"somesalt", &[], &config);
        assert!(rt; is(&OutputTooShort, answer), "{hash_length}");
    }
    print_answer(&rt, Ok(true))
}

/// Whether each call that verifies an encoded hash returns this error for it.
fn is_text_error<R: Threads + Wait + Sync>(
    rt: &R,
    alloc: Global,
    text: &str,
    error: &Error,
) -> bool {
    let plain = verify_encoded(rt, alloc, text, b"password");
    let by_workers = verify_encoded_ext(rt, alloc, text, b"password", b"secret", b"ad");
    let alone = verify_encoded_sequential(alloc, text, b"password", b"secret", b"ad");
    is(error, plain) && is(error, by_workers) && is(error, alone)
}

#[test]
fn a_string_of_no_hash_allocates_nothing_denied_in_turn(rt: HostRuntime) -> Result<(), Fail> {
    let config = small(Variant::Argon2i, Version::Version13, 1);
    for text in HEAD_FAULTS.iter().chain(&ITEM_FAULTS) {
        let is_error = is_text_error(&rt, rt.alloc(), text, &Error::DecodingFail);
        assert!(rt; is_error, "{text}");
        let answer = needs_rehash(rt.alloc(), text, &config);
        assert!(rt; is(&Error::DecodingFail, answer), "{text}");
    }
    print_answer(&rt, Ok(true))
}

#[test]
fn a_rejected_string_allocates_nothing_denied_in_turn(rt: HostRuntime) -> Result<(), Fail> {
    for (text, error) in &REJECTED {
        assert!(rt; is_text_error(&rt, rt.alloc(), text, error), "{text}");
    }
    print_answer(&rt, Ok(true))
}
