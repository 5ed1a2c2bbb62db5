//! Verifying within limits: what is too costly is rejected before any memory is allocated or any
//! worker started.

use super::{AD, PASSWORD, SECRET, TEXT, print_answer};
use argon2::{Error, Limits, Unverified, verify_encoded_within, verify_encoded_within_sequential};
use std::alloc::Global;
use std::marker::Sync;
use std::sync::Wait;
use std::test::Fail;
use std::thread::Threads;

/// A memory cost, a time cost, lanes and work.
type Costs = (u32, u32, u32, u64);

// Exactly what the encoded hash of RFC 9106's tag names.
const OF_TEXT: Costs = (32, 3, 4, 96);

const NONE: Costs = (0, 0, 0, 0);

// Limits, one or all below what that encoded hash names.
const BELOW: [Costs; 5] = [
    (31, 3, 4, 96),
    (32, 2, 4, 96),
    (32, 3, 3, 96),
    (32, 3, 4, 95),
    NONE,
];

fn limits_of((mem_cost, time_cost, lanes, work): Costs) -> Limits {
    Limits {
        mem_cost,
        time_cost,
        lanes,
        work,
    }
}

// Encoded hashes of the two recommendations of RFC 9106, the five of OWASP, libsodium's three for
// Argon2id and its greatest for Argon2i, and Django's.
const WITHIN: [&str; 12] = [
    "$argon2id$v=19$m=2097152,t=1,p=4$AAAAAAA$AAAAAAA",
    "$argon2id$v=19$m=65536,t=3,p=4$AAAAAAA$AAAAAAA",
    "$argon2id$v=19$m=47104,t=1,p=1$AAAAAAA$AAAAAAA",
    "$argon2id$v=19$m=19456,t=2,p=1$AAAAAAA$AAAAAAA",
    "$argon2id$v=19$m=12288,t=3,p=1$AAAAAAA$AAAAAAA",
    "$argon2id$v=19$m=9216,t=4,p=1$AAAAAAA$AAAAAAA",
    "$argon2id$v=19$m=7168,t=5,p=1$AAAAAAA$AAAAAAA",
    "$argon2id$v=19$m=65536,t=2,p=1$AAAAAAA$AAAAAAA",
    "$argon2id$v=19$m=262144,t=3,p=1$AAAAAAA$AAAAAAA",
    "$argon2id$v=19$m=1048576,t=4,p=1$AAAAAAA$AAAAAAA",
    "$argon2i$v=19$m=524288,t=8,p=1$AAAAAAA$AAAAAAA",
    "$argon2id$v=19$m=102400,t=2,p=8$AAAAAAA$AAAAAAA",
];

// Encoded hashes at the default limits, except the limit of passes (the first) or of memory (the
// second). Then hashes above a limit.
// limits, by .ci/pages/presets
const AT_LIMITS: [&str; 2] = [
    "$argon2id$v=19$m=2097152,t=2,p=16$AAAAAAA$AAAAAAA",
    "$argon2id$v=19$m=419430,t=10,p=16$AAAAAAA$AAAAAAA",
];

const ABOVE_A_LIMIT: [&str; 6] = [
    "$argon2id$v=19$m=2097153,t=1,p=4$AAAAAAA$AAAAAAA",
    "$argon2id$v=19$m=65536,t=11,p=4$AAAAAAA$AAAAAAA",
    "$argon2id$v=19$m=65536,t=3,p=17$AAAAAAA$AAAAAAA",
    "$argon2id$v=19$m=2097152,t=3,p=4$AAAAAAA$AAAAAAA",
    "$argon2id$v=19$m=2097152,t=11,p=16$AAAAAAA$AAAAAAA",
    "$argon2id$v=19$m=419431,t=10,p=1$AAAAAAA$AAAAAAA",
];
// end

// An encoded hash above all default limits, and one without passes that is above the memory limit.
const ABOVE: [&str; 2] = [
    "$argon2id$v=19$m=4294967295,t=4294967295,p=16777215$c29tZXNhbHQ$iekCn0Y3spW+sCcFanM2xBT63UP2sghkUoHLIUpWRS8",
    "$argon2d$m=4294967295,t=0,p=0$$",
];

// Above the default limit of the passes, with as many digits as a number may have.
const LONG: &str = "$argon2id$v=19$m=8,t=4294967295,p=1$AAAAAAAAAAA$\
    AAAAAAAAAAAAAAAAAAAAAAAAAAAAAAAAAAAAAAAAAAAAAAAAAAAAAAAAAAAAAAAAAAAAAAAAAAAAAAAAAAAAAAAAAAAA\
    AAAAAAAAAAAAAAAAAAAAAAAAAAAAAAAAAAAAAAAAAAAAAAAAAAAAAAAAAAAAAAAAAAAAAAAAAAAAAAAAAAAAAAAAAAAA\
    AAAAAAAAAAAAAAAAAAAAAAAAAAAAAAAAAAAAAAAAAAAAAAAAAAAAAAAAAAAAAAAAAAAAAAAAAAAAAAAAAAAAAAAAAAAA\
    AAAAAAAAAAAAAAAAAAAAAAAAAAAAAAAAAAAAAAAAAAAAAAAAAAAAAAAAAAAAAAAAAAAAAAAAAAAAAAAAAAAAAAAAAAAA\
    AAAAAAAAAAAAAAAAAAAAAAAAAAAAAAAAAAAAAAAAAAAAAAAAAAAAAAAAAAAAAAAAAAAAAAAAAAAAAAAAAAAAAAAAAAAA\
    AAAAAAAAAAAAAAAAAAAAAAAAAAAAAAAAAAAAAAAAAAAAAAAAAAAAAAAAAAAAAAAAAAAAAAAAAAAAAAAAAAAAAAAAAAAA\
    AAAAAAAAAAAAAAAAAAAAAAAAAAAAAAAAAAAAAAAAAAAAAAAAAAAAAAAAAAAAAAAAAAAAAAAAAAAAAAAAAAAAAAAAAAAA\
    AAAAAAAAAAAAAAAAAAAAAAAAAAAAAAAAAAAAAAAAAAAAAAAAAAAAAAAAAAAAAAAAAAAAAAAAAAAAAAAAAAAAAAAAAAAA\
    AAAAAAAAAAAAAAAAAAAAAAAAAAAAAAAAAAAAAAAAAAAAAAAAAAAAAAAAAAAAAAAAAAAAAAAAAAAAAAAAAAAAAAAAAAAA\
    AAAAAAAAAAAAAAAAAAAAAAAAAAAAAAAAAAAAAAAAAAAAAAAAAAAAAAAAAAAAAAAAAAAAAAAAAAAAAAAAAAAAAAAAAAAA\
    AAAAAAAAAAAAAAAAAAAAAAAAAAAAAAAAAAAAAAAAAAAAAAAAAAAAAAAAAAAAAAAAAAAAAAAAAAAAAAAAAAAAAAAAAAAA\
";

/// Whether both calls return this without a secret and associated data.
fn both_answer<R: Threads + Wait + Sync>(
    rt: &R,
    alloc: Global,
    text: &str,
    limits: &Limits,
    unverified: &Unverified,
) -> bool {
    let by_workers = verify_encoded_within(rt, alloc, text, b"password", &[], &[], limits);
    let alone = verify_encoded_within_sequential(alloc, text, b"password", &[], &[], limits);
    is(unverified, by_workers) && is(unverified, alone)
}

/// Whether the result is this one.
fn is(unverified: &Unverified, answer: Result<bool, Unverified>) -> bool {
    answer.err().is_some_and(|other| other == *unverified)
}

/// The answer as without limits. TooCostly becomes `false`.
fn without_limits(answer: Result<bool, Unverified>) -> argon2::Result<bool> {
    match answer {
        Ok(same) => Ok(same),
        Err(Unverified::Refused(error)) => Err(error),
        Err(Unverified::TooCostly) => Ok(false),
    }
}

#[test]
fn verify_encoded_within_denied_in_turn(rt: HostRuntime) -> Result<(), Fail> {
    let (alloc, limits) = (rt.alloc(), limits_of(OF_TEXT));
    let answer = verify_encoded_within(&rt, alloc, TEXT, &PASSWORD, &SECRET, &AD, &limits);
    print_answer(&rt, without_limits(answer))
}

#[test]
fn verify_encoded_within_sequential_denied_in_turn(rt: HostRuntime) -> Result<(), Fail> {
    let (alloc, limits) = (rt.alloc(), Limits::default());
    let answer = verify_encoded_within_sequential(alloc, TEXT, &PASSWORD, &SECRET, &AD, &limits);
    print_answer(&rt, without_limits(answer))
}

#[test]
fn a_costly_text_allocates_nothing_denied_in_turn(rt: HostRuntime) -> Result<(), Fail> {
    let alloc = rt.alloc();
    for costs in BELOW {
        let is_costly = both_answer(&rt, alloc, TEXT, &limits_of(costs), &Unverified::TooCostly);
        assert!(rt; is_costly, "{costs:?}");
    }
    for text in ABOVE_A_LIMIT.into_iter().chain(ABOVE) {
        let is_costly = both_answer(&rt, alloc, text, &Limits::default(), &Unverified::TooCostly);
        assert!(rt; is_costly, "{text}");
    }
    print_answer(&rt, Ok(true))
}

// Each string is four characters longer than the one before: its hash has one more group of base64.
#[test]
fn a_costly_text_of_any_length_allocates_nothing_denied_in_turn(
    rt: HostRuntime,
) -> Result<(), Fail> {
    let (alloc, limits) = (rt.alloc(), Limits::default());
    for groups in 12..LONG.len() / 4 {
        let text = LONG.get(..4 * groups).unwrap_or("");
        let is_costly = both_answer(&rt, alloc, text, &limits, &Unverified::TooCostly);
        assert!(rt; is_costly, "{text}");
    }
    print_answer(&rt, Ok(true))
}

// A salt of five bytes: no tag is computed.
#[test]
fn a_text_within_limits_is_judged_denied_in_turn(rt: HostRuntime) -> Result<(), Fail> {
    let (alloc, limits) = (rt.alloc(), Limits::default());
    let short = Unverified::Refused(Error::SaltTooShort);
    for text in AT_LIMITS.into_iter().chain(WITHIN) {
        assert!(rt; both_answer(&rt, alloc, text, &limits, &short), "{text}");
    }
    let (none, unspelled) = (limits_of(NONE), Unverified::Refused(Error::DecodingFail));
    assert!(rt; both_answer(&rt, alloc, "$argon2id$", &none, &unspelled));
    print_answer(&rt, Ok(true))
}
