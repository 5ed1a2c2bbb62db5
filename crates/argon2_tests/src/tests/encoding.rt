//! Decoding and writing an encoded hash, their results when memory is denied, and what the small
//! types show.

use crate::surface::{order_of_variants, order_of_versions};
use crate::tests::denied::print_answer;
use crate::tests::small;
use argon2::parts::board::{Event, Place};
use argon2::parts::context::Context;
use argon2::parts::encoding::{decode_string, encode_string};
use argon2::{Error, Unverified, Variant, Version};
use base64::DecodeError;
use std::cmp::Ordering;
use std::test::Fail;

// ---- decoding and writing. Strings with each freedom and each fault of the format are rows of `argon2_vectors`

// The hash of `password` with the salt `somesalt`: Argon2i, version 0x13, 2 passes, 256 KiB, 1
// lane.
const TEXT: &str =
    "$argon2i$v=19$m=256,t=2,p=1$c29tZXNhbHQ$iekCn0Y3spW+sCcFanM2xBT63UP2sghkUoHLIUpWRS8";

const TAG: [u8; 32] = [
    0x89, 0xe9, 0x02, 0x9f, 0x46, 0x37, 0xb2, 0x95, 0xbe, 0xb0, 0x27, 0x05, 0x6a, 0x73, 0x36, 0xc4,
    0x14, 0xfa, 0xdd, 0x43, 0xf6, 0xb2, 0x08, 0x64, 0x52, 0x81, 0xcb, 0x21, 0x4a, 0x56, 0x45, 0x2f,
];

#[test]
fn decode_string_denied_in_turn(rt: HostRuntime) -> Result<(), Fail> {
    let answer = decode_string(rt.alloc(), TEXT).map(|decoded| {
        decoded.salt.as_slice() == b"somesalt".as_slice()
            && decoded.hash.as_slice() == TAG.as_slice()
    });
    print_answer(&rt, answer)
}

#[test]
fn encode_string_denied_in_turn(rt: HostRuntime) -> Result<(), Fail> {
    let config = small(Variant::Argon2i, Version::Version13, 1);
    let context = Context::new(config, b"password", b"somesalt")?;
    let answer = encode_string(rt.alloc(), &context, &TAG);
    print_answer(&rt, answer.map(|text| text.as_str() == TEXT))
}

// Strings with each fault before the salt, also with a missing or an added `$`, as in those rows.
// Decoding them allocates nothing: whatever request is denied, the result is `DecodingFail` and not
// `OutOfMemory`.
pub const HEAD_FAULTS: [&str; 34] = [
    "",
    "$$$$$",
    "$argon2i$v=19$m=4096,t=3,p=1c2FsdDEyMzQ$MTIzNDU2Nzg5MDEyMzQ1Njc4OTAxMjM0NTY3ODkwMTI",
    "$argon2i$v=19$m=4096,t=3,p=1$c2FsdDEyMzQMTIzNDU2Nzg5MDEyMzQ1Njc4OTAxMjM0NTY3ODkwMTI",
    "$v=19$m=4096,t=3,p=1$c2FsdDEyMzQ$MTIzNDU2Nzg5MDEyMzQ1Njc4OTAxMjM0NTY3ODkwMTI",
    "$argon$v=19$m=4096,t=3,p=1$c2FsdDEyMzQ$MTIzNDU2Nzg5MDEyMzQ1Njc4OTAxMjM0NTY3ODkwMTI",
    "$argon2i$v=19$t=3,p=1$c2FsdDEyMzQ$MTIzNDU2Nzg5MDEyMzQ1Njc4OTAxMjM0NTY3ODkwMTI",
    "$argon2i$v=19$m=4096,p=1$c2FsdDEyMzQ$MTIzNDU2Nzg5MDEyMzQ1Njc4OTAxMjM0NTY3ODkwMTI",
    "$argon2i$v=19$m=4096,t=3$c2FsdDEyMzQ$MTIzNDU2Nzg5MDEyMzQ1Njc4OTAxMjM0NTY3ODkwMTI",
    "$argon2i$v=19$m=,t=3,p=1$c2FsdDEyMzQ$MTIzNDU2Nzg5MDEyMzQ1Njc4OTAxMjM0NTY3ODkwMTI",
    "$argon2i$v=19$m=4096,t=,p=1$c2FsdDEyMzQ$MTIzNDU2Nzg5MDEyMzQ1Njc4OTAxMjM0NTY3ODkwMTI",
    "$argon2i$v=19$m=4096,t=3,p=$c2FsdDEyMzQ$MTIzNDU2Nzg5MDEyMzQ1Njc4OTAxMjM0NTY3ODkwMTI",
    "$argon2i$v=19$m=a,t=3,p=1$c2FsdDEyMzQ$MTIzNDU2Nzg5MDEyMzQ1Njc4OTAxMjM0NTY3ODkwMTI",
    "$argon2i$v=19$m=4096,t=a,p=1$c2FsdDEyMzQ$MTIzNDU2Nzg5MDEyMzQ1Njc4OTAxMjM0NTY3ODkwMTI",
    "$argon2i$v=19$m=4096,t=3,p=a$c2FsdDEyMzQ$MTIzNDU2Nzg5MDEyMzQ1Njc4OTAxMjM0NTY3ODkwMTI",
    "$Argon2i$m=,t=03,p=1$c2FsdDEyMzQ$MTIzNDU2Nzg5MDEyMzQ1Njc4OTAxMjM0NTY3ODkwMTI",
    "$Argon2i$m=a,t=03,p=1$c2FsdDEyMzQ$MTIzNDU2Nzg5MDEyMzQ1Njc4OTAxMjM0NTY3ODkwMTI",
    "$Argon2i$m=-0,t=03,p=1$c2FsdDEyMzQ$MTIzNDU2Nzg5MDEyMzQ1Njc4OTAxMjM0NTY3ODkwMTI",
    "$Argon2i$m=+,t=03,p=1$c2FsdDEyMzQ$MTIzNDU2Nzg5MDEyMzQ1Njc4OTAxMjM0NTY3ODkwMTI",
    "$Argon2i$m=4294967296,t=03,p=1$c2FsdDEyMzQ$MTIzNDU2Nzg5MDEyMzQ1Njc4OTAxMjM0NTY3ODkwMTI",
    "$argon2i$v=19$m=++256,t=2,p=1$c29tZXNhbHQ$iekCn0Y3spW+sCcFanM2xBT63UP2sghkUoHLIUpWRS8",
    "$argon2i$v=19$m=-0,t=2,p=1$c29tZXNhbHQ$iekCn0Y3spW+sCcFanM2xBT63UP2sghkUoHLIUpWRS8",
    "$argon2i$v=19$m= 256,t=2,p=1$c29tZXNhbHQ$iekCn0Y3spW+sCcFanM2xBT63UP2sghkUoHLIUpWRS8",
    "$argon2i$v=19$m=4294967296,t=2,p=1$c29tZXNhbHQ$iekCn0Y3spW+sCcFanM2xBT63UP2sghkUoHLIUpWRS8",
    "$ARGON2I$v=19$m=256,t=2,p=1$c29tZXNhbHQ$iekCn0Y3spW+sCcFanM2xBT63UP2sghkUoHLIUpWRS8",
    "$argon2i$v=$m=256,t=2,p=1$c29tZXNhbHQ$iekCn0Y3spW+sCcFanM2xBT63UP2sghkUoHLIUpWRS8",
    "$argon2i$v=18$m=256,t=2,p=1$c29tZXNhbHQ$iekCn0Y3spW+sCcFanM2xBT63UP2sghkUoHLIUpWRS8",
    "$argon2i$v=+19$m=256,t=2,p=1$c29tZXNhbHQ$iekCn0Y3spW+sCcFanM2xBT63UP2sghkUoHLIUpWRS8",
    "$argon2i$v=019$m=256,t=2,p=1$c29tZXNhbHQ$iekCn0Y3spW+sCcFanM2xBT63UP2sghkUoHLIUpWRS8",
    "$argon2i$v=19$t=2,m=256,p=1$c29tZXNhbHQ$iekCn0Y3spW+sCcFanM2xBT63UP2sghkUoHLIUpWRS8",
    "$argon2i$v=19$m=256,t=2,p=1,$c29tZXNhbHQ$iekCn0Y3spW+sCcFanM2xBT63UP2sghkUoHLIUpWRS8",
    "$argon2i$v=19$m=256,t=2$c29tZXNhbHQ$iekCn0Y3spW+sCcFanM2xBT63UP2sghkUoHLIUpWRS8",
    " $argon2i$v=19$m=256,t=2,p=1$c29tZXNhbHQ$iekCn0Y3spW+sCcFanM2xBT63UP2sghkUoHLIUpWRS8",
    "$argon2i$v=19$m=256,t=2,p=1$c29tZXNhbHQ$iekCn0Y3spW+sCcFanM2xBT63UP2sghkUoHLIUpWRS8$",
];

#[test]
fn head_faults_denied_in_turn(rt: HostRuntime) -> Result<(), Fail> {
    for text in HEAD_FAULTS {
        let answer = decode_string(rt.alloc(), text);
        assert!(rt; answer == Err(Error::DecodingFail), "{text}");
    }
    println!(rt; "value")?;
    Ok(())
}

// ---- the small types, and the error of a base64 fault. Other cases are rows of `argon2_vectors`

#[test]
fn orders_variants_and_versions_by_their_numbers(rt: HostRuntime) {
    let (d, i, id) = (Variant::Argon2d, Variant::Argon2i, Variant::Argon2id);
    assert_eq!(rt; order_of_variants(&d, &i), Ordering::Less);
    assert_eq!(rt; order_of_variants(&id, &i), Ordering::Greater);
    assert_eq!(rt; order_of_variants(&id, &id), Ordering::Equal);
    let order = order_of_versions(&Version::Version10, &Version::Version13);
    assert_eq!(rt; order, Ordering::Less);
    let is_less = i < id && Version::Version10 < Version::Version13;
    assert!(rt; is_less, "not by the numbers");
}

#[test]
fn shows_the_small_types(rt: HostRuntime) -> Result<(), Fail> {
    let alloc = rt.alloc();
    let shown = format!(in alloc; "{:?}", [Place::Waiting, Place::Out, Place::Done])?;
    assert_eq!(rt; shown.as_str(), "[Waiting, Out, Done]");
    let shown = format!(in alloc; "{:?}", [Event::Take(3), Event::Put(2)])?;
    assert_eq!(rt; shown.as_str(), "[Take(3), Put(2)]");
    Ok(())
}

#[test]
fn a_fault_of_base64_is_a_fault_of_the_text(rt: HostRuntime) {
    let error = Error::from(DecodeError::InvalidLength(1));
    assert_eq!(rt; error, Error::DecodingFail);
}

#[test]
fn tells_why_a_text_was_not_verified(rt: HostRuntime) -> Result<(), Fail> {
    let alloc = rt.alloc();
    let shown = format!(in alloc; "{}", Unverified::TooCostly)?;
    assert_eq!(rt; shown.as_str(), "The encoded hash is above the limits");
    let shown = format!(in alloc; "{}", Unverified::from(Error::DecodingFail))?;
    assert_eq!(rt; shown.as_str(), "Decoding failed");
    Ok(())
}
