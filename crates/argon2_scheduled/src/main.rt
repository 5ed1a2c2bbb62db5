//! Makes each `_by_value` call with workers, on the inputs of RFC 9106, section 5.3, and prints
//! what it returns. This program contains the code that the theorems about these calls assume.
#![tactic(auto)]

use argon2_schedule::{
    hash_encoded_by_value, hash_raw_by_value, verify_encoded_by_value, verify_raw_by_value,
    verify_within_by_value,
};
use std::str;

const PASSWORD: [u8; 32] = [1; 32];

const SALT: [u8; 16] = [2; 16];

const SECRET: [u8; 8] = [3; 8];

const AD: [u8; 12] = [4; 12];

fn main(rt: HostRuntime) -> anyhow::Result<()> {
    let alloc = rt.alloc();
    let (tag, rt): (argon2::Result<[u8; 32]>, _) = hash_raw_by_value(
        rt, alloc, PASSWORD, SALT, SECRET, AD, 2, true, 32, 3, 4, 0,
    );
    let tag = tag?;
    println!(rt; "{}", hex::encode(alloc, &tag)?)?;
    let (verdict, rt) = verify_raw_by_value(
        rt, alloc, PASSWORD, SALT, tag, SECRET, AD, 2, true, 32, 3, 4, 0, 32,
    );
    println!(rt; "{}", verdict?)?;
    let (text, rt): (argon2::Result<[u8; 94]>, _) = hash_encoded_by_value(
        rt, alloc, PASSWORD, SALT, SECRET, AD, 2, true, 32, 3, 4, 0, 32,
    );
    let text = text?;
    println!(rt; "{}", str::from_utf8(&text)?)?;
    let (verdict, rt) = verify_encoded_by_value(rt, alloc, text, PASSWORD, SECRET, AD);
    println!(rt; "{}", verdict?)?;
    let (verdict, rt) = verify_within_by_value(rt, alloc, text, PASSWORD, SECRET, AD, 32, 3, 4, 96);
    println!(rt; "{}", verdict?)?;
    Ok(())
}
