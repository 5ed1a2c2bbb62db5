//! A small login service: it registers a user, verifies her password, and renews its hash.
#![tactic(auto)]

mod service;

use argon2::{Config, Variant};

/// An encoded hash of Argon2i in 3 passes over 4 MiB, as it was stored years ago.
const OLD: &str =
    "$argon2i$v=19$m=4096,t=3,p=1$c29tZXNhbHQ$iWh06vD8Fy27wf9npn6FXWiCX4K6pW6Ue1Bnzz07Z8A";

/// The same, changed by somebody who wants the service to allocate 4 TiB.
const COSTLY: &str =
    "$argon2i$v=19$m=4294967295,t=3,p=1$c29tZXNhbHQ$iWh06vD8Fy27wf9npn6FXWiCX4K6pW6Ue1Bnzz07Z8A";

/// An encoded hash of Argon2i that was made with the secret `secret` and the associated data `ad`.
const PEPPERED: &str =
    "$argon2i$v=19$m=4096,t=3,p=1$c29tZXNhbHQ$OlcSvlN20Lz43sK3jhCJ9K04oejhiY0AmI+ck6nuETo";

fn main(rt: HostRuntime) -> anyhow::Result<()> {
    let alloc = rt.alloc();
    let today = Config::owasp2();
    let kept = service::register(&rt, alloc, b"correct horse", &today)?;
    println!(rt; "kept: {} bytes", kept.len())?;
    for password in ["correct horse", "wrong horse"] {
        let let_in = service::log_in(&rt, alloc, &kept, password.as_bytes())?;
        println!(rt; "{password}: {let_in}")?;
    }
    println!(rt; "old: {}", service::log_in(&rt, alloc, OLD, b"password")?)?;
    let costly = service::log_in(&rt, alloc, COSTLY, b"password");
    println!(rt; "costly: {costly:?}")?;
    let renewed = service::renew(&rt, alloc, OLD, b"password", &today)?;
    println!(rt; "renewed: {}", renewed.is_some())?;
    let let_in = service::log_in_with_pepper(&rt, alloc, PEPPERED, b"password", b"secret", b"ad")?;
    println!(rt; "peppered: {let_in}")?;
    let deriving = Config {
        variant: Variant::Argon2i,
        mem_cost: 256,
        ..Config::owasp2()
    };
    let key = service::derive(alloc, b"password", b"somesalt", &deriving)?;
    println!(rt; "key: {}", hex::encode(alloc, key.as_slice())?)?;
    let same = service::is_key_of(alloc, b"password", b"somesalt", &key, &deriving)?;
    println!(rt; "is_key_of: {same}")?;
    Ok(())
}
