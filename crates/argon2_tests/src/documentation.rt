//! The example of rust-argon2's documentation with its own settings, 64 MiB in 10 passes, which
//! takes minutes with the checks of `rt try`.

use argon2::{Config, ThreadMode, Variant, Version, hash_encoded, verify_encoded};
use std::test::Fail;

#[test]
fn verifies_by_own_settings(rt: HostRuntime) -> Result<(), Fail> {
    let alloc = rt.alloc();
    let config = Config {
        lanes: 4,
        mem_cost: 65536,
        thread_mode: ThreadMode::Parallel,
        time_cost: 10,
        variant: Variant::Argon2i,
        version: Version::Version13,
        ..Config::default()
    };
    let text = hash_encoded(&rt, alloc, b"password", b"othersalt", &config)?;
    assert!(rt; verify_encoded(&rt, alloc, text.as_str(), b"password")?);
    Ok(())
}
