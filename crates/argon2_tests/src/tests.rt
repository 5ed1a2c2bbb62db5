mod denied;
mod encoding;
mod permitted_workers;

use argon2::{Config, ThreadMode, Variant, Version};

/// The settings of rust-argon2's own small tests: 2 passes over 256 KiB, in one thread.
pub fn small(variant: Variant, version: Version, lanes: u32) -> Config<'static> {
    Config {
        ad: b"",
        hash_length: 32,
        lanes,
        mem_cost: 256,
        secret: b"",
        thread_mode: ThreadMode::Sequential,
        time_cost: 2,
        variant,
        version,
    }
}

/// The settings of RFC 9106, section 5, in one thread: 3 passes over 32 KiB in 4 lanes, with a
/// secret and associated data.
pub fn rfc9106(variant: Variant) -> Config<'static> {
    Config {
        ad: &[4; 12],
        hash_length: 32,
        lanes: 4,
        mem_cost: 32,
        secret: &[3; 8],
        thread_mode: ThreadMode::Sequential,
        time_cost: 3,
        variant,
        version: Version::Version13,
    }
}
