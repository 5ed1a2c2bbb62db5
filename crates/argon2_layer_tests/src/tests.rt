mod values;
mod workers;

use argon2_standard::config::Config;
use argon2_standard::thread_mode::ThreadMode;
use argon2_standard::variant::Variant;
use argon2_standard::version::Version;
use std::test::Fail;

/// What a test returns, or a step of one.
pub type Tested<T> = Result<T, Fail>;

/// The settings of RFC 9106, section 5.
pub fn rfc9106(variant: Variant) -> Config<'static> {
    Config {
        ad: &[4; 12],
        hash_length: 32,
        lanes: 4,
        mem_cost: 32,
        secret: &[3; 8],
        thread_mode: ThreadMode::Parallel,
        time_cost: 3,
        variant,
        version: Version::Version13,
    }
}

/// The settings of 2 passes over 256 KiB in 2 lanes.
pub fn two_lanes() -> Config<'static> {
    Config {
        ad: b"",
        hash_length: 32,
        lanes: 2,
        mem_cost: 256,
        secret: b"",
        thread_mode: ThreadMode::Parallel,
        time_cost: 2,
        variant: Variant::Argon2d,
        version: Version::Version13,
    }
}
