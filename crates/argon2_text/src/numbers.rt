//! What an encoded hash decodes to, in numbers.

use argon2_standard::variant::Variant;
use argon2_standard::version::Version;

/// What an encoded hash decodes to, with the lengths of salt and hash in place of their bytes.
#[derive(Clone, Copy, Debug)]
pub struct Numbers {
    /// The variant.
    pub variant: Variant,

    /// The version.
    pub version: Version,

    /// The memory in KiB.
    pub mem_cost: u32,

    /// The number of passes.
    pub time_cost: u32,

    /// The number of lanes.
    pub parallelism: u32,

    /// The length of the salt in bytes.
    pub salt_len: u64,

    /// The length of the hash in bytes.
    pub hash_len: u64,
}
