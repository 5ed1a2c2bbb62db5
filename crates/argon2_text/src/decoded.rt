//! What an encoded hash decodes to.

ghost use Rattle.std.specs.Prelude.{◌≡◌};

use crate::numbers::Numbers;
use argon2_standard::variant::Variant;
use argon2_standard::version::Version;

/// What an encoded hash decodes to: all that it is verified with, except the password, the secret
/// and the associated data.
#[derive(Debug, Drop, Eq, PartialEq)]
pub struct Decoded {
    /// The variant.
    pub variant: Variant,

    /// The version. A string that names none means version 0x10.
    pub version: Version,

    /// The memory in KiB.
    pub mem_cost: u32,

    /// The number of passes.
    pub time_cost: u32,

    /// The number of lanes.
    pub parallelism: u32,

    /// The bytes of the salt.
    pub salt: Vec<u8>,

    /// The bytes of the hash.
    pub hash: Vec<u8>,
}

impl Decoded {
    ghost use Rattle.argon2_text.specs.Views.Texts.{numbers_of, spelled_by};

    /// The value with the lengths of its salt and its hash in place of their bytes.
    pub fn numbers(&self) -> Numbers
        ensures { result ≡ numbers_of (spelled_by self.now) }
    {
        Numbers {
            variant: self.variant,
            version: self.version,
            mem_cost: self.mem_cost,
            time_cost: self.time_cost,
            parallelism: self.parallelism,
            salt_len: self.salt.len() as u64,
            hash_len: self.hash.len() as u64,
        }
    }
}
