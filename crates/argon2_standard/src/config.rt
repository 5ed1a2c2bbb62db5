//! The settings of a hash, and the presets.

ghost use Rattle.std.specs.Prelude.{◌≡◌};
ghost use Rattle.argon2_standard.specs.Views.Presets.{IsPreset, workers_of};
ghost use Rattle.argon2_standard.specs.Standard.ThreadModes.{uses_sequential};
ghost use Rattle.argon2_standard.specs.declared.variant.Variant.TheVariants.{Argon2i, Argon2id};

use crate::thread_mode::ThreadMode;
use crate::variant::Variant;
use crate::version::Version;

/// The settings of a hash: all that a tag depends on except the password and the salt, and how many
/// threads compute it.
#[derive(Clone, Copy, Debug, PartialEq)]
pub struct Config<'a> {
    /// The associated data, up to 2^32 - 1 bytes.
    pub ad: &'a [u8],

    /// The length of the hash in bytes, at least 4.
    pub hash_length: u32,

    /// The number of lanes, 1 to 2^24 - 1.
    pub lanes: u32,

    /// The memory in KiB, at least 8 a lane. The memory that is filled is this number, rounded down
    /// to a multiple of 4 KiB a lane.
    pub mem_cost: u32,

    /// The secret, up to 2^32 - 1 bytes.
    pub secret: &'a [u8],

    /// How many threads fill the memory. The tag does not depend on it.
    pub thread_mode: ThreadMode,

    /// The number of passes over the memory, at least 1.
    pub time_cost: u32,

    /// The variant.
    pub variant: Variant,

    /// The version.
    pub version: Version,
}

/// One lane in the caller's thread, 32 bytes of hash, version 0x13, no secret, no associated data.
fn preset<'a>(variant: Variant, mem_cost: u32, time_cost: u32) -> Config<'a>
    ensures { IsPreset variant mem_cost time_cost result }
{
    Config {
        ad: &[],
        hash_length: 32,
        lanes: 1,
        mem_cost,
        secret: &[],
        thread_mode: ThreadMode::Sequential,
        time_cost,
        variant,
        version: Version::Version13,
    }
}

impl<'a> Config<'a> {
    /// The defaults of the original C program: Argon2i, 4 MiB, 3 passes.
    pub fn original() -> Config<'a>
        ensures { IsPreset Argon2i 4096 3 result }
    {
        preset(Variant::Argon2i, 4096, 3)
    }

    /// OWASP's first recommendation: Argon2id, 46 MiB, 1 pass.
    pub fn owasp1() -> Config<'a>
        ensures { IsPreset Argon2id 47104 1 result }
    {
        preset(Variant::Argon2id, 47104, 1)
    }

    /// OWASP's second recommendation: Argon2id, 19 MiB, 2 passes. The default.
    pub fn owasp2() -> Config<'a>
        ensures { IsPreset Argon2id 19456 2 result }
    {
        preset(Variant::Argon2id, 19456, 2)
    }

    /// OWASP's third recommendation: Argon2id, 12 MiB, 3 passes.
    pub fn owasp3() -> Config<'a>
        ensures { IsPreset Argon2id 12288 3 result }
    {
        preset(Variant::Argon2id, 12288, 3)
    }

    /// OWASP's fourth recommendation: Argon2id, 9 MiB, 4 passes.
    pub fn owasp4() -> Config<'a>
        ensures { IsPreset Argon2id 9216 4 result }
    {
        preset(Variant::Argon2id, 9216, 4)
    }

    /// OWASP's fifth recommendation: Argon2id, 7 MiB, 5 passes.
    pub fn owasp5() -> Config<'a>
        ensures { IsPreset Argon2id 7168 5 result }
    {
        preset(Variant::Argon2id, 7168, 5)
    }

    /// RFC 9106's first recommendation (section 4): Argon2id, 2 GiB, 1 pass. It has one lane, as in
    /// rust-argon2. The RFC has four.
    pub fn rfc9106() -> Config<'a>
        ensures { IsPreset Argon2id 2097152 1 result }
    {
        preset(Variant::Argon2id, 2097152, 1)
    }

    /// RFC 9106's recommendation for little memory (section 4): Argon2id, 64 MiB, 3 passes. It has
    /// one lane, as in rust-argon2. The RFC has four.
    pub fn rfc9106_low_mem() -> Config<'a>
        ensures { IsPreset Argon2id 65536 3 result }
    {
        preset(Variant::Argon2id, 65536, 3)
    }

    /// Whether the caller's thread fills all lanes, so that no worker is started: `Sequential`, one
    /// lane, or at most one worker.
    pub fn uses_sequential(&self) -> bool
        ensures { result ≡ uses_sequential self.now }
    {
        match self.thread_mode {
            ThreadMode::Sequential => true,
            ThreadMode::Parallel => self.lanes == 1,
            ThreadMode::AtMost(most) => most <= 1 || self.lanes == 1,
        }
    }

    /// How many workers fill a slice: one for each lane with `Parallel`, no more than the given
    /// number with `AtMost`, and 1, the caller's thread itself, where that thread fills all lanes.
    pub fn workers(&self) -> u32
        ensures { result ≡ workers_of self.now }
    {
        match self.thread_mode {
            ThreadMode::Parallel => self.lanes,
            ThreadMode::AtMost(most) if most > 1 => self.lanes.min(most),
            ThreadMode::AtMost(_) | ThreadMode::Sequential => 1,
        }
    }
}

impl Default for Config<'_> {
    ghost use Rattle.argon2_standard.specs.Views.Presets.{IsPreset};
    ghost use Rattle.argon2_standard.specs.declared.variant.Variant.TheVariants.{Argon2id};

    ghost is_default = { IsPreset Argon2id 19456 2 };

    fn default() -> Self {
        Config::owasp2()
    }
}
