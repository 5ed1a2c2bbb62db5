//! The settings of a hash in numbers, as C passes them.

ghost use Rattle.std.specs.Prelude.{◌≡◌, ℕ, List, [], Ok, length};
ghost use Rattle.std.specs.Borrow.{Bor};
ghost use Rattle.argon2_standard.specs.Standard.SettingsTable.{table_error};
ghost use Rattle.argon2_c.specs.Answers.{IsTextLength};
ghost use Rattle.argon2_c.specs.Checks.{Checks};
ghost use Rattle.argon2_c.specs.CallerBlocks.{memory_len_of};
ghost use Rattle.argon2_c.specs.Settings.{config_of};

use crate::errors::CallError;
use argon2::parts::common::{MIN_SALT_LENGTH, SYNC_POINTS};
use argon2::parts::context::first_refusal;
use argon2::{Config, Error, ThreadMode, Variant, Version};
use argon2_standard::context::error_of_lengths;

/// The settings of a hash: all that a tag depends on except the password, the salt, the secret and
/// the associated data.
#[repr(C)]
#[derive(Clone, Copy, Debug)]
pub struct Settings {
    /// 0 for Argon2d, 1 for Argon2i, 2 for Argon2id.
    pub variant: u32,

    /// 0x10 or 0x13.
    pub version: u32,

    /// The memory in KiB, at least 8 a lane.
    pub mem_cost: u32,

    /// The number of passes over the memory, at least 1.
    pub time_cost: u32,

    /// The number of lanes, 1 to 2^24 - 1.
    pub lanes: u32,

    /// The length of the hash in bytes, at least 4.
    pub hash_length: u32,
}

impl Settings {
    /// The configuration of these settings, whose memory is filled in the caller's thread.
    /// A number that no variant has is `IncorrectType`. Otherwise a number that no version has is
    /// `IncorrectVersion`.
    pub fn config<'a>(&self, secret: &'a [u8], ad: &'a [u8]) -> argon2::Result<Config<'a>>
        ensures { result ≡ config_of self.now secret.entry ad.entry }
    {
        let variant = match Variant::from_u32(self.variant) {
            Ok(variant) => variant,
            Err(error) => return Err(error),
        };
        let version = match Version::from_u32(self.version) {
            Ok(version) => version,
            Err(error) => return Err(error),
        };
        Ok(Config {
            ad,
            hash_length: self.hash_length,
            lanes: self.lanes,
            mem_cost: self.mem_cost,
            secret,
            // A static library may start no threads.
            thread_mode: ThreadMode::Sequential,
            time_cost: self.time_cost,
            variant,
            version,
        })
    }

    /// Whether these settings are accepted with inputs of these lengths. The numbers of variant and
    /// version are checked first, then the settings table.
    pub fn check(
        &self,
        pwd_len: u64,
        salt_len: u64,
        secret_len: u64,
        ad_len: u64,
    ) -> Result<(), CallError>
        ensures { (secret ad : Bor (List ℕ)) → length secret.now ≡ secret_len
            → length ad.now ≡ ad_len
            → Checks (config_of self.now secret ad) pwd_len salt_len result }
    {
        let config = match self.config(&[], &[]) {
            Ok(config) => config,
            Err(error) => return Err(CallError::Library(error)),
        };
        let hash_len = self.hash_length as u64;
        match error_of_lengths(&config, pwd_len, salt_len, secret_len, ad_len, hash_len) {
            Some(error) => Err(CallError::Library(error)),
            None => Ok(()),
        }
    }

    /// How many bytes the blocks of a hash with these settings have, or 0 if the settings are
    /// rejected for all inputs. (`check` also checks the inputs' lengths.)
    pub fn memory_len(&self) -> u64
        ensures { (secret ad : Bor (List ℕ)) → secret.now ≡ [] → ad.now ≡ []
            → result ≡ memory_len_of (config_of self.now secret ad) }
    {
        match self.config(&[], &[]) {
            Ok(config) => memory_len(&config),
            Err(_) => 0,
        }
    }

    /// The length of the encoded hash with a salt of this length, or 0 if no variant or version has
    /// the given number.
    pub fn encoded_len(&self, salt_len: u32) -> u64
        ensures { (secret ad : Bor (List ℕ)) → IsTextLength
            (config_of self.now secret ad) salt_len result }
    {
        match self.config(&[], &[]) {
            Ok(config) => text_len(&config, salt_len),
            Err(_) => 0,
        }
    }
}

/// The bytes of the blocks of a configuration, or 0 if the settings table rejects it for all
/// inputs.
fn memory_len(config: &Config<'_>) -> u64
    ensures { result ≡ memory_len_of (Ok config.now) }
{
    match settings_error(config, MIN_SALT_LENGTH as u64) {
        Some(_) => 0,
        None => {
            let segments = SYNC_POINTS * config.lanes;
            1024 * (segments * (config.mem_cost / segments)) as u64
        }
    }
}

/// The first parameter error for a salt of this length and a hash of `hash_length` bytes. The
/// password counts as empty, since no password is too short.
pub fn settings_error(config: &Config<'_>, salt_len: u64) -> Option<Error>
    ensures { result ≡ table_error config.now 0 salt_len config.now.hash_length }
{
    first_refusal(config, 0, salt_len, config.hash_length as u64)
}

/// The length of the encoded hash of a configuration, with a salt of this length.
pub fn text_len(config: &Config<'_>, salt_len: u32) -> u64
    ensures { IsTextLength (Ok config.now) salt_len result }
{
    argon2::encoded_len(
        config.variant,
        config.mem_cost,
        config.time_cost,
        config.lanes,
        salt_len,
        config.hash_length,
    )
}
