//! The settings table, the inputs of an accepted call, and H0, the hash of these inputs.

ghost use Rattle.std.specs.Prelude.{◌≡◌, ◌*◌, ◌/◌, ◌^◌, ◌<◌, ℕ, List, length, IsNone, IsOkAnd, MatchOption};
ghost use Rattle.std.specs.Borrow.{Bor};
ghost use Rattle.argon2_standard.specs.Views.Presets.{workers_of};
ghost use Rattle.argon2_standard.specs.Standard.Prehash.{prehash_of};
ghost use Rattle.argon2_standard.specs.Standard.SettingsTable.{table_error};

use crate::config::Config;
use crate::error::Error;
use crate::result::Result;
use argon2_blocks::basics::u32_to_le_bytes;
use argon2_blocks::blake2b::blake2b;
use argon2_blocks::common::{
    MAX_AD_LENGTH, MAX_HASH_LENGTH, MAX_LANES, MAX_PWD_LENGTH, MAX_SALT_LENGTH, MAX_SECRET_LENGTH,
    MIN_HASH_LENGTH, MIN_LANES, MIN_MEMORY, MIN_SALT_LENGTH, MIN_TIME, PREHASH_DIGEST_LENGTH,
    SYNC_POINTS,
};
use std::fmt;

/// The first parameter error for a password, a salt and a hash of these lengths, in the order of
/// the settings table: only the first error is reported. It takes lengths and no bytes, since an
/// encoded hash is checked before its salt and hash are decoded.
pub fn first_refusal(config: &Config, pwd_len: u64, salt_len: u64, hash_len: u64) -> Option<Error>
    ensures { result ≡ table_error config.now pwd_len salt_len hash_len }
{
    let (secret_len, ad_len) = (config.secret.len() as u64, config.ad.len() as u64);
    error_of_lengths(config, pwd_len, salt_len, secret_len, ad_len, hash_len)
}

/// The same for any secret and any associated data of these lengths. The configuration's own are
/// not looked at.
#[tactic(auto, unfolding(crate::specs::Standard::SettingsTable::table_error))]
pub fn error_of_lengths(
    config: &Config,
    pwd_len: u64,
    salt_len: u64,
    secret_len: u64,
    ad_len: u64,
    hash_len: u64,
) -> Option<Error>
    ensures { (secret ad : Bor (List ℕ)) → length secret.now ≡ secret_len → length ad.now ≡ ad_len
        → result ≡ table_error (record config.now { secret = secret; ad = ad }) pwd_len salt_len
        hash_len }
{
    if config.lanes < MIN_LANES {
        Some(Error::LanesTooFew)
    } else if config.lanes > MAX_LANES {
        Some(Error::LanesTooMany)
    } else if (config.mem_cost as u64) < MIN_MEMORY as u64 * config.lanes as u64 {
        Some(Error::MemoryTooLittle)
    } else if config.time_cost < MIN_TIME {
        Some(Error::TimeTooSmall)
    } else if pwd_len > MAX_PWD_LENGTH as u64 {
        Some(Error::PwdTooLong)
    } else if salt_len < MIN_SALT_LENGTH as u64 {
        Some(Error::SaltTooShort)
    } else if salt_len > MAX_SALT_LENGTH as u64 {
        Some(Error::SaltTooLong)
    } else if secret_len > MAX_SECRET_LENGTH as u64 {
        Some(Error::SecretTooLong)
    } else if ad_len > MAX_AD_LENGTH as u64 {
        Some(Error::AdTooLong)
    } else if hash_len < MIN_HASH_LENGTH as u64 {
        Some(Error::OutputTooShort)
    } else if hash_len > MAX_HASH_LENGTH as u64 {
        Some(Error::OutputTooLong)
    } else {
        None
    }
}

/// H0, the hash of all inputs (RFC 9106, 3.2, step 1). They go to BLAKE2b as pieces, so that
/// nothing is allocated.
#[tactic(auto, unfolding(crate::specs::Standard::Prehash::prehash_of, crate::specs::Standard::SettingsTable::table_error))]
fn prehash<'a>(config: &Config<'a>, pwd: &'a [u8], salt: &'a [u8]) -> [u8; PREHASH_DIGEST_LENGTH]
    requires { IsNone (table_error config.now (length pwd.now)
        (length salt.now) config.now.hash_length) }
    ensures { result ≡ prehash_of pwd.now salt.now config.now config.now.hash_length }
{
    let lanes = u32_to_le_bytes(config.lanes);
    let hash_length = u32_to_le_bytes(config.hash_length);
    let mem_cost = u32_to_le_bytes(config.mem_cost);
    let time_cost = u32_to_le_bytes(config.time_cost);
    let version = u32_to_le_bytes(config.version.as_u32());
    let variant = u32_to_le_bytes(config.variant.as_u32());
    // These casts cut nothing, since longer inputs were rejected.
    let pwd_length = u32_to_le_bytes(pwd.len() as u32);
    let salt_length = u32_to_le_bytes(salt.len() as u32);
    let secret_length = u32_to_le_bytes(config.secret.len() as u32);
    let ad_length = u32_to_le_bytes(config.ad.len() as u32);
    let mut out = [0; PREHASH_DIGEST_LENGTH];
    blake2b(
        &mut out,
        &[
            &lanes[..],
            &hash_length[..],
            &mem_cost[..],
            &time_cost[..],
            &version[..],
            &variant[..],
            &pwd_length[..],
            pwd,
            &salt_length[..],
            salt,
            &secret_length[..],
            config.secret,
            &ad_length[..],
            config.ad,
        ],
    );
    out
}

/// The accepted inputs of a call, the lengths that follow from them, and H0, the hash of all
/// inputs. H0 is stored here, so that the password is hashed once per call.
#[derive(Drop, PartialEq)]
pub struct Context<'a> {
    pub config: Config<'a>,
    pub lane_length: u32,
    pub memory_blocks: u32,
    pub pwd: &'a [u8],
    pub salt: &'a [u8],
    pub segment_length: u32,
    prehash: [u8; PREHASH_DIGEST_LENGTH],
    ghost accepted: { IsNone (table_error config (length pwd.now)
        (length salt.now) config.hash_length) },
    ghost segment: { segment_length ≡ config.mem_cost / (4 * config.lanes) },
    ghost lane: { lane_length ≡ 4 * segment_length },
    ghost memory: { memory_blocks ≡ 4 * config.lanes * segment_length },
    ghost hashed: { prehash ≡ prehash_of pwd.now salt.now config config.hash_length },
}

impl<'a> Context<'a> {
    /// The context of a hash of `config.hash_length` bytes. It returns an error exactly where the
    /// settings table has one.
    pub fn new(config: Config<'a>, pwd: &'a [u8], salt: &'a [u8]) -> Result<Context<'a>>
        ensures { MatchOption (table_error config.entry (length pwd.entry.now)
            (length salt.entry.now) config.entry.hash_length)
            (IsOkAnd result (λ c. (c.config ≡ config.entry) × (c.pwd.now ≡ pwd.entry.now)
            × (c.salt.now ≡ salt.entry.now)))
            (λ refusal. result ≡ Err refusal) }
    {
        let hash_len = config.hash_length as u64;
        match first_refusal(&config, pwd.len() as u64, salt.len() as u64, hash_len) {
            None => Ok(accepted_context(config, pwd, salt)),
            Some(refusal) => Err(refusal),
        }
    }
}

/// The context of settings that were checked and accepted before. The verifying calls check the
/// settings for the length of the hash that they verify, and then call this without a second check.
#[tactic(auto, unfolding(crate::specs::Standard::SettingsTable::table_error))]
pub fn accepted_context<'a>(config: Config<'a>, pwd: &'a [u8], salt: &'a [u8]) -> Context<'a>
    requires { IsNone (table_error config (length pwd.now) (length salt.now) config.hash_length) }
    ensures config { result.config ≡ config.entry }
    ensures pwd { result.pwd.now ≡ pwd.entry.now }
    ensures salt { result.salt.now ≡ salt.entry.now }
{
    let segment_length = config.mem_cost / (SYNC_POINTS * config.lanes);
    let lane_length = SYNC_POINTS * segment_length;
    let memory_blocks = SYNC_POINTS * config.lanes * segment_length;
    let prehash = prehash(&config, pwd, salt);
    Context {
        config,
        lane_length,
        memory_blocks,
        pwd,
        salt,
        segment_length,
        prehash,
    }
}

/// H0 of a context. It is no method of `Context`, since users would see the method.
pub fn prehash_of_context(context: &Context<'_>) -> [u8; PREHASH_DIGEST_LENGTH]
    ensures { let c = context.now in
        result ≡ prehash_of c.pwd.now c.salt.now c.config c.config.hash_length }
{
    context.prehash
}

/// Tells the prover how many workers may fill a slice: at least one, and fewer than 2^24. The
/// argument is a context, since only accepted settings have these bounds. The function does nothing
/// else.
#[tactic(auto, using(crate::proofs::Settings::accepted, crate::proofs::Settings::workers_fit))]
pub fn facts_of_workers(context: &Context<'_>)
    ensures some { 0 < workers_of context.now.config }
    ensures few { workers_of context.now.config < 2 ^ 24 }
{
    let _lanes = context.config.lanes;
}

/// Shows the fields that a caller sees, the password and the secret among them.
impl fmt::Debug for Context<'_> {
    fn fmt<W: fmt::Write>(&self, f: &mut fmt::Formatter<W>) -> fmt::Result {
        f.debug_struct("Context")
            .field("config", &self.config)
            .field("lane_length", &self.lane_length)
            .field("memory_blocks", &self.memory_blocks)
            .field("pwd", &self.pwd)
            .field("salt", &self.salt)
            .field("segment_length", &self.segment_length)
            .finish()
    }
}
