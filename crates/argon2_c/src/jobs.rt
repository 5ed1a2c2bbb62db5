//! A job as C stores it: H0 and the numbers that the blocks and the tag depend on.

ghost use Rattle.std.specs.Prelude.{◌≡◌, ◌*◌, ℕ, List, MatchResult, None, Some};
ghost use Rattle.argon2_standard.specs.declared.config.Config.{Config};
ghost use Rattle.argon2_text.specs.Views.Faults.{IsSomeItem};
ghost use Rattle.argon2_standard.specs.Standard.Grammar.{IsItem};
ghost use Rattle.argon2_memory.specs.Views.Jobs.{IsJob, setting_of_context};
ghost use Rattle.argon2_standard.specs.Standard.Decoded.{decoded_config};
ghost use Rattle.argon2_text.specs.Views.Texts.{spelled_with};
ghost use Rattle.argon2_c.specs.Checks.{ChecksJob};
ghost use Rattle.argon2_c.specs.Jobs.{MakesJob, MakesStoredJob, WritesStoredJob, is_out_of_bounds, job_of, setting_at, setting_of_job};
ghost use Rattle.argon2_c.specs.Settings.{config_of, version_of};
ghost use Rattle.argon2_c.specs.declared.errors.CallError.TheVariants.{NoJob};

use crate::encoded_hash::head_of;
use crate::errors::CallError;
use crate::reading::read_items;
use crate::settings::Settings;
use argon2::parts::common::{MAX_LANES, MIN_HASH_LENGTH, MIN_TIME};
use argon2::parts::context::{Context, Job};
use argon2::parts::encoding::Head;
use argon2::parts::stored::{config_of_numbers, refusal};
use argon2::{Variant, Version};
use argon2_memory::job::job_of_setting;
use argon2_standard::context::{accepted_context, prehash_of_context};

/// The most blocks that one of the four slices has, since a memory cost fits 32 bits.
const MAX_BLOCKS_IN_SLICE: u64 = 0x3FFF_FFFF;

/// A job in numbers: all that its blocks and its tag depend on. The caller holds it and may change
/// it, so each step checks the numbers anew.
#[repr(C)]
#[derive(Clone, Copy, Debug)]
pub struct CallerJob {
    /// H0, the hash of all inputs (RFC 9106, 3.2, step 1).
    pub prehash: [u8; 64],

    /// 0 for Argon2d, 1 for Argon2i, 2 for Argon2id.
    pub variant: u32,

    /// 0x10 or 0x13.
    pub version: u32,

    /// The number of lanes.
    pub lanes: u32,

    /// How many blocks a lane has in a slice.
    pub segment_length: u32,

    /// The number of passes.
    pub passes: u32,

    /// The length of the tag in bytes.
    pub hash_length: u32,
}

impl CallerJob {
    /// The job of an accepted call.
    #[tactic(auto, unfolding(argon2_standard::specs::Standard::Prehash::setting_of))]
    fn of(context: &Context<'_>) -> CallerJob
        ensures { let c = context.now in result ≡ job_of (setting_of_context c) c.config.hash_length }
    {
        CallerJob {
            prehash: prehash_of_context(context),
            variant: context.config.variant.as_u32(),
            version: context.config.version.as_u32(),
            lanes: context.config.lanes,
            segment_length: context.segment_length,
            passes: context.config.time_cost,
            hash_length: context.config.hash_length,
        }
    }

    /// Whether the numbers other than the variant and the version are out of bounds. Then no valid
    /// settings have a job with these numbers.
    fn is_out_of_bounds(&self) -> bool
        ensures { result ≡ is_out_of_bounds self.now }
    {
        self.lanes == 0
            || self.lanes > MAX_LANES
            || self.segment_length < 2
            // In 64 bits, since C may pass any numbers.
            || self.lanes as u64 * self.segment_length as u64 > MAX_BLOCKS_IN_SLICE
            || self.passes < MIN_TIME
            || self.hash_length < MIN_HASH_LENGTH
    }

    /// The library's job with a variant and a version, at its first slice.
    fn job_with(&self, variant: Variant, version: Version) -> Result<Job, CallError>
        ensures { MatchResult result
            (λ job. setting_at self.now (Some variant) (Some version) ≡ Some job.setting)
            (λ error. (error ≡ NoJob)
            × (setting_at self.now (Some variant) (Some version) ≡ None)) }
    {
        if self.is_out_of_bounds() {
            return Err(CallError::NoJob);
        }
        Ok(job_of_setting(
            &self.prehash,
            variant,
            version,
            self.lanes,
            self.segment_length,
            self.passes,
        ))
    }

    /// The library's job with a variant, at its first slice.
    fn job_of_variant(&self, variant: Variant) -> Result<Job, CallError>
        ensures { MatchResult result
            (λ job. setting_at self.now (Some variant) (version_of self.now.version)
            ≡ Some job.setting)
            (λ error. (error ≡ NoJob)
            × (setting_at self.now (Some variant) (version_of self.now.version) ≡ None)) }
    {
        match Version::from_u32(self.version) {
            Ok(version) => self.job_with(variant, version),
            Err(_) => Err(CallError::NoJob),
        }
    }

    /// Whether an accepted call has a job of these numbers; if none has, `NoJob`.
    pub fn check(&self) -> Result<(), CallError>
        ensures { ChecksJob (setting_of_job self.now) result }
    {
        match self.job() {
            Ok(_) => Ok(()),
            Err(error) => Err(error),
        }
    }

    /// The library's job of these numbers, at its first slice. Numbers of no job are `NoJob`.
    // Not inlined, so that the machine code checks the numbers of a job in one place.
    #[inline(never)]
    pub fn job(&self) -> Result<Job, CallError>
        ensures { MatchResult result
            (λ job. setting_of_job self.now ≡ Some job.setting)
            (λ error. (error ≡ NoJob) × (setting_of_job self.now ≡ None)) }
    {
        match Variant::from_u32(self.variant) {
            Ok(variant) => self.job_of_variant(variant),
            Err(_) => Err(CallError::NoJob),
        }
    }
}

/// Writes the job of a password. The numbers of variant and version are checked first, then the
/// settings table. On an error the job is unchanged.
#[inline(never)]
pub fn make(
    pwd: &[u8],
    salt: &[u8],
    secret: &[u8],
    ad: &[u8],
    settings: &Settings,
    job: &mut CallerJob,
) -> Result<(), CallError>
    ensures { MakesJob (config_of settings.now secret.entry ad.entry) pwd.now salt.now
        job.old job.new result }
{
    let config = match settings.config(secret, ad) {
        Ok(config) => config,
        Err(error) => return Err(CallError::Library(error)),
    };
    let context = match Context::new(config, pwd, salt) {
        Ok(context) => context,
        Err(error) => return Err(CallError::Library(error)),
    };
    *job = CallerJob::of(&context);
    Ok(())
}

/// Writes the job with which an encoded hash is verified to `job`, and the salt and the hash of the
/// encoded hash to buffers of their lengths. The errors of `read` come first, then those of the
/// settings, and last those of the buffers. On an error `job` and both buffers are unchanged.
#[inline(never)]
pub fn make_stored(
    text: &[u8],
    pwd: &[u8],
    secret: &[u8],
    ad: &[u8],
    job: &mut CallerJob,
    salt: &mut [u8],
    hash: &mut [u8],
) -> Result<(), CallError>
    ensures { MakesStoredJob text.now pwd.now secret.entry ad.entry
        (record { job = job.old; items = record { salt = salt.old; hash = hash.old } })
        (record { job = job.new; items = record { salt = salt.new; hash = hash.new } }) result }
{
    let head = match head_of(text) {
        Ok(head) => head,
        Err(error) => return Err(error),
    };
    make_of_head(&head, pwd, secret, ad, job, salt, hash)
}

/// Writes the job that an encoded hash with this head is verified by, and its salt and its hash.
fn make_of_head(
    head: &Head<'_>,
    pwd: &[u8],
    secret: &[u8],
    ad: &[u8],
    job: &mut CallerJob,
    salt: &mut [u8],
    hash: &mut [u8],
) -> Result<(), CallError>
    requires salt_item { IsSomeItem head.now.salt.now }
    requires hash_item { IsSomeItem head.now.hash.now }
    ensures { (s h : List ℕ) → IsItem head.now.salt.now s
        → IsItem head.now.hash.now h → let d = spelled_with head.now s h in
        WritesStoredJob pwd.now d (decoded_config d secret.entry ad.entry)
        (record { job = job.old; items = record { salt = salt.old; hash = hash.old } })
        (record { job = job.new; items = record { salt = salt.new; hash = hash.new } }) result }
{
    if let Some(error) = refusal(head, pwd.len() as u64, secret, ad) {
        return Err(CallError::Library(error));
    }
    // Nothing is written before all is checked, so that an error changes nothing.
    match read_items(head, salt, hash) {
        Ok(()) => {}
        Err(error) => return Err(error),
    }
    let config = config_of_numbers(&head.numbers(), secret, ad);
    *job = CallerJob::of(&accepted_context(config, pwd, salt));
    Ok(())
}
