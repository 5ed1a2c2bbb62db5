//! Whole hashes in the caller's thread, over caller-provided blocks: all steps of a hash in one
//! call.

ghost use Rattle.std.specs.Prelude.{◌≡◌, ◌↔◌, IsTrue, length};
ghost use Rattle.argon2_standard.specs.Standard.Tag.{tag_of};
ghost use Rattle.argon2_standard.specs.Standard.Setting.{memory_blocks};
ghost use Rattle.argon2_c.specs.Answers.{judgement_of};
ghost use Rattle.argon2_c.specs.Jobs.{setting_of_job};
ghost use Rattle.argon2_c.specs.CallerBlocks.{HashesInto, HashesJob, HashesOver, JudgesInto, JudgesJob, JudgesOver, blocks_of};
ghost use Rattle.argon2_c.specs.Settings.{config_of};

use crate::errors::CallError;
use crate::jobs::CallerJob;
use crate::prefetching::Prefetches;
use crate::settings::Settings;
use argon2::parts::block::Block;
use argon2::parts::context::{Context, Job};
use argon2::parts::stored::{are_equal, context_of_hash};
use argon2_fill::caller_blocks::{hash_job_over, hash_over};

/// Writes the tag of a password to a buffer of `settings.hash_length` bytes. The numbers of variant
/// and version are checked first, then the settings table, then the number of blocks, and last the
/// length of the buffer.
#[inline(never)]
pub fn hash(
    pwd: &[u8],
    salt: &[u8],
    secret: &[u8],
    ad: &[u8],
    settings: &Settings,
    blocks: &mut [Block],
    out: &mut [u8],
) -> Result<(), CallError>
    ensures { HashesOver (config_of settings.now secret.entry ad.entry) pwd.now salt.now
        (record { blocks = blocks.old; tag = out.old })
        (record { blocks = blocks.new; tag = out.new }) result }
{
    let config = match settings.config(secret, ad) {
        Ok(config) => config,
        Err(error) => return Err(CallError::Library(error)),
    };
    let context = match Context::new(config, pwd, salt) {
        Ok(context) => context,
        Err(error) => return Err(CallError::Library(error)),
    };
    hash_context(&context, blocks, out)
}

/// Writes the tag of an accepted call.
fn hash_context(
    context: &Context<'_>,
    blocks: &mut [Block],
    out: &mut [u8],
) -> Result<(), CallError>
    ensures { let c = context.now in HashesInto (blocks_of c.config) c.config.hash_length
        (tag_of c.pwd.now c.salt.now c.config c.config.hash_length)
        (record { blocks = blocks.old; tag = out.old })
        (record { blocks = blocks.new; tag = out.new }) result }
{
    if blocks.len() != context.memory_blocks as usize {
        return Err(CallError::WrongBlocks);
    }
    if out.len() != context.config.hash_length as usize {
        return Err(CallError::WrongLength);
    }
    hash_over(&Prefetches::over(blocks.len()), context, blocks, out);
    Ok(())
}

/// Whether a hash is a password's tag. The settings are checked with the hash's length, not with
/// `settings.hash_length`. The tag is then in `tag`, which has the hash's length. The errors are
/// those of the function `hash`.
#[inline(never)]
pub fn verify(
    pwd: &[u8],
    salt: &[u8],
    secret: &[u8],
    ad: &[u8],
    settings: &Settings,
    blocks: &mut [Block],
    hash: &[u8],
    tag: &mut [u8],
) -> Result<bool, CallError>
    ensures { JudgesOver (config_of settings.now secret.entry ad.entry) pwd.now salt.now hash.now
        (record { blocks = blocks.old; tag = tag.old })
        (record { blocks = blocks.new; tag = tag.new }) (judgement_of result) }
{
    let config = match settings.config(secret, ad) {
        Ok(config) => config,
        Err(error) => return Err(CallError::Library(error)),
    };
    let context = match context_of_hash(config, pwd, salt, hash) {
        Ok(context) => context,
        Err(error) => return Err(CallError::Library(error)),
    };
    verify_context(&context, blocks, hash, tag)
}

/// Whether `hash` is the tag of an accepted call whose `hash_length` is the length of `hash`.
fn verify_context(
    context: &Context<'_>,
    blocks: &mut [Block],
    hash: &[u8],
    tag: &mut [u8],
) -> Result<bool, CallError>
    requires { length hash.now ≡ context.now.config.hash_length }
    ensures { let c = context.now in JudgesInto (blocks_of c.config) (length hash.now)
        (tag_of c.pwd.now c.salt.now c.config (length hash.now)) hash.now
        (record { blocks = blocks.old; tag = tag.old })
        (record { blocks = blocks.new; tag = tag.new }) (judgement_of result) }
{
    match hash_context(context, blocks, tag) {
        Ok(()) => Ok(are_equal(hash, tag)),
        Err(error) => Err(error),
    }
}

/// Writes the tag of a job to a buffer of its length.
#[inline(never)]
pub fn hash_job(numbers: &CallerJob, blocks: &mut [Block], out: &mut [u8]) -> Result<(), CallError>
    ensures { HashesJob (setting_of_job numbers.now) numbers.now.hash_length
        (record { blocks = blocks.old; tag = out.old })
        (record { blocks = blocks.new; tag = out.new }) result }
{
    let job = match numbers.job() {
        Ok(job) => job,
        Err(error) => return Err(error),
    };
    if !is_memory(&job, blocks) {
        return Err(CallError::WrongBlocks);
    }
    if out.len() != numbers.hash_length as usize {
        return Err(CallError::WrongLength);
    }
    hash_job_over(&Prefetches::over(blocks.len()), &job, blocks, out);
    Ok(())
}

/// Whether a hash is the tag of a job. A buffer of its length then holds the tag.
#[inline(never)]
pub fn verify_job(
    numbers: &CallerJob,
    blocks: &mut [Block],
    hash: &[u8],
    tag: &mut [u8],
) -> Result<bool, CallError>
    ensures { JudgesJob (setting_of_job numbers.now) numbers.now.hash_length hash.now
        (record { blocks = blocks.old; tag = tag.old })
        (record { blocks = blocks.new; tag = tag.new }) (judgement_of result) }
{
    let job = match numbers.job() {
        Ok(job) => job,
        Err(error) => return Err(error),
    };
    if !is_memory(&job, blocks) {
        return Err(CallError::WrongBlocks);
    }
    let length = numbers.hash_length as usize;
    if hash.len() != length || tag.len() != length {
        return Err(CallError::WrongLength);
    }
    hash_job_over(&Prefetches::over(blocks.len()), &job, blocks, tag);
    Ok(are_equal(hash, tag))
}

/// Whether there are exactly as many blocks as the job has.
fn is_memory(job: &Job, blocks: &[Block]) -> bool
    ensures { IsTrue result ↔ (length blocks.now ≡ memory_blocks job.now.setting) }
{
    blocks.len() == job.memory_blocks() as usize
}
