//! The calls with which C fills a caller-provided memory in steps, by as many threads as it likes.
//! An exported call itself may not start a thread.

ghost use Rattle.std.specs.Prelude.{◌≡◌, ℕ, List, []};
ghost use Rattle.std.specs.Borrow.{Bor};
ghost use Rattle.argon2_c.specs.Checks.{ChecksJob};
ghost use Rattle.argon2_c.specs.Jobs.{MakesJob, MakesStoredJob, WritesTagText, setting_of_job};
ghost use Rattle.argon2_c.specs.Steps.{Begins, FillsLanes, Finishes, Verifies};
ghost use Rattle.argon2_c.specs.CallerBlocks.{HashesJob, JudgesJob};
ghost use Rattle.argon2_c.specs.Driver.{EveryTeamGivesTheTag, EveryTeamGivesTheVerdict};
ghost use Rattle.argon2_c.specs.Driver.{NoThreadWorksAfterTheEnd, EveryJobCanBeFilled, EveryCallReturns};
ghost use Rattle.argon2_c.specs.ErrorTable.{IsCodeOf};
ghost use Rattle.argon2_c.specs.Runs.{EveryRunGivesTheTag, EveryRunGivesTheVerdict, OneCallGivesTheTag, OneCallGivesTheVerdict};
ghost use Rattle.argon2_c.specs.Settings.{config_of};

use crate::ending::cleared;
use crate::errors::{code_of, code_of_verdict};
use crate::jobs::CallerJob;
use crate::settings::Settings;
use crate::{caller_blocks, encoding, jobs, steps};
use argon2::parts::block::Block;

/// Checks the settings and writes the job of a password: H0 and the numbers of its blocks. On an
/// error `job` is unchanged.
#[unsafe(no_mangle)]
pub extern "C" fn proved_argon2_job_make(
    pwd: &[u8],
    salt: &[u8],
    secret: &[u8],
    ad: &[u8],
    settings: &Settings,
    job: &mut CallerJob,
) -> u32
    ensures { IsCodeOf (MakesJob (config_of settings.now secret.entry ad.entry) pwd.now salt.now
        job.old job.new) result }
{
    cleared(code_of(&jobs::make(pwd, salt, secret, ad, settings, job)))
}

/// Writes the job with which an encoded hash is verified to `job`, and the salt and the hash of the
/// encoded hash to buffers of their lengths. On an error `job` and both buffers are unchanged.
#[unsafe(no_mangle)]
pub extern "C" fn proved_argon2_job_read(
    text: &[u8],
    pwd: &[u8],
    secret: &[u8],
    ad: &[u8],
    job: &mut CallerJob,
    salt: &mut [u8],
    hash: &mut [u8],
) -> u32
    ensures { IsCodeOf (MakesStoredJob text.now pwd.now secret.entry ad.entry
        (record { job = job.old; items = record { salt = salt.old; hash = hash.old } })
        (record { job = job.new; items = record { salt = salt.new; hash = hash.new } })) result }
{
    cleared(code_of(&jobs::make_stored(text, pwd, secret, ad, job, salt, hash)))
}

/// Returns 0 only where an accepted call has a job of these numbers.
#[unsafe(no_mangle)]
pub extern "C" fn proved_argon2_job_check(job: &CallerJob) -> u32
    ensures { IsCodeOf (ChecksJob (setting_of_job job.now)) result }
{
    code_of(&job.check())
}

/// Writes a lane's first two blocks into its segment of slice 0, whatever its contents.
#[unsafe(no_mangle)]
pub extern "C" fn proved_argon2_job_begin(job: &CallerJob, lane: u32, own: &mut [Block]) -> u32
    ensures { IsCodeOf (Begins (setting_of_job job.now) lane own.old own.new) result }
{
    cleared(code_of(&steps::begin(job, lane, own)))
}

/// Fills a lane's segment of a slice in a pass, or the segments of a lane and of the next one, by
/// turns. `first`, `second` and `third` are the other three slices in rising order.
#[unsafe(no_mangle)]
pub extern "C" fn proved_argon2_job_fill(
    job: &CallerJob,
    pass: u32,
    slice: u32,
    lane: u32,
    first: &[Block],
    second: &[Block],
    third: &[Block],
    own: &mut [Block],
) -> u32
    ensures { IsCodeOf (FillsLanes (setting_of_job job.now) pass slice lane first.now second.now
        third.now own.old own.new) result }
{
    cleared(code_of(&steps::fill(job, pass, slice, lane, first, second, third, own)))
}

/// Writes the tag of a filled memory to `out`, which has the tag's length. `last` is slice 3 of
/// that memory.
#[unsafe(no_mangle)]
pub extern "C" fn proved_argon2_job_finish(job: &CallerJob, last: &[Block], out: &mut [u8]) -> u32
    ensures { IsCodeOf (Finishes (setting_of_job job.now) job.now.hash_length last.now out.old
        out.new) result }
{
    cleared(code_of(&steps::finish(job, last, out)))
}

/// Returns 0 only where a hash is the tag of a filled memory, and 64 only where it is not. In
/// both cases the tag is then in `tag`.
#[unsafe(no_mangle)]
pub extern "C" fn proved_argon2_job_verify(
    job: &CallerJob,
    last: &[Block],
    hash: &[u8],
    tag: &mut [u8],
) -> u32
    ensures { IsCodeOf (Verifies (setting_of_job job.now) job.now.hash_length last.now hash.now
        tag.old tag.new) result }
{
    cleared(code_of_verdict(&steps::verify(job, last, hash, tag)))
}

/// Takes all steps in one call, and writes the tag of a job to `out`, which has the tag's length.
/// There are exactly as many blocks as the job requires, and their contents do not matter. On an
/// error `blocks` and `out` are unchanged.
#[unsafe(no_mangle)]
pub extern "C" fn proved_argon2_job_hash_over(
    job: &CallerJob,
    blocks: &mut [Block],
    out: &mut [u8],
) -> u32
    ensures { IsCodeOf (HashesJob (setting_of_job job.now) job.now.hash_length
        (record { blocks = blocks.old; tag = out.old })
        (record { blocks = blocks.new; tag = out.new })) result }
{
    cleared(code_of(&caller_blocks::hash_job(job, blocks, out)))
}

/// Returns 0 only where a hash is the tag of a job, and 64 only where it is not. In both cases the
/// tag is then in `tag`.
#[unsafe(no_mangle)]
pub extern "C" fn proved_argon2_job_verify_over(
    job: &CallerJob,
    blocks: &mut [Block],
    hash: &[u8],
    tag: &mut [u8],
) -> u32
    ensures { IsCodeOf (JudgesJob (setting_of_job job.now) job.now.hash_length hash.now
        (record { blocks = blocks.old; tag = tag.old })
        (record { blocks = blocks.new; tag = tag.new })) result }
{
    cleared(code_of_verdict(&caller_blocks::verify_job(job, blocks, hash, tag)))
}

/// Writes the encoded hash of a given tag and then zeros to `text`, which has more bytes than the
/// encoded hash. On an error `text` is unchanged.
#[unsafe(no_mangle)]
pub extern "C" fn proved_argon2_encode(
    salt: &[u8],
    settings: &Settings,
    tag: &[u8],
    text: &mut [u8],
) -> u32
    ensures { (secret ad : Bor (List ℕ)) → secret.now ≡ [] → ad.now ≡ []
        → IsCodeOf (WritesTagText (config_of settings.now secret ad) salt.now tag.now text.old
        text.new) result }
{
    code_of(&encoding::encode(salt, settings, tag, text))
}

/// The theorems about the steps of a hash. It does nothing when it runs.
///
/// - Whatever the order of the lanes within each slice: if each step returned 0, `finish` writes
///   the tag, and `verify` says whether a hash is the tag. The calls that take all steps in one
///   order return the same.
/// - The same is true if threads of the driver's model take the steps (`team`, `team_verdict`).
///   Such threads can take all steps of each job and return (`team_fills`). Once a call is over,
///   no thread works (`team_end`). The threads never all wait, and a call ends unless a proved call
///   in it writes for ever (`team_returns`).
pub fn any_order_of_steps()
    ensures tag { EveryRunGivesTheTag }
    ensures verdict { EveryRunGivesTheVerdict }
    ensures one_call { OneCallGivesTheTag }
    ensures one_call_verdict { OneCallGivesTheVerdict }
    ensures team { EveryTeamGivesTheTag }
    ensures team_verdict { EveryTeamGivesTheVerdict }
    ensures team_end { NoThreadWorksAfterTheEnd }
    ensures team_fills { EveryJobCanBeFilled }
    ensures team_returns { EveryCallReturns }
{}
