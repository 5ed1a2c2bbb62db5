//! Verifying a password against a hash.

ghost use Rattle.std.specs.Prelude.{◌≡◌, ◌↔◌, IfErr, IfOk, IsTrue, None, OnErr, OnOk, Some, false, length};
ghost use Rattle.argon2_standard.specs.Standard.ThreadModes.{may_lack_workers};
ghost use Rattle.argon2_standard.specs.Standard.SettingsTable.{table_error};
ghost use Rattle.argon2_memory.specs.Views.Jobs.{setting_of_context};
ghost use Rattle.argon2_memory.specs.Standard.Kept.{HoldsFill, IsLeft};
ghost use Rattle.argon2.specs.Standard.Leaves.{LeavesMemory};
ghost use Rattle.argon2_standard.specs.Standard.Outcome.{IsVerdict};
ghost use Rattle.argon2.specs.Views.StoredHashes.{difference_of};

mod texts;

use crate::ending::release;
use argon2_blocks::blake2b::wipe;
use argon2_fill::fill::{tag, tag_sequential};
use argon2_memory::memory::Memory;
use argon2_standard::config::Config;
use argon2_standard::context::{Context, accepted_context, first_refusal};
use argon2_standard::result::Result;
use std::alloc::Global;
use std::marker::Sync;
use std::sync::Wait;
use std::thread::Threads;
pub use texts::{
    verify_encoded, verify_encoded_ext, verify_encoded_in, verify_encoded_in_sequential,
    verify_encoded_sequential,
};

/// The bits in which two hashes of one length differ, at any place. `|` gathers them, so no branch
/// depends on a single place.
fn difference(one: &[u8], other: &[u8]) -> u8
    requires { length one.now ≡ length other.now }
    ensures { result ≡ difference_of one.now other.now }
{
    let mut difference = 0;
    for at in 0..one.len() {
        difference |= one[at] ^ other[at];
    }
    difference
}

/// Whether two hashes of one length are equal. It goes on to the last byte, whereas `==` may stop
/// at the first difference.
// Not inlined, so that the machine code has one comparison, about which one statement is made.
#[inline(never)]
pub fn are_equal(one: &[u8], other: &[u8]) -> bool
    requires { length one.now ≡ length other.now }
    ensures { IsTrue result ↔ (one.now ≡ other.now) }
{
    difference(one, other) == 0
}

/// Whether a tag is this hash. It takes the tag and overwrites it, since a password can be checked
/// with it.
fn is_hash(mut tag: Vec<u8>, hash: &[u8]) -> bool
    requires { length tag.items ≡ length hash.now }
    ensures { IsTrue result ↔ (tag.items ≡ hash.now) }
{
    let verdict = are_equal(&tag, hash);
    wipe(&mut tag[..], 0);
    verdict
}

/// The context for hashes of this hash's length, whatever `config.hash_length` is. The length is
/// checked in 64 bits: if it were cut to 32 bits, the length of too long a hash could pass.
#[tactic(auto, unfolding(argon2_standard::specs::Standard::SettingsTable::table_error))]
pub fn context_of_hash<'a>(
    config: Config<'a>,
    pwd: &'a [u8],
    salt: &'a [u8],
    hash: &[u8],
) -> Result<Context<'a>>
    ensures accepted { IfOk result (λ c. table_error config.entry (length pwd.entry.now)
        (length salt.entry.now) (length hash.now) ≡ None) }
    ensures config { IfOk result (λ c. c.config
        ≡ record config.entry { hash_length = length hash.now }) }
    ensures inputs { IfOk result (λ c. (c.pwd.now ≡ pwd.entry.now)
        × (c.salt.now ≡ salt.entry.now)) }
    ensures refused { IfErr result (λ e. table_error config.entry (length pwd.entry.now)
        (length salt.entry.now) (length hash.now) ≡ Some e) }
{
    let hash_len = hash.len() as u64;
    match first_refusal(&config, pwd.len() as u64, salt.len() as u64, hash_len) {
        None => {
            // This cuts nothing, since a longer hash was rejected.
            let hash_length = hash_len as u32;
            let config = Config {
                hash_length,
                ..config
            };
            Ok(accepted_context(config, pwd, salt))
        }
        Some(refusal) => Err(refusal),
    }
}

/// Whether a hash is the tag of an accepted call with the hash's length. The tag is computed in a
/// buffer, in the thread mode of the configuration.
fn is_tag<R: Threads + Wait + Sync>(
    rt: &R,
    alloc: Global,
    memory: &mut Memory,
    context: &Context<'_>,
    hash: &[u8],
) -> Result<bool>
    requires length { length hash.now ≡ context.now.config.hash_length }
    ensures answer { let c = context.now in
        IsVerdict c.pwd.now c.salt.now hash.now c.config (may_lack_workers c.config) result }
    ensures filled { OnOk result (HoldsFill (setting_of_context context.now) memory.new) }
    ensures left { OnErr result (IsLeft (may_lack_workers context.now.config) (setting_of_context context.now)
        memory.old memory.new) }
{
    let tag = tag(rt, alloc, context, memory)?;
    Ok(is_hash(tag, hash))
}

/// Whether a hash is the tag of an accepted call with the hash's length. The tag is computed in a
/// buffer, in the caller's thread.
fn is_tag_sequential(
    alloc: Global,
    memory: &mut Memory,
    context: &Context<'_>,
    hash: &[u8],
) -> Result<bool>
    requires length { length hash.now ≡ context.now.config.hash_length }
    ensures answer { let c = context.now in
        IsVerdict c.pwd.now c.salt.now hash.now c.config false result }
    ensures filled { OnOk result (HoldsFill (setting_of_context context.now) memory.new) }
    ensures left { OnErr result (IsLeft false (setting_of_context context.now)
        memory.old memory.new) }
{
    let tag = tag_sequential(alloc, context, memory)?;
    Ok(is_hash(tag, hash))
}

/// Whether a hash is the password's tag of equal length.
///
/// The settings are checked with the length of the hash; `config.hash_length` is ignored. Invalid
/// settings return the first parameter error, in the order of the settings table, before any memory
/// is allocated: a hash of more than 2^32 - 1 bytes is `OutputTooLong`. Otherwise the call returns
/// whether the hash is the tag, or a resource error: `OutOfMemory`, or `WorkerRefused` if a worker
/// thread could not be started.
pub fn verify_raw<R: Threads + Wait + Sync>(
    rt: &R,
    alloc: Global,
    pwd: &[u8],
    salt: &[u8],
    hash: &[u8],
    config: &Config,
) -> Result<bool>
    ensures { IsVerdict pwd.now salt.now hash.now config.now (may_lack_workers config.now) result }
{
    let mut memory = Memory::empty(alloc);
    let verdict = verify_raw_in(rt, alloc, &mut memory, pwd, salt, hash, config);
    release(memory);
    verdict
}

/// Verifies as `verify_raw` does, in a reusable buffer of the caller: see `hash_raw_in`.
// Its stack frame holds H0. It is never inlined, so that a call that allocated its own buffer can
// overwrite that frame.
#[inline(never)]
pub fn verify_raw_in<'a, R: Threads + Wait + Sync>(
    rt: &R,
    alloc: Global,
    memory: &mut Memory,
    pwd: &'a [u8],
    salt: &'a [u8],
    hash: &[u8],
    config: &Config<'a>,
) -> Result<bool>
    ensures answer { IsVerdict pwd.now salt.now hash.now config.now (may_lack_workers config.now) result }
    ensures memory { LeavesMemory pwd.now salt.now config.now (length hash.now)
        (may_lack_workers config.now) memory.old memory.new result }
{
    match context_of_hash(*config, pwd, salt, hash) {
        Ok(context) => is_tag(rt, alloc, memory, &context, hash),
        Err(refusal) => Err(refusal),
    }
}

/// Verifies as `verify_raw` does: a single-threaded call, whatever the thread mode is.
pub fn verify_raw_sequential(
    alloc: Global,
    pwd: &[u8],
    salt: &[u8],
    hash: &[u8],
    config: &Config,
) -> Result<bool>
    ensures { IsVerdict pwd.now salt.now hash.now config.now false result }
{
    let mut memory = Memory::empty(alloc);
    let verdict = verify_raw_in_sequential(alloc, &mut memory, pwd, salt, hash, config);
    release(memory);
    verdict
}

/// Verifies as `verify_raw` does, by a single-threaded call in a reusable buffer of the caller: see
/// `hash_raw_in`.
// Its stack frame holds H0. It is never inlined, so that a call that allocated its own buffer can
// overwrite that frame.
#[inline(never)]
pub fn verify_raw_in_sequential<'a>(
    alloc: Global,
    memory: &mut Memory,
    pwd: &'a [u8],
    salt: &'a [u8],
    hash: &[u8],
    config: &Config<'a>,
) -> Result<bool>
    ensures answer { IsVerdict pwd.now salt.now hash.now config.now false result }
    ensures memory { LeavesMemory pwd.now salt.now config.now (length hash.now)
        false memory.old memory.new result }
{
    match context_of_hash(*config, pwd, salt, hash) {
        Ok(context) => is_tag_sequential(alloc, memory, &context, hash),
        Err(refusal) => Err(refusal),
    }
}
