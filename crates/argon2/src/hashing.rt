//! Hashing a password, to its tag or to its encoded hash.

ghost use Rattle.std.specs.Prelude.{◌≡◌, false};
ghost use Rattle.std.specs.String.{string_bytes};
ghost use Rattle.argon2_standard.specs.Standard.ThreadModes.{may_lack_workers};
ghost use Rattle.argon2_standard.specs.Standard.Text.{spelled_of, text_of};
ghost use Rattle.argon2_standard.specs.Standard.Outcome.{IsHash};
ghost use Rattle.argon2.specs.Standard.Leaves.{LeavesMemory};

use crate::ending::release;
use argon2_fill::fill::{tag, tag_sequential};
use argon2_memory::memory::Memory;
use argon2_standard::config::Config;
use argon2_standard::context::Context;
use argon2_standard::result::Result;
use argon2_text::encoding::encode_string;
use std::alloc::Global;
use std::marker::Sync;
use std::sync::Wait;
use std::thread::Threads;

/// The tag of a password: `config.hash_length` bytes (RFC 9106, 3.2).
///
/// Invalid settings return the first parameter error, in the order of the settings table, before
/// any memory is allocated. Otherwise the call returns the tag or a resource error: `OutOfMemory`,
/// or `WorkerRefused` if a worker thread could not be started.
pub fn hash_raw<R: Threads + Wait + Sync>(
    rt: &R,
    alloc: Global,
    pwd: &[u8],
    salt: &[u8],
    config: &Config,
) -> Result<Vec<u8>>
    ensures { IsHash pwd.now salt.now config.now (may_lack_workers config.now)
        (λ tag expected. tag.items ≡ expected) result }
{
    let mut memory = Memory::empty(alloc);
    let answer = hash_raw_in(rt, alloc, &mut memory, pwd, salt, config);
    release(memory);
    answer
}

/// The tag of a password, as `hash_raw` returns it, computed in a reusable buffer of the caller. A
/// buffer with the call's lanes and lane length is used as it is, whatever its contents, and no
/// blocks are allocated. Any other buffer is freed first and allocated anew.
///
/// On a parameter error the buffer is unchanged. Otherwise it holds the blocks of this computation
/// until it is wiped or dropped. After a resource error it may have no lanes, but a buffer that
/// fitted the call loses its blocks only if workers filled it.
// Its stack frame holds H0. It is never inlined, so that a call that allocated its own buffer can
// overwrite that frame.
#[inline(never)]
pub fn hash_raw_in<'a, R: Threads + Wait + Sync>(
    rt: &R,
    alloc: Global,
    memory: &mut Memory,
    pwd: &'a [u8],
    salt: &'a [u8],
    config: &Config<'a>,
) -> Result<Vec<u8>>
    ensures answer { IsHash pwd.now salt.now config.now (may_lack_workers config.now)
        (λ tag expected. tag.items ≡ expected) result }
    ensures memory { LeavesMemory pwd.now salt.now config.now config.now.hash_length
        (may_lack_workers config.now) memory.old memory.new result }
{
    match Context::new(*config, pwd, salt) {
        Ok(context) => tag(rt, alloc, &context, memory),
        Err(refusal) => Err(refusal),
    }
}

/// The tag of a password, as `hash_raw` returns it: a single-threaded call, whatever the thread
/// mode is.
pub fn hash_raw_sequential(
    alloc: Global,
    pwd: &[u8],
    salt: &[u8],
    config: &Config,
) -> Result<Vec<u8>>
    ensures { IsHash pwd.now salt.now config.now false
        (λ tag expected. tag.items ≡ expected) result }
{
    let mut memory = Memory::empty(alloc);
    let answer = hash_raw_in_sequential(alloc, &mut memory, pwd, salt, config);
    release(memory);
    answer
}

/// The tag of a password, computed by a single-threaded call in a reusable buffer of the caller:
/// see `hash_raw_in`.
// Its stack frame holds H0. It is never inlined, so that a call that allocated its own buffer can
// overwrite that frame.
#[inline(never)]
pub fn hash_raw_in_sequential<'a>(
    alloc: Global,
    memory: &mut Memory,
    pwd: &'a [u8],
    salt: &'a [u8],
    config: &Config<'a>,
) -> Result<Vec<u8>>
    ensures answer { IsHash pwd.now salt.now config.now false
        (λ tag expected. tag.items ≡ expected) result }
    ensures memory { LeavesMemory pwd.now salt.now config.now config.now.hash_length
        false memory.old memory.new result }
{
    match Context::new(*config, pwd, salt) {
        Ok(context) => tag_sequential(alloc, &context, memory),
        Err(refusal) => Err(refusal),
    }
}

/// The encoded hash (PHC string) of a password, as `encode_string` writes it. Its errors are those
/// of `hash_raw`.
pub fn hash_encoded<R: Threads + Wait + Sync>(
    rt: &R,
    alloc: Global,
    pwd: &[u8],
    salt: &[u8],
    config: &Config,
) -> Result<String>
    ensures { IsHash pwd.now salt.now config.now (may_lack_workers config.now)
        (λ text tag. string_bytes text ≡ text_of (spelled_of config.now salt.now tag)) result }
{
    let mut memory = Memory::empty(alloc);
    let answer = hash_encoded_in(rt, alloc, &mut memory, pwd, salt, config);
    release(memory);
    answer
}

/// The encoded hash of a password, computed in a reusable buffer of the caller: see `hash_raw_in`.
// Its stack frame holds H0. It is never inlined, so that a call that allocated its own buffer can
// overwrite that frame.
#[inline(never)]
pub fn hash_encoded_in<'a, R: Threads + Wait + Sync>(
    rt: &R,
    alloc: Global,
    memory: &mut Memory,
    pwd: &'a [u8],
    salt: &'a [u8],
    config: &Config<'a>,
) -> Result<String>
    ensures answer { IsHash pwd.now salt.now config.now (may_lack_workers config.now)
        (λ text tag. string_bytes text ≡ text_of (spelled_of config.now salt.now tag)) result }
    ensures memory { LeavesMemory pwd.now salt.now config.now config.now.hash_length
        (may_lack_workers config.now) memory.old memory.new result }
{
    match Context::new(*config, pwd, salt) {
        Ok(context) => {
            let hash = tag(rt, alloc, &context, memory)?;
            // Unlike `is_hash`, it overwrites no tag, since the encoded hash contains it.
            encode_string(alloc, &context, &hash)
        }
        Err(refusal) => Err(refusal),
    }
}

/// The encoded hash of a password, as `hash_encoded` returns it: a single-threaded call, whatever
/// the thread mode is.
pub fn hash_encoded_sequential(
    alloc: Global,
    pwd: &[u8],
    salt: &[u8],
    config: &Config,
) -> Result<String>
    ensures { IsHash pwd.now salt.now config.now false
        (λ text tag. string_bytes text ≡ text_of (spelled_of config.now salt.now tag)) result }
{
    let mut memory = Memory::empty(alloc);
    let answer = hash_encoded_in_sequential(alloc, &mut memory, pwd, salt, config);
    release(memory);
    answer
}

/// The encoded hash of a password, computed by a single-threaded call in a reusable buffer of the
/// caller: see `hash_raw_in`.
// Its stack frame holds H0. It is never inlined, so that a call that allocated its own buffer can
// overwrite that frame.
#[inline(never)]
pub fn hash_encoded_in_sequential<'a>(
    alloc: Global,
    memory: &mut Memory,
    pwd: &'a [u8],
    salt: &'a [u8],
    config: &Config<'a>,
) -> Result<String>
    ensures answer { IsHash pwd.now salt.now config.now false
        (λ text tag. string_bytes text ≡ text_of (spelled_of config.now salt.now tag)) result }
    ensures memory { LeavesMemory pwd.now salt.now config.now config.now.hash_length
        false memory.old memory.new result }
{
    match Context::new(*config, pwd, salt) {
        Ok(context) => {
            let hash = tag_sequential(alloc, &context, memory)?;
            encode_string(alloc, &context, &hash)
        }
        Err(refusal) => Err(refusal),
    }
}
