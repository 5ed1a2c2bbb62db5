//! Verifying a password against an encoded hash.

ghost use Rattle.std.specs.Prelude.{◌≡◌, ◌⊎◌, ℕ, List, [], IsErr, false, length, nat_lt};
ghost use Rattle.std.specs.Borrow.{Bor};
ghost use Rattle.argon2_standard.specs.Standard.Grammar.{Spells, SpellsNothing};
ghost use Rattle.argon2_standard.specs.Standard.Text.{Spelled};
ghost use Rattle.argon2.specs.Standard.Leaves.{LeavesMemory};
ghost use Rattle.argon2_standard.specs.Standard.Decoded.{decoded_config};
ghost use Rattle.argon2_standard.specs.Standard.Outcome.{IsVerdict};

use crate::ending::release;
use crate::stored::{accepted_text, config_of, stored_context};
use crate::verifying::{is_tag, is_tag_sequential};
use argon2_memory::memory::Memory;
use argon2_standard::error::Error;
use argon2_standard::result::Result;
use std::alloc::Global;
use std::marker::Sync;
use std::sync::Wait;
use std::thread::Threads;

/// Verifies a password against an encoded hash, with no secret and no associated data. It returns
/// what `verify_encoded_ext` does. Memory and time are what the hash names: use
/// `verify_encoded_within` for a hash that others may have written.
#[tactic(auto, using(crate::proofs::StoredHashes::verdict_without))]
pub fn verify_encoded<R: Threads + Wait + Sync>(
    rt: &R,
    alloc: Global,
    encoded: &str,
    pwd: &[u8],
) -> Result<bool>
    ensures unspelled { SpellsNothing encoded.now → result ≡ Err Error.DecodingFail }
    ensures spelled { (d : Spelled) (none : Bor (List ℕ)) → none.now ≡ []
        → Spells encoded.now d → IsVerdict pwd.now d.salt d.hash (decoded_config d none none)
        (nat_lt 1 d.parallelism) result }
{
    verify_encoded_ext(rt, alloc, encoded, pwd, &[], &[])
}

/// Verifies a password against an encoded hash, with this secret and this associated data.
///
/// A string that decodes to no hash returns `DecodingFail`. Invalid settings, or a tag of an
/// invalid length, return the first parameter error, before any memory is allocated or any worker
/// started. Otherwise the call returns whether the hash is that of the password, or `OutOfMemory`.
/// A hash of more than one lane is verified by at most 16 workers; if one could not be started, the
/// call returns `WorkerRefused`.
pub fn verify_encoded_ext<R: Threads + Wait + Sync>(
    rt: &R,
    alloc: Global,
    encoded: &str,
    pwd: &[u8],
    secret: &[u8],
    ad: &[u8],
) -> Result<bool>
    ensures unspelled { SpellsNothing encoded.now → result ≡ Err Error.DecodingFail }
    ensures spelled { (d : Spelled) → Spells encoded.now d → IsVerdict pwd.now d.salt d.hash
        (decoded_config d secret.entry ad.entry) (nat_lt 1 d.parallelism) result }
{
    let mut memory = Memory::empty(alloc);
    let verdict = verify_encoded_in(rt, alloc, &mut memory, encoded, pwd, secret, ad);
    release(memory);
    verdict
}

/// Verifies as `verify_encoded_ext` does, in a reusable buffer of the caller: see `hash_raw_in`.
// Its stack frame holds H0. It is never inlined, so that a call that allocated its own buffer can
// overwrite that frame.
#[inline(never)]
pub fn verify_encoded_in<R: Threads + Wait + Sync>(
    rt: &R,
    alloc: Global,
    memory: &mut Memory,
    encoded: &str,
    pwd: &[u8],
    secret: &[u8],
    ad: &[u8],
) -> Result<bool>
    ensures unspelled { SpellsNothing encoded.now → result ≡ Err Error.DecodingFail }
    ensures spelled { (d : Spelled) → Spells encoded.now d → IsVerdict pwd.now d.salt d.hash
        (decoded_config d secret.entry ad.entry) (nat_lt 1 d.parallelism) result }
    ensures untouched { SpellsNothing encoded.now → memory.new ≡ memory.old }
    ensures memory { (d : Spelled) → Spells encoded.now d
        → (IsErr result × (memory.new ≡ memory.old)) ⊎ LeavesMemory pwd.now d.salt
        (decoded_config d secret.entry ad.entry) (length d.hash) (nat_lt 1 d.parallelism)
        memory.old memory.new result }
{
    let stored = accepted_text(alloc, encoded, pwd.len() as u64, secret, ad)?;
    let config = config_of(&stored, secret, ad);
    let context = stored_context(&stored, &config, pwd);
    is_tag(rt, alloc, memory, &context, &stored.hash)
}

/// Verifies as `verify_encoded_ext` does: a single-threaded call.
pub fn verify_encoded_sequential(
    alloc: Global,
    encoded: &str,
    pwd: &[u8],
    secret: &[u8],
    ad: &[u8],
) -> Result<bool>
    ensures unspelled { SpellsNothing encoded.now → result ≡ Err Error.DecodingFail }
    ensures spelled { (d : Spelled) → Spells encoded.now d → IsVerdict pwd.now d.salt d.hash
        (decoded_config d secret.entry ad.entry) false result }
{
    let mut memory = Memory::empty(alloc);
    let verdict = verify_encoded_in_sequential(alloc, &mut memory, encoded, pwd, secret, ad);
    release(memory);
    verdict
}

/// Verifies as `verify_encoded_ext` does, by a single-threaded call in a reusable buffer of the
/// caller: see `hash_raw_in`.
// Its stack frame holds H0. It is never inlined, so that a call that allocated its own buffer can
// overwrite that frame.
#[inline(never)]
pub fn verify_encoded_in_sequential(
    alloc: Global,
    memory: &mut Memory,
    encoded: &str,
    pwd: &[u8],
    secret: &[u8],
    ad: &[u8],
) -> Result<bool>
    ensures unspelled { SpellsNothing encoded.now → result ≡ Err Error.DecodingFail }
    ensures spelled { (d : Spelled) → Spells encoded.now d → IsVerdict pwd.now d.salt d.hash
        (decoded_config d secret.entry ad.entry) false result }
    ensures untouched { SpellsNothing encoded.now → memory.new ≡ memory.old }
    ensures memory { (d : Spelled) → Spells encoded.now d
        → (IsErr result × (memory.new ≡ memory.old)) ⊎ LeavesMemory pwd.now d.salt
        (decoded_config d secret.entry ad.entry) (length d.hash) false memory.old memory.new result }
{
    let stored = accepted_text(alloc, encoded, pwd.len() as u64, secret, ad)?;
    let config = config_of(&stored, secret, ad);
    let context = stored_context(&stored, &config, pwd);
    is_tag_sequential(alloc, memory, &context, &stored.hash)
}
