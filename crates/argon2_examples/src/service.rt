//! What a login service does with passwords: it verifies them, also with a pepper, and derives keys.

ghost use Rattle.std.specs.Prelude.{◌≡◌, ◌↔◌, ℕ, List, [], IfOk, IsTrue, MatchOption, length, nat_lt};
ghost use Rattle.std.specs.Borrow.{Bor};
ghost use Rattle.std.specs.String.{string_bytes};
ghost use Rattle.argon2_standard.specs.Standard.Grammar.{Spells, SpellsNothing};
ghost use Rattle.argon2_standard.specs.Standard.Decoded.{Differs, decoded_config};
ghost use Rattle.argon2_standard.specs.Standard.Text.{Spelled};
ghost use Rattle.argon2_standard.specs.Standard.Outcome.{IsVerdict};
ghost use Rattle.argon2_standard.specs.Standard.Tag.{tag_of};
ghost use Rattle.argon2.specs.Standard.Limits.{AnswersWithin, is_too_costly};
ghost use Rattle.argon2.specs.Views.Limits.{default_limits};
ghost use Rattle.argon2.specs.declared.limits.Unverified.TheVariants.{Refused};
ghost use Rattle.argon2_examples.specs.Service.{IsTextOf};

use argon2::{
    Config, Error, Limits, Unverified, hash_encoded, hash_raw_sequential, needs_rehash,
    verify_encoded_ext, verify_encoded_within, verify_raw_sequential,
};
use std::alloc::Global;
use std::marker::Sync;
use std::random::RandomSource;
use std::sync::Wait;
use std::thread::Threads;

/// The encoded hash of a password, to be stored, with 16 random bytes of salt. No clause says that
/// they are random: a body with a fixed salt would be proved too.
pub fn register<R: RandomSource + Threads + Wait + Sync>(
    rt: &R,
    alloc: Global,
    password: &[u8],
    today: &Config,
) -> anyhow::Result<String>
    ensures { IfOk result (λ text. IsTextOf password.now today.now (string_bytes text)) }
{
    let mut salt = [0; 16];
    rt.fill_bytes(&mut salt)?;
    Ok(hash_encoded(rt, alloc, password, &salt, today)?)
}

/// Whether a password matches the stored hash, which may cost no more than `Limits::default()`.
pub fn log_in<R: Threads + Wait + Sync>(
    rt: &R,
    alloc: Global,
    kept: &str,
    password: &[u8],
) -> Result<bool, Unverified>
    ensures unspelled { SpellsNothing kept.now → result ≡ Err (Refused Error.DecodingFail) }
    ensures spelled { (d : Spelled) (none : Bor (List ℕ)) → none.now ≡ []
        → Spells kept.now d
        → AnswersWithin (is_too_costly default_limits d)
        (IsVerdict password.now d.salt d.hash (decoded_config d none none)
        (nat_lt 1 d.parallelism)) result }
{
    let limits = Limits::default();
    verify_encoded_within(rt, alloc, kept, password, &[], &[], &limits)
}

/// The encoded hash to store from then on, if the stored one was made with other settings than
/// today's.
pub fn renew<R: RandomSource + Threads + Wait + Sync>(
    rt: &R,
    alloc: Global,
    kept: &str,
    password: &[u8],
    today: &Config,
) -> anyhow::Result<Option<String>>
    ensures { (d : Spelled) → Spells kept.now d → IfOk result (λ renewed. MatchOption renewed
        (Differs d today.now → ⊥) (λ text. Differs d today.now
        × IsTextOf password.now today.now (string_bytes text))) }
{
    if !needs_rehash(alloc, kept, today)? {
        return Ok(None);
    }
    Ok(Some(register(rt, alloc, password, today)?))
}

/// Whether the password matches the encoded hash that was made with this pepper and for this user.
pub fn log_in_with_pepper<R: Threads + Wait + Sync>(
    rt: &R,
    alloc: Global,
    kept: &str,
    password: &[u8],
    pepper: &[u8],
    user: &[u8],
) -> argon2::Result<bool>
    ensures unspelled { SpellsNothing kept.now → result ≡ Err Error.DecodingFail }
    ensures spelled { (d : Spelled) → Spells kept.now d → IsVerdict password.now d.salt d.hash
        (decoded_config d pepper.entry user.entry) (nat_lt 1 d.parallelism) result }
{
    verify_encoded_ext(rt, alloc, kept, password, pepper, user)
}

/// The key of a password: the one tag that the definitions give, or an error, and never another key.
pub fn derive(
    alloc: Global,
    password: &[u8],
    salt: &[u8],
    config: &Config,
) -> argon2::Result<Vec<u8>>
    ensures { IfOk result (λ key. key.items
        ≡ tag_of password.now salt.now config.now config.now.hash_length) }
{
    hash_raw_sequential(alloc, password, salt, config)
}

/// Whether a key is the password's: `Ok(true)` exactly where the key is the tag, computed with the
/// length of that key.
pub fn is_key_of(
    alloc: Global,
    password: &[u8],
    salt: &[u8],
    key: &[u8],
    config: &Config,
) -> argon2::Result<bool>
    ensures { IfOk result (λ same. IsTrue same
        ↔ (key.now ≡ tag_of password.now salt.now config.now (length key.now))) }
{
    verify_raw_sequential(alloc, password, salt, key, config)
}
