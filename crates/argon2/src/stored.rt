//! What an encoded hash decodes to, and the settings that it is verified with.

ghost use Rattle.std.specs.Prelude.{◌≡◌, ℕ, List, IfOk, IsNone, false, length};
ghost use Rattle.argon2_standard.specs.Standard.Outcome.{IsOutcome};
ghost use Rattle.argon2_standard.specs.Standard.SettingsTable.{table_error};
ghost use Rattle.argon2_standard.specs.declared.config.Config.{Config};
ghost use Rattle.argon2_standard.specs.Standard.Grammar.{IsItem, Spells, SpellsNothing};
ghost use Rattle.argon2_standard.specs.Standard.Text.{Spelled};
ghost use Rattle.argon2_text.specs.Views.Texts.{IsSpelledBy, IsSpellingOf, numbers_of, spelled_by, spelled_with};
ghost use Rattle.argon2.specs.Views.StoredHashes.{IsAccepted, IsAccepting, IsConfigOf, IsStoredConfig};

use argon2_blocks::common::MAX_HASH_LENGTH;
use argon2_standard::config::Config;
use argon2_standard::context::{Context, accepted_context, first_refusal};
use argon2_standard::error::Error;
use argon2_standard::result::Result;
use argon2_standard::thread_mode::ThreadMode;
use argon2_text::decoded::Decoded;
use argon2_text::encoding::{Head, decode, spelling_of};
use argon2_text::numbers::Numbers;
use std::alloc::Global;

/// The most workers that verify one encoded hash, however many lanes it names, since a stranger's
/// hash could name millions.
const MAX_WORKERS: u32 = 16;

/// What an encoded hash decodes to, with the lengths of salt and hash in place of their bytes. It
/// allocates nothing. A string that decodes to no hash returns `DecodingFail`.
pub fn numbers_of_text(encoded: &str) -> Result<Numbers>
    ensures unspelled { SpellsNothing encoded.now → result ≡ Err Error.DecodingFail }
    ensures spelled { (d : Spelled) → Spells encoded.now d → result ≡ Ok (numbers_of d) }
{
    match spelling_of(encoded.as_bytes()) {
        Some(head) => Ok(head.numbers()),
        None => Err(Error::DecodingFail),
    }
}

/// The head of an encoded hash, if its settings are accepted for a password of this length. It
/// allocates nothing.
pub fn accepted_spelling<'a>(
    encoded: &'a str,
    pwd_len: u64,
    secret: &[u8],
    ad: &[u8],
) -> Result<Head<'a>>
    ensures unspelled { SpellsNothing encoded.now → result ≡ Err Error.DecodingFail }
    ensures spelled { (d : Spelled) (config : Config) → Spells encoded.now d
        → IsStoredConfig d secret.now ad.now config
        → IsAccepting (table_error config pwd_len (length d.salt) (length d.hash))
        (λ head. IsSpelledBy encoded.now head d.salt d.hash) result }
    ensures spelling { IfOk result (IsSpellingOf encoded.now) }
    ensures accepted { IfOk result (λ head. (salt hash : List ℕ) → IsItem head.salt.now salt
        → IsItem head.hash.now hash
        → IsAccepted (spelled_with head salt hash) pwd_len secret.now ad.now) }
{
    let Some(head) = spelling_of(encoded.as_bytes()) else {
        return Err(Error::DecodingFail);
    };
    match refusal(&head, pwd_len, secret, ad) {
        None => Ok(head),
        Some(refusal) => Err(refusal),
    }
}

/// What an encoded hash decodes to, if its settings are accepted for a password of this length.
/// They are checked before salt and hash are decoded, so that a rejected hash costs no memory.
pub fn accepted_text(
    alloc: Global,
    encoded: &str,
    pwd_len: u64,
    secret: &[u8],
    ad: &[u8],
) -> Result<Decoded>
    ensures unspelled { SpellsNothing encoded.now → result ≡ Err Error.DecodingFail }
    ensures spelled { (d : Spelled) (config : Config) → Spells encoded.now d
        → IsStoredConfig d secret.now ad.now config
        → IsOutcome (table_error config pwd_len (length d.salt) (length d.hash)) false
        (λ stored. spelled_by stored ≡ d) result }
    ensures accepted { IfOk result (λ stored. IsAccepted
        (spelled_by stored) pwd_len secret.now ad.now) }
{
    let head = accepted_spelling(encoded, pwd_len, secret, ad)?;
    decode(alloc, &head)
}

/// The first parameter error of an encoded hash with this head. It allocates nothing.
pub fn refusal(head: &Head<'_>, pwd_len: u64, secret: &[u8], ad: &[u8]) -> Option<Error>
    ensures { (config : Config) (salt hash : List ℕ) → IsItem head.now.salt.now salt
        → IsItem head.now.hash.now hash
        → IsStoredConfig (spelled_with head.now salt hash) secret.now ad.now config
        → result ≡ table_error config pwd_len (length salt) (length hash) }
{
    let numbers = head.numbers();
    let config = config_of_numbers(&numbers, secret, ad);
    // The length of the hash is checked apart, in 64 bits.
    first_refusal(&config, pwd_len, numbers.salt_len, numbers.hash_len)
}

/// The configuration that an encoded hash is verified with.
pub fn config_of<'a>(stored: &Decoded, secret: &'a [u8], ad: &'a [u8]) -> Config<'a>
    ensures { IsConfigOf (spelled_by stored.now) secret.entry.now ad.entry.now result }
{
    config_of_numbers(&stored.numbers(), secret, ad)
}

/// The configuration that an encoded hash of these numbers is verified with.
pub fn config_of_numbers<'a>(numbers: &Numbers, secret: &'a [u8], ad: &'a [u8]) -> Config<'a>
    ensures { (d : Spelled) → numbers.now ≡ numbers_of d
        → IsConfigOf d secret.entry.now ad.entry.now result }
{
    // No accepted hash is longer than MAX_HASH_LENGTH. A rejected one may be, and the cast would
    // cut its length.
    let hash_length = if numbers.hash_len < MAX_HASH_LENGTH as u64 {
        numbers.hash_len as u32
    } else {
        MAX_HASH_LENGTH
    };
    let thread_mode = if numbers.parallelism > 1 {
        ThreadMode::AtMost(MAX_WORKERS)
    } else {
        ThreadMode::Sequential
    };
    Config {
        ad,
        hash_length,
        lanes: numbers.parallelism,
        mem_cost: numbers.mem_cost,
        secret,
        thread_mode,
        time_cost: numbers.time_cost,
        variant: numbers.variant,
        version: numbers.version,
    }
}

/// The context that an accepted hash is verified with, by its own configuration.
pub fn stored_context<'a>(stored: &'a Decoded, config: &'a Config<'a>, pwd: &'a [u8]) -> Context<'a>
    requires { IsNone (table_error config.now (length pwd.now)
        (length stored.now.salt.items) config.now.hash_length) }
    ensures config { result.config ≡ config.entry.now }
    ensures pwd { result.pwd.now ≡ pwd.entry.now }
    ensures salt { result.salt.now ≡ stored.entry.now.salt.items }
{
    accepted_context(*config, pwd, &stored.salt)
}
