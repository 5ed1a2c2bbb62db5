//! Whether an encoded hash was made with other settings.

ghost use Rattle.std.specs.Prelude.{◌≡◌, ◌↔◌, IsTrue, MatchResult};
ghost use Rattle.argon2_standard.specs.Standard.Grammar.{Spells, SpellsNothing};
ghost use Rattle.argon2_standard.specs.Standard.Decoded.{Agrees, Differs};
ghost use Rattle.argon2_standard.specs.Standard.Text.{Spelled};
ghost use Rattle.argon2_text.specs.Views.Texts.{numbers_of};

use argon2_standard::config::Config;
use argon2_standard::error::Error;
use argon2_standard::result::Result;
use argon2_text::encoding::decode_string;
use argon2_text::numbers::Numbers;
use std::alloc::Global;

/// Whether an encoded hash was made with another variant, version, memory cost, time cost, number
/// of lanes or length of the hash than the configuration has.
///
/// The salt, the secret, the associated data and the thread mode are ignored, and the settings
/// table is not applied. A string that decodes to no hash returns `DecodingFail`. If memory cannot
/// be allocated, the call returns `OutOfMemory`.
pub fn needs_rehash(alloc: Global, encoded: &str, config: &Config) -> Result<bool>
    ensures unspelled { SpellsNothing encoded.now → result ≡ Err Error.DecodingFail }
    ensures spelled { (d : Spelled) → Spells encoded.now d
        → MatchResult result (λ differs. IsTrue differs
        ↔ Differs d config.now) (λ e. e ≡ Error.OutOfMemory) }
{
    let stored = decode_string(alloc, encoded)?;
    Ok(!agrees(&stored.numbers(), config))
}

/// Whether all that `needs_rehash` compares is as in the configuration.
pub fn agrees(numbers: &Numbers, config: &Config) -> bool
    ensures { (d : Spelled) → numbers.now ≡ numbers_of d → IsTrue result ↔ Agrees d config.now }
{
    numbers.variant == config.variant
        && numbers.version == config.version
        && numbers.mem_cost == config.mem_cost
        && numbers.time_cost == config.time_cost
        && numbers.parallelism == config.lanes
        // The configuration's length is made wider, since the hash's need not fit 32 bits.
        && numbers.hash_len == config.hash_length as u64
}
