//! A C interface of `argon2`: what is proved for C. It allocates nothing, keeps no state and starts
//! no thread; the caller provides all memory that is written to.
//!
//! A call that can fail returns one number: 0, or that of the error. `include/proved_argon2.h` is
//! the header, and docs/C.md says how to build and link. In C a slice is a pointer and then a
//! length.
#![tactic(auto)]

ghost use Rattle.std.specs.Prelude.{◌≡◌, ℕ, List, [], length};
ghost use Rattle.std.specs.Borrow.{Bor};
ghost use Rattle.argon2_c.specs.Answers.{IsTextLength};
ghost use Rattle.argon2_c.specs.Checks.{Checks, ChecksText};
ghost use Rattle.argon2_c.specs.Settings.{limits_of, config_of};
ghost use Rattle.argon2_c.specs.CallerBlocks.{HashesOver, JudgesOver, memory_len_of};
ghost use Rattle.argon2_c.specs.Reading.{ComparesSettings, ReadsBytes, ReadsText, ReadsTextWithin};
ghost use Rattle.argon2_c.specs.ErrorTable.{IsCodeOf};

mod caller_blocks;
mod encoded_hash;
mod encoding;
mod ending;
mod errors;
mod job_calls;
mod jobs;
mod limits;
mod prefetching;
mod reading;
mod recommended;
mod settings;
mod steps;

use argon2::parts::block::Block;
use ending::cleared;
pub use job_calls::{
    any_order_of_steps, proved_argon2_encode, proved_argon2_job_begin, proved_argon2_job_check,
    proved_argon2_job_fill, proved_argon2_job_finish, proved_argon2_job_hash_over,
    proved_argon2_job_make, proved_argon2_job_read, proved_argon2_job_verify,
    proved_argon2_job_verify_over,
};
pub use jobs::CallerJob;
pub use limits::{Limits, proved_argon2_default_limits};
pub use reading::Stored;
// presets, by .ci/pages/presets
pub use recommended::{
    proved_argon2_owasp1, proved_argon2_owasp2, proved_argon2_owasp3, proved_argon2_owasp4,
    proved_argon2_owasp5, proved_argon2_rfc9106, proved_argon2_rfc9106_low_mem,
};
// end
use errors::{code_of, code_of_verdict};
pub use settings::Settings;

/// Writes the tag of a password (RFC 9106, 3.2) to `out`, which has `settings.hash_length` bytes,
/// computed over `blocks`. There are exactly as many blocks as the settings require, and their
/// contents do not matter. On an error `blocks` and `out` are unchanged.
#[unsafe(no_mangle)]
pub extern "C" fn proved_argon2_hash_over(
    pwd: &[u8],
    salt: &[u8],
    secret: &[u8],
    ad: &[u8],
    settings: &Settings,
    blocks: &mut [Block],
    out: &mut [u8],
) -> u32
    ensures { IsCodeOf (HashesOver (config_of settings.now secret.entry ad.entry) pwd.now salt.now
        (record { blocks = blocks.old; tag = out.old })
        (record { blocks = blocks.new; tag = out.new })) result }
{
    cleared(code_of(&caller_blocks::hash(pwd, salt, secret, ad, settings, blocks, out)))
}

/// Returns 0 only where `hash` is the tag of a password, and 64 only where it is not;
/// `settings.hash_length` is ignored. In both cases the tag is then in `tag`, which is as long as
/// `hash`.
#[unsafe(no_mangle)]
pub extern "C" fn proved_argon2_verify_over(
    pwd: &[u8],
    salt: &[u8],
    secret: &[u8],
    ad: &[u8],
    settings: &Settings,
    blocks: &mut [Block],
    hash: &[u8],
    tag: &mut [u8],
) -> u32
    ensures { IsCodeOf (JudgesOver (config_of settings.now secret.entry ad.entry) pwd.now salt.now
        hash.now (record { blocks = blocks.old; tag = tag.old })
        (record { blocks = blocks.new; tag = tag.new })) result }
{
    cleared(code_of_verdict(&caller_blocks::verify(
        pwd, salt, secret, ad, settings, blocks, hash, tag,
    )))
}

/// Decodes an encoded hash to `stored`, and verifies nothing. On an error `stored` is unchanged.
#[unsafe(no_mangle)]
pub extern "C" fn proved_argon2_read(text: &[u8], stored: &mut Stored) -> u32
    ensures { IsCodeOf (ReadsText text.now stored.old stored.new) result }
{
    code_of(&reading::read(text, stored))
}

/// `proved_argon2_read` within limits. Returns 69 only where the encoded hash exceeds one of them.
#[unsafe(no_mangle)]
pub extern "C" fn proved_argon2_read_within(
    text: &[u8],
    limits: &Limits,
    stored: &mut Stored,
) -> u32
    ensures { IsCodeOf (ReadsTextWithin (limits_of limits.now) text.now stored.old stored.new)
        result }
{
    code_of(&reading::read_within(text, limits, stored))
}

/// Returns 0 only if a hash with these settings can be made from inputs of these lengths, given
/// enough memory. It checks only the numbers of the variant and the version, and then the settings
/// table: the limits on costs and lengths.
#[unsafe(no_mangle)]
pub extern "C" fn proved_argon2_check(
    settings: &Settings,
    pwd_len: u64,
    salt_len: u64,
    secret_len: u64,
    ad_len: u64,
) -> u32
    ensures { (secret ad : Bor (List ℕ)) → length secret.now ≡ secret_len → length ad.now ≡ ad_len
        → IsCodeOf (Checks (config_of settings.now secret ad) pwd_len salt_len) result }
{
    code_of(&settings.check(pwd_len, salt_len, secret_len, ad_len))
}

/// As `proved_argon2_read_within`, but also checks the settings with inputs of these lengths. On an
/// error `stored` is unchanged.
#[unsafe(no_mangle)]
pub extern "C" fn proved_argon2_check_encoded(
    text: &[u8],
    limits: &Limits,
    pwd_len: u64,
    secret_len: u64,
    ad_len: u64,
    stored: &mut Stored,
) -> u32
    ensures { IsCodeOf (ChecksText (limits_of limits.now) pwd_len secret_len ad_len text.now
        stored.old stored.new) result }
{
    code_of(&reading::check_encoded(text, limits, pwd_len, secret_len, ad_len, stored))
}

/// Writes the salt and the hash of an encoded hash to buffers of their lengths. On an error both
/// are unchanged.
#[unsafe(no_mangle)]
pub extern "C" fn proved_argon2_read_bytes(text: &[u8], salt: &mut [u8], hash: &mut [u8]) -> u32
    ensures { IsCodeOf (ReadsBytes text.now (record { salt = salt.old; hash = hash.old })
        (record { salt = salt.new; hash = hash.new })) result }
{
    code_of(&reading::read_bytes(text, salt, hash))
}

/// Returns 0 only where an encoded hash was made with these settings, whatever its salt is, and 68
/// only where it was made with others.
#[unsafe(no_mangle)]
pub extern "C" fn proved_argon2_needs_rehash(text: &[u8], settings: &Settings) -> u32
    ensures { (secret ad : Bor (List ℕ))
        → IsCodeOf (ComparesSettings (config_of settings.now secret ad) text.now) result }
{
    code_of(&reading::needs_rehash(text, settings))
}

/// The length of the encoded hash that `proved_argon2_encode` writes, without the zero behind it.
/// It is 0 if no variant or no version has the given number: no encoded hash is that short.
#[unsafe(no_mangle)]
pub extern "C" fn proved_argon2_encoded_len(settings: &Settings, salt_len: u32) -> u64
    ensures { (secret ad : Bor (List ℕ)) → IsTextLength
        (config_of settings.now secret ad) salt_len result }
{
    settings.encoded_len(salt_len)
}

/// How many bytes the blocks of these settings have, 1,024 each, or 0 if the settings are rejected
/// for all inputs. (`proved_argon2_check` also checks the inputs' lengths.)
#[unsafe(no_mangle)]
pub extern "C" fn proved_argon2_memory_len(settings: &Settings) -> u64
    ensures { (secret ad : Bor (List ℕ)) → secret.now ≡ [] → ad.now ≡ []
        → result ≡ memory_len_of (config_of settings.now secret ad) }
{
    settings.memory_len()
}

/// The version of the library as a number: 1,000,000 times the major one, 1,000 times the minor one
/// and the patch.
#[unsafe(no_mangle)]
pub extern "C" fn proved_argon2_library_version() -> u32
    ensures { result ≡ 1000000 }
{
    1_000_000
}
