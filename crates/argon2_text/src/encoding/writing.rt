//! Writing an encoded hash to a caller-provided buffer. Nothing here allocates.

ghost use Rattle.std.specs.Prelude.{◌≡◌, ◌+◌, ◌++◌, ◌≤◌, length, take};
ghost use Rattle.std.specs.Fmt.{decimal};
ghost use Rattle.argon2_standard.specs.Standard.Text.{spelled_of, text_of};
ghost use Rattle.argon2_standard.specs.Standard.Variant.{lowercase_name};
ghost use Rattle.argon2_standard.specs.Standard.Version.{version_text};
ghost use Rattle.argon2_text.specs.Views.Texts.{front_of};

use crate::encoding::placing::{put, put_number};
use crate::encoding::salt_and_hash::{put_hash, put_salt, put_salt_by_sums};
use argon2_standard::config::Config;
use argon2_standard::variant::Variant;
use argon2_standard::version::Version;

/// Writes the encoded hash that `encode_string` returns for these settings and this salt to a
/// buffer of exactly its length.
#[tactic(auto, using(crate::proofs::Writing::lengths))]
pub fn write_encoded(config: &Config<'_>, salt: &[u8], hash: &[u8], text: &mut [u8])
    requires { length text.old ≡ length (text_of (spelled_of config.now salt.now hash.now)) }
    ensures { text.new ≡ text_of (spelled_of config.now salt.now hash.now) }
{
    let at = put_front(text, config);
    let at = put_salt(text, at, salt);
    let at = put(text, at, b"$");
    put_hash(text, at, hash);
}

/// The same for C's calls, which encode the salt like the hash.
#[tactic(auto, using(crate::proofs::Writing::lengths))]
pub fn write_encoded_by_sums(config: &Config<'_>, salt: &[u8], hash: &[u8], text: &mut [u8])
    requires { length text.old ≡ length (text_of (spelled_of config.now salt.now hash.now)) }
    ensures { text.new ≡ text_of (spelled_of config.now salt.now hash.now) }
{
    let at = put_front(text, config);
    let at = put_salt_by_sums(text, at, salt);
    let at = put(text, at, b"$");
    put_hash(text, at, hash);
}

/// Puts all that comes before the salt at the front of a buffer. Returns where it ends.
fn put_front(text: &mut [u8], config: &Config<'_>) -> usize
    requires { let c = config.now in
        16 + length (lowercase_name c.variant) + length (decimal c.mem_cost)
        + length (decimal c.time_cost) + length (decimal c.lanes) ≤ length text.old }
    ensures end { let c = config.now in
        result ≡ 16 + length (lowercase_name c.variant) + length (decimal c.mem_cost)
        + length (decimal c.time_cost) + length (decimal c.lanes) }
    ensures front { take result text.new ≡ front_of config.now }
    ensures len { length text.new ≡ length text.old }
{
    let Config {
        variant,
        version,
        mem_cost,
        time_cost,
        lanes,
        ..
    } = *config;
    let at = put(text, 0, b"$");
    let at = put(text, at, name_of(variant));
    let at = put(text, at, b"$v=");
    let at = put_version(text, at, version);
    let at = put(text, at, b"$m=");
    let at = put_number(text, at, mem_cost);
    let at = put(text, at, b",t=");
    let at = put_number(text, at, time_cost);
    let at = put(text, at, b",p=");
    let at = put_number(text, at, lanes);
    put(text, at, b"$")
}

/// The variant's name in lower case.
fn name_of(variant: Variant) -> &'static [u8]
    ensures { result.now ≡ lowercase_name variant }
{
    match variant {
        Variant::Argon2d => b"argon2d",
        Variant::Argon2i => b"argon2i",
        Variant::Argon2id => b"argon2id",
    }
}

/// Puts the number of a version behind the first `at` bytes of a buffer. Returns where it ends.
#[tactic(auto, using(crate::proofs::Writing::lengths))]
fn put_version(text: &mut [u8], at: usize, version: Version) -> usize
    requires { at + 2 ≤ length text.old }
    ensures end { result ≡ at + 2 }
    ensures front { take result text.new ≡ take at text.old ++ version_text version }
    ensures len { length text.new ≡ length text.old }
{
    put_number(text, at, version.as_u32())
}
