//! The length of an encoded hash and of its pieces, in bytes.

ghost use Rattle.std.specs.Prelude.{◌≡◌, ◌<◌, ◌^◌, ℕ, List, length};
ghost use Rattle.std.specs.Fmt.{decimal};
ghost use Rattle.base64.specs.Rfc4648.{unpadded_len};
ghost use Rattle.argon2_standard.specs.Standard.Text.{base64, text_of};
ghost use Rattle.argon2_standard.specs.declared.version.Version.{Version};

use argon2_standard::variant::Variant;

/// The length of what all encoded hashes share: the marks and the version's digits. Both versions
/// have two, so no length depends on the version.
const FIXED_LEN: u64 = "$$v=19$m=,t=,p=$$".len() as u64;

/// The length of the unpadded base64 of `len` bytes, by parts, since four times a length of a slice
/// may not fit 64 bits.
pub fn characters(len: u64) -> u64
    requires { len < 2 ^ 63 }
    ensures { result ≡ unpadded_len len }
{
    4 * (len / 3) + (4 * (len % 3) + 2) / 3
}

/// The length of the unpadded base64 (RFC 4648) of `len` bytes. It is in 64 bits, since four times
/// a length may not fit 32.
#[tactic(auto, using(crate::proofs::Writing::lengths))]
pub fn base64_len(len: u32) -> u64
    ensures value { result ≡ unpadded_len len }
    ensures exact { (bytes : List ℕ) → length bytes ≡ len → result ≡ length (base64 bytes) }
{
    characters(len as u64)
}

/// The number of digits of the plain decimal of `number`.
pub fn num_len(number: u32) -> u32
    ensures { result ≡ length (decimal number) }
{
    if number < 10 {
        1
    } else {
        1 + num_len(number / 10)
    }
}

/// The length of the encoded hash that `encode_string` writes for a salt and a hash of these
/// lengths in bytes, whatever the version, without a terminator. It allocates nothing and always
/// succeeds.
pub fn encoded_len(
    variant: Variant,
    mem_cost: u32,
    time_cost: u32,
    parallelism: u32,
    salt_len: u32,
    hash_len: u32,
) -> u64
    ensures { (version : Version) (salt hash : List ℕ) → length salt ≡ salt_len
        → length hash ≡ hash_len
        → result ≡ length (text_of (record {
          variant = variant;
          version = version;
          mem_cost = mem_cost;
          time_cost = time_cost;
          parallelism = parallelism;
          salt = salt;
          hash = hash;
        })) }
{
    text_len(
        variant,
        mem_cost,
        time_cost,
        parallelism,
        salt_len as u64,
        hash_len as u64,
    )
}

/// The length of an encoded hash whose tag may be longer than any that the settings table accepts.
#[tactic(auto, using(crate::proofs::Writing::lengths))]
pub fn text_len(
    variant: Variant,
    mem_cost: u32,
    time_cost: u32,
    parallelism: u32,
    salt_len: u64,
    hash_len: u64,
) -> u64
    requires salt { salt_len < 2 ^ 32 }
    requires hash { hash_len < 2 ^ 63 }
    ensures { (version : Version) (salt hash : List ℕ) → length salt ≡ salt_len
        → length hash ≡ hash_len
        → result ≡ length (text_of (record {
          variant = variant;
          version = version;
          mem_cost = mem_cost;
          time_cost = time_cost;
          parallelism = parallelism;
          salt = salt;
          hash = hash;
        })) }
{
    let name = variant.as_lowercase_str().len() as u64;
    let costs = num_len(mem_cost) as u64 + num_len(time_cost) as u64 + num_len(parallelism) as u64;
    FIXED_LEN + name + costs + characters(salt_len) + characters(hash_len)
}
