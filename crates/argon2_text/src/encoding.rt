//! Encoded hashes (PHC strings), written and decoded: `$argon2id$v=19$m=256,t=2,p=1$salt$hash`,
//! with salt and hash in unpadded base64 (RFC 4648, 4).
//!
//! They are written to and decoded into caller-provided buffers, without an allocation.
//! `encode_string` and `decode_string` allocate these buffers themselves.

ghost use Rattle.std.specs.Prelude.{◌≡◌, IfErr, IfOk};
ghost use Rattle.std.specs.String.{string_bytes};
ghost use Rattle.argon2_standard.specs.Standard.Grammar.{IsItem, Spells};
ghost use Rattle.argon2_standard.specs.Standard.Text.{spelled_of, text_of};
ghost use Rattle.argon2_text.specs.Views.Faults.{IsSomeItem, Refuses};
ghost use Rattle.argon2_text.specs.Views.Texts.{spelled_by, spelled_with};

mod lengths;
mod letters;
mod placing;
mod reading;
mod salt_and_hash;
mod writing;

use crate::decoded::Decoded;
use argon2_standard::config::Config;
use argon2_standard::context::Context;
use argon2_standard::error::Error;
use argon2_standard::result::Result;
use lengths::text_len;
pub use lengths::{base64_len, encoded_len, num_len};
pub use letters::item_len;
pub use reading::{Head, spelling_of};
pub use salt_and_hash::{read_item, read_salt};
use std::alloc::Global;
pub use writing::{write_encoded, write_encoded_by_sums};

/// The encoded hash of a tag: the variant in lower case, the version, the costs and lanes as plain
/// decimals, the memory cost as it was given, and the salt and the hash in unpadded base64. The
/// secret and the associated data are not in it. If memory cannot be allocated, the call returns
/// `OutOfMemory`.
pub fn encode_string(alloc: Global, context: &Context<'_>, hash: &[u8]) -> Result<String>
    ensures text { let c = context.now in
        IfOk result (λ text. string_bytes text
        ≡ text_of (spelled_of c.config c.salt.now hash.now)) }
    ensures refused { IfErr result (λ e. e ≡ Error.OutOfMemory) }
{
    let Config {
        variant,
        mem_cost,
        time_cost,
        lanes,
        ..
    } = context.config;
    let salt_len = context.salt.len() as u64;
    let len = text_len(
        variant,
        mem_cost,
        time_cost,
        lanes,
        salt_len,
        hash.len() as u64,
    );
    let mut text = vec![in alloc; 0u8; len as usize]?;
    write_encoded(&context.config, context.salt, hash, &mut text);
    // All of it is ASCII, which is proved here. A check would look at the characters of the hash.
    Ok(unsafe { String::from_utf8_unchecked(text) })
}

/// What `encoded` decodes to.
///
/// A string that decodes to no hash returns `DecodingFail`, even without memory. Memory is
/// allocated only once the whole string is known to decode; if that fails, the call returns
/// `OutOfMemory`.
pub fn decode_string(alloc: Global, encoded: &str) -> Result<Decoded>
    ensures spelled { IfOk result (λ decoded. Spells encoded.now (spelled_by decoded)) }
    ensures refused { IfErr result (Refuses encoded.now) }
{
    // The base64 is checked here without memory and decoded by `decode`, so that `DecodingFail`
    // comes before `OutOfMemory`.
    match spelling_of(encoded.as_bytes()) {
        Some(head) => decode(alloc, &head),
        None => Err(Error::DecodingFail),
    }
}

/// What an encoded hash with this head decodes to, if its salt and its hash are base64. If memory
/// cannot be allocated, the call returns `OutOfMemory`. Reading the head is a call of its own, so
/// that the settings can be checked before this call allocates.
pub fn decode(alloc: Global, head: &Head<'_>) -> Result<Decoded>
    requires salt { IsSomeItem head.now.salt.now }
    requires hash { IsSomeItem head.now.hash.now }
    ensures settings { IfOk result (λ d. spelled_by d
        ≡ spelled_with head.now d.salt.items d.hash.items) }
    ensures items { IfOk result (λ d. IsItem head.now.salt.now d.salt.items
        × IsItem head.now.hash.now d.hash.items) }
    ensures refused { IfErr result (λ e. e ≡ Error.OutOfMemory) }
{
    let mut salt = vec![in alloc; 0u8; item_len(head.salt) as usize]?;
    read_salt(head.salt, &mut salt);
    let mut hash = vec![in alloc; 0u8; item_len(head.hash) as usize]?;
    read_item(head.hash, &mut hash);
    Ok(Decoded {
        variant: head.variant,
        version: head.version,
        mem_cost: head.mem_cost,
        time_cost: head.time_cost,
        parallelism: head.parallelism,
        salt,
        hash,
    })
}
