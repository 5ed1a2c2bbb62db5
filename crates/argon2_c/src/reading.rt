//! Decoding an encoded hash without verifying it.

ghost use Rattle.std.specs.Prelude.{◌≡◌, ℕ, List, OnOk, length};
ghost use Rattle.std.specs.Borrow.{Bor};
ghost use Rattle.argon2_standard.specs.Standard.Grammar.{IsItem};
ghost use Rattle.argon2_standard.specs.Standard.SettingsTable.{table_error};
ghost use Rattle.argon2_standard.specs.Standard.Decoded.{decoded_config};
ghost use Rattle.argon2_standard.specs.Standard.Text.{Spelled};
ghost use Rattle.argon2_standard.specs.declared.config.Config.{Config};
ghost use Rattle.argon2_text.specs.Views.Texts.{numbers_of};
ghost use Rattle.argon2_text.specs.Views.Faults.{IsSomeItem};
ghost use Rattle.argon2_c.specs.Answers.{WritesWhere};
ghost use Rattle.argon2.specs.Standard.Limits.{is_too_costly};
ghost use Rattle.argon2_c.specs.Checks.{ChecksText, error_within};
ghost use Rattle.argon2_c.specs.Settings.{limits_of, config_of};
ghost use Rattle.argon2_c.specs.Reading.{AreLengths, ComparesSettings, Items, ReadsBytes, ReadsText, ReadsTextWithin, held, stored_of};

use crate::encoded_hash::head_of;
use crate::errors::CallError;
use crate::limits::Limits;
use crate::settings::Settings;
use argon2::parts::stored::{Numbers, agrees, config_of_numbers, is_above};
use argon2_standard::context::error_of_lengths;
use argon2_text::encoding::{Head, item_len, read_item};

/// What an encoded hash decodes to, in numbers.
#[repr(C)]
#[derive(Clone, Copy, Debug)]
pub struct Stored {
    /// The settings that it was made with; `hash_length` is the length of its hash.
    pub settings: Settings,

    /// The length of its salt in bytes.
    pub salt_length: u32,
}

impl Stored {
    /// What an encoded hash with these numbers decodes to.
    fn of(numbers: &Numbers) -> Stored
        ensures { (d : Spelled) → numbers.now ≡ numbers_of d → result ≡ stored_of d }
    {
        Stored {
            settings: Settings {
                variant: numbers.variant.as_u32(),
                version: numbers.version.as_u32(),
                mem_cost: numbers.mem_cost,
                time_cost: numbers.time_cost,
                lanes: numbers.parallelism,
                hash_length: held_len(numbers.hash_len),
            },
            salt_length: held_len(numbers.salt_len),
        }
    }
}

/// A length, in a field of 32 bits. A longer length is reported as 2^32 - 1. Only an encoded hash
/// of more than 5 GiB has such a length, and verifying rejects it.
fn held_len(len: u64) -> u32
    ensures { result ≡ held len }
{
    if len < u32::MAX as u64 {
        len as u32
    } else {
        u32::MAX
    }
}

/// Decodes an encoded hash. A string that is not ASCII is `NotAscii`, one that decodes to no hash is
/// `DecodingFail`. On an error `stored` is unchanged.
pub fn read(text: &[u8], stored: &mut Stored) -> Result<(), CallError>
    ensures { ReadsText text.now stored.old stored.new result }
{
    let head = match head_of(text) {
        Ok(head) => head,
        Err(error) => return Err(error),
    };
    *stored = Stored::of(&head.numbers());
    Ok(())
}

/// Decodes an encoded hash that is within the limits; any other is `TooCostly`. The errors of
/// `read` come first.
pub fn read_within(text: &[u8], limits: &Limits, stored: &mut Stored) -> Result<(), CallError>
    ensures { ReadsTextWithin (limits_of limits.now) text.now stored.old stored.new result }
{
    let head = match head_of(text) {
        Ok(head) => head,
        Err(error) => return Err(error),
    };
    let numbers = head.numbers();
    if is_above(&numbers, &limits.of_library()) {
        return Err(CallError::TooCostly);
    }
    *stored = Stored::of(&numbers);
    Ok(())
}

/// Decodes an encoded hash that is within the limits, and whose settings are accepted for inputs of
/// these lengths. The errors of `read_within` come first, then those of the settings table.
pub fn check_encoded(
    text: &[u8],
    limits: &Limits,
    pwd_len: u64,
    secret_len: u64,
    ad_len: u64,
    stored: &mut Stored,
) -> Result<(), CallError>
    ensures { ChecksText (limits_of limits.now) pwd_len secret_len ad_len text.now stored.old
        stored.new result }
{
    let head = match head_of(text) {
        Ok(head) => head,
        Err(error) => return Err(error),
    };
    let numbers = head.numbers();
    match error_for(&numbers, limits, pwd_len, secret_len, ad_len) {
        Some(error) => Err(error),
        None => {
            *stored = Stored::of(&numbers);
            Ok(())
        }
    }
}

/// Why an encoded hash of these numbers is not verified within the limits, for inputs of these
/// lengths.
fn error_for(
    numbers: &Numbers,
    limits: &Limits,
    pwd_len: u64,
    secret_len: u64,
    ad_len: u64,
) -> Option<CallError>
    ensures { (d : Spelled) (secret ad : Bor (List ℕ)) → numbers.now ≡ numbers_of d
        → length secret.now ≡ secret_len → length ad.now ≡ ad_len
        → result ≡ error_within (is_too_costly (limits_of limits.now) d) (table_error
        (decoded_config d secret ad) pwd_len (length d.salt) (length d.hash)) }
{
    let most = limits.of_library();
    if is_above(numbers, &most) {
        return Some(CallError::TooCostly);
    }
    let config = config_of_numbers(numbers, &[], &[]);
    // The table checks the hash's length in 64 bits: `config.hash_length` may be too small for it.
    let (salt_len, hash_len) = (numbers.salt_len, numbers.hash_len);
    match error_of_lengths(&config, pwd_len, salt_len, secret_len, ad_len, hash_len) {
        Some(error) => Some(CallError::Library(error)),
        None => None,
    }
}

/// Writes the salt and the hash of an encoded hash to buffers of their lengths. The errors of
/// `read` come first; then a buffer of the wrong length is `WrongLength`. On an error both buffers
/// are unchanged.
pub fn read_bytes(text: &[u8], salt: &mut [u8], hash: &mut [u8]) -> Result<(), CallError>
    ensures { ReadsBytes text.now (record { salt = salt.old; hash = hash.old })
        (record { salt = salt.new; hash = hash.new }) result }
{
    let head = match head_of(text) {
        Ok(head) => head,
        Err(error) => return Err(error),
    };
    read_items(&head, salt, hash)
}

/// Writes the salt and the hash of an encoded hash with this head to buffers of their lengths.
pub fn read_items(head: &Head<'_>, salt: &mut [u8], hash: &mut [u8]) -> Result<(), CallError>
    requires salt_item { IsSomeItem head.now.salt.now }
    requires hash_item { IsSomeItem head.now.hash.now }
    ensures items { OnOk result (IsItem head.now.salt.now salt.new
        × IsItem head.now.hash.now hash.new) }
    ensures answer { (s h : List ℕ) → IsItem head.now.salt.now s → IsItem head.now.hash.now h
        → let items : Items = record { salt = s; hash = h } in
        let old : Items = record { salt = salt.old; hash = hash.old } in
        WritesWhere (AreLengths items old) items old (record { salt = salt.new; hash = hash.new })
        result }
{
    if salt.len() as u64 != item_len(head.salt) || hash.len() as u64 != item_len(head.hash) {
        return Err(CallError::WrongLength);
    }
    read_item(head.salt, salt);
    read_item(head.hash, hash);
    Ok(())
}

/// Whether an encoded hash was made with these settings: `Ok` if it was, `NeedsRehash` if not. The
/// numbers of variant and version are checked first; then come the errors of `read`.
pub fn needs_rehash(text: &[u8], settings: &Settings) -> Result<(), CallError>
    ensures { (secret ad : Bor (List ℕ))
        → ComparesSettings (config_of settings.now secret ad) text.now result }
{
    let config = match settings.config(&[], &[]) {
        Ok(config) => config,
        Err(error) => return Err(CallError::Library(error)),
    };
    let head = match head_of(text) {
        Ok(head) => head,
        Err(error) => return Err(error),
    };
    if agrees(&head.numbers(), &config) {
        Ok(())
    } else {
        Err(CallError::NeedsRehash)
    }
}
