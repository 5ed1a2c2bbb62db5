//! Writing the encoded hash of a tag that was computed before.

ghost use Rattle.std.specs.Prelude.{◌≡◌, ◌<◌, ◌^◌, ℕ, List, [], length};
ghost use Rattle.std.specs.Borrow.{Bor};
ghost use Rattle.argon2_standard.specs.Standard.Text.{spelled_of, text_of};
ghost use Rattle.argon2_c.specs.Answers.{WritesWhere, padded};
ghost use Rattle.argon2_c.specs.Jobs.{WritesTagText};
ghost use Rattle.argon2_c.specs.Settings.{config_of};

use crate::errors::CallError;
use crate::settings::{Settings, settings_error, text_len};
use argon2::Config;
use argon2_blocks::basics::fill;
use argon2_text::encoding::write_encoded_by_sums;

/// Writes the encoded hash of a given tag, and zeros behind it, to a buffer that is longer. The
/// numbers of variant and version are checked first, then the settings table. Then a tag of another
/// length than the settings' is `WrongLength`, and so is a buffer without room for the encoded hash
/// and one zero. On an error the buffer is unchanged.
pub fn encode(
    salt: &[u8],
    settings: &Settings,
    tag: &[u8],
    text: &mut [u8],
) -> Result<(), CallError>
    ensures { (secret ad : Bor (List ℕ)) → secret.now ≡ [] → ad.now ≡ []
        → WritesTagText (config_of settings.now secret ad) salt.now tag.now text.old text.new
        result }
{
    let config = match settings.config(&[], &[]) {
        Ok(config) => config,
        Err(error) => return Err(CallError::Library(error)),
    };
    match settings_error(&config, salt.len() as u64) {
        Some(error) => Err(CallError::Library(error)),
        None => write_tag_text(&config, salt, tag, text),
    }
}

/// Writes the encoded hash of a tag with accepted settings.
fn write_tag_text(
    config: &Config<'_>,
    salt: &[u8],
    tag: &[u8],
    text: &mut [u8],
) -> Result<(), CallError>
    requires { length salt.now < 2 ^ 32 }
    ensures { let written = text_of (spelled_of config.now salt.now tag.now) in
        WritesWhere ((length tag.now ≡ config.now.hash_length) × (length written < length text.old))
        (padded (length text.old) written) text.old text.new result }
{
    if tag.len() != config.hash_length as usize {
        return Err(CallError::WrongLength);
    }
    let len = text_len(config, salt.len() as u32);
    // `<=`, since a zero has to fit behind the string.
    if text.len() as u64 <= len {
        return Err(CallError::WrongLength);
    }
    let end = len as usize;
    write_encoded_by_sums(config, salt, tag, &mut text[..end]);
    fill(&mut text[end..], 0);
    Ok(())
}
