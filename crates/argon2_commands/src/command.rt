//! The commands, and how they are read from the arguments.

ghost use Rattle.std.specs.Prelude.{◌≡◌, ◌<◌, ◌≤◌, length, MatchOption};
ghost use Rattle.argon2_standard.specs.declared.thread_mode.ThreadMode.{ThreadMode};
ghost use Rattle.argon2_commands.specs.Usage.{AreRight, Fits, SettingsFit};
ghost use Rattle.argon2_commands.specs.Words.{AreSettings, IsCommand, IsMode, IsNoCommand, IsNumber, texts_of, word};
ghost use Rattle.argon2_commands.specs.declared.usage.Kind.TheVariants.{Mode, Number};

use crate::usage::{Name, mode_of, number_of};
use argon2::{Config, ThreadMode, Variant, Version};

/// What the program does.
#[derive(Debug, Drop)]
pub enum Command<'a> {
    /// `hash VARIANT VERSION T M P LEN MODE SALT`: the tag of the password, and its encoded hash.
    /// The salt is the bytes of its argument.
    Hash {
        config: Config<'a>,
        salt: &'a str,
    },

    /// `verify TEXT`: whether the password matches an encoded hash.
    Verify {
        encoded: &'a str,
    },

    /// `rehash VARIANT VERSION T M P LEN TEXT`: whether an encoded hash was made with other
    /// settings.
    Rehash {
        config: Config<'a>,
        encoded: &'a str,
    },
}

impl<'a> Command<'a> {
    /// The command that these arguments name, if they are one. The program's own name is not among
    /// them.
    pub fn from_words(words: &'a [String]) -> Option<Command<'a>>
        ensures { MatchOption result (IsNoCommand (texts_of words.now))
            (IsCommand (texts_of words.now)) }
    {
        let name = Name::of_words(words)?;
        Some(Command::of_right(name, words))
    }

    /// The command that these arguments name. They were checked to be right.
    fn of_right(name: Name, words: &'a [String]) -> Command<'a>
        requires { AreRight (texts_of words.now) name }
        ensures { IsCommand (texts_of words.now) result }
    {
        match name {
            Name::Hash => Command::Hash {
                config: settings_at(words, mode_at(words)),
                salt: words[8].as_str(),
            },
            Name::Verify => Command::Verify {
                encoded: words[1].as_str(),
            },
            Name::Rehash => Command::Rehash {
                // Any mode would do, since `needs_rehash` looks at none.
                config: settings_at(words, ThreadMode::Sequential),
                encoded: words[7].as_str(),
            },
        }
    }
}

/// The settings of the arguments `VARIANT VERSION T M P LEN`, which follow the command's name.
fn settings_at<'a>(words: &[String], thread_mode: ThreadMode) -> Config<'a>
    requires count { 7 ≤ length words.now }
    requires fit { SettingsFit (texts_of words.now) }
    ensures settings { AreSettings (texts_of words.now) result }
    ensures mode { result.thread_mode ≡ thread_mode }
{
    Config {
        ad: &[],
        hash_length: number_at(words, 6),
        lanes: number_at(words, 5),
        mem_cost: number_at(words, 4),
        secret: &[],
        thread_mode,
        time_cost: number_at(words, 3),
        variant: Variant::from_str(words[1].as_str()).unwrap(),
        version: Version::from_str(words[2].as_str()).unwrap(),
    }
}

/// The mode that the argument `MODE` names. It was checked to be one.
fn mode_at(words: &[String]) -> ThreadMode
    requires count { 7 < length words.now }
    requires fits { Fits Mode (word (texts_of words.now) 7) }
    ensures { IsMode (word (texts_of words.now) 7) result }
{
    mode_of(words[7].as_str()).unwrap()
}

/// The number in the argument at a place, which was checked to be one.
fn number_at(words: &[String], place: usize) -> u32
    requires count { place < length words.now }
    requires fits { Fits Number (word (texts_of words.now) place) }
    ensures { IsNumber (word (texts_of words.now) place) result }
{
    number_of(words[place].as_str()).unwrap()
}
