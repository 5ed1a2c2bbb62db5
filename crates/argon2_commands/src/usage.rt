//! What the arguments of each command have to be.

ghost use Rattle.std.specs.Prelude.{◌≡◌, ◌↔◌, ℕ, IsTrue, MatchOption, length};
ghost use Rattle.argon2_commands.specs.Usage.{AreRight, Fits, FitBelow, IsNoName, IsWrong, kinds_of, name_text};
ghost use Rattle.argon2_commands.specs.Words.{IsMode, IsNoCommand, IsNumber, texts_of};
ghost use Rattle.argon2_standard.specs.declared.thread_mode.ThreadMode.{ThreadMode};

use argon2::{ThreadMode, Variant, Version};

/// The name of a command.
#[derive(Clone, Copy, Debug, Eq, PartialEq)]
pub enum Name {
    Hash,
    Verify,
    Rehash,
}

/// What an argument has to be.
#[derive(Clone, Copy, Debug, Eq, PartialEq)]
pub enum Kind {
    Variant,
    Version,
    Number,
    Mode,

    /// Anything.
    Text,
}

impl Name {
    /// The command that these arguments name, if each of them is what it has to be.
    #[tactic(auto, using(crate::proofs::UsageErrors::no_name, crate::proofs::UsageErrors::other_count, crate::proofs::UsageErrors::wrong_word))]
    pub(crate) fn of_words(words: &[String]) -> Option<Name>
        ensures { MatchOption result (IsNoCommand (texts_of words.now))
            (AreRight (texts_of words.now)) }
    {
        let Some(first) = words.first() else {
            return None;
        };
        let Some(name) = Name::of(first.as_str()) else {
            return None;
        };
        let kinds = name.kinds();
        if words.len() != kinds.len() {
            return None;
        }
        match first_wrong(kinds, words) {
            Some(_) => None,
            None => Some(name),
        }
    }

    fn of(word: &str) -> Option<Name>
        ensures { MatchOption result (IsNoName word.now) (λ name. word.now ≡ name_text name) }
    {
        match word {
            "hash" => Some(Name::Hash),
            "verify" => Some(Name::Verify),
            "rehash" => Some(Name::Rehash),
            _ => None,
        }
    }

    /// What the arguments of the command have to be, its name first.
    fn kinds(self) -> &'static [Kind]
        ensures { result.now ≡ kinds_of self }
    {
        use Kind::{Mode, Number, Text, Variant, Version};
        match self {
            Name::Hash => &[
                Text, Variant, Version, Number, Number, Number, Number, Mode, Text,
            ],
            Name::Rehash => &[Text, Variant, Version, Number, Number, Number, Number, Text],
            Name::Verify => &[Text, Text],
        }
    }
}

impl Kind {
    fn fits(self, word: &str) -> bool
        ensures { IsTrue result ↔ Fits self word.now }
    {
        match self {
            Kind::Variant => Variant::from_str(word).is_ok(),
            Kind::Version => Version::from_str(word).is_ok(),
            Kind::Number => number_of(word).is_some(),
            Kind::Mode => mode_of(word).is_some(),
            Kind::Text => true,
        }
    }
}

/// The first place whose argument is not what it has to be.
fn first_wrong(kinds: &[Kind], words: &[String]) -> Option<usize>
    requires { length words.now ≡ length kinds.now }
    ensures { MatchOption result (FitBelow kinds.now (texts_of words.now) (length kinds.now))
        (IsWrong kinds.now (texts_of words.now)) }
{
    for (place, kind) in kinds.iter().enumerate() {
        if !kind.fits(words[place].as_str()) {
            return Some(place);
        }
    }
    None
}

/// The mode of `seq`, `par`, or `max` followed at once by a number.
pub(crate) fn mode_of(word: &str) -> Option<ThreadMode>
    ensures { MatchOption result ((mode : ThreadMode) → IsMode word.now mode
        → ⊥) (IsMode word.now) }
{
    match word {
        "seq" => Some(ThreadMode::Sequential),
        "par" => Some(ThreadMode::Parallel),
        _ => Some(ThreadMode::AtMost(number_of(word.strip_prefix("max")?)?)),
    }
}

/// The number that decimal digits write, with or without a plus in front.
pub(crate) fn number_of(word: &str) -> Option<u32>
    ensures { MatchOption result ((number : ℕ) → IsNumber word.now number → ⊥) (IsNumber word.now) }
{
    word.parse::<u32>().ok()
}
