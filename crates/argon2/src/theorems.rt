//! Theorems about the definitions: each is a clause of a call without arguments, which does nothing when
//! it runs.

ghost use Rattle.argon2_memory.specs.Theorems.AnyOrder.{EveryOrderAgrees, NoEntryReadsOthers, PicksHoldTheirBlocks};
ghost use Rattle.argon2.specs.Theorems.Definitions.{IsOnlySolution, LengthIsTheHash, MeetsRecurrence, OwnTagVerifies, TagForgetsMode};
ghost use Rattle.argon2.specs.Theorems.KnownAnswers.{DrawsWord, FirstPass, FirstPassFirstIndex, FirstPassOtherLane, FirstSlice, LaterPass, LaterPassFirstIndex, LaterPassLastSlice, LaterPassOtherLane, PicksEnds};
ghost use Rattle.argon2.specs.Theorems.Texts.{HashedTextVerifies, HeadHasItems, IsJoinedItems, SpellsExample, SpellsOne, SpellsOwnValue, WritesExample};

/// The blocks that the contracts speak of meet the recurrence at every place (RFC 9106, 3.2), and
/// no other blocks do.
pub fn recurrence_law()
    ensures meets { MeetsRecurrence }
    ensures only { IsOnlySolution }
{}

/// Whatever the order of the single block writes within each slice of one shared memory: the memory
/// ends with the blocks of the recurrence, no write reads a place that another lane writes in that
/// slice, and each reference reads the recurrence's block (RFC 9106, 3.4).
pub fn any_order()
    ensures agrees { EveryOrderAgrees }
    ensures apart { NoEntryReadsOthers }
    ensures picks { PicksHoldTheirBlocks }
{}

/// The theorems about tags, verdicts and encoded hashes. The tag does not depend on the thread mode. A
/// verdict depends on the hash's own length, not on `hash_length`. A string decodes to at most one
/// value, and an encoded value decodes to itself. If the settings are accepted, a tag and an encoded
/// hash verify with the same inputs, unless memory or a worker is denied. An encoded hash's layout
/// is stated again, as items between `$` and by two examples.
pub fn laws()
    ensures mode { TagForgetsMode }
    ensures length { LengthIsTheHash }
    ensures own_tag { OwnTagVerifies }
    ensures one_value { SpellsOne }
    ensures own_value { SpellsOwnValue }
    ensures own_text { HashedTextVerifies }
    ensures items { IsJoinedItems }
    ensures marks { HeadHasItems }
    ensures written { WritesExample }
    ensures spelled { SpellsExample }
{}

/// The definitions agree with what is known from outside: which blocks may be referred to in each
/// case of RFC 9106, 3.4.2 (first slice; first or later pass; own or another lane; first index of a
/// segment), which of these blocks the least and the greatest word pick, and a data-independent
/// word (3.4.1.2).
///
/// It does nothing when it runs. Its contract states the values, and the checker computes them.
pub fn known_answers()
    ensures first_slice { FirstSlice }
    ensures first_pass { FirstPass }
    ensures first_pass_other_lane { FirstPassOtherLane }
    ensures first_pass_first_index { FirstPassFirstIndex }
    ensures later_pass { LaterPass }
    ensures later_pass_last_slice { LaterPassLastSlice }
    ensures later_pass_other_lane { LaterPassOtherLane }
    ensures later_pass_first_index { LaterPassFirstIndex }
    ensures picks_ends { PicksEnds }
    ensures draws_word { DrawsWord }
{}
