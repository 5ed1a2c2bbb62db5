//! Theorems about the definitions that contracts cite.

ghost use Rattle.argon2_fill.specs.Theorems.Lanes.{EveryRunOfLanesAgrees};
ghost use Rattle.argon2_fill.specs.Theorems.Turns.{EveryOrderOfTurnsAgrees};

/// Lanes may be filled in any order within each slice, or at the same time, and blocks may be
/// anywhere. If the first blocks are there, and each lane of each slice of each pass is filled
/// once, in the order of passes and slices, each slice ends with the blocks of the last pass.
/// Those of slice 3 give the tag.
///
/// It does nothing when it runs.
pub fn any_order_of_lanes()
    ensures { EveryRunOfLanesAgrees }
{}

/// The same where the fills of a slice's lanes come one after another, in any order, and each sees
/// what those before it left.
pub fn any_order_of_turns()
    ensures { EveryOrderOfTurnsAgrees }
{}
