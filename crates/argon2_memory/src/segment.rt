//! A segment (the blocks of one lane in one slice), and how it is filled.

mod expecting;
mod filling;
mod other_blocks;
mod own_blocks;
mod pairs;
mod positions;
mod snapshot;

pub use expecting::{Ahead, Expects, ExpectsNothing};
pub use filling::{fill_caller_segment, fill_segment};
pub use own_blocks::{Segment, Source};
pub use pairs::fill_caller_pair;
pub use positions::{pick, reference_positions, reference_set_column, reference_set_size};
pub use snapshot::Snapshot;
