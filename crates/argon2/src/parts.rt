//! The parts that a hash is made of, each with a contract of its own.

pub use argon2_blocks::{blake2b, block, common};
pub use argon2_text::decoded;

/// The settings table, the inputs of an accepted call, and its job.
pub mod context {
    pub use argon2_memory::job::Job;
    pub use argon2_standard::context::{Context, first_refusal};
}

/// The matrix of blocks, and its segments.
pub mod memory {
    pub use crate::ending::release;
    pub use argon2_fill::stack_wiping::wipe_stack;
    pub use argon2_memory::memory::Memory;
    pub use argon2_memory::segment::{Segment, Source};
}

/// The fill of one lane's segment, and what its blocks refer to.
pub mod segment {
    pub use argon2_memory::segment::{Snapshot, fill_segment, reference_positions};
}

/// The lanes of one slice, which workers claim and put back.
pub mod board {
    pub use argon2_fill::workers::{
        AllPermitted, Board, Claim, Event, Filled, Gate, NoGate, Permit, Place, fill_slice,
        fill_slice_with,
    };
}

/// The first blocks of a memory, the fill of its slices, the tag and the theorems.
pub mod fill {
    pub use crate::theorems::{any_order, known_answers, laws, recurrence_law};
    pub use argon2_fill::fill::{
        fill_memory_blocks, fill_sequential, finalize, initialize, prepare_memory, tag,
        tag_sequential,
    };
    pub use argon2_fill::workers::{fill_parallel, fill_parallel_with};
}

/// Encoded hashes (PHC strings), written and decoded.
pub mod encoding {
    pub use argon2_text::encoding::{
        Head, base64_len, decode_string, encode_string, encoded_len, item_len, num_len, read_item,
        read_salt, spelling_of, write_encoded, write_encoded_by_sums,
    };
}

/// How encoded and raw hashes are verified.
pub mod stored {
    pub use crate::limits::is_above;
    pub use crate::rehashing::agrees;
    pub use crate::stored::{config_of, config_of_numbers, refusal};
    pub use crate::verifying::{are_equal, context_of_hash};
    pub use argon2_text::numbers::Numbers;
}
