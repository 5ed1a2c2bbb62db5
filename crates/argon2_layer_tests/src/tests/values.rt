//! What no public call returns: the blocks that a block may refer to, the bytes that are hashed first, and how `Debug`
//! prints blocks and a memory.

ghost use Rattle.std.specs.Prelude.{◌≡◌, ◌+◌, ◌*◌, ◌/◌, ◌^◌, [], ◌∷◌};
ghost use Rattle.argon2_blocks.specs.Standard.Word.{low_half};
ghost use Rattle.argon2_standard.specs.Standard.Reference.{pick, reference_set, relative_position};
ghost use Rattle.argon2_standard.specs.Standard.Setting.{Position, Setting};
ghost use Rattle.argon2_standard.specs.declared.variant.Variant.TheVariants.{Argon2d};
ghost use Rattle.argon2_standard.specs.declared.version.Version.TheVariants.{Version13};

use super::{Tested, two_lanes};
use argon2_blocks::blake2b::{blake2b, hprime};
use argon2_blocks::block::Block;
use argon2_fill::fill::write_first_block;
use argon2_memory::job::Job;
use argon2_memory::memory::Memory;
use argon2_memory::segment::{pick, reference_set_column, reference_set_size};
use argon2_standard::config::Config;
use argon2_standard::context::Context;

/// The references of RFC 9106, 3.4.2, worked out by hand for two lanes and two blocks a segment. In the
/// second pass, the first block of the third slice may refer in another lane to five blocks: the columns 6
/// and 7 of the first pass, and 0, 1 and 2 of its own pass. The greatest lower half of a word picks the
/// first of these blocks, and 0 the last.
///
/// It does nothing when it runs. Its contract states the values, and the checker computes them.
#[tactic(auto, unfolding(argon2_standard::specs::Standard::Reference::reference_set, argon2_standard::specs::Standard::Reference::pick))]
fn stated_references()
    ensures references { let s : Setting = record {
      prehash = [];
      variant = Argon2d;
      version = Version13;
      lanes = 2;
      segment_length = 2;
      passes = 2;
    } in
        let at : Position = record { pass = 1; lane = 0; column = 4 } in
        (reference_set s at 1 ≡ (0, 6) ∷ (0, 7) ∷ (1, 0) ∷ (1, 1) ∷ (1, 2) ∷ [])
        × (pick s (2 ^ 32 + 4294967295) at ≡ record { pass = 0; lane = 1; column = 6 })
        × (pick s (2 ^ 32) at ≡ record { pass = 1; lane = 1; column = 2 }) }
    ensures x { low_half 4294967295 * low_half 4294967295 / 2 ^ 32 ≡ 4294967294 }
    ensures y { 5 * 4294967294 / 2 ^ 32 ≡ 4 }
    ensures first_position { relative_position 5 4294967295 ≡ 0 }
    ensures last_position { relative_position 5 0 ≡ 4 }
{}

// The same references, as the code finds them.
#[test]
fn picks_among_the_blocks_of_another_lane(rt: HostRuntime) -> Tested<()> {
    stated_references();
    let config = Config {
        mem_cost: 16,
        ..two_lanes()
    };
    let context = Context::new(config, b"password", b"somesalt")?;
    let first = Job::new(&context);
    assert!(rt; first.passes() == 2);
    let job = first.at(1, 2);
    assert!(rt; job.lanes() == 2 && job.segment_length() == 2);
    assert!(rt; job.pass() == 1 && job.slice() == 2);
    assert_eq!(rt; reference_set_size(&job, 0, 0), 5);
    for (position, column) in [(0, 6), (1, 7), (2, 0), (3, 1), (4, 2)] {
        assert!(rt; position < 8);
        assert_eq!(rt; reference_set_column(&job, position), column);
    }
    let other_lane = 1 << 32;
    assert_eq!(rt; pick(&job, 0, 0, other_lane), (1, 2));
    assert_eq!(rt; pick(&job, 0, 0, other_lane + 4294967295), (1, 6));
    Ok(())
}

// The bytes, in hexadecimal, that are hashed first, for 2 lanes, a hash of 32 bytes, 256 KiB and 2
// passes of Argon2d in version 0x13, with `password` and `somesalt`. The first block of lane 1 is
// H' of H0, the column 0 and the lane.
#[test]
fn hashes_the_stated_inputs_first(rt: HostRuntime) -> Tested<()> {
    let alloc = rt.alloc();
    let inputs = hex::decode(
        alloc,
        "02000000200000000001000002000000130000000000000008000000\
         70617373776f726408000000736f6d6573616c740000000000000000",
    )?;
    assert_eq!(rt; inputs.len(), 56);
    let mut prehash = [0; 64];
    blake2b(&mut prehash, &[inputs.as_slice()]);
    let mut input = [0; 72];
    input[..64].copy_from_slice(&prehash);
    input[68] = 1;
    let mut bytes = [0; 1024];
    hprime(&mut bytes, &input);
    let context = Context::new(two_lanes(), b"password", b"somesalt")?;
    let job = Job::new(&context);
    assert_eq!(rt; job.lanes(), 2);
    let mut block = Block::zero();
    write_first_block(&job, 1, 0, &mut block);
    assert!(rt; block.as_u8() == bytes);
    Ok(())
}

#[test]
fn prints_blocks_by_words_and_a_memory_by_its_size(rt: HostRuntime) -> Tested<()> {
    let alloc = rt.alloc();
    let block = Block::from_words([7; 128]);
    let line = format!(in alloc; "{block:?}")?;
    assert!(rt; line.as_str().starts_with("[7, 7, 7, "));
    assert_eq!(rt; line.len(), 3 * 128);
    let lines = format!(in alloc; "{block:#?}")?;
    assert!(rt; lines.as_str().starts_with("[\n    7,\n    7,\n"));
    assert_eq!(rt; lines.as_str().lines().count(), 2 + 128);
    let memory = format!(in alloc; "{:?}", Memory::new(alloc, 4, 128)?)?;
    assert_eq!(rt; memory.as_str(), "Memory { rows: 4, cols: 128 }");
    Ok(())
}
