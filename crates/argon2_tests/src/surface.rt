//! An item of each public module, used by a crate that depends on `argon2` alone. The contract of
//! each item is proved again here, as a clause. Its definitions are cited from the crates that have
//! them.

ghost use Rattle.std.specs.Prelude.{◌≡◌, ◌^◌, ◌-◌, ◌<◌, ◌≤◌, ◌↔◌, IfNone, IfOk, IsTrue, length, None, Some};
ghost use Rattle.std.specs.List.{flat_map};
ghost use Rattle.std.specs.Ordering.{nat_cmp, on};
ghost use Rattle.argon2_blocks.specs.Standard.Blake2b.{blake2b};
ghost use Rattle.argon2_blocks.specs.Standard.Block.{zero_block};
ghost use Rattle.argon2_fill.specs.Views.Boards.{least_waiting};
ghost use Rattle.argon2_standard.specs.declared.error.Error.{Error};
ghost use Rattle.argon2_standard.specs.Standard.Grammar.{Spells};
ghost use Rattle.argon2.specs.Theorems.Definitions.{IsOnlySolution, MeetsRecurrence};
ghost use Rattle.argon2_memory.specs.Standard.Kept.{no_memory};
ghost use Rattle.argon2_standard.specs.Standard.SettingsTable.{table_error};
ghost use Rattle.argon2_text.specs.Views.Texts.{spelled_by};
ghost use Rattle.argon2_standard.specs.Standard.Tag.{tag_of};
ghost use Rattle.argon2_standard.specs.Standard.Variant.{variant_number};
ghost use Rattle.argon2_standard.specs.Standard.Version.{version_number};

use argon2::parts::block::Block;
use argon2::parts::board::{Board, Claim};
use argon2::parts::common::MAX_HASH_LENGTH;
use argon2::parts::context::{Job, first_refusal};
use argon2::parts::decoded::Decoded;
use argon2::parts::encoding::decode_string;
use argon2::parts::fill::recurrence_law;
use argon2::parts::memory::Memory;
use argon2::parts::segment::Snapshot;
use argon2::parts::stored::are_equal;
use argon2::{Config, Error, Result, Variant, Version, hash_raw_sequential};
use std::alloc::Global;
use std::cmp::Ordering;

/// `argon2`: the tag of a password.
pub fn tag(alloc: Global, password: &[u8], salt: &[u8], config: &Config) -> Result<Vec<u8>>
    ensures { IfOk result (λ tag. tag.items
        ≡ tag_of password.now salt.now config.now config.now.hash_length) }
{
    hash_raw_sequential(alloc, password, salt, config)
}

/// `argon2`: the derived order of variants, which is that of their numbers.
pub fn order_of_variants(one: &Variant, other: &Variant) -> Ordering
    ensures { result ≡ on variant_number nat_cmp one.now other.now }
{
    one.cmp(other)
}

/// `argon2`: the derived order of versions, which is that of their numbers.
pub fn order_of_versions(first: &Version, second: &Version) -> Ordering
    ensures { result ≡ on version_number nat_cmp first.now second.now }
{
    first.cmp(second)
}

/// `argon2::parts::blake2b`: a hash of the joined pieces.
pub fn hash(out: &mut [u8], pieces: &[&[u8]])
    requires some { 0 < length out.old }
    requires few { length out.old ≤ 64 }
    ensures { out.new ≡ blake2b (length out.old) (flat_map (λ piece. piece.now) pieces.now) }
{
    argon2::parts::blake2b::blake2b(out, pieces);
}

/// `argon2::parts::block`: the block of zeros.
pub fn zeros() -> Block
    ensures { result ≡ zero_block }
{
    Block::zero()
}

/// `argon2::parts::board`: a lane, or none where none waits.
pub fn claim(board: &mut Board) -> Option<Claim>
    ensures { IfNone result (least_waiting board.old.places ≡ None) }
{
    board.take()
}

/// `argon2::parts::common`: the most bytes that a hash has.
pub fn most_bytes() -> u32
    ensures { result ≡ 2 ^ 32 - 1 }
{
    MAX_HASH_LENGTH
}

/// `argon2::parts::context`: the first parameter error.
pub fn refusal(config: &Config, pwd_len: u64, salt_len: u64, hash_len: u64) -> Option<Error>
    ensures exact { result ≡ table_error config.now pwd_len salt_len hash_len }
    ensures only { (e : Error) → result ≡ Some e
        → table_error config.now pwd_len salt_len hash_len ≡ Some e }
{
    first_refusal(config, pwd_len, salt_len, hash_len)
}

/// `argon2::parts::decoded`: the lanes that an encoded hash names.
pub fn lanes(decoded: &Decoded) -> u32
    ensures { result ≡ (spelled_by decoded.now).parallelism }
{
    decoded.parallelism
}

/// `argon2::parts::encoding`: what an encoded hash decodes to.
pub fn spelled(alloc: Global, encoded: &str) -> Result<Decoded>
    ensures { IfOk result (λ decoded. Spells encoded.now (spelled_by decoded)) }
{
    decode_string(alloc, encoded)
}

/// `argon2::parts::fill`: the blocks of the contracts are the recurrence's.
pub fn blocks_are_the_recurrence()
    ensures meets { MeetsRecurrence }
    ensures only { IsOnlySolution }
{
    recurrence_law();
}

/// `argon2::parts::memory`: a memory without lanes.
pub fn no_lanes(alloc: Global) -> Memory
    ensures { result ≡ no_memory }
{
    Memory::empty(alloc)
}

/// `argon2::parts::segment`: the job that a snapshot is of.
pub fn job_of(snapshot: &Snapshot<'_>) -> Job
    ensures { result ≡ snapshot.now.job }
{
    *snapshot.job()
}

/// `argon2::parts::stored`: whether two hashes of one length are equal.
pub fn are_one(one: &[u8], other: &[u8]) -> bool
    requires { length one.now ≡ length other.now }
    ensures { IsTrue result ↔ (one.now ≡ other.now) }
{
    are_equal(one, other)
}
