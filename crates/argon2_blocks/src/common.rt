//! Limits and sizes of Argon2 (RFC 9106, 3.1 and 3.2).

/// The least number of lanes.
pub const MIN_LANES: u32 = 1;

/// The greatest number of lanes.
pub const MAX_LANES: u32 = 0x00FF_FFFF;

/// How many slices a pass has: the lanes wait for one another at the end of each.
pub const SYNC_POINTS: u32 = 4;

/// The least length of a hash, in bytes.
pub const MIN_HASH_LENGTH: u32 = 4;

/// The greatest length of a hash, in bytes.
pub const MAX_HASH_LENGTH: u32 = 0xFFFF_FFFF;

/// The least memory cost of a lane, in blocks of 1 KiB.
pub const MIN_MEMORY: u32 = 8;

/// The greatest memory cost, in blocks of 1 KiB.
pub const MAX_MEMORY: u32 = 0xFFFF_FFFF;

/// The least time cost, in passes.
pub const MIN_TIME: u32 = 1;

/// The greatest time cost, in passes.
pub const MAX_TIME: u32 = 0xFFFF_FFFF;

/// The least length of a password, in bytes.
pub const MIN_PWD_LENGTH: u32 = 0;

/// The greatest length of a password, in bytes.
pub const MAX_PWD_LENGTH: u32 = 0xFFFF_FFFF;

/// The least length of the associated data, in bytes.
pub const MIN_AD_LENGTH: u32 = 0;

/// The greatest length of the associated data, in bytes.
pub const MAX_AD_LENGTH: u32 = 0xFFFF_FFFF;

/// The least length of a salt, in bytes: a limit of this crate, since RFC 9106 sets none for a
/// salt.
pub const MIN_SALT_LENGTH: u32 = 8;

/// The greatest length of a salt, in bytes.
pub const MAX_SALT_LENGTH: u32 = 0xFFFF_FFFF;

/// The least length of a secret, in bytes.
pub const MIN_SECRET_LENGTH: u32 = 0;

/// The greatest length of a secret, in bytes.
pub const MAX_SECRET_LENGTH: u32 = 0xFFFF_FFFF;

/// The size of a block, in bytes.
pub const BLOCK_SIZE: usize = 1024;

/// How many words of 64 bits a block has.
pub const QWORDS_IN_BLOCK: usize = 128;

/// How many pseudo-random words an address block holds.
pub const ADDRESSES_IN_BLOCK: u32 = 128;

/// The length of the prehash H0, in bytes.
pub const PREHASH_DIGEST_LENGTH: usize = 64;

/// The length of what the first blocks are hashed from, in bytes: H0, a column and a lane.
pub const PREHASH_SEED_LENGTH: usize = 72;

/// The greatest length of a BLAKE2b hash, in bytes.
pub const BLAKE2B_OUT_LENGTH: usize = 64;
