//! The permutation P (RFC 9106, 3.6) in all eight lanes of sixteen vectors.

ghost use Rattle.std.specs.Prelude.{◌≡◌, ◌<◌, ◌^◌, ℕ, List, length, map};
ghost use Rattle.std.specs.Simd.Lanes.{zip2, Each1};
ghost use Rattle.std.specs.Int.{w64, rotate_right};
ghost use Rattle.argon2_blocks.specs.Standard.Compression.{add_product, permute_p};
ghost use Rattle.argon2_blocks.specs.Views.Lanes.{half_round, lane, two_mixes};

use std::simd::prelude::*;

// Tells the prover what a vector's type guarantees. The prover learns this from the shift, which
// the compiler drops.
#[inline(always)]
pub(super) fn facts_of_vector(x: u64x8)
    ensures long { length x ≡ 8 }
    ensures fits { Each1 (λ a. a < 2 ^ 64) x }
{
    let _lanes = x >> u64x8::splat(0);
}

// The sum of two words and twice the product of their lower halves, in each lane. The masks let the
// compiler use one multiplication of 32-bit halves.
#[inline(always)]
fn add_product(x: u64x8, y: u64x8) -> u64x8
    ensures value { result ≡ zip2 add_product x y }
    ensures left { length x ≡ 8 }
    ensures right { length y ≡ 8 }
{
    facts_of_vector(x);
    facts_of_vector(y);
    let mask = u64x8::splat(0xffff_ffff);
    let low = (x & mask) * (y & mask);
    x + y + (low + low)
}

// Each lane rotated right.
#[inline(always)]
fn rotate_lanes(x: u64x8, bits: u32) -> u64x8
    requires some { 0 < bits }
    requires few { bits < 64 }
    ensures { result ≡ map (λ a. rotate_right w64 a bits) x }
{
    facts_of_vector(x);
    (x >> u64x8::splat(bits as u64)) | (x << u64x8::splat(64 - bits as u64))
}

// Each lane rotated right by 32 bits: its halves change places.
#[inline(always)]
#[tactic(auto, using(crate::proofs::Lanes::by32))]
fn rotate_by_32(x: u64x8) -> u64x8
    ensures { result ≡ map (λ a. rotate_right w64 a 32) x }
{
    facts_of_vector(x);
    let halves = u32x16::from_le_bytes(x.to_le_bytes());
    let swapped = halves.swizzle([1, 0, 3, 2, 5, 4, 7, 6, 9, 8, 11, 10, 13, 12, 15, 14]);
    u64x8::from_le_bytes(swapped.to_le_bytes())
}

// Each lane rotated right by 24 bits, in two steps. A compiler for x86-64 combines the two into one
// shuffle of bytes; shifts alone would be three instructions (docs/DECISIONS.md).
#[inline(always)]
fn rotate_by_24(x: u64x8) -> u64x8
    ensures { result ≡ map (λ a. rotate_right w64 a 24) x }
{
    facts_of_vector(x);
    let swapped = rotate_by_32(x);
    rotate_lanes(swapped, 56)
}

// Each lane rotated right by 16 bits: two steps, as by 24.
#[inline(always)]
fn rotate_by_16(x: u64x8) -> u64x8
    ensures { result ≡ map (λ a. rotate_right w64 a 16) x }
{
    facts_of_vector(x);
    let swapped = rotate_by_32(x);
    rotate_lanes(swapped, 48)
}

// Two mixes in each lane: of the vectors 0, 2, 4 and 6, and of the others.
//
// They run side by side, since each step of a mix waits for its previous step. More than two mixes
// do not fit into the registers (docs/DECISIONS.md has the times of one, two and four).
#[inline(always)]
pub(super) fn mix_two(v: [u64x8; 8]) -> [u64x8; 8]
    ensures { (i : ℕ) → i < 8 → lane i result ≡ two_mixes (lane i v) }
{
    let [a0, a1, b0, b1, c0, c1, d0, d1] = v;
    let (a0, a1) = (add_product(a0, b0), add_product(a1, b1));
    let (d0, d1) = (rotate_by_32(d0 ^ a0), rotate_by_32(d1 ^ a1));
    let (c0, c1) = (add_product(c0, d0), add_product(c1, d1));
    let (b0, b1) = (rotate_by_24(b0 ^ c0), rotate_by_24(b1 ^ c1));
    let (a0, a1) = (add_product(a0, b0), add_product(a1, b1));
    let (d0, d1) = (rotate_by_16(d0 ^ a0), rotate_by_16(d1 ^ a1));
    let (c0, c1) = (add_product(c0, d0), add_product(c1, d1));
    let (b0, b1) = (rotate_lanes(b0 ^ c0, 63), rotate_lanes(b1 ^ c1, 63));
    [a0, a1, b0, b1, c0, c1, d0, d1]
}

// Four of the eight mixes.
#[inline(always)]
#[tactic(auto, using(crate::proofs::Lanes::half_round_at))]
fn half_round(v: [u64x8; 16]) -> [u64x8; 16]
    ensures { (i : ℕ) → i < 8 → lane i result ≡ half_round (lane i v) }
{
    let [a0, a1, b0, b1, c0, c1, d0, d1] = mix_two([
        v[0], v[1], v[4], v[5], v[8], v[9], v[12], v[13],
    ]);
    let [a2, a3, b2, b3, c2, c3, d2, d3] = mix_two([
        v[2], v[3], v[6], v[7], v[10], v[11], v[14], v[15],
    ]);
    [
        a0, a1, a2, a3, b0, b1, b2, b3, c0, c1, c2, c3, d0, d1, d2, d3,
    ]
}

// All eight mixes: the diagonals are turned into columns and back.
#[inline(always)]
#[tactic(auto, using(crate::proofs::Lanes::round_at))]
fn round(v: [u64x8; 16]) -> [u64x8; 16]
    ensures { (i : ℕ) → i < 8 → lane i result ≡ permute_p (lane i v) }
{
    let r = half_round(v);
    let r = half_round([
        r[0], r[1], r[2], r[3], r[5], r[6], r[7], r[4], r[10], r[11], r[8], r[9], r[15], r[12],
        r[13], r[14],
    ]);
    [
        r[0], r[1], r[2], r[3], r[7], r[4], r[5], r[6], r[10], r[11], r[8], r[9], r[13], r[14],
        r[15], r[12],
    ]
}

/// Runs the permutation P (RFC 9106, 3.6) in each of the eight lanes, on the sixteen words that the
/// vectors have there. Sums and products wrap. It allocates nothing.
#[inline(always)]
pub fn permute_lanes(v: &mut [u64x8; 16])
    ensures { (i : ℕ) → i < 8 → lane i v.new ≡ permute_p (lane i v.old) }
{
    *v = round(*v);
}
