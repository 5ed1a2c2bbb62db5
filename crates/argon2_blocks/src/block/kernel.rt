//! The compression (RFC 9106, 3.5 and 3.6) over sixteen vectors of eight words.
//!
//! The rows are permuted four at a time, and then the columns are permuted four at a time. Between
//! the two steps only halves of vectors change places, and no block is transposed.
//!
//! The steps are inlined. If only the permutation were not, the time would be 15 to 20 % longer.

ghost use Rattle.std.specs.Prelude.{◌≡◌, ◌<◌, ◌≤◌, ◌+◌, ◌*◌, ℕ, length, take, if◌then◌else◌, bit_xor};
ghost use Rattle.std.specs.Simd.Lanes.{zip2, Each1, chunk, put_chunk};
ghost use Rattle.argon2_blocks.specs.Standard.Block.{xor};
ghost use Rattle.argon2_blocks.specs.Standard.Compression.{block_of_registers, compress_g, permute_p, permute_rows, registers_of, transpose};
ghost use Rattle.argon2_blocks.specs.Views.Lanes.{column, vector_pair, vector_words, diagonals, four_and_four, high_halves, low_halves, nth_vector, odd_and_even, spread_row, rotated_halves, undo_diagonals};

use super::Block;
use super::lanes::{facts_of_vector, mix_two};
use crate::common::QWORDS_IN_BLOCK;
use std::simd::prelude::*;

/// How many words a vector has.
const LANES: usize = 8;

/// How many vectors a block has.
const VECTORS: usize = QWORDS_IN_BLOCK / LANES;

// The first four lanes of each vector.
#[inline(always)]
fn low_halves(a: u64x8, b: u64x8) -> u64x8
    ensures value { result ≡ low_halves a b }
    ensures left { length a ≡ 8 }
    ensures right { length b ≡ 8 }
{
    facts_of_vector(a);
    facts_of_vector(b);
    a.shuffle(b, [0, 1, 2, 3, 8, 9, 10, 11])
}

// The last four lanes of each vector.
#[inline(always)]
fn high_halves(a: u64x8, b: u64x8) -> u64x8
    ensures { result ≡ high_halves a b }
{
    facts_of_vector(a);
    facts_of_vector(b);
    a.shuffle(b, [4, 5, 6, 7, 12, 13, 14, 15])
}

// The odd lanes of one vector and the even lanes of another, by turns.
#[inline(always)]
fn odd_and_even(a: u64x8, b: u64x8) -> u64x8
    ensures { result ≡ odd_and_even a b }
{
    facts_of_vector(a);
    a.shuffle(b, [1, 8, 3, 10, 5, 12, 7, 14])
}

// Each half of the vector rotated by one lane.
#[inline(always)]
fn turn_by_one(a: u64x8) -> u64x8
    ensures { result ≡ rotated_halves 1 a }
{
    facts_of_vector(a);
    a.swizzle([1, 2, 3, 0, 5, 6, 7, 4])
}

#[inline(always)]
fn turn_by_two(a: u64x8) -> u64x8
    ensures { result ≡ rotated_halves 2 a }
{
    facts_of_vector(a);
    a.swizzle([2, 3, 0, 1, 6, 7, 4, 5])
}

#[inline(always)]
fn turn_by_three(a: u64x8) -> u64x8
    ensures { result ≡ rotated_halves 3 a }
{
    facts_of_vector(a);
    a.swizzle([3, 0, 1, 2, 7, 4, 5, 6])
}

// Spreads four rows, of two vectors each, over all eight vectors.
#[inline(always)]
#[tactic(auto, using(crate::proofs::Spread::rows_spread))]
fn spread_rows(v: [u64x8; 8]) -> [u64x8; 8]
    ensures { (j : ℕ) → j < 4 → spread_row result j ≡ vector_pair v j }
{
    [
        low_halves(v[0], v[2]),
        low_halves(v[4], v[6]),
        high_halves(v[0], v[2]),
        high_halves(v[4], v[6]),
        low_halves(v[1], v[3]),
        low_halves(v[5], v[7]),
        high_halves(v[1], v[3]),
        high_halves(v[5], v[7]),
    ]
}

// Turns the diagonals of the 4 x 4 words of each row into columns. Only the positions of the
// vectors relative to each other matter. So vectors 2 and 3 stay: a mix computes them last, and no
// shuffle has to wait for them.
#[inline(always)]
fn align_row_diagonals(v: [u64x8; 8]) -> [u64x8; 8]
    ensures { (j : ℕ) → j < 4 → spread_row result j ≡ diagonals (spread_row v j) }
{
    [
        turn_by_three(v[0]),
        turn_by_three(v[1]),
        v[2],
        v[3],
        turn_by_one(v[4]),
        turn_by_one(v[5]),
        turn_by_two(v[6]),
        turn_by_two(v[7]),
    ]
}

// The columns of each row's words as diagonals again.
#[inline(always)]
fn restore_row_diagonals(v: [u64x8; 8]) -> [u64x8; 8]
    ensures { (j : ℕ) → j < 4 → spread_row result j ≡ undo_diagonals (spread_row v j) }
{
    [
        turn_by_one(v[0]),
        turn_by_one(v[1]),
        v[2],
        v[3],
        turn_by_three(v[4]),
        turn_by_three(v[5]),
        turn_by_two(v[6]),
        turn_by_two(v[7]),
    ]
}

/// Permutes four rows, of two vectors each. The result is spread over all eight vectors.
#[inline(always)]
fn permute_four_rows(v: [u64x8; 8]) -> [u64x8; 8]
    ensures { (j : ℕ) → j < 4 → spread_row result j ≡ permute_p (vector_pair v j) }
{
    let spread = spread_rows(v);
    let mixed = mix_two(spread);
    let mixed_twice = mix_two(align_row_diagonals(mixed));
    restore_row_diagonals(mixed_twice)
}

// Columns 0 to 3: the first half of each of eight rows. Each argument has four of the rows, spread.
#[inline(always)]
fn left_halves(upper: &[u64x8; 8], lower: &[u64x8; 8]) -> [u64x8; 8]
    ensures { (k : ℕ) → k < 4 → column (nth_vector result) k
        ≡ column (four_and_four (spread_row upper.now) (spread_row lower.now)) k }
{
    [
        low_halves(upper[0], upper[2]),
        high_halves(upper[0], upper[2]),
        low_halves(upper[1], upper[3]),
        high_halves(upper[1], upper[3]),
        low_halves(lower[0], lower[2]),
        high_halves(lower[0], lower[2]),
        low_halves(lower[1], lower[3]),
        high_halves(lower[1], lower[3]),
    ]
}

// The second half of each row: columns 4 to 7.
#[inline(always)]
fn right_halves(upper: &[u64x8; 8], lower: &[u64x8; 8]) -> [u64x8; 8]
    ensures { (k : ℕ) → k < 4 → column (nth_vector result) k
        ≡ column (four_and_four (spread_row upper.now) (spread_row lower.now)) (k + 4) }
{
    [
        low_halves(upper[4], upper[6]),
        high_halves(upper[4], upper[6]),
        low_halves(upper[5], upper[7]),
        high_halves(upper[5], upper[7]),
        low_halves(lower[4], lower[6]),
        high_halves(lower[4], lower[6]),
        low_halves(lower[5], lower[7]),
        high_halves(lower[5], lower[7]),
    ]
}

// Turns the diagonals of the 4 x 4 words of each block column into columns. Vectors 2 and 3 stay,
// as for rows. Vectors 6 and 7 only swap names, which takes no instruction.
#[inline(always)]
fn align_column_diagonals(v: [u64x8; 8]) -> [u64x8; 8]
    ensures { (k : ℕ) → k < 4 → column (nth_vector result) k
        ≡ diagonals (column (nth_vector v) k) }
{
    [
        odd_and_even(v[1], v[0]),
        odd_and_even(v[0], v[1]),
        v[2],
        v[3],
        odd_and_even(v[4], v[5]),
        odd_and_even(v[5], v[4]),
        v[7],
        v[6],
    ]
}

// Turns the columns of the 4 x 4 words of each block column into diagonals again.
#[inline(always)]
fn restore_column_diagonals(v: [u64x8; 8]) -> [u64x8; 8]
    ensures value { (k : ℕ) → k < 4 → column (nth_vector result) k
        ≡ undo_diagonals (column (nth_vector v) k) }
    ensures long { Each1 (λ a. length a ≡ 8) result }
{
    facts_of_vector(v[2]);
    facts_of_vector(v[3]);
    facts_of_vector(v[6]);
    facts_of_vector(v[7]);
    [
        odd_and_even(v[0], v[1]),
        odd_and_even(v[1], v[0]),
        v[2],
        v[3],
        odd_and_even(v[5], v[4]),
        odd_and_even(v[4], v[5]),
        v[7],
        v[6],
    ]
}

/// Permutes four columns. Each vector holds two words of each of them.
#[inline(always)]
fn permute_four_columns(v: [u64x8; 8]) -> [u64x8; 8]
    ensures value { (k : ℕ) → k < 4 → column (nth_vector result) k
        ≡ permute_p (column (nth_vector v) k) }
    ensures long { Each1 (λ a. length a ≡ 8) result }
{
    let mixed = mix_two(v);
    let mixed_twice = mix_two(align_column_diagonals(mixed));
    restore_column_diagonals(mixed_twice)
}

/// The block whose rows are made of these halves.
#[inline(always)]
fn join_halves(left: &[u64x8; 8], right: &[u64x8; 8]) -> [u64x8; 16]
    requires left_is_long { Each1 (λ a. length a ≡ 8) left.now }
    requires right_is_long { Each1 (λ a. length a ≡ 8) right.now }
    ensures long { Each1 (λ a. length a ≡ 8) result }
    ensures value { (j : ℕ) → j < 8 → vector_pair result j
        ≡ column (four_and_four (column (nth_vector left.now)) (column (nth_vector right.now))) j }
{
    [
        left[0], right[0], left[1], right[1], left[2], right[2], left[3], right[3], left[4],
        right[4], left[5], right[5], left[6], right[6], left[7], right[7],
    ]
}

// The exclusive or. Its contract also states the length of both vectors, for its callers' proofs.
#[inline(always)]
fn xor_lanes(x: u64x8, y: u64x8) -> u64x8
    ensures value { result ≡ zip2 bit_xor x y }
    ensures left { length x ≡ 8 }
    ensures right { length y ≡ 8 }
{
    facts_of_vector(x);
    facts_of_vector(y);
    x ^ y
}

// The exclusive or of the first vectors of two blocks.
//
// It is not inlined and returns its vector in memory, so that the compiler aligns the caller's
// frame to whole vectors. Then no vector in that frame lies across two cache lines.
#[inline(never)]
fn first_sum(x: &[u64; QWORDS_IN_BLOCK], y: &[u64; QWORDS_IN_BLOCK]) -> u64x8
    ensures { result ≡ zip2 bit_xor (take 8 x.now) (take 8 y.now) }
{
    xor_lanes(
        u64x8::from_slice(&x[..LANES]),
        u64x8::from_slice(&y[..LANES]),
    )
}

// The exclusive or of the vectors at one place of two blocks.
#[inline(always)]
fn sum_at(x: &[u64; QWORDS_IN_BLOCK], y: &[u64; QWORDS_IN_BLOCK], k: usize) -> u64x8
    requires { k < 16 }
    ensures { result ≡ chunk (8 * k) 8 (xor x.now y.now) }
{
    let left = u64x8::from_slice(&x[LANES * k..LANES * k + LANES]);
    let right = u64x8::from_slice(&y[LANES * k..LANES * k + LANES]);
    xor_lanes(left, right)
}

// The exclusive or of two blocks, eight words to a vector.
//
// Neither this function nor `store` nor `store_onto` has a loop. LLVM unrolls such loops only for
// x86-64. Elsewhere it copies their vectors in memory (docs/DECISIONS.md has the times).
#[inline(always)]
fn sum(x: &[u64; QWORDS_IN_BLOCK], y: &[u64; QWORDS_IN_BLOCK]) -> [u64x8; VECTORS]
    ensures value { vector_words result ≡ xor x.now y.now }
    ensures long { Each1 (λ a. length a ≡ 8) result }
{
    [
        first_sum(x, y),
        sum_at(x, y, 1),
        sum_at(x, y, 2),
        sum_at(x, y, 3),
        sum_at(x, y, 4),
        sum_at(x, y, 5),
        sum_at(x, y, 6),
        sum_at(x, y, 7),
        sum_at(x, y, 8),
        sum_at(x, y, 9),
        sum_at(x, y, 10),
        sum_at(x, y, 11),
        sum_at(x, y, 12),
        sum_at(x, y, 13),
        sum_at(x, y, 14),
        sum_at(x, y, 15),
    ]
}

// Writes the exclusive or of the vectors at one place of two lists.
#[inline(always)]
#[tactic(auto, using(crate::proofs::Stores::long_sum, crate::proofs::Stores::put_part))]
fn store_at(x: &[u64x8; VECTORS], y: &[u64x8; VECTORS], w: &mut [u64; QWORDS_IN_BLOCK], k: usize)
    requires { k < 16 }
    ensures { w.new ≡ put_chunk (8 * k) w.old (zip2 bit_xor (nth_vector x.now k) (nth_vector y.now k)) }
{
    xor_lanes(x[k], y[k]).copy_to_slice(&mut w[LANES * k..LANES * k + LANES]);
}

// Writes the exclusive or of two lists of vectors.
#[inline(always)]
#[tactic(auto, using(crate::proofs::Stores::all_puts))]
fn store(x: &[u64x8; VECTORS], y: &[u64x8; VECTORS], w: &mut [u64; QWORDS_IN_BLOCK])
    requires left { Each1 (λ a. length a ≡ 8) x.now }
    requires right { Each1 (λ a. length a ≡ 8) y.now }
    ensures { w.new ≡ xor (vector_words x.now) (vector_words y.now) }
{
    store_at(x, y, w, 0);
    store_at(x, y, w, 1);
    store_at(x, y, w, 2);
    store_at(x, y, w, 3);
    store_at(x, y, w, 4);
    store_at(x, y, w, 5);
    store_at(x, y, w, 6);
    store_at(x, y, w, 7);
    store_at(x, y, w, 8);
    store_at(x, y, w, 9);
    store_at(x, y, w, 10);
    store_at(x, y, w, 11);
    store_at(x, y, w, 12);
    store_at(x, y, w, 13);
    store_at(x, y, w, 14);
    store_at(x, y, w, 15);
}

// Writes the exclusive or of the vectors at one place of two lists and of the old words there.
#[inline(always)]
#[tactic(auto, using(crate::proofs::Stores::long_sum, crate::proofs::Stores::part_read, crate::proofs::Stores::put_part))]
fn store_onto_at(
    x: &[u64x8; VECTORS],
    y: &[u64x8; VECTORS],
    w: &mut [u64; QWORDS_IN_BLOCK],
    k: usize,
)
    requires { k < 16 }
    ensures { w.new ≡ put_chunk (8 * k) w.old
        (zip2 bit_xor (zip2 bit_xor (nth_vector x.now k) (nth_vector y.now k))
        (chunk (8 * k) 8 w.old)) }
{
    let old = u64x8::from_slice(&w[LANES * k..LANES * k + LANES]);
    xor_lanes(xor_lanes(x[k], y[k]), old).copy_to_slice(&mut w[LANES * k..LANES * k + LANES]);
}

// Writes the exclusive or of two lists of vectors and of the old words. It is separate from
// `store`, so that `with_xor` is tested once a block, and old words are read only if they are
// needed.
#[inline(always)]
fn store_onto(x: &[u64x8; VECTORS], y: &[u64x8; VECTORS], w: &mut [u64; QWORDS_IN_BLOCK])
    requires left { Each1 (λ a. length a ≡ 8) x.now }
    requires right { Each1 (λ a. length a ≡ 8) y.now }
    ensures { w.new ≡ xor (xor (vector_words x.now) (vector_words y.now)) w.old }
{
    store_onto_at(x, y, w, 0);
    store_onto_at(x, y, w, 1);
    store_onto_at(x, y, w, 2);
    store_onto_at(x, y, w, 3);
    store_onto_at(x, y, w, 4);
    store_onto_at(x, y, w, 5);
    store_onto_at(x, y, w, 6);
    store_onto_at(x, y, w, 7);
    store_onto_at(x, y, w, 8);
    store_onto_at(x, y, w, 9);
    store_onto_at(x, y, w, 10);
    store_onto_at(x, y, w, 11);
    store_onto_at(x, y, w, 12);
    store_onto_at(x, y, w, 13);
    store_onto_at(x, y, w, 14);
    store_onto_at(x, y, w, 15);
}

// Permutes the rows of a block, and then the columns.
#[inline(always)]
fn permute_block(words: &[u64x8; VECTORS]) -> [u64x8; VECTORS]
    requires { Each1 (λ a. length a ≡ 8) words.now }
    ensures value { vector_words result
        ≡ block_of_registers (transpose (permute_rows (transpose (permute_rows (registers_of
        (vector_words words.now)))))) }
    ensures long { Each1 (λ a. length a ≡ 8) result }
{
    let upper = permute_four_rows([
        words[0], words[1], words[2], words[3], words[4], words[5], words[6], words[7],
    ]);
    let lower = permute_four_rows([
        words[8], words[9], words[10], words[11], words[12], words[13], words[14], words[15],
    ]);
    let left = permute_four_columns(left_halves(&upper, &lower));
    let right = permute_four_columns(right_halves(&upper, &lower));
    join_halves(&left, &right)
}

/// Sets `next` to the compression of two blocks or, if `with_xor` is true, to the exclusive or of
/// that compression and the old `next`.
///
/// It is not inlined: a copy of this much code at each caller costs more.
#[inline(never)]
#[tactic(auto, using(crate::proofs::Stores::compressed))]
fn fill_words(
    prev: &[u64; QWORDS_IN_BLOCK],
    reference: &[u64; QWORDS_IN_BLOCK],
    next: &mut [u64; QWORDS_IN_BLOCK],
    with_xor: bool,
)
    ensures { let g = compress_g prev.now reference.now in
        next.new ≡ (if with_xor then xor g next.old else g) }
{
    let r = sum(prev, reference);
    let v = permute_block(&r);
    if with_xor {
        store_onto(&r, &v, next);
    } else {
        store(&r, &v, next);
    }
}

/// Sets `next` to the compression G of two blocks (RFC 9106, 3.5) or, if `with_xor` is true, to the
/// exclusive or of that compression and the old `next`. It allocates nothing.
pub fn fill_block(prev: &Block, reference: &Block, next: &mut Block, with_xor: bool)
    ensures { let g = compress_g prev.now reference.now in
        next.new ≡ (if with_xor then xor g next.old else g) }
{
    fill_words(&prev.words, &reference.words, &mut next.words, with_xor);
}
