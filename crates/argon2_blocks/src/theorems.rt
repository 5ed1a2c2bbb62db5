//! Theorems on the definitions that contracts cite.

ghost use Rattle.argon2_blocks.specs.Theorems.KnownAnswers.{CompressesOneBit, CompressesZeros, HashesAbc, HashesNothing, HashesTo100Bytes, HashesTo16Bytes, HashesTwoBlocks};

/// The definitions agree with other programs: BLAKE2b of `abc` (RFC 7693, appendix A), of the empty
/// message and of two blocks, H' of a short and of a long length (RFC 9106, 3.3), and the
/// compression G of zeros and of one bit (RFC 9106, 3.5).
///
/// It does nothing when it runs. Its contract states the values, and the checker computes them.
pub fn known_answers()
    ensures abc { HashesAbc }
    ensures nothing { HashesNothing }
    ensures two_blocks { HashesTwoBlocks }
    ensures short { HashesTo16Bytes }
    ensures long { HashesTo100Bytes }
    ensures zeros { CompressesZeros }
    ensures one_bit { CompressesOneBit }
{}
