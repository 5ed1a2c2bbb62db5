//! Verifying a password against an encoded hash whose cost is within the caller's limits.

ghost use Rattle.std.specs.Prelude.{◌≡◌, Some, false, nat_lt};
ghost use Rattle.argon2.specs.Standard.Limits.{AnswersWithin, are_exceeded, is_too_costly};
ghost use Rattle.argon2.specs.Views.Limits.{message_of};
ghost use Rattle.argon2.specs.declared.limits.Unverified.TheVariants.{Refused};
ghost use Rattle.argon2_standard.specs.Standard.Grammar.{Spells, SpellsNothing};
ghost use Rattle.argon2_standard.specs.Standard.Outcome.{IsVerdict};
ghost use Rattle.argon2_standard.specs.Standard.Decoded.{decoded_config};
ghost use Rattle.argon2_standard.specs.Standard.Text.{Spelled};
ghost use Rattle.argon2_text.specs.Views.Texts.{numbers_of};

use crate::stored::numbers_of_text;
use crate::verifying::{verify_encoded_ext, verify_encoded_sequential};
use argon2_standard::error::Error;
use argon2_standard::result::Result;
use argon2_text::numbers::Numbers;
use std::alloc::Global;
use std::marker::Sync;
use std::sync::Wait;
use std::thread::Threads;
use std::{fmt, result};

/// The highest memory, passes and lanes that an encoded hash may name, and the highest product of
/// memory and passes.
#[derive(Clone, Copy, Debug, Eq, PartialEq)]
pub struct Limits {
    /// The memory in KiB.
    pub mem_cost: u32,

    /// The number of passes.
    pub time_cost: u32,

    /// The number of lanes.
    pub lanes: u32,

    /// The memory in KiB times the number of passes, by which the time grows.
    pub work: u64,
}

impl Limits {
    /// Whether this much memory in KiB, this many passes or lanes, or the product of memory and
    /// passes exceeds a limit.
    pub fn are_exceeded_by(&self, mem_cost: u32, time_cost: u32, lanes: u32) -> bool
        ensures { result ≡ are_exceeded self.now mem_cost time_cost lanes }
    {
        mem_cost > self.mem_cost
            || time_cost > self.time_cost
            || lanes > self.lanes
            // In 64 bits, which hold the product of any two numbers of 32 bits.
            || mem_cost as u64 * time_cost as u64 > self.work
    }
}

impl Default for Limits {
    ghost use Rattle.argon2.specs.Views.Limits.{default_limits};

    ghost is_default = { λ limits. limits ≡ default_limits };

    /// 2 GiB, 10 passes and 16 lanes, and as much work as 4 GiB in one pass, so that the settings of
    /// RFC 9106 (section 4), OWASP, libsodium and Django are within.
    fn default() -> Limits {
        Limits {
            mem_cost: 2_097_152,
            time_cost: 10,
            lanes: 16,
            work: 4_194_304,
        }
    }
}

/// Why an encoded hash was not verified within limits. It is no `Error`, so that nobody takes a
/// hash above the limits for a wrong password or for a damaged hash.
#[derive(Clone, Debug, Drop, PartialEq)]
pub enum Unverified {
    /// The encoded hash exceeds a limit.
    TooCostly,

    /// The error of the call without limits.
    Refused(Error),
}

impl Unverified {
    /// The message of the error.
    pub fn message(&self) -> &'static str
        ensures { result.now ≡ message_of self.now }
    {
        match self {
            Unverified::TooCostly => "The encoded hash is above the limits",
            Unverified::Refused(error) => error.message(),
        }
    }
}

impl fmt::Display for Unverified {
    ghost output = { λ unverified. Some (message_of unverified) };

    fn fmt<W: fmt::Write>(&self, f: &mut fmt::Formatter<W>) -> fmt::Result {
        f.write_str(self.message())
    }
}

impl std::error::Error for Unverified {}

impl From<Error> for Unverified {
    ghost from_gives = { λ error unverified. unverified ≡ Refused error };

    fn from(error: Error) -> Unverified {
        Unverified::Refused(error)
    }
}

/// Verifies a password against an encoded hash, with this secret and this associated data, if the
/// hash is within the limits.
///
/// A string that decodes to no hash returns `Refused(DecodingFail)`. A hash above a limit of
/// memory, passes, lanes, or memory times passes returns `TooCostly`, before any memory is
/// allocated or any worker started. For any other hash the call returns what `verify_encoded_ext`
/// does.
pub fn verify_encoded_within<R: Threads + Wait + Sync>(
    rt: &R,
    alloc: Global,
    encoded: &str,
    pwd: &[u8],
    secret: &[u8],
    ad: &[u8],
    limits: &Limits,
) -> result::Result<bool, Unverified>
    ensures unspelled { SpellsNothing encoded.now → result ≡ Err (Refused Error.DecodingFail) }
    ensures spelled { (d : Spelled) → Spells encoded.now d
        → AnswersWithin (is_too_costly limits.now d)
        (IsVerdict pwd.now d.salt d.hash (decoded_config d secret.entry ad.entry)
        (nat_lt 1 d.parallelism)) result }
{
    // `verify_encoded_ext` decodes the string again. This avoids a second form of that call, with a
    // second proof.
    let costly = is_too_costly(encoded, limits)?;
    if costly {
        return Err(Unverified::TooCostly);
    }
    let same = verify_encoded_ext(rt, alloc, encoded, pwd, secret, ad)?;
    Ok(same)
}

/// Verifies as `verify_encoded_within` does: a single-threaded call.
pub fn verify_encoded_within_sequential(
    alloc: Global,
    encoded: &str,
    pwd: &[u8],
    secret: &[u8],
    ad: &[u8],
    limits: &Limits,
) -> result::Result<bool, Unverified>
    ensures unspelled { SpellsNothing encoded.now → result ≡ Err (Refused Error.DecodingFail) }
    ensures spelled { (d : Spelled) → Spells encoded.now d
        → AnswersWithin (is_too_costly limits.now d)
        (IsVerdict pwd.now d.salt d.hash (decoded_config d secret.entry ad.entry) false) result }
{
    let above = is_too_costly(encoded, limits)?;
    if above {
        return Err(Unverified::TooCostly);
    }
    let same = verify_encoded_sequential(alloc, encoded, pwd, secret, ad)?;
    Ok(same)
}

/// Whether an encoded hash exceeds a limit. `DecodingFail` comes first, since only a string that
/// decodes has numbers. It allocates nothing.
fn is_too_costly(encoded: &str, limits: &Limits) -> Result<bool>
    ensures unspelled { SpellsNothing encoded.now → result ≡ Err Error.DecodingFail }
    ensures spelled { (d : Spelled) → Spells encoded.now d
        → result ≡ Ok (is_too_costly limits.now d) }
{
    let numbers = numbers_of_text(encoded)?;
    Ok(is_above(&numbers, limits))
}

/// Whether the numbers of an encoded hash are above their limits.
pub fn is_above(numbers: &Numbers, limits: &Limits) -> bool
    ensures { (d : Spelled) → numbers.now ≡ numbers_of d
        → result ≡ is_too_costly limits.now d }
{
    limits.are_exceeded_by(numbers.mem_cost, numbers.time_cost, numbers.parallelism)
}
