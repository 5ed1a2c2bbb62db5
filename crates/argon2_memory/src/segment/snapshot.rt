//! The other three slices of a memory while one is filled. They hold the blocks that the fill
//! requires.

ghost use Rattle.std.specs.Prelude.{◌≡◌, map};
ghost use Rattle.argon2_memory.specs.Views.Filling.{IsSnapshot, SnapshotValue};

use super::other_blocks::{Beside, beside_segments};
use super::own_blocks::Segment;
use crate::job::Job;
use std::marker::Model;

/// The three slices beside the job's: those below it hold the blocks of the job's pass, and those
/// above it the blocks of the pass before. This type guarantees that; a `Beside` does not.
#[derive(Drop)]
pub struct Snapshot<'a> {
    beside: Beside<[&'a [Segment]; 4]>,
}

impl<'a> Model for Snapshot<'a> {
    ghost Value = { SnapshotValue };

    ghost view = { λ s. s.beside };

    ghost invariant = { λ s. IsSnapshot s.beside };
}

impl<'a> Snapshot<'a> {
    /// The other slices in rising order, each with a segment for each lane.
    pub fn new(job: Job, others: [&'a [Segment]; 3]) -> Snapshot<'a>
        requires { IsSnapshot (record { job = job; others = map (λ o. o.now) others }) }
        ensures { result ≡ record { job = job; others = map (λ o. o.now) others.entry } }
    {
        Snapshot {
            beside: beside_segments(job, others),
        }
    }

    /// The job.
    pub fn job(&self) -> &Job
        ensures value { result.now ≡ self.now.job }
        ensures snapshot { IsSnapshot self.now }
    {
        self.beside.job()
    }

    /// The slices as a `Beside`, a type that does not say what they hold.
    pub(super) fn beside(&self) -> &Beside<[&'a [Segment]; 4]>
        ensures value { result.now ≡ self.now }
        ensures snapshot { IsSnapshot self.now }
    {
        &self.beside
    }
}
