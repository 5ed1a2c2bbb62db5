//! A job: all that the blocks of a slice depend on. The jobs of all slices are numbered in their
//! order.

ghost use Rattle.std.specs.Prelude.{◌≡◌, ◌+◌, ◌*◌, ◌^◌, ◌<◌, ◌≤◌, ◌==◌, ◌&&◌, nat_lt, ◌≢◌, ◌/◌, ◌%◌, ◌-◌, [], ◌++◌, true, false};
ghost use Rattle.argon2_memory.specs.Views.Jobs.{first_job_of, IsJob, first_index, Job as JobValue, setting_of_context, IsSetting};
ghost use Rattle.argon2_standard.specs.Standard.Recurrence.{combines};
ghost use Rattle.argon2_standard.specs.Standard.Reference.{is_data_independent};
ghost use Rattle.argon2_standard.specs.Standard.Setting.{lane_length, memory_blocks};
ghost use Rattle.argon2_standard.specs.Standard.Variant.{variant_number};

use argon2_blocks::common::{ADDRESSES_IN_BLOCK, PREHASH_DIGEST_LENGTH, SYNC_POINTS};
use argon2_standard::context::{Context, prehash_of_context};
use argon2_standard::variant::Variant::{self, Argon2i, Argon2id};
use argon2_standard::version::Version;
use std::marker::Model;

/// All that the values of a slice depend on.
#[derive(Clone, Copy, Debug, PartialEq)]
pub struct Job {
    prehash: [u8; PREHASH_DIGEST_LENGTH],
    variant: Variant,
    version: Version,
    lanes: u32,
    segment_length: u32,
    passes: u32,
    pass: u32,
    slice: u32,
}

impl Model for Job {
    ghost Value = { JobValue };

    ghost view = { λ j. record {
      setting = record {
        prehash = j.prehash;
        variant = j.variant;
        version = j.version;
        lanes = j.lanes;
        segment_length = j.segment_length;
        passes = j.passes;
      };
      pass = j.pass;
      slice = j.slice;
    } };

    ghost inverse = { λ v. record {
      prehash = v.setting.prehash;
      variant = v.setting.variant;
      version = v.setting.version;
      lanes = v.setting.lanes;
      segment_length = v.setting.segment_length;
      passes = v.setting.passes;
      pass = v.pass;
      slice = v.slice;
    } };

    ghost invariant = { λ j. IsJob (record {
      setting = record {
        prehash = j.prehash;
        variant = j.variant;
        version = j.version;
        lanes = j.lanes;
        segment_length = j.segment_length;
        passes = j.passes;
      };
      pass = j.pass;
      slice = j.slice;
    }) };
}

/// Tells the prover the bounds that each job keeps by its type. The prover knows them only where a
/// field is read, so this reads one. It does nothing else.
pub fn facts_of_job(job: &Job)
    ensures { IsJob job.now }
{
    let _lanes = job.lanes;
}

/// Tells the prover the setting of a context, in the context's own numbers, and the bounds of both.
/// The prover knows a number's range only where it is read, so this reads two. It does nothing
/// else.
#[tactic(auto, unfolding(argon2_standard::specs::Standard::Prehash::setting_of))]
pub fn facts_of_context(context: &Context<'_>)
    ensures setting { IsSetting (setting_of_context context.now) }
    ensures lanes { (setting_of_context context.now).lanes ≡ context.now.config.lanes }
    ensures passes { (setting_of_context context.now).passes ≡ context.now.config.time_cost }
    ensures segment { (setting_of_context context.now).segment_length ≡ context.now.segment_length }
    ensures lane { lane_length (setting_of_context context.now) ≡ context.now.lane_length }
    ensures memory { memory_blocks (setting_of_context context.now) ≡ context.now.memory_blocks }
{
    let (_passes, _blocks) = (context.config.time_cost, context.memory_blocks);
}

/// H0 of a job. It is a free function, since a method of `Job` would be visible to users.
pub fn prehash_of_job(job: &Job) -> [u8; PREHASH_DIGEST_LENGTH]
    ensures { result ≡ job.now.setting.prehash }
{
    job.prehash
}

/// The job of the first slice of the first pass, for a setting that is given by numbers. It is
/// a free function, since a method of `Job` would be visible to users.
pub fn job_of_setting(
    prehash: &[u8; PREHASH_DIGEST_LENGTH],
    variant: Variant,
    version: Version,
    lanes: u32,
    segment_length: u32,
    passes: u32,
) -> Job
    requires { IsSetting (record {
      prehash = prehash.now;
      variant = variant;
      version = version;
      lanes = lanes;
      segment_length = segment_length;
      passes = passes;
    }) }
    ensures { result ≡ record {
      setting = record {
        prehash = prehash.now;
        variant = variant;
        version = version;
        lanes = lanes;
        segment_length = segment_length;
        passes = passes;
      };
      pass = 0;
      slice = 0;
    } }
{
    Job {
        prehash: *prehash,
        variant,
        version,
        lanes,
        segment_length,
        passes,
        pass: 0,
        slice: 0,
    }
}

impl Job {
    /// The job of the first slice of the first pass. All inputs were hashed when the context was made.
    #[tactic(auto, unfolding(argon2_standard::specs::Standard::Prehash::setting_of))]
    pub fn new(context: &Context<'_>) -> Job
        ensures job { IsJob result }
        ensures value { let c = context.now in result ≡ first_job_of c.pwd.now c.salt.now c.config }
    {
        facts_of_context(context);
        Job {
            prehash: prehash_of_context(context),
            variant: context.config.variant,
            version: context.config.version,
            lanes: context.config.lanes,
            segment_length: context.segment_length,
            passes: context.config.time_cost,
            pass: 0,
            slice: 0,
        }
    }

    /// The same setting at another pass and slice.
    pub fn at(&self, pass: u32, slice: u32) -> Job
        requires pass_fits { pass < self.now.setting.passes }
        requires slice_fits { slice < 4 }
        ensures { result ≡ record self.now { pass = pass; slice = slice } }
    {
        Job {
            pass,
            slice,
            ..*self
        }
    }

    /// How many lanes there are.
    pub fn lanes(&self) -> u32
        ensures value { result ≡ self.now.setting.lanes }
        ensures job { IsJob self.now }
    {
        self.lanes
    }

    /// How many blocks a segment has.
    #[tactic(auto, using(crate::proofs::Recurrences::lane_fits))]
    pub fn segment_length(&self) -> u32
        ensures value { result ≡ self.now.setting.segment_length }
        ensures job { IsJob self.now }
        ensures fits { lane_length self.now.setting < 2 ^ 32 }
        ensures some { 2 ≤ result }
    {
        self.segment_length
    }

    /// How many columns a lane has.
    #[tactic(auto, using(crate::proofs::Recurrences::lane_fits))]
    pub(crate) fn lane_length(&self) -> u32
        ensures value { result ≡ lane_length self.now.setting }
        ensures job { IsJob self.now }
        ensures some { 8 ≤ result }
    {
        SYNC_POINTS * self.segment_length
    }

    /// How many passes there are.
    pub fn passes(&self) -> u32
        ensures value { result ≡ self.now.setting.passes }
        ensures job { IsJob self.now }
    {
        self.passes
    }

    /// How many blocks there are in all.
    pub fn memory_blocks(&self) -> u32
        ensures { result ≡ memory_blocks self.now.setting }
    {
        SYNC_POINTS * self.lanes * self.segment_length
    }

    pub(crate) fn variant(&self) -> Variant
        ensures { result ≡ self.now.setting.variant }
    {
        self.variant
    }

    /// The number of the variant.
    pub fn variant_number(&self) -> u64
        ensures { result ≡ variant_number self.now.setting.variant }
    {
        self.variant.as_u64()
    }

    /// The pass.
    pub fn pass(&self) -> u32
        ensures value { result ≡ self.now.pass }
    {
        self.pass
    }

    /// The slice.
    pub fn slice(&self) -> u32
        ensures value { result ≡ self.now.slice }
        ensures fits { result < 4 }
    {
        self.slice
    }

    /// The first column of the slice.
    #[tactic(auto, using(crate::proofs::Recurrences::start_fits, crate::proofs::Recurrences::lane_fits))]
    pub fn start(&self) -> u32
        ensures value { result ≡ self.now.slice * self.now.setting.segment_length }
        ensures before_end { result + self.now.setting.segment_length ≤ lane_length self.now.setting }
        ensures fits { lane_length self.now.setting < 2 ^ 32 }
    {
        self.slice * self.segment_length
    }

    /// The index of the first block that a fill of the slice writes: the first two of each lane
    /// come from H0.
    pub fn first_index(&self) -> u32
        ensures { result ≡ first_index self.now }
    {
        if self.pass == 0 && self.slice == 0 {
            2
        } else {
            0
        }
    }

    /// Whether the references of the slice depend on no block.
    pub fn is_independent(&self) -> bool
        ensures { result ≡ is_data_independent self.now.setting.variant self.now.pass self.now.slice }
    {
        self.variant == Argon2i || self.variant == Argon2id && self.pass == 0 && self.slice < 2
    }

    /// Whether a new block is combined with that of the pass before. Version 0x10 overwrites it
    /// instead.
    pub fn combines(&self) -> bool
        ensures { result ≡ (combines self.now.setting.version && nat_lt 0 self.now.pass) }
    {
        self.version == Version::Version13 && self.pass > 0
    }
}

/// How many slices a fill goes through: those of all passes, which may exceed 32 bits.
pub fn slice_count(job: &Job) -> u64
    ensures { result ≡ 4 * job.now.setting.passes }
{
    SYNC_POINTS as u64 * job.passes() as u64
}

/// The job of the slice of this number, counted from the first slice of the first pass.
pub fn numbered_job(job: &Job, number: u64) -> Job
    requires { number < 4 * job.now.setting.passes }
    ensures { result ≡ record job.now { pass = number / 4; slice = number % 4 } }
{
    let slices = SYNC_POINTS as u64;
    facts_of_job(job);
    job.at((number / slices) as u32, (number % slices) as u32)
}

/// How many blocks from an index on are filled in one go: up to the next multiple of 128, since 128
/// indexes share one address block.
pub(crate) fn stretch(job: &Job, index: u32) -> u32
    requires { index < job.now.setting.segment_length }
    ensures some { 0 < result }
    ensures few { result ≤ 128 }
    ensures fits { index + result ≤ job.now.setting.segment_length }
{
    let left_here = ADDRESSES_IN_BLOCK - index % ADDRESSES_IN_BLOCK;
    let left = job.segment_length() - index;
    if left_here < left { left_here } else { left }
}
