//! Questions on the stages of a hash: which settings are rejected, the context, its job, and what
//! blocks refer to.

use crate::line::{Inputs, Words};
use crate::question::told_error;
use anyhow::{Result, anyhow, ensure};
use argon2::parts::context::{Job, first_refusal};
use argon2::parts::fill::{fill_sequential, initialize, prepare_memory};
use argon2::parts::memory::Memory;
use argon2::parts::segment::reference_positions;
use std::alloc::Global;

/// The first parameter error of settings for a password, a salt and a hash of these lengths.
pub fn first_error(alloc: Global, words: &mut Words<'_>) -> Result<String> {
    let inputs = Inputs::read(alloc, words)?;
    let (password, salt) = (words.long_number()?, words.long_number()?);
    let hash = words.long_number()?;
    match first_refusal(&inputs.own_config(), password, salt, hash) {
        None => Ok(String::from_str(alloc, "None")?),
        Some(error) => told_error(alloc, &error),
    }
}

/// What a context shows, or why there is none.
pub fn context(alloc: Global, words: &mut Words<'_>) -> Result<String> {
    let inputs = Inputs::read(alloc, words)?;
    match inputs.context() {
        Ok(context) => Ok(format!(in alloc; "{context:?}")?),
        Err(error) => told_error(alloc, &error),
    }
}

fn job_of(inputs: &Inputs) -> Result<Job> {
    match inputs.context() {
        Ok(context) => Ok(Job::new(&context)),
        Err(error) => Err(anyhow!("{error}")),
    }
}

pub fn job(alloc: Global, words: &mut Words<'_>) -> Result<String> {
    let job = job_of(&Inputs::read(alloc, words)?)?;
    Ok(format!(in alloc; "{job:?}")?)
}

/// How many blocks are written first, and then by a fill in one thread.
pub fn writes(alloc: Global, words: &mut Words<'_>) -> Result<String> {
    let inputs = Inputs::read(alloc, words)?;
    let context = match inputs.context() {
        Ok(context) => context,
        Err(error) => return told_error(alloc, &error),
    };
    let mut memory = Memory::empty(alloc);
    if let Err(error) = prepare_memory(alloc, &context, &mut memory) {
        return told_error(alloc, &error);
    }
    initialize(&context, &mut memory);
    let first = memory.writes();
    fill_sequential(&context, &mut memory);
    Ok(format!(in alloc; "{first} {}", memory.writes().wrapping_sub(first))?)
}

/// The lanes and columns that blocks of a segment refer to, from an index on.
pub fn positions(alloc: Global, words: &mut Words<'_>) -> Result<String> {
    let job = job_of(&Inputs::read(alloc, words)?)?;
    let (pass, slice, lane) = (words.number()?, words.number()?, words.number()?);
    let (first, count) = (words.number()?, words.number()?);
    ensure!(pass < job.passes() && slice < 4, "the pass or the slice");
    let positions = of_segment(alloc, &job.at(pass, slice), lane, first, count)?;
    listed(alloc, positions.as_slice())
}

/// The places that `count` blocks of a lane's segment refer to, from an index on.
fn of_segment(
    alloc: Global,
    job: &Job,
    lane: u32,
    first: u32,
    count: u32,
) -> Result<Vec<(u32, u32)>> {
    ensure!(
        lane < job.lanes() && job.is_independent(),
        "the lane or the variant"
    );
    ensure!(
        job.first_index() <= first && first <= job.segment_length(),
        "the first index"
    );
    ensure!(count <= job.segment_length() - first, "how many");
    let mut positions = vec![in alloc; (0, 0); count as usize]?;
    reference_positions(job, lane, first, positions.as_mut_slice());
    Ok(positions)
}

fn listed(alloc: Global, positions: &[(u32, u32)]) -> Result<String> {
    let mut text = String::new(alloc);
    for (lane, column) in positions {
        if !text.is_empty() {
            text.push(' ')?;
        }
        text.push_str(format!(in alloc; "{lane},{column}")?.as_str())?;
    }
    Ok(text)
}
