//! Calls whose answer is the same in all thread modes.

use crate::line::Inputs;
use crate::question::{told_bytes, told_text, told_verdict};
use anyhow::{Result, ensure};
use argon2::{
    ThreadMode, hash_encoded, hash_encoded_sequential, hash_raw, hash_raw_sequential, verify_raw,
    verify_raw_sequential,
};
use std::alloc::Global;
use std::marker::Sync;
use std::sync::Wait;
use std::thread::Threads;

const MODES: [ThreadMode; 7] = [
    ThreadMode::Sequential,
    ThreadMode::Parallel,
    ThreadMode::AtMost(0),
    ThreadMode::AtMost(1),
    ThreadMode::AtMost(2),
    ThreadMode::AtMost(3),
    ThreadMode::AtMost(u32::MAX),
];

/// What is asked for some inputs.
#[derive(Clone, Copy)]
pub enum Asked<'a> {
    Tag,
    Text,
    /// Whether this is the tag.
    Verdict(&'a [u8]),
}

impl Asked<'_> {
    /// The answer in the mode of the inputs, or in all modes, which have to return the same.
    pub fn answer<R: Threads + Wait + Sync>(
        &self,
        rt: &R,
        alloc: Global,
        inputs: &Inputs,
    ) -> Result<String> {
        if let Some(mode) = inputs.mode {
            return self.in_mode(rt, alloc, inputs, mode);
        }
        let answered = self.by_no_mode(alloc, inputs)?;
        for mode in MODES {
            let other = self.in_mode(rt, alloc, inputs, mode)?;
            let is_same = other.as_str() == answered.as_str();
            ensure!(is_same, "{mode:?} gives another answer");
        }
        Ok(answered)
    }

    /// The answer of the call that goes by the thread mode.
    fn in_mode<R: Threads + Wait + Sync>(
        &self,
        rt: &R,
        alloc: Global,
        inputs: &Inputs,
        mode: ThreadMode,
    ) -> Result<String> {
        let (password, salt) = (inputs.password.as_slice(), inputs.salt.as_slice());
        let config = inputs.config(mode);
        match self {
            Asked::Tag => told_bytes(alloc, hash_raw(rt, alloc, password, salt, &config)),
            Asked::Text => told_text(alloc, hash_encoded(rt, alloc, password, salt, &config)),
            Asked::Verdict(hash) => {
                let verdict = verify_raw(rt, alloc, password, salt, hash, &config);
                told_verdict(alloc, verdict)
            }
        }
    }

    /// The answer of the call that works in the caller's thread in every mode.
    fn by_no_mode(&self, alloc: Global, inputs: &Inputs) -> Result<String> {
        let (password, salt) = (inputs.password.as_slice(), inputs.salt.as_slice());
        let config = inputs.config(ThreadMode::Parallel);
        match self {
            Asked::Tag => told_bytes(alloc, hash_raw_sequential(alloc, password, salt, &config)),
            Asked::Text => {
                let text = hash_encoded_sequential(alloc, password, salt, &config);
                told_text(alloc, text)
            }
            Asked::Verdict(hash) => {
                let verdict = verify_raw_sequential(alloc, password, salt, hash, &config);
                told_verdict(alloc, verdict)
            }
        }
    }
}
