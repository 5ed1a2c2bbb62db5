//! Streams that may fail, and arguments that are known.

use std::alloc::Global;
use std::env::{Env, FillError};
use std::io;
use std::io::{Error, ErrorKind, Read, Write};

/// A reader of some bytes. A broken reader returns one byte at a time and then fails, so that the
/// failure comes after other reads.
#[derive(Drop)]
pub struct Input<'a> {
    pub bytes: &'a [u8],
    pub is_broken: bool,
}

impl Read for Input<'_> {
    fn read(&mut self, buf: &mut [u8]) -> io::Result<usize> {
        if self.is_broken && self.bytes.is_empty() {
            return Err(Error::from(ErrorKind::Other));
        }
        let most = if self.is_broken { 1 } else { buf.len() };
        let count = most.min(buf.len()).min(self.bytes.len());
        let (first, others) = self.bytes.split_at(count);
        buf[..count].copy_from_slice(first);
        self.bytes = others;
        Ok(count)
    }
}

/// What is wrong with a writer.
#[derive(Clone, Copy)]
pub enum Flaw {
    None,

    /// It takes so many bytes, one at a time, and then fails. It also fails when it is flushed.
    Room(usize),

    /// It takes so many bytes, one at a time, and then none, but it reports no failure.
    Stuck(usize),

    /// It has no memory for what it is given.
    Memory,

    /// Its first write fails, for this reason.
    Write(ErrorKind),

    /// Its first flush fails, for this reason.
    Flush(ErrorKind),
}

/// A writer that takes everything, except for its flaw.
#[derive(Drop)]
pub struct Output {
    pub taken: Vec<u8>,
    flaw: Flaw,
}

impl Output {
    pub fn new(alloc: Global, flaw: Flaw) -> Output {
        let taken = Vec::new(alloc);
        Output { taken, flaw }
    }
}

impl Write for Output {
    fn write(&mut self, buf: &[u8]) -> io::Result<usize> {
        let count = match self.flaw {
            Flaw::Room(room) if self.taken.len() >= room => {
                return Err(Error::from(ErrorKind::Other));
            }
            Flaw::Stuck(room) if self.taken.len() >= room => 0,
            Flaw::Room(_) | Flaw::Stuck(_) => buf.len().min(1),
            Flaw::Memory => return Err(Error::from(ErrorKind::OutOfMemory)),
            Flaw::Write(kind) => {
                self.flaw = Flaw::None;
                return Err(Error::from(kind));
            }
            Flaw::None | Flaw::Flush(_) => buf.len(),
        };
        self.taken.extend_from_slice(&buf[..count])?;
        Ok(count)
    }

    fn flush(&mut self) -> io::Result<()> {
        match self.flaw {
            Flaw::Room(_) => Err(Error::from(ErrorKind::Other)),
            Flaw::Flush(kind) => {
                self.flaw = Flaw::None;
                Err(Error::from(kind))
            }
            _ => Ok(()),
        }
    }
}

/// A runtime whose program was started with these arguments, its name first.
#[derive(Drop)]
pub struct Started<'a>(pub &'a [Vec<u8>]);

impl Env for Started<'_> {
    fn arg(&self, i: usize, buf: &mut [u8]) -> Result<usize, FillError> {
        let Some(arg) = self.0.get(i) else {
            return Err(FillError::NotPresent);
        };
        if arg.len() > buf.len() {
            return Err(FillError::TooLong);
        }
        buf[..arg.len()].copy_from_slice(arg.as_slice());
        Ok(arg.len())
    }

    fn var(&self, _name: &str, _buf: &mut [u8]) -> Result<usize, FillError> {
        Err(FillError::NotPresent)
    }

    fn var_at(&self, _i: usize, _buf: &mut [u8]) -> Result<usize, FillError> {
        Err(FillError::NotPresent)
    }
}
