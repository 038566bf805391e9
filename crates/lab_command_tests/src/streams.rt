//! Readers and writers that transfer a few bytes at a time, are interrupted, fail, or never end.

use std::alloc::Global;
use std::io::{Error, ErrorKind, Read, Result as IoResult, Write};

/// What a read that fails may tell. None of it asks for another call, as an interruption does.
pub const FAULTS: [ErrorKind; 3] = [ErrorKind::Other, ErrorKind::WouldBlock, ErrorKind::TimedOut];

/// A reader of some bytes: so many at a call, after some calls that are interrupted; each second call may be interrupted
/// too, also between the bytes; one call fails, and those behind it go on.
#[derive(Drop)]
pub struct Source<'a> {
    rest: &'a [u8],
    step: usize,
    interrupted: u32,
    fails_at: u32,
    pub interrupted_between: bool,
    pub fault: ErrorKind,
    pub calls: u32,
}

impl<'a> Source<'a> {
    pub fn new(rest: &'a [u8], step: usize, interrupted: u32, fails_at: u32) -> Source<'a> {
        Source {
            rest,
            step,
            interrupted,
            fails_at,
            interrupted_between: false,
            fault: ErrorKind::Other,
            calls: 0,
        }
    }

    /// Whether the call that is made is an interrupted one.
    fn is_interrupted(&self) -> bool {
        self.calls <= self.interrupted || (self.interrupted_between && self.calls % 2 == 0)
    }
}

impl<'a> Read for Source<'a> {
    fn read(&mut self, buf: &mut [u8]) -> IoResult<usize> {
        self.calls = self.calls.saturating_add(1);
        if self.is_interrupted() {
            return Err(Error::from(ErrorKind::Interrupted));
        }
        if self.calls == self.fails_at {
            return Err(Error::from(self.fault));
        }
        let count = self.step.min(self.rest.len()).min(buf.len());
        let (front, rest) = self.rest.split_at(count);
        buf[..count].copy_from_slice(front);
        self.rest = rest;
        Ok(count)
    }
}

/// A reader that never ends.
#[derive(Drop)]
pub struct Endless {
    pub byte: u8,
}

impl Read for Endless {
    fn read(&mut self, buf: &mut [u8]) -> IoResult<usize> {
        buf.fill(self.byte);
        Ok(buf.len())
    }
}

/// A writer that takes so many bytes at a call; one call fails, where a flush is a call too, or each flush alone does; each
/// second call that isn't a flush may be interrupted.
#[derive(Drop)]
pub struct Sink {
    pub text: Vec<u8>,
    step: usize,
    fails_at: u32,
    pub flush_fails: bool,
    pub is_interrupted: bool,
    pub calls: u32,
}

impl Sink {
    pub fn new(alloc: Global, step: usize, fails_at: u32) -> Sink {
        Sink {
            text: Vec::new(alloc),
            step,
            fails_at,
            flush_fails: false,
            is_interrupted: false,
            calls: 0,
        }
    }

    fn call(&mut self) -> IoResult<()> {
        self.calls = self.calls.saturating_add(1);
        if self.calls == self.fails_at {
            return Err(Error::from(ErrorKind::Other));
        }
        Ok(())
    }
}

impl Write for Sink {
    fn write(&mut self, buf: &[u8]) -> IoResult<usize> {
        self.call()?;
        if self.is_interrupted && self.calls % 2 == 0 {
            return Err(Error::from(ErrorKind::Interrupted));
        }
        let count = self.step.min(buf.len());
        self.text.extend_from_slice(&buf[..count])?;
        Ok(count)
    }

    fn flush(&mut self) -> IoResult<()> {
        if self.flush_fails {
            return Err(Error::from(ErrorKind::Other));
        }
        self.call()
    }
}
