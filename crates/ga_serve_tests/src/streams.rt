//! Readers and writers in memory, which fail as a test asks; a job, its input and its output.
use ga_jobs::Job;
use std::alloc::Global;
use std::io;
use std::io::{ErrorKind, Read, Write};

/// Gives its bytes, at most a number of them at a call, and fails at one call, counted from 0.
#[derive(Drop)]
pub struct Source<'a> {
    pub bytes: &'a [u8],
    pub most: usize,
    pub fails_at: Option<u32>,
    pub kind: ErrorKind,
    pub calls: u32,
}

impl Read for Source<'_> {
    fn read(&mut self, buf: &mut [u8]) -> io::Result<usize> {
        let call = self.calls;
        self.calls = self.calls.saturating_add(1);
        if self.fails_at == Some(call) {
            return Err(self.kind.into());
        }
        let count = self.bytes.len().min(self.most).min(buf.len());
        let (front, rest) = self.bytes.split_at(count);
        buf[..count].copy_from_slice(front);
        self.bytes = rest;
        Ok(count)
    }
}

/// A source that fails at no call.
pub fn source_of(bytes: &[u8], most: usize) -> Source<'_> {
    Source {
        bytes,
        most,
        fails_at: None,
        kind: ErrorKind::Other,
        calls: 0,
    }
}

/// Is interrupted a number of times, and then gives the end.
#[derive(Drop)]
pub struct Restless {
    pub interruptions: u32,
    pub calls: u32,
}

impl Read for Restless {
    fn read(&mut self, _buf: &mut [u8]) -> io::Result<usize> {
        self.calls = self.calls.saturating_add(1);
        if self.calls > self.interruptions {
            return Ok(0);
        }
        Err(ErrorKind::Interrupted.into())
    }
}

/// Takes at most a number of bytes at a call, and fails at one call, a write or a flush.
#[derive(Drop)]
pub struct Sink {
    pub taken: Vec<u8>,
    pub most: usize,
    pub fails_at: Option<u32>,
    pub kind: ErrorKind,
    pub calls: u32,
}

impl Sink {
    fn call(&mut self) -> io::Result<()> {
        let call = self.calls;
        self.calls = self.calls.saturating_add(1);
        if self.fails_at == Some(call) {
            return Err(self.kind.into());
        }
        Ok(())
    }
}

impl Write for Sink {
    fn write(&mut self, buf: &[u8]) -> io::Result<usize> {
        self.call()?;
        let count = buf.len().min(self.most);
        self.taken.extend_from_slice(&buf[..count])?;
        Ok(count)
    }

    fn flush(&mut self) -> io::Result<()> {
        self.call()
    }
}

/// A sink that fails at no call.
pub fn sink_of(alloc: Global, most: usize) -> Sink {
    Sink {
        taken: Vec::new(alloc),
        most,
        fails_at: None,
        kind: ErrorKind::Other,
        calls: 0,
    }
}

/// Four words, a program of node 000.
pub const WORDS: &str = "04A12 00005 00003 2C9B2";

/// What `one 5` writes of them.
pub const LINE: &str =
    "node 000 P 003 A 00005 B 15D R 00000 S 00000 T 00003 C 0 io 00000 at fetch steps 5 need own\n";

/// The job `one 5`.
pub const FIVE_TRIES: Job = Job::One {
    tries: 5,
    file: None,
};
