//! The lines that are typed.
ghost use Rattle.std.specs.Prelude.{◌≡◌, ◌<◌, ◌≤◌, [], IfErr, IfOk, Ok, true, vec_capacity};
ghost use Rattle.std.proofs.Props.{props};
ghost use Rattle.ga_prompt.specs.Reading.{ReadFails};
ghost use Rattle.ga_prompt.specs.inner.Typed.{IsClean, IsNext, IsRead};

use crate::byte_reads::ByteReads;
use crate::request::LINE_LIMIT;
use ga_input::ServeError;
use std::alloc::{AllocError, Global};
use std::io::Read;
use std::mem::swap;

/// The line that was read, and the last one that wasn't empty. Both have room for one more byte
/// than a line may have, so that reading takes no more memory.
#[derive(Drop)]
pub(crate) struct Typed {
    pub(crate) reads: ByteReads,
    read: Vec<u8>,
    pub(crate) last: Vec<u8>,
    ghost room: { (65537 ≤ vec_capacity read) × (65537 ≤ vec_capacity last) },
    ghost clean: { IsClean last.items } by { Prim.hlevel props },
}

impl Typed {
    pub(crate) fn new(alloc: Global) -> Result<Self, AllocError>
        ensures { IfOk result (λ typed. typed.last.items ≡ []) }
    {
        Ok(Typed {
            reads: ByteReads::new(),
            read: Vec::with_capacity(alloc, LINE_LIMIT + 1)?,
            last: Vec::with_capacity(alloc, LINE_LIMIT + 1)?,
        })
    }

    /// Reads the next line, and says whether there is one. `last` is then what it asks for: the
    /// line, or the last one that wasn't empty.
    pub(crate) fn next<R: Read>(&mut self, reader: &mut R) -> Result<bool, ServeError>
        ensures next { IsNext self.old.last.items self.new.last.items
            (R.remaining reader.old) (R.remaining reader.new) result }
        ensures fewer { result ≡ Ok true → self.new.reads.left < self.old.reads.left }
        ensures fault { IfErr result (ReadFails self.new.reads) }
    {
        self.read.clear();
        let is_there = read_line(&mut self.reads, &mut self.read, reader)?;
        if !self.read.as_slice().is_empty() {
            swap(&mut self.read, &mut self.last);
        }
        Ok(is_there)
    }
}

/// Reads up to the next LF or the end into an empty line, and says whether there was a byte.
fn read_line<R: Read>(
    reads: &mut ByteReads,
    line: &mut Vec<u8>,
    reader: &mut R,
) -> Result<bool, ServeError>
    requires empty { line.old.items ≡ [] }
    requires room { 65537 ≤ vec_capacity line.old }
    ensures room { 65537 ≤ vec_capacity line.new }
    ensures clean { IsClean line.new.items }
    ensures read { IsRead line.new.items (R.remaining reader.old) (R.remaining reader.new) result }
    ensures fewer { IfOk result (λ _. reads.new.left < reads.old.left) }
    ensures fault { IfErr result (ReadFails reads.new) }
{
    let mut is_there = false;
    loop {
        let Some(byte) = reads.next_byte(reader)? else {
            return Ok(is_there);
        };
        if byte == b'\n' {
            return Ok(true);
        }
        is_there = true;
        if line.as_slice().len() <= LINE_LIMIT {
            line.push(byte).unwrap();
        }
    }
}
