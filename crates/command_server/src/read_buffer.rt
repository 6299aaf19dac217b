//! The read buffer: bytes that were read and not yet taken.
ghost use Rattle.std.specs.Prelude.{◌≡◌, ◌≤◌, ℕ, List, [], OnErr, OnOk, drop, length, slice_range, true};
ghost use Rattle.std.specs.Io.{ReadsAtMost};
ghost use Rattle.std.specs.Io.KnownBytes.{IsAtEnd, Keeps, ReadConsumes, prepend_known};
ghost use Rattle.command_server.specs.KnownInput.{Fits, InputKnowledge, left_by};

use crate::streams::{IoFault, Source};
use std::marker::Model;

/// The number of bytes in one read.
const BLOCK_LEN: usize = 8192;

/// Bytes that were read and not yet taken, in an array. Takes no other memory.
#[derive(Drop)]
pub(crate) struct ReadBuffer {
    block: [u8; 8192],
    start: usize,
    end: usize,
    ghost ordered: { start ≤ end },
    ghost within: { end ≤ 8192 },
}

impl Model for ReadBuffer {
    ghost Value = { List ℕ };

    ghost view = { λ a. slice_range a.block a.start a.end };
}

impl ReadBuffer {
    /// Returns an empty buffer.
    pub(crate) fn new() -> ReadBuffer
        ensures { result ≡ [] }
    {
        ReadBuffer {
            block: [0; BLOCK_LEN],
            start: 0,
            end: 0,
        }
    }

    /// Returns the bytes that were read and not yet taken, in order.
    pub(crate) fn as_slice(&self) -> &[u8]
        ensures { result.now ≡ self.now }
    {
        &self.block[self.start..self.end]
    }

    /// Reads once if the buffer is empty. After `Ok` it is empty only at the end of the input.
    pub(crate) fn fill<R: Source>(&mut self, reader: &mut R) -> Result<(), IoFault>
        ensures bytes { (how : InputKnowledge) → Fits R.Source how reader.new
            → Keeps (prepend_known self.old (left_by R.Source how reader.old))
            (prepend_known self.new (left_by R.Source how reader.new)) }
        ensures end { OnOk result (self.new ≡ [] → (how : InputKnowledge) → Fits R.Source how reader.new
            → IsAtEnd (left_by R.Source how reader.new)) }
        ensures fits { (how : InputKnowledge) → Fits R.Source how reader.new → Fits R.Source how reader.old }
        ensures failed { OnErr result (R.has_failed reader.new ≡ true) }
    {
        if self.start < self.end {
            return Ok(());
        }
        self.start = 0;
        self.end = 0;
        self.end = read_block(reader, &mut self.block)?;
        Ok(())
    }

    /// Removes the first `len` bytes.
    pub(crate) fn take(&mut self, len: usize)
        requires { len ≤ length self.old }
        ensures { self.new ≡ drop len self.old }
    {
        self.start += len;
    }
}

// Reads once. The contract covers both an input that is known beforehand and one known only from its reads.
fn read_block<R: Source>(reader: &mut R, block: &mut [u8]) -> Result<usize, IoFault>
    ensures bound { ReadsAtMost result block.new }
    ensures bytes { (how : InputKnowledge) → Fits R.Source how reader.new
        → ReadConsumes (left_by R.Source how reader.old) (left_by R.Source how reader.new)
        result block.new }
    ensures fits { (how : InputKnowledge) → Fits R.Source how reader.new → Fits R.Source how reader.old }
    ensures failed { OnErr result (R.has_failed reader.new ≡ true) }
{
    reader.read_some(block)
}
