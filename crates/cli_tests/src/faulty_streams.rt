//! Readers and writers that transfer a few bytes at a time and fail at one of their calls.
ghost use Rattle.std.specs.Prelude.{◌≤◌, length};

use std::alloc::Global;
use std::io;
use std::io::{ErrorKind, Read, Write};

/// The limits of a reader: the greatest number of bytes that a call returns, and the number of calls before one
/// fails.
#[derive(Clone, Copy)]
pub(crate) struct Chunks {
    most: usize,
    calls: u32,
}

impl Chunks {
    pub(crate) fn whole() -> Chunks {
        Chunks::of(usize::MAX)
    }

    pub(crate) fn of(most: usize) -> Chunks {
        Chunks {
            most,
            calls: u32::MAX,
        }
    }

    pub(crate) fn failing(most: usize, calls: u32) -> Chunks {
        Chunks { most, calls }
    }
}

/// A reader that returns a text in pieces. Every third call is interrupted; such calls do not count.
#[derive(Drop)]
pub(crate) struct ChunkReader<'a> {
    rest: &'a [u8],
    pieces: Chunks,
    turn: u8,
}

impl<'a> ChunkReader<'a> {
    pub(crate) fn new(rest: &'a [u8], pieces: Chunks) -> ChunkReader<'a> {
        ChunkReader {
            rest,
            pieces,
            turn: 0,
        }
    }
}

impl Read for ChunkReader<'_> {
    fn read(&mut self, block: &mut [u8]) -> io::Result<usize> {
        if self.turn == 2 {
            self.turn = 0;
            return Err(ErrorKind::Interrupted.into());
        }
        if self.pieces.calls == 0 {
            return Err(ErrorKind::Other.into());
        }
        self.turn = self.turn.saturating_add(1);
        self.pieces.calls -= 1;
        let all = self.rest;
        let len = self.pieces.most.min(all.len()).min(block.len());
        block[..len].copy_from_slice(&all[..len]);
        self.rest = &all[len..];
        Ok(len)
    }
}

/// A writer that takes at most `most` bytes per call, and fails after `calls` calls.
#[derive(Drop)]
pub(crate) struct LimitedWriter {
    pub(crate) taken: Vec<u8>,
    most: usize,
    calls: u32,
}

impl LimitedWriter {
    pub(crate) fn whole(alloc: Global) -> LimitedWriter {
        LimitedWriter::failing(alloc, usize::MAX, u32::MAX)
    }

    pub(crate) fn failing(alloc: Global, most: usize, calls: u32) -> LimitedWriter {
        LimitedWriter {
            taken: Vec::new(alloc),
            most,
            calls,
        }
    }

    fn count(&mut self) -> io::Result<()> {
        if self.calls == 0 {
            return Err(ErrorKind::Other.into());
        }
        self.calls -= 1;
        Ok(())
    }
}

impl Write for LimitedWriter {
    fn write(&mut self, text: &[u8]) -> io::Result<usize> {
        self.count()?;
        let len = self.most.min(text.len());
        self.taken.extend_from_slice(&text[..len])?;
        Ok(len)
    }

    fn flush(&mut self) -> io::Result<()> {
        self.count()
    }
}
