//! Readers and writers for tests.

use std::alloc::Global;
use std::io;
use std::io::{Read, Write};

/// A reader of a text in pieces, which may fail in one of its calls.
#[derive(Drop)]
pub struct Pieces<'a> {
    left: &'a [u8],
    piece: usize,
    calls: usize,
    fails_at: usize,
}

impl<'a> Pieces<'a> {
    /// A reader that gives pieces of this size.
    pub fn new(left: &'a [u8], piece: usize) -> Pieces<'a> {
        Pieces {
            left,
            piece,
            calls: 0,
            fails_at: 0,
        }
    }

    /// A reader of one byte a call, which fails in the call of this number. Calls count from 1.
    pub fn failing(left: &'a [u8], fails_at: usize) -> Pieces<'a> {
        Pieces {
            left,
            piece: 1,
            calls: 0,
            fails_at,
        }
    }

    /// How often it was called.
    pub fn calls(&self) -> usize {
        self.calls
    }
}

impl Read for Pieces<'_> {
    fn read(&mut self, buffer: &mut [u8]) -> io::Result<usize> {
        self.calls = self.calls.wrapping_add(1);
        if self.calls == self.fails_at {
            return Err(io::Error::from(io::ErrorKind::Other));
        }
        let count = self.piece.min(self.left.len()).min(buffer.len());
        let (now, later) = self.left.split_at(count);
        self.left = later;
        buffer[..count].copy_from_slice(now);
        Ok(count)
    }
}

/// A reader that gives one byte over and over, so many of them a call, and never ends.
#[derive(Drop)]
pub struct Endless {
    byte: u8,
    piece: usize,
    calls: usize,
}

impl Endless {
    /// A reader that gives so many of this byte a call.
    pub fn new(byte: u8, piece: usize) -> Endless {
        Endless {
            byte,
            piece,
            calls: 0,
        }
    }

    /// How often it was called.
    pub fn calls(&self) -> usize {
        self.calls
    }
}

impl Read for Endless {
    fn read(&mut self, buffer: &mut [u8]) -> io::Result<usize> {
        self.calls = self.calls.wrapping_add(1);
        let count = self.piece.min(buffer.len());
        buffer[..count].fill(self.byte);
        Ok(count)
    }
}

/// A writer that takes one byte a call, and fails once it has taken some.
#[derive(Drop)]
pub struct Slow {
    taken: Vec<u8>,
    most: usize,
}

impl Slow {
    /// A writer that fails once it has taken so many bytes.
    pub fn new(alloc: Global, most: usize) -> Slow {
        Slow {
            taken: Vec::new(alloc),
            most,
        }
    }

    /// What it has taken.
    pub fn taken(&self) -> &[u8] {
        self.taken.as_slice()
    }
}

impl Write for Slow {
    fn write(&mut self, bytes: &[u8]) -> io::Result<usize> {
        if self.taken.len() >= self.most {
            return Err(io::Error::from(io::ErrorKind::Other));
        }
        match bytes {
            [first, ..] => {
                self.taken.push(*first)?;
                Ok(1)
            }
            [] => Ok(0),
        }
    }

    fn flush(&mut self) -> io::Result<()> {
        Ok(())
    }
}
