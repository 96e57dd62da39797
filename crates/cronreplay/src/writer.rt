//! A writer that fails.

use croner_rows::{Result, number};
use serde_json::Value;
use std::alloc::Global;
use std::io;
use std::io::Write;

/// A writer that keeps what it takes, until it fails.
#[derive(Drop)]
pub struct Failing {
    pub taken: Vec<u8>,
    /// How many bytes it has room for. A write that doesn't fit fails, and so does a flush if no room is left.
    room: usize,
    /// The most bytes that one write takes.
    most: usize,
    /// How many writes succeed.
    writes: usize,
    /// How many flushes succeed.
    flushes: usize,
}

impl Failing {
    /// The writer of a question, by its members. A limit that is left out is none.
    pub fn new(alloc: Global, limits: Option<&Value>) -> Result<Failing> {
        Ok(Failing {
            taken: Vec::new(alloc),
            room: limit(limits, "room")?,
            most: limit(limits, "most")?,
            writes: limit(limits, "writes")?,
            flushes: limit(limits, "flushes")?,
        })
    }
}

fn limit(limits: Option<&Value>, name: &str) -> Result<usize> {
    match limits.and_then(|limits| limits.get(name)) {
        None => Ok(usize::MAX),
        Some(limit) => number(limit),
    }
}

impl Write for Failing {
    fn write(&mut self, bytes: &[u8]) -> io::Result<usize> {
        if self.writes == 0 {
            return Err(io::Error::from(io::ErrorKind::BrokenPipe));
        }
        if bytes.len() > self.room {
            return Err(io::Error::from(io::ErrorKind::StorageFull));
        }
        let count = bytes.len().min(self.most);
        self.writes -= 1;
        self.room -= count;
        self.taken.extend_from_slice(&bytes[..count])?;
        Ok(count)
    }

    fn flush(&mut self) -> io::Result<()> {
        if self.flushes == 0 || self.room == 0 {
            return Err(io::Error::from(io::ErrorKind::StorageFull));
        }
        self.flushes -= 1;
        Ok(())
    }
}
