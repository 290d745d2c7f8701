//! An output that has room for some bytes alone.
use std::alloc::Global;
use std::io::{self, ErrorKind, Write};

/// An output over bytes, whose writes fail once it is full.
#[derive(Drop)]
pub struct Narrow {
    bytes: Vec<u8>,
    room: usize,
}

impl Narrow {
    /// Makes a text in which nothing is written yet.
    pub fn new(alloc: Global, room: usize) -> Self {
        Narrow {
            bytes: Vec::new(alloc),
            room,
        }
    }

    /// Returns what was written.
    pub fn into_bytes(self) -> Vec<u8> {
        self.bytes
    }
}

impl Write for Narrow {
    fn write(&mut self, bytes: &[u8]) -> io::Result<usize> {
        if self.room == 0 {
            return Err(io::Error::from(ErrorKind::WriteZero));
        }
        let count = bytes.len().min(self.room);
        self.bytes.extend_from_slice(&bytes[..count])?;
        self.room -= count;
        Ok(count)
    }

    fn flush(&mut self) -> io::Result<()> {
        Ok(())
    }
}
