//! An input that gives a script in pieces, and may be interrupted or fail.
use std::io::{self, ErrorKind, Read};

/// An input over bytes.
#[derive(Drop)]
pub struct GivenBytes<'a> {
    /// What it has left.
    pub left: &'a [u8],
    /// So many bytes are given by one read at most.
    pub piece: usize,
    /// So many reads are interrupted first.
    pub interruptions: u64,
    /// Whether it fails behind the last byte.
    pub breaks: bool,
}

impl Read for GivenBytes<'_> {
    fn read(&mut self, buffer: &mut [u8]) -> io::Result<usize> {
        if self.interruptions > 0 {
            self.interruptions -= 1;
            return Err(io::Error::from(ErrorKind::Interrupted));
        }
        if self.breaks && self.left.is_empty() {
            return Err(io::Error::from(ErrorKind::ConnectionReset));
        }
        let count = buffer.len().min(self.left.len()).min(self.piece);
        buffer[..count].copy_from_slice(&self.left[..count]);
        self.left = &self.left[count..];
        Ok(count)
    }
}
