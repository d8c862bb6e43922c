//! A reader that gives few bytes at once.

use std::io;
use std::io::{ErrorKind, Read};

/// Gives `at_once` bytes a call at most, and after `good` bytes an error, if there are more.
#[derive(Drop)]
pub struct SlowReader<'a> {
    /// The bytes that aren't read yet.
    pub bytes: &'a [u8],
    /// How many bytes are given before the error.
    pub good: usize,
    /// How many bytes a call gives at most.
    pub at_once: usize,
}

impl Read for SlowReader<'_> {
    fn read(&mut self, buf: &mut [u8]) -> io::Result<usize> {
        if self.bytes.is_empty() {
            return Ok(0);
        }
        let most = self.at_once.min(self.good);
        let count = most.min(self.bytes.len()).min(buf.len());
        if count == 0 {
            return Err(io::Error::from(ErrorKind::Other));
        }
        let (given, rest) = self.bytes.split_at(count);
        buf[..count].copy_from_slice(given);
        self.bytes = rest;
        self.good -= count;
        Ok(count)
    }
}
