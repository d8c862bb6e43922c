//! A writer that takes little at once, and fails.

use std::io;
use std::io::{ErrorKind, Write};

/// What a writer does after the bytes that it takes.
#[derive(Clone, Copy)]
pub(crate) enum Full {
    Fails,
    TakesNothing,
}

/// Takes one byte a call, and `room` bytes at most.
#[derive(Drop)]
pub(crate) struct SlowWriter {
    pub(crate) held: Vec<u8>,
    pub(crate) room: usize,
    pub(crate) full: Full,
}

impl Write for SlowWriter {
    fn write(&mut self, buf: &[u8]) -> io::Result<usize> {
        if self.room == 0 || buf.is_empty() {
            return match self.full {
                Full::Fails => Err(io::Error::from(ErrorKind::Other)),
                Full::TakesNothing => Ok(0),
            };
        }
        self.held.push(buf[0])?;
        self.room -= 1;
        Ok(1)
    }

    fn flush(&mut self) -> io::Result<()> {
        Ok(())
    }
}
