//! Readers and writers that fail.

use std::io;
use std::io::{Read, Write};

/// A reader that gives ten bytes, one at a time, and then an error.
#[derive(Drop)]
pub struct Failing {
    pub given: u8,
}

impl Read for Failing {
    fn read(&mut self, buf: &mut [u8]) -> io::Result<usize> {
        if self.given >= 10 {
            return Err(io::Error::from(io::ErrorKind::Interrupted));
        }
        match buf {
            [] => Ok(0),
            [first, ..] => {
                *first = b'#';
                self.given += 1;
                Ok(1)
            }
        }
    }
}

/// A writer that takes no byte.
#[derive(Drop)]
pub struct Full;

impl Write for Full {
    fn write(&mut self, _buf: &[u8]) -> io::Result<usize> {
        Err(io::Error::from(io::ErrorKind::StorageFull))
    }

    fn flush(&mut self) -> io::Result<()> {
        Ok(())
    }
}

/// A writer that takes every byte, and fails when it is flushed.
#[derive(Drop)]
pub struct Unflushed;

impl Write for Unflushed {
    fn write(&mut self, buf: &[u8]) -> io::Result<usize> {
        Ok(buf.len())
    }

    fn flush(&mut self) -> io::Result<()> {
        Err(io::Error::from(io::ErrorKind::StorageFull))
    }
}
