//! A writer that is interrupted, takes little at once, and fails when it is full.
use std::io::{Error, ErrorKind, Result, Write};

/// Takes `room` bytes, at most three a write, and then fails. Every second call is interrupted.
#[derive(Drop)]
pub struct Sheet {
    pub bytes: Vec<u8>,
    pub room: usize,
    pub is_interrupted: bool,
}

impl Write for Sheet {
    fn write(&mut self, bytes: &[u8]) -> Result<usize> {
        self.is_interrupted = !self.is_interrupted;
        if self.is_interrupted {
            return Err(Error::new(ErrorKind::Interrupted, "interrupted"));
        }
        if self.room == 0 {
            return Err(Error::new(ErrorKind::BrokenPipe, "full"));
        }
        let count = bytes.len().min(self.room).min(3);
        self.bytes.extend_from_slice(&bytes[..count])?;
        self.room -= count;
        Ok(count)
    }

    fn flush(&mut self) -> Result<()> {
        Ok(())
    }
}
