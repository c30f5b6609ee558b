//! Readers and writers for tests.
use std::cell::Cell;
use std::io::{Error, ErrorKind, Read, Result, Write};

/// Gives its bytes, at most `piece` of them a read, and then ends or fails. Every second call is
/// interrupted.
#[derive(Drop)]
pub struct Tape<'a> {
    pub bytes: &'a [u8],
    pub piece: usize,
    pub fails: bool,
    pub is_interrupted: bool,
}

impl Read for Tape<'_> {
    fn read(&mut self, buffer: &mut [u8]) -> Result<usize> {
        self.is_interrupted = !self.is_interrupted;
        if self.is_interrupted {
            return Err(Error::new(ErrorKind::Interrupted, "interrupted"));
        }
        if self.fails && self.bytes.is_empty() {
            return Err(Error::new(ErrorKind::ConnectionReset, "torn"));
        }
        let count = self.bytes.len().min(self.piece).min(buffer.len());
        buffer[..count].copy_from_slice(&self.bytes[..count]);
        self.bytes = &self.bytes[count..];
        Ok(count)
    }
}

/// A peer that sends its next line, which is empty, only when it has the reply to the one before.
#[derive(Drop)]
pub struct Peer {
    pub lines: Cell<usize>,
    pub sent: Cell<usize>,
    pub replies: Cell<usize>,
}

impl Read for &Peer {
    fn read(&mut self, buffer: &mut [u8]) -> Result<usize> {
        let sent = self.sent.get();
        if self.replies.get() != sent {
            return Err(Error::new(ErrorKind::TimedOut, "no reply"));
        }
        if sent >= self.lines.get() || buffer.is_empty() {
            return Ok(0);
        }
        buffer[0] = b'\n';
        self.sent.set(sent + 1);
        Ok(1)
    }
}

impl Write for &Peer {
    fn write(&mut self, bytes: &[u8]) -> Result<usize> {
        let replies = bytes.iter().filter(|byte| **byte == b'\n').count();
        self.replies.set(self.replies.get().saturating_add(replies));
        Ok(bytes.len())
    }

    fn flush(&mut self) -> Result<()> {
        Ok(())
    }
}

/// Passes at most `piece` bytes a call, and keeps those that were written.
#[derive(Drop)]
pub struct Drip {
    pub piece: usize,
    pub calls: usize,
    pub written: Vec<u8>,
}

impl Read for Drip {
    fn read(&mut self, buffer: &mut [u8]) -> Result<usize> {
        self.calls = self.calls.saturating_add(1);
        Ok(buffer.len().min(self.piece))
    }
}

impl Write for Drip {
    fn write(&mut self, bytes: &[u8]) -> Result<usize> {
        self.calls = self.calls.saturating_add(1);
        let count = bytes.len().min(self.piece);
        self.written.extend_from_slice(&bytes[..count])?;
        Ok(count)
    }

    fn flush(&mut self) -> Result<()> {
        Ok(())
    }
}
