//! The streams of a connection, followed from its beginning. What is followed exists only in proofs:
//! an engine knows its source and drain by what passed them, and not by what they are made of.
ghost use Rattle.std.specs.Prelude.{◌≡◌, ◌++◌, ℕ, List, [], Option, None, Some};
ghost use Rattle.std.specs.Io.KnownBytes.{prepend_known};
ghost use Rattle.std.specs.Option.{option_and_then};
ghost use Rattle.streams.specs.Device.{device_inner, device_bytes, device_calls_left, device_has_ended, device_has_failed};

use std::io::{self, Read, Write};
use std::marker::{Brand, PhantomData};
use web::{Device, Drain, Failed, Source};

/// A connection as it begins. Each one picks it.
pub(super) trait Beginning {
    // The bytes that will be read, where they are known.
    ghost remaining: { Option (List ℕ) };

    // The bytes that were written, where they are known.
    ghost contents: { Option (List ℕ) };
}

impl Beginning for Brand {
    ghost remaining = { None };

    ghost contents = { None };
}

/// What a reader gave since the beginning.
#[derive(Drop)]
pub(super) struct Received<R: Read, B: Beginning> {
    device: Device<R>,
    of: PhantomData<B>,
    ghost given: { (all : List ℕ) → B.remaining ≡ Some all
        → prepend_known (device_bytes device) (R.remaining (device_inner device)) ≡ Some all },
}

impl<R: Read, B: Beginning> Received<R, B> {
    pub(super) fn new(reader: R) -> Received<R, B>
        requires { R.remaining reader ≡ B.remaining }
        ensures { device_bytes result.device ≡ [] }
    {
        Received {
            device: Device::new(reader),
            of: PhantomData,
        }
    }
}

impl<R: Read, B: Beginning> Source for Received<R, B> {
    ghost handed_out = { λ received. device_bytes received.device };

    ghost has_ended = { λ received. device_has_ended received.device };

    ghost has_failed = { λ received. device_has_failed received.device };

    ghost reads_left = { λ received. device_calls_left received.device };

    fn read(&mut self, buffer: &mut [u8]) -> Result<usize, Failed> {
        self.device.read(buffer)
    }
}

/// What a writer took since the beginning.
#[derive(Drop)]
pub(super) struct Sent<W: Write, B: Beginning> {
    device: Device<W>,
    of: PhantomData<B>,
    ghost taken: { (had : List ℕ) → B.contents ≡ Some had
        → W.contents (device_inner device) ≡ Some (had ++ device_bytes device) },
}

impl<W: Write, B: Beginning> Sent<W, B> {
    pub(super) fn new(writer: W) -> Sent<W, B>
        requires { W.contents writer ≡ B.contents }
        ensures { device_bytes result.device ≡ [] }
    {
        Sent {
            device: Device::new(writer),
            of: PhantomData,
        }
    }
}

impl<W: Write, B: Beginning> Drain for Sent<W, B> {
    ghost written = { λ sent. device_bytes sent.device };

    ghost has_failed = { λ sent. device_has_failed sent.device };

    fn write(&mut self, bytes: &[u8]) -> Result<usize, Failed> {
        self.device.write(bytes)
    }
}

/// A place for a reader. While it is empty, nothing is read.
#[derive(Drop)]
pub(super) struct Place<R> {
    pub(super) reader: Option<R>,
}

impl<R: Read> Read for Place<R> {
    ghost remaining = { λ place. option_and_then R.remaining place.reader };

    fn read(&mut self, buffer: &mut [u8]) -> io::Result<usize> {
        match &mut self.reader {
            Some(reader) => reader.read(buffer),
            None => Ok(0),
        }
    }
}
