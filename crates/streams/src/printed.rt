//! Lines for a writer that may fail.
ghost use Rattle.std.specs.Prelude.{◌≡◌, ◌||◌, false, is_err, OnOk};
ghost use Rattle.std.specs.Io.KnownBytes.{Appends};
ghost use Rattle.streams.specs.Device.{device_has_failed, device_inner};
ghost use Rattle.streams.specs.Printed.{printed_has_failed, printed_has_lost, printed_writer};

use crate::device::Device;
use crate::stream::{Drain, Failed};
use std::io::Write;

/// A writer that lines are printed to. A line that cannot be written is lost, and the next is tried
/// all the same. Only a write that failed loses a line.
#[derive(Drop)]
pub struct Printed<'a, W> {
    device: Device<&'a mut W>,
    // Kept for proofs.
    has_lost: bool,
}

impl<'a, W: Write> Printed<'a, W> {
    /// A writer that has lost nothing.
    pub fn new(writer: &'a mut W) -> Printed<'a, W>
        ensures writer { ((device_inner result.device).ghost_name ≡ writer.entry.ghost_name)
            × (printed_writer result ≡ writer.old) }
        ensures lossless { printed_has_lost result ≡ false }
    {
        Printed {
            device: Device::new(writer),
            has_lost: false,
        }
    }

    /// Writes a line.
    pub fn print(&mut self, line: &[u8])
        // Unless a write of it failed, it came to what the writer holds, if that is known.
        ensures printed { printed_has_failed self.new ≡ false
            → Appends (W.contents (printed_writer self.old))
            (W.contents (printed_writer self.new)) line.now }
        ensures lost { printed_has_lost self.new
            ≡ (printed_has_lost self.old || printed_has_failed self.new) }
    {
        self.device.forget_failure();
        if write_whole(&mut self.device, line).is_err() {
            self.has_lost = true;
        }
    }
}

/// Writes the whole text.
fn write_whole<W: Write>(device: &mut Device<W>, text: &[u8]) -> Result<(), Failed>
    requires { device_has_failed device.old ≡ false }
    ensures writes { OnOk result (Appends (W.contents (device_inner device.old))
        (W.contents (device_inner device.new)) text.now) }
    ensures failed { device_has_failed device.new ≡ is_err result }
{
    let mut rest = text;
    while !rest.is_empty() {
        let count = device.write(rest)?;
        rest = &rest[count..];
    }
    Ok(())
}
