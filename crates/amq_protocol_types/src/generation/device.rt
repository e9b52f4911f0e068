//! [`IoOutput`] makes an [`Output`] of an `io::Write`. It isn't a buffer: what was written stays.
//! The rows of `crates/test_calls/data/outputs.calls` test it.

ghost use Rattle.std.specs.Prelude.{◌≡◌, length, false, IsOk};
ghost use Rattle.amq_protocol_types.specs.generation.BufferOutput.{AppendsBytes, PromisesCapacity};
ghost use Rattle.amq_protocol_types.specs.generation.OutputViews.{seen_device, device_of, AppendsToDevice};

use crate::generation::{GenError, GenResult, Output};
use std::io::Write;

/// A device as an output. It isn't a buffer: what was written before an error stays written.
///
/// Its position counts the bytes of the calls of `put` that returned `Ok`.
#[derive(Drop)]
pub struct IoOutput<W: Write> {
    device: W,
    at: u64,
    faults: u64,
}

impl<W: Write> IoOutput<W> {
    /// Makes an output of the device, with nothing written and no fault counted.
    pub fn new(device: W) -> Self
        ensures device { device_of result ≡ device }
        ensures at { (seen_device W.contents result).position ≡ 0 }
        ensures faults { (seen_device W.contents result).faults ≡ 0 }
    {
        IoOutput {
            device,
            at: 0,
            faults: 0,
        }
    }

    /// Returns the device.
    pub fn into_inner(self) -> W
        ensures { result ≡ device_of self }
    {
        let IoOutput { device, .. } = self;
        device
    }
}

impl<W: Write> Output for IoOutput<W> {
    ghost is_buffer = { false };

    ghost seen = { seen_device W.contents };

    /// Writes all of `bytes` to the device.
    fn put(&mut self, bytes: &[u8]) -> GenResult
        ensures put { AppendsBytes false bytes.now
            (seen_device W.contents self.old) result (seen_device W.contents self.new) }
        ensures device { AppendsToDevice (length bytes.now)
            (seen_device W.contents self.old) result (seen_device W.contents self.new) }
    {
        let Some(end) = self.at.checked_add(bytes.len() as u64) else {
            return Err(GenError::InvalidOffset);
        };
        // no bytes are within every promise
        if bytes.is_empty() {
            return Ok(());
        }
        if let Err(e) = self.device.write_all(bytes) {
            self.faults = self.faults.saturating_add(1);
            return Err(GenError::IoError(e.kind()));
        }
        self.at = end;
        Ok(())
    }

    /// Does nothing.
    fn make_room(&mut self, n: usize) -> GenResult
        ensures made { PromisesCapacity false n
            (seen_device W.contents self.old) result (seen_device W.contents self.new) }
        ensures ok { IsOk result }
        ensures unchanged { self.new ≡ self.old }
    {
        // a device has no capacity to reserve
        Ok(())
    }

    fn position(&self) -> u64 {
        self.at
    }

    fn faults(&self) -> u64 {
        self.faults
    }
}
