//! The devices of the machine: std's readers and writers, with their faults counted.
ghost use Rattle.std.specs.Prelude.{◌≡◌};

use crate::sink::Sink;
use crate::source::{DeviceFault, Source};
use std::io::{Read, Write};

/// A reader or a writer of std as a source or a sink. It tells the device's bytes where the device
/// tells them, and tries no read or write twice.
#[derive(Drop)]
pub struct Host<D> {
    device: D,
    faults: u64,
}

impl<D> Host<D> {
    /// The device, which has failed nothing so far.
    pub fn new(device: D) -> Self
        ensures device { result.device ≡ device }
        ensures fresh { result.faults ≡ 0 }
    {
        Host { device, faults: 0 }
    }
}

impl<R: Read> Source for Host<R> {
    ghost remaining = { λ host. R.remaining host.device };

    ghost faults = { λ host. host.faults };

    fn faults(&self) -> u64 {
        self.faults
    }

    fn read(&mut self, buffer: &mut [u8]) -> Result<usize, DeviceFault> {
        match self.device.read(buffer) {
            Ok(count) => Ok(count),
            Err(_) => {
                self.faults += 1;
                Err(DeviceFault)
            }
        }
    }
}

impl<W: Write> Sink for Host<W> {
    ghost contents = { λ host. W.contents host.device };

    ghost faults = { λ host. host.faults };

    fn faults(&self) -> u64 {
        self.faults
    }

    fn write(&mut self, bytes: &[u8]) -> Result<usize, DeviceFault> {
        match self.device.write(bytes) {
            Ok(count) if count > 0 || bytes.is_empty() => Ok(count),
            _ => {
                self.faults += 1;
                Err(DeviceFault)
            }
        }
    }
}
