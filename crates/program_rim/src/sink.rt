//! Where the program's output goes.
ghost use Rattle.std.specs.Prelude.{◌≡◌, ◌+◌, ◌-◌, ◌^◌, ◌<◌, ◌≤◌, ℕ, List, Option, length, IfOk, is_ok, if◌then◌else◌};
ghost use Rattle.std.specs.Io.KnownBytes.{WriteAppends};
ghost use Rattle.program_rim.specs.Devices.{WritesFront};

use crate::source::DeviceFault;

/// A writer that tells which bytes it holds, where it knows them, and counts its faults.
pub trait Sink {
    ghost contents: { Self → Option (List ℕ) };

    ghost faults: { Self → ℕ };

    /// How many writes have failed since the sink was made.
    fn faults(&self) -> u64
        ensures { result ≡ faults self.now };

    /// Writes some bytes from the front of `bytes` and says how many. A write that fails wrote
    /// nothing. To take none of some bytes is such a failure.
    fn write(&mut self, bytes: &[u8]) -> Result<usize, DeviceFault>
        requires { faults self.old < 2 ^ 64 - 1 }
        ensures within { IfOk result (λ n. n ≤ length bytes.now) }
        ensures some { IfOk result (λ n. 0 < length bytes.now → 0 < n) }
        ensures bytes { WriteAppends (contents self.old) (contents self.new) result bytes.now }
        ensures counted { faults self.new ≡ faults self.old + (if is_ok result then 0 else 1) };
}

/// Writes all of `text`, in as many writes as the sink wants. It stops at the first that fails.
pub fn write_all<W: Sink>(sink: &mut W, text: &[u8]) -> Result<(), DeviceFault>
    requires { W.faults sink.old < 2 ^ 64 - 1 }
    ensures bytes { WritesFront (W.contents sink.old) (W.contents sink.new) result text.now }
    ensures counted { W.faults sink.new ≡ W.faults sink.old + (if is_ok result then 0 else 1) }
{
    let mut written = 0;
    while written < text.len() {
        written += sink.write(&text[written..])?;
    }
    Ok(())
}
