//! Where the program's input comes from.
ghost use Rattle.std.specs.Prelude.{◌≡◌, ◌+◌, ◌-◌, ◌^◌, ◌<◌, ◌≤◌, ℕ, List, Option, length, IfOk, is_ok, if◌then◌else◌};
ghost use Rattle.std.specs.Io.KnownBytes.{ReadConsumes};

/// A device refused a read or a write. What the device said of it is not kept.
#[derive(Clone, Copy)]
pub struct DeviceFault;

/// A reader that tells which bytes it has left, where it knows them, and counts its faults.
pub trait Source {
    ghost remaining: { Self → Option (List ℕ) };

    ghost faults: { Self → ℕ };

    /// How many reads have failed since the source was made.
    fn faults(&self) -> u64
        ensures { result ≡ faults self.now };

    /// Reads some bytes to the front of `buffer` and says how many; none only at the end, or where
    /// the buffer has no room. A read that fails took nothing, and is not tried again.
    fn read(&mut self, buffer: &mut [u8]) -> Result<usize, DeviceFault>
        requires { faults self.old < 2 ^ 64 - 1 }
        ensures within { IfOk result (λ n. n ≤ length buffer.new) }
        ensures bytes { ReadConsumes (remaining self.old) (remaining self.new) result buffer.new }
        ensures counted { faults self.new ≡ faults self.old + (if is_ok result then 0 else 1) };
}
