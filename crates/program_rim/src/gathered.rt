//! Text that is gathered before it goes to a sink, since a device takes about as long for a short write as for a long one. No memory is
//! taken for it, so a text of any length is written without wanting some midway.
ghost use Rattle.std.specs.Prelude.{◌≡◌, ◌+◌, ◌-◌, ◌^◌, ◌<◌, [], ◌++◌, OnOk, is_ok, if◌then◌else◌};
ghost use Rattle.program_rim.specs.Devices.{Passes};

use crate::sink::{Sink, write_all};
use crate::source::DeviceFault;
use arrayvec::ArrayString;
use std::marker::Model;

/// Text on its way to a sink: what isn't written yet, 4 KiB at most.
#[derive(Drop)]
pub struct Gathered {
    kept: ArrayString<4096>,
}

impl Model for Gathered {
    ghost use Rattle.std.specs.Prelude.{ℕ, List};

    ghost Value = { List ℕ };

    ghost view = { λ g. g.kept.bytes };
}

impl Gathered {
    /// Nothing is gathered so far.
    pub fn new() -> Self
        ensures { result ≡ [] }
    {
        Gathered {
            kept: ArrayString::new(),
        }
    }

    /// Writes what is gathered. Where a write fails, some front of it was written.
    pub fn flush<W: Sink>(&mut self, sink: &mut W) -> Result<(), DeviceFault>
        requires { W.faults sink.old < 2 ^ 64 - 1 }
        ensures bytes { Passes (W.contents sink.old) (W.contents sink.new) self.old result self.new }
        ensures none { OnOk result (self.new ≡ []) }
        ensures counted { W.faults sink.new ≡ W.faults sink.old + (if is_ok result then 0 else 1) }
    {
        write_all(sink, self.kept.as_str().as_bytes())?;
        self.kept.clear();
        Ok(())
    }

    /// Puts a text behind what is gathered. Where there is no room for it, all is written, and where a write fails, some front of it was.
    pub fn put<W: Sink>(&mut self, sink: &mut W, text: &str) -> Result<(), DeviceFault>
        requires { W.faults sink.old < 2 ^ 64 - 1 }
        ensures bytes { Passes (W.contents sink.old) (W.contents sink.new) (self.old ++ text.now) result self.new }
        ensures counted { W.faults sink.new ≡ W.faults sink.old + (if is_ok result then 0 else 1) }
    {
        if text.len() > self.kept.remaining_capacity() {
            self.flush(sink)?;
            return write_all(sink, text.as_bytes());
        }
        self.kept.push_str(text);
        Ok(())
    }

    /// Puts two texts behind what is gathered, one after the other.
    pub fn put_two<W: Sink>(
        &mut self,
        sink: &mut W,
        first: &str,
        second: &str,
    ) -> Result<(), DeviceFault>
        requires { W.faults sink.old < 2 ^ 64 - 1 }
        ensures bytes { Passes (W.contents sink.old) (W.contents sink.new) (self.old ++ (first.now ++ second.now)) result self.new }
        ensures counted { W.faults sink.new ≡ W.faults sink.old + (if is_ok result then 0 else 1) }
    {
        self.put(sink, first)?;
        self.put(sink, second)
    }
}
