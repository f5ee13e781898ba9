//! Devices over memory, whose bytes are known at each moment and which fail where they are told to: at a byte, or at a call. They stand
//! beside `host`, of whose devices no bytes are known.
ghost use Rattle.std.specs.Prelude.{◌≡◌, ◌+◌, ◌-◌, ◌^◌, ◌<◌, ◌≤◌, ◌++◌, Some, length, take, drop, IfOk, is_ok, if◌then◌else◌};
ghost use Rattle.std.specs.Io.KnownBytes.{ReadConsumes, WriteAppends};
ghost use Rattle.program_rim.specs.Fused.{after_read, after_write, burnt, count_of, handed, new_sink, new_source, passed, taken, taken_into, within_reach};

use crate::sink::Sink;
use crate::source::{DeviceFault, Source};
use std::alloc::{AllocError, Global};
use std::marker::Model;

/// Where a device fails, counted from where it stands. It fails there each time from then on.
#[derive(Clone, Copy)]
pub enum Fuse {
    /// Nowhere.
    Never,
    /// Before the byte of this number, from 0: the bytes before it pass.
    AtByte(usize),
    /// In the call of this number, from 0: the calls before it go well.
    AtCall(usize),
}

impl Fuse {
    /// How many of so many bytes a call passes, or that it fails.
    fn passed(self, count: usize) -> Result<usize, DeviceFault>
        ensures { result ≡ passed self count }
    {
        match self {
            Fuse::AtByte(0) | Fuse::AtCall(0) => Err(DeviceFault),
            Fuse::AtByte(byte) => Ok(count.min(byte)),
            Fuse::AtCall(_) | Fuse::Never => Ok(count),
        }
    }

    /// How many of so many bytes a write takes into so much room, or that it fails, as it does where there is none for some bytes.
    fn taken(self, room: usize, count: usize) -> Result<usize, DeviceFault>
        ensures { result ≡ taken_into self room count }
    {
        if count > 0 && room == 0 {
            return Err(DeviceFault);
        }
        self.passed(count.min(room))
    }

    /// What is left of the fuse after a call that could pass so many bytes.
    fn burnt(self, count: usize) -> Fuse
        ensures { result ≡ burnt self count }
    {
        match self {
            Fuse::Never => Fuse::Never,
            Fuse::AtByte(byte) => Fuse::AtByte(byte.saturating_sub(count)),
            Fuse::AtCall(call) => Fuse::AtCall(call.saturating_sub(1)),
        }
    }
}

/// Bytes to be read, in pieces of a stated length at most.
#[derive(Drop)]
pub struct FusedSource<'b> {
    left: &'b [u8],
    most: usize,
    fuse: Fuse,
    faults: u64,
}

impl<'b> Model for FusedSource<'b> {
    ghost use Rattle.program_rim.specs.Fused.{SourceValue};

    ghost Value = { SourceValue };

    ghost view = { λ s. record { left = s.left.now; most = s.most; fuse = s.fuse; faults = s.faults } };
}

impl<'b> FusedSource<'b> {
    /// A source of these bytes. A read hands out `most` bytes at most, and one where `most` is 0.
    pub fn new(bytes: &'b [u8], most: usize, fuse: Fuse) -> Self
        ensures { result ≡ new_source bytes.now most fuse }
    {
        FusedSource {
            left: bytes,
            most,
            fuse,
            faults: 0,
        }
    }

    /// How many bytes a read into so much room could hand out.
    fn within(&self, room: usize) -> usize
        ensures { result ≡ within_reach self.now room }
    {
        room.min(self.left.len()).min(self.most.max(1))
    }
}

impl Source for FusedSource<'_> {
    ghost remaining = { λ source. Some source.left };

    ghost faults = { λ source. source.faults };

    fn faults(&self) -> u64 {
        self.faults
    }

    /// Hands out the front of what is left, or fails, takes nothing and leaves the buffer as it was. At the end, before its fuse, it hands out none.
    fn read(&mut self, buffer: &mut [u8]) -> Result<usize, DeviceFault>
        requires { self.old.faults < 2 ^ 64 - 1 }
        ensures within { IfOk result (λ n. n ≤ length buffer.new) }
        ensures bytes { ReadConsumes (Some self.old.left) (Some self.new.left) result buffer.new }
        ensures counted { self.new.faults ≡ self.old.faults + (if is_ok result then 0 else 1) }
        ensures exact { result ≡ handed self.old (length buffer.old) }
        ensures after { self.new ≡ after_read self.old (length buffer.old) }
        ensures buffer { buffer.new ≡ take (count_of result) self.old.left ++ drop (count_of result) buffer.old }
    {
        let count = self.within(buffer.len());
        let passed = self.fuse.passed(count);
        self.fuse = self.fuse.burnt(count);
        let Ok(count) = passed else {
            self.faults += 1;
            return Err(DeviceFault);
        };
        let (front, rest) = self.left.split_at(count);
        buffer[..count].copy_from_slice(front);
        self.left = rest;
        Ok(count)
    }
}

/// What was written, on room that was made beforehand. So no write wants memory.
#[derive(Drop)]
pub struct FusedSink {
    held: Vec<u8>,
    room: usize,
    fuse: Fuse,
    faults: u64,
}

impl Model for FusedSink {
    ghost use Rattle.std.specs.Prelude.{◌+◌, ◌≤◌, vec_len};
    ghost use Rattle.std.specs.Vec.{vec_capacity};
    ghost use Rattle.program_rim.specs.Fused.{SinkValue};

    ghost Value = { SinkValue };

    ghost view = { λ s. record { held = s.held.items; room = s.room; fuse = s.fuse; faults = s.faults } };

    ghost invariant = { λ s. vec_len s.held + s.room ≤ vec_capacity s.held };
}

impl FusedSink {
    /// A sink with room for so many bytes, which holds none. `AllocError` where there was no memory for the room.
    pub fn new(alloc: Global, room: usize, fuse: Fuse) -> Result<Self, AllocError>
        ensures { IfOk result (λ sink. sink ≡ new_sink room fuse) }
    {
        let held = Vec::with_capacity(alloc, room)?;
        Ok(FusedSink {
            held,
            room,
            fuse,
            faults: 0,
        })
    }

    /// What was written so far.
    pub fn held(&self) -> &[u8]
        ensures { result.now ≡ self.now.held }
    {
        self.held.as_slice()
    }
}

impl Sink for FusedSink {
    ghost contents = { λ sink. Some sink.held };

    ghost faults = { λ sink. sink.faults };

    fn faults(&self) -> u64 {
        self.faults
    }

    /// Takes the front of `bytes`, or fails and adds nothing. A write of some bytes fails where there is no room.
    fn write(&mut self, bytes: &[u8]) -> Result<usize, DeviceFault>
        requires { self.old.faults < 2 ^ 64 - 1 }
        ensures within { IfOk result (λ n. n ≤ length bytes.now) }
        ensures some { IfOk result (λ n. 0 < length bytes.now → 0 < n) }
        ensures bytes { WriteAppends (Some self.old.held) (Some self.new.held) result bytes.now }
        ensures counted { self.new.faults ≡ self.old.faults + (if is_ok result then 0 else 1) }
        ensures exact { result ≡ taken self.old (length bytes.now) }
        ensures after { self.new ≡ after_write self.old bytes.now }
    {
        let taken = self.fuse.taken(self.room, bytes.len());
        self.fuse = self.fuse.burnt(bytes.len().min(self.room));
        let Ok(count) = taken else {
            self.faults += 1;
            return Err(DeviceFault);
        };
        let Ok(()) = self.held.extend_from_slice(&bytes[..count]) else {
            unreachable!();
        };
        self.room -= count;
        Ok(count)
    }
}
