//! A gate that stops workers at random.
use std::thread;
use std::time::Duration;

/// How long a worker is stopped at most, in microseconds.
const LONGEST: u64 = 2_000;

/// A gate at which a step in sixteen waits a while and half of the others let another thread go first. Which and how long, a seed says; which thread
/// comes next, the machine.
#[derive(Drop)]
pub(crate) struct Stopping<'r> {
    clock: &'r HostRuntime,
    seed: u64,
}

impl<'r> Stopping<'r> {
    /// The gate of a seed.
    pub(crate) fn new(clock: &'r HostRuntime, seed: u64) -> Stopping<'r> {
        Stopping { clock, seed }
    }

    /// A number for a step of a call.
    fn drawn(&self, call: u32, step: usize) -> u64 {
        let place = u64::from(call)
            .wrapping_mul(1_000_003)
            .wrapping_add(step as u64);
        let mixed = self
            .seed
            .wrapping_add(place)
            .wrapping_mul(0x9E37_79B9_7F4A_7C15);
        let mixed = (mixed ^ (mixed >> 31)).wrapping_mul(0xBF58_476D_1CE4_E5B9);
        mixed ^ (mixed >> 29)
    }

    /// Before a step of a call: it waits a while, lets another thread go first, or goes on.
    pub(crate) fn pass(&self, call: u32, step: usize) {
        let drawn = self.drawn(call, step);
        match drawn % 16 {
            0 => thread::sleep(self.clock, Duration::from_micros(drawn / 16 % LONGEST)),
            1..8 => thread::yield_now(),
            _ => {}
        }
    }
}
