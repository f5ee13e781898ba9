//! A gate at which two calls wait for each other.
use std::sync::atomic::{AtomicU64, Ordering};
use std::thread;

/// How often a call looks whether the other came.
const MOST_TURNS: u32 = 1_000_000;

/// Calls 1 and 2, each at its first step, mark that they came and wait for the other's mark.
#[derive(Drop)]
pub(crate) struct Meeting {
    first: AtomicU64,
    second: AtomicU64,
    late: AtomicU64,
}

impl Meeting {
    /// Nobody has come.
    pub(crate) fn new() -> Meeting {
        Meeting {
            first: AtomicU64::new(0),
            second: AtomicU64::new(0),
            late: AtomicU64::new(0),
        }
    }

    /// Whether a call went on without the other.
    pub(crate) fn was_late(&self) -> bool {
        self.late.load(Ordering::SeqCst) != 0
    }

    /// Before a step of a call: the first one of calls 1 and 2 waits.
    pub(crate) fn pass(&self, call: u32, step: usize) {
        match (call, step) {
            (1, 0) => self.wait(&self.first, &self.second),
            (2, 0) => self.wait(&self.second, &self.first),
            _ => {}
        }
    }

    /// Marks one, and waits for the other.
    fn wait(&self, own: &AtomicU64, other: &AtomicU64) {
        own.store(1, Ordering::SeqCst);
        for _ in 0..MOST_TURNS {
            if other.load(Ordering::SeqCst) != 0 {
                return;
            }
            thread::yield_now();
        }
        self.late.store(1, Ordering::SeqCst);
    }
}
