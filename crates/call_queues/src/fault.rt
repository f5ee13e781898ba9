//! Why calls don't pass through the queues.
use std::alloc::{AllocError, AllocFailed};

/// Why calls don't pass through the queues. This profile's own.
#[derive(Clone, Copy)]
pub enum QueueFault {
    /// Too many places are away, one is away still, or one comes back that isn't; or a call stands in a queue still, or has no place.
    Disagree,
    /// Memory ran out.
    NoMemory,
}

impl From<AllocError> for QueueFault {
    fn from(_: AllocError) -> QueueFault {
        QueueFault::NoMemory
    }
}

impl<T: Drop> From<AllocFailed<T>> for QueueFault {
    fn from(_: AllocFailed<T>) -> QueueFault {
        QueueFault::NoMemory
    }
}
