//! Why nothing is shown.
use std::alloc::{AllocError, AllocFailed};

/// Why nothing is shown of an event. This profile's own.
#[derive(Clone, Copy)]
pub enum SceneFault {
    /// The gateway that goes along went another way.
    Disagree,
    /// Memory ran out.
    NoMemory,
}

impl From<AllocError> for SceneFault {
    fn from(_: AllocError) -> SceneFault {
        SceneFault::NoMemory
    }
}

impl<T: Drop> From<AllocFailed<T>> for SceneFault {
    fn from(_: AllocFailed<T>) -> SceneFault {
        SceneFault::NoMemory
    }
}
