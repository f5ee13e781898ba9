//! What a step of a plan came to.
use crate::idle::Idle;
use mg_model::events::Event;

/// What a step of a plan came to. This profile's own.
#[derive(Clone, Copy)]
pub enum Came {
    /// The event that it meant happened.
    Happened(Event),
    /// It was idle.
    Idle(Idle),
    /// It was a restart, of all gateways of the plan.
    Restarted,
    /// All calls ended an epoch, and all gateways restarted.
    EpochEnded,
    /// It was a step of another call, at which all gateways restarted.
    OtherRestarted,
}
