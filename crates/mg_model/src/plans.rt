//! Steps of a plan, as data: a line is named by its place in the script, a message by its number.
use mg_names::signals::Signal;
use mg_names::slots::Slot;
use mg_names::symbols::Symbol;

/// A step of a call in a plan (this profile's own): what a user does on one of its lines, which of its messages is delivered, that a call
/// begins on its lines, or that the gateway restarts. Lines are places in the script, from 0.
#[derive(Clone, Copy)]
pub enum PlanStep {
    /// The line goes off hook.
    GoesOff(Slot),
    /// The line goes on hook.
    GoesOn(Slot),
    /// The user flashes the hook of the line.
    Flashes(Slot),
    /// The user dials a symbol on the line.
    Dials(Slot, Symbol),
    /// The timer of the line's digit map ends.
    Pauses(Slot),
    /// A signal on the line ends by itself.
    Ends(Slot, Signal),
    /// A request of the call reaches the gateway: the one of this number, or the latest; with a refusal at this place of its commands, from
    /// 0, if there is one.
    Executes(Option<u32>, Option<u8>),
    /// A reply reaches the call: the latest to the request of this number, or the latest of all.
    TakesReply(Option<u32>),
    /// The call goes on from a state whose request is empty.
    Passes,
    /// A note reaches the call: the one of this number, or the oldest of its association that it hasn't accepted.
    TakesNote(Option<u32>),
    /// The timer of the call's state ends.
    TimesOut,
    /// The call hears of the gateway's association.
    Hears,
    /// A call begins on the lines of this one.
    Begins,
    /// The gateway restarts.
    Restarts,
}
