//! The numbers that stand for the values of components in a packed configuration, each way.
ghost use Rattle.std.specs.Prelude.{◌≡◌, ◌≤◌, ◌<◌};
ghost use Rattle.configuration.specs.Codes.{link_code, link_at, mode_code, mode_at, context_code, context_at, flag_code, flag_at, events_code, events_at, line_spot_code, line_spot_at, ephemeral_spot_code, ephemeral_spot_at, remote_code, remote_at};

use mg_model::commands::EventsName;
use mg_model::components::{Remote, Spot};
use mg_names::context_values::ContextValue;
use mg_names::list_places::ListPlace;
use mg_names::modes::Mode;
use mg_names::phases::LinkPhase;
use mg_names::slots::Slot;

/// The number of a link.
pub fn link_code(link: LinkPhase) -> u64
    ensures value { result ≡ link_code link }
    ensures small { result < 4 }
    ensures back { link_at (link_code link) ≡ link }
{
    match link {
        LinkPhase::Sent => 0,
        LinkPhase::Answered => 1,
        LinkPhase::Failed => 2,
        LinkPhase::Resting => 3,
    }
}

/// The link of a number.
pub fn link_at(code: u64) -> LinkPhase
    ensures { result ≡ link_at code }
{
    match code {
        0 => LinkPhase::Sent,
        1 => LinkPhase::Answered,
        2 => LinkPhase::Failed,
        _ => LinkPhase::Resting,
    }
}

/// The number of a mode.
pub fn mode_code(mode: Mode) -> u64
    ensures value { result ≡ mode_code mode }
    ensures small { result < 4 }
    ensures back { mode_at (mode_code mode) ≡ mode }
{
    match mode {
        Mode::Inactive => 0,
        Mode::SendOnly => 1,
        Mode::ReceiveOnly => 2,
        Mode::SendReceive => 3,
    }
}

/// The mode of a number.
pub fn mode_at(code: u64) -> Mode
    ensures { result ≡ mode_at code }
{
    match code {
        0 => Mode::Inactive,
        1 => Mode::SendOnly,
        2 => Mode::ReceiveOnly,
        _ => Mode::SendReceive,
    }
}

/// The number of what a context name stands for.
pub fn context_code(value: ContextValue) -> u64
    ensures value { result ≡ context_code value }
    ensures small { result ≤ 2 }
    ensures back { context_at (context_code value) ≡ value }
{
    match value {
        ContextValue::Free => 0,
        ContextValue::Live => 1,
        ContextValue::Stale => 2,
    }
}

/// What a context name stands for, of its number.
pub fn context_at(code: u64) -> ContextValue
    ensures { result ≡ context_at code }
{
    match code {
        0 => ContextValue::Free,
        1 => ContextValue::Live,
        _ => ContextValue::Stale,
    }
}

/// The number of a flag.
pub fn flag_code(flag: bool) -> u64
    ensures value { result ≡ flag_code flag }
    ensures small { result < 2 }
    ensures back { flag_at (flag_code flag) ≡ flag }
{
    if flag { 1 } else { 0 }
}

/// The flag of a number.
pub fn flag_at(code: u64) -> bool
    ensures { result ≡ flag_at code }
{
    code != 0
}

/// The number of an events list.
pub fn events_code(events: EventsName) -> u64
    ensures value { result ≡ events_code events }
    ensures small { result ≤ 17 }
    ensures back { events_at (events_code events) ≡ events }
{
    match events {
        EventsName::Empty => 0,
        EventsName::Armed => 1,
        EventsName::Own(list) => list.index() as u64 + 2,
    }
}

/// The events list of a number.
pub fn events_at(code: u64) -> EventsName
    ensures { result ≡ events_at code }
{
    match code {
        0 => EventsName::Empty,
        1 => EventsName::Armed,
        _ => match ListPlace::new(code as usize - 2) {
            Some(list) => EventsName::Own(list),
            None => EventsName::Empty,
        },
    }
}

/// The number of where a line stands.
pub fn line_spot_code(spot: Spot) -> u64
    ensures value { result ≡ line_spot_code spot }
    ensures small { result ≤ 5 }
    ensures back { line_spot_at (line_spot_code spot) ≡ spot }
{
    match spot {
        Spot::Null => 0,
        Spot::In(context) => context.index() as u64 + 1,
        Spot::Absent => 5,
    }
}

/// Where a line stands, of its number.
pub fn line_spot_at(code: u64) -> Spot
    ensures { result ≡ line_spot_at code }
{
    match code {
        0 => Spot::Null,
        _ => match Slot::new(code as usize - 1) {
            Some(context) => Spot::In(context),
            None => Spot::Absent,
        },
    }
}

/// The number of where an ephemeral stands.
pub fn ephemeral_spot_code(spot: Spot) -> u64
    ensures value { result ≡ ephemeral_spot_code spot }
    ensures small { result ≤ 5 }
    ensures back { ephemeral_spot_at (ephemeral_spot_code spot) ≡ spot }
{
    match spot {
        Spot::Absent => 0,
        Spot::In(context) => context.index() as u64 + 1,
        Spot::Null => 5,
    }
}

/// Where an ephemeral stands, of its number.
pub fn ephemeral_spot_at(code: u64) -> Spot
    ensures { result ≡ ephemeral_spot_at code }
{
    match code {
        0 => Spot::Absent,
        _ => match Slot::new(code as usize - 1) {
            Some(context) => Spot::In(context),
            None => Spot::Null,
        },
    }
}

/// The number of a Remote.
pub fn remote_code(remote: Remote) -> u64
    ensures value { result ≡ remote_code remote }
    ensures small { result ≤ 5 }
    ensures back { remote_at (remote_code remote) ≡ remote }
{
    match remote {
        Remote::Unset => 0,
        Remote::Gone => 1,
        Remote::To(peer) => peer.index() as u64 + 2,
    }
}

/// The Remote of a number.
pub fn remote_at(code: u64) -> Remote
    ensures { result ≡ remote_at code }
{
    match code {
        0 => Remote::Unset,
        1 => Remote::Gone,
        _ => match Slot::new(code as usize - 2) {
            Some(peer) => Remote::To(peer),
            None => Remote::Unset,
        },
    }
}
