//! The places of components in the words of a configuration, and what an unused slot has there.
ghost use Rattle.std.specs.Prelude.{◌≡◌, ◌+◌, ◌*◌, ◌<◌, nat_lt, if◌then◌else◌};
ghost use Rattle.configuration.specs.Places.{index_of};
ghost use Rattle.configuration.specs.Packed.{pair_place};

use mg_model::commands::{EventsName, Termination};
use mg_model::components::Spot;
use mg_names::slots::Slot;

/// The place of a termination among the eight that a script can name: lines first, then ephemerals.
pub fn place_of(termination: Termination) -> usize
    ensures value { result ≡ index_of termination }
    ensures small { result < 8 }
{
    match termination {
        Termination::Line(slot) => slot.index(),
        Termination::Ephemeral(slot) => 4 + slot.index(),
    }
}

/// Where a line that no call has used stands: in the null context, if there are so many lines.
pub fn unused_spot(line: usize, lines: usize) -> Spot
    ensures { result ≡ (if nat_lt line lines then Spot.Null else Spot.Absent) }
{
    if line < lines {
        Spot::Null
    } else {
        Spot::Absent
    }
}

/// The events list of such a line.
pub fn unused_events(line: usize, lines: usize, events: EventsName) -> EventsName
    ensures { result ≡ (if nat_lt line lines then events else EventsName.Empty) }
{
    if line < lines {
        events
    } else {
        EventsName::Empty
    }
}

/// The place of a line's fields.
pub fn line_place(line: Slot) -> u32
    ensures value { result ≡ 8 + 11 * line }
    ensures slot { line < 4 }
{
    8 + 11 * line.index() as u32
}

/// The place of an ephemeral's fields.
pub fn ephemeral_place(ephemeral: Slot) -> u32
    ensures value { result ≡ 8 * ephemeral }
    ensures slot { ephemeral < 4 }
{
    8 * ephemeral.index() as u32
}

/// The place of a context's field.
pub fn context_place(context: Slot) -> u32
    ensures value { result ≡ 52 + 2 * context }
    ensures slot { context < 4 }
{
    52 + 2 * context.index() as u32
}

/// The place of what is cut from the one to the other, both among eight.
pub fn pair_place(source: usize, sink: usize) -> u32
    requires source { source < 8 }
    requires sink { sink < 8 }
    ensures value { result ≡ pair_place source sink }
    ensures small { result < 64 }
{
    if source == sink {
        56 + source as u32
    } else if source < sink {
        7 * source as u32 + sink as u32 - 1
    } else {
        7 * source as u32 + sink as u32
    }
}
