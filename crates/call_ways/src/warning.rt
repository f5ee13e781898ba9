//! What is warned of.
use mg_model::transitions::Pair;
use mg_names::kinds::Kind;
use mg_names::slots::Slot;

/// Something of a script or of its certificate that no call uses, a line that no call hears, a note that no state takes, or a command that no call gets done.
/// States, their commands, arrows (`arrows`) and entries go by their places, from 0. This profile's own.
#[derive(Clone, Copy)]
pub enum Warning {
    /// No entry is of this state.
    StateUnlisted(u8),
    /// Calls come to this state, in which none ends, and no step leads from it to another one.
    StateNeverLeft(u8),
    /// This state says where a note of this line and kind leads. Calls come to it, and none rests in it with a list for that line that raises one.
    ArrowUnused(u8, Slot, Kind),
    /// A call rests in this state, which is neither the start nor an end, with a list for this line that raises a note of this kind, and the state doesn't say
    /// where that leads: the note is used up, and nothing happens.
    NoteSwallowed(u8, Slot, Kind),
    /// Calls come to this state, and in none are the lines of this pair joined, which it marks as talking.
    MarkUnneeded(u8, Pair),
    /// A call rests in this state while this line has a list without events: nothing that its user does is heard.
    LineDeaf(u8, Slot),
    /// Calls enter this state, and the command at this place is left out of each of its requests.
    CommandUnsent(u8, usize),
    /// On this arrow the command at this place of the state that it leads to is refused, and never done.
    CommandRefused(usize, usize),
    /// This arrow leads to a state that has commands, calls go over it, and each time the request is empty.
    RequestEmpty(usize),
    /// No call comes to a point of this entry.
    EntryUnreached(usize),
    /// Each point of this entry is in another one of its state too.
    EntryHeld(usize),
    /// Calls come to some points of this entry, and not to all.
    PointUnreached(usize),
}
