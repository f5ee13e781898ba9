//! An event of a line.
ghost use Rattle.gateway.specs.Answers.{IsHappened};
ghost use Rattle.gateway.specs.Holders.{HasHolder};

use crate::fault::CannotHappen;
use crate::gateway::Gateway;
use crate::{calls, holders};
use mg_model::line_events::LineEvent;
use mg_names::identifiers::{CallNo, LAST_NUMBER, LineNo};
use requests::{LineNote, MessageId, SentNote};

/// The call that holds a line, with the number of its last note.
#[derive(Clone, Copy)]
pub(crate) struct Holder {
    call: u32,
    last: u32,
}

impl Gateway {
    /// The call that holds a line. Nothing where no call does, and where the event raises a note and no number is left for it.
    pub(crate) fn holder_for(&self, line: LineNo, event: LineEvent) -> Option<Holder>
        ensures { HasHolder self.now line.0 event result }
    {
        let Some(call) = holders::holder(&self.holders, line.0) else {
            return None;
        };
        let Some(state) = calls::call(&self.calls, call) else {
            return None;
        };
        let last = state.notes();
        if last == LAST_NUMBER && self.connections.raises(line, event) {
            return None;
        }
        Some(Holder { call, last })
    }

    /// An event of a line, and the note of it to the call that holds the line. It can't happen where no call holds the line, where the
    /// line is not so that it can, and where it raises a note and no number is left for it (this profile's own).
    pub fn happen(
        &mut self,
        line: LineNo,
        event: LineEvent,
    ) -> Result<Option<SentNote>, CannotHappen>
        ensures { IsHappened self.old line.0 event self.new result }
    {
        let Some(holder) = self.holder_for(line, event) else {
            return Err(CannotHappen);
        };
        let Ok(note) = self.connections.happen(line, event) else {
            return Err(CannotHappen);
        };
        let Some(note) = note else {
            return Ok(None);
        };
        let number = holder.last + 1;
        calls::count(&mut self.calls, holder.call, number);
        let id = MessageId {
            call: CallNo(holder.call),
            association: self.association,
            number,
        };
        Ok(Some(SentNote::new(id, LineNote { line, note })))
    }
}
