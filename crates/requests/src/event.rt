//! What happens on the lines.
ghost use Rattle.std.specs.Prelude.{◌≡◌, ◌&&◌, is_some, [], ◌∷◌, IfOk, OnOk, OnErr};
ghost use Rattle.mg_model.specs.Gateway.{outcome_of, board_restarted};
ghost use Rattle.mg_model.specs.LineEvents.{cleared};
ghost use Rattle.mg_model.specs.Numbers.{opening_request};
ghost use Rattle.mg_model.specs.declared.transitions.EventItem.TheVariants.{OffHook};
ghost use Rattle.mg_names.specs.declared.strictness.Strict.TheVariants.{Exact};
ghost use Rattle.requests.specs.Connected.{board_in, line_in, has_line, answer_where, lines_after, lines_opened};

use crate::connections::Connections;
use line_events::{EventList, LineFault, Note};
use mg_model::line_events::{LineEvent, SignalSet};
use mg_model::transitions::EventItem;
use mg_names::identifiers::{LineNo, OPENING_REQUEST};
use mg_names::strictness::Strict;
use std::alloc::{AllocError, Global};

/// `al/of` with `strict=exact` alone.
fn opening_list(alloc: Global) -> Result<EventList, AllocError>
    ensures { IfOk result (λ list. list ≡ OffHook Exact ∷ []) }
{
    let mut items = Vec::new(alloc);
    items.push(EventItem::OffHook(Strict::Exact))?;
    Ok(EventList::new(items))
}

impl Connections {
    /// Whether an event can happen on a line: where `happen` has no fault. On a line that isn't there none can.
    pub fn can_happen(&self, line: LineNo, event: LineEvent) -> bool
        ensures { result ≡ (has_line (board_in self.now) line.0 && is_some (outcome_of (line_in self.now line.0) event)) }
    {
        match self.lines.row(line) {
            Some(row) => row.can_happen(event),
            None => false,
        }
    }

    /// An event on a line, and the note that it raises. `UnknownLine` for a line that isn't there, `CannotHappen` for an event that
    /// can't happen on the line as it is; it takes no memory.
    pub fn happen(&mut self, line: LineNo, event: LineEvent) -> Result<Option<Note>, LineFault>
        ensures answer { result ≡ answer_where (has_line (board_in self.old) line.0) (outcome_of (line_in self.old line.0) event) }
        ensures board { board_in self.new ≡ board_in self.old }
        ensures lines { line_in self.new ≡ lines_after (has_line (board_in self.old) line.0) (line_in self.old) line.0 (outcome_of (line_in self.old line.0) event) }
    {
        match event {
            LineEvent::Hook(hook) => self.lines.hook(line, hook),
            LineEvent::Flash => self.lines.flash(line),
            LineEvent::Digit(symbol) => self.lines.digit(line, symbol),
            LineEvent::Pause => self.lines.pause(line),
            LineEvent::SignalEnd(signal) => {
                self.lines.signal_end(line, signal)?;
                Ok(None)
            }
        }
    }

    /// Opens a line for a call: it is silent, and its Events descriptor is `al/of` with `strict=exact` alone, with RequestID 0; its
    /// hook state stays (this profile's own). A line that isn't there is passed over.
    pub fn open_line(&mut self, line: LineNo) -> Result<(), AllocError>
        ensures board { board_in self.new ≡ board_in self.old }
        ensures lines { OnOk result (line_in self.new ≡ lines_opened (has_line (board_in self.old) line.0) (line_in self.old) line.0) }
        ensures unchanged { OnErr result (line_in self.new ≡ line_in self.old) }
    {
        let list = opening_list(self.alloc)?;
        if let Err(LineFault::NoMemory) = self.lines.arm(line, &list, OPENING_REQUEST) {
            return Err(AllocError);
        }
        let _ = self.lines.signal(line, SignalSet::SILENT);
        Ok(())
    }

    /// A restart: every line goes to the null context, Inactive and silent, with an empty Events descriptor; contexts, ephemerals
    /// and what was cut are lost, and numbers may be given again. Hook states stay.
    pub fn restart(&mut self)
        ensures board { board_in self.new ≡ board_restarted (board_in self.old) }
        ensures lines { line_in self.new ≡ (λ l. cleared (line_in self.old l)) }
    {
        self.board.reset();
        self.lines.clear_all();
    }
}
