//! Whether an event would raise a note, without the event.
ghost use Rattle.std.specs.Prelude.{◌≡◌};
ghost use Rattle.mg_model.specs.Gateway.{outcome_of};
ghost use Rattle.line_events.specs.Raising.{is_raised};
ghost use Rattle.requests.specs.Connected.{line_in};

use crate::connections::Connections;
use mg_model::line_events::LineEvent;
use mg_names::identifiers::LineNo;

impl Connections {
    /// Whether an event on a line raises a note. On a line that isn't there none does.
    pub fn raises(&self, line: LineNo, event: LineEvent) -> bool
        ensures { result ≡ is_raised (outcome_of (line_in self.now line.0) event) }
    {
        let Some(row) = self.lines.row(line) else {
            return false;
        };
        match event {
            LineEvent::Hook(hook) => row.hook_raises(hook),
            LineEvent::Flash => row.flash_raises(),
            LineEvent::Digit(symbol) => row.digit_raises(symbol),
            LineEvent::Pause => row.pause_raises(),
            LineEvent::SignalEnd(_) => false,
        }
    }
}
