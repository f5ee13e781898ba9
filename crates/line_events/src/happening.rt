//! Whether an event can happen on a line, without the event.
ghost use Rattle.std.specs.Prelude.{◌≡◌, is_some};
ghost use Rattle.mg_model.specs.Gateway.{outcome_of};

use crate::row::LineRow;
use crate::{collecting, signals};
use mg_model::line_events::{Hook, LineEvent};

impl LineRow {
    /// Whether an event can happen on the line as it is (H.248.1 section 7.1.14, Annex E.6, E.7 and E.9): the hook goes to the other state, the user flashes
    /// or dials while off hook, the timer of a digit map ends that isn't completed, and a signal ends that plays.
    pub fn can_happen(&self, event: LineEvent) -> bool
        ensures { result ≡ is_some (outcome_of self.now event) }
    {
        match event {
            LineEvent::Hook(hook) => self.hook_state() != hook,
            LineEvent::Flash | LineEvent::Digit(_) => self.hook_state() != Hook::On,
            LineEvent::Pause => collecting::is_active(self.collector()),
            LineEvent::SignalEnd(signal) => signals::plays(self.playing(), signal),
        }
    }
}
