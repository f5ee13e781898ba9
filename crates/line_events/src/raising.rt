//! Whether an event would raise a note, without the event.
ghost use Rattle.std.specs.Prelude.{◌≡◌};
ghost use Rattle.mg_model.specs.LineEvents.{hooked, flashed, dialled, paused};
ghost use Rattle.line_events.specs.Raising.{is_raised};

use crate::row::LineRow;
use crate::{collecting, note};
use mg_model::line_events::Hook;
use mg_names::symbols::Symbol;

impl LineRow {
    /// Whether a note is raised where the hook goes to a state (H.248.1 Annex E.9).
    pub fn hook_raises(&self, hook: Hook) -> bool
        ensures { result ≡ is_raised (hooked self.now hook) }
    {
        if self.hook_state() == hook || !self.list().has_hook(hook) {
            return false;
        }
        self.request().is_some()
    }

    /// Whether a note is raised where the user flashes the hook (Annex E.9).
    pub fn flash_raises(&self) -> bool
        ensures { result ≡ is_raised (flashed self.now) }
    {
        if self.hook_state() == Hook::On || !self.list().has_flash() {
            return false;
        }
        self.request().is_some()
    }

    /// Whether a note is raised where the user dials a symbol (Annex E.6).
    pub fn digit_raises(&self, symbol: Symbol) -> bool
        ensures { result ≡ is_raised (dialled self.now symbol) }
    {
        if self.hook_state() == Hook::On {
            return false;
        }
        let mut collector = collecting::copy(self.collector());
        let Some(step) = collecting::digit(self.list(), &mut collector, symbol) else {
            return false;
        };
        note::told(self.request(), step).is_some()
    }

    /// Whether a note is raised where the timer of the digit map ends (H.248.1 section 7.1.14).
    pub fn pause_raises(&self) -> bool
        ensures { result ≡ is_raised (paused self.now) }
    {
        if !collecting::is_active(self.collector()) {
            return false;
        }
        let mut collector = collecting::copy(self.collector());
        let Some(step) = collecting::pause(self.list(), &mut collector) else {
            return false;
        };
        note::told(self.request(), step).is_some()
    }
}
