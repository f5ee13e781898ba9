//! The words by which the formats name what a configuration has. A name that the script doesn't have is `?`; what its reader accepts has each.
use mg_model::commands::{EventsName, Termination};
use mg_model::components::{Remote, Spot};
use mg_names::context_values::ContextValue;
use mg_names::modes::Mode;
use mg_names::phases::LinkPhase;
use mg_names::signals::Signal;
use mg_names::slots::Slot;
use script_table::Script;

/// What stands for a name that the script doesn't have.
pub(crate) const NO_NAME: &str = "?";

/// The name of a state.
pub fn state_name(script: &Script, state: u8) -> &str {
    match script.state(state) {
        Some(state) => state.name(),
        None => NO_NAME,
    }
}

/// The name of a line.
pub fn line_name(script: &Script, line: Slot) -> &str {
    script.line_name(line).unwrap_or(NO_NAME)
}

/// The name of a context.
pub fn context_name(script: &Script, context: Slot) -> &str {
    script.context_name(context).unwrap_or(NO_NAME)
}

/// The name of an ephemeral.
pub fn ephemeral_name(script: &Script, ephemeral: Slot) -> &str {
    script.ephemeral_name(ephemeral).unwrap_or(NO_NAME)
}

/// The name of a line or an ephemeral.
pub(crate) fn termination_name(script: &Script, termination: Termination) -> &str {
    match termination {
        Termination::Line(line) => line_name(script, line),
        Termination::Ephemeral(ephemeral) => ephemeral_name(script, ephemeral),
    }
}

/// A value of a component that has a word in every place.
pub(crate) trait Worded {
    /// The word, as a certificate of the script writes it.
    fn word<'a>(&self, script: &'a Script) -> &'a str;
}

impl Worded for LinkPhase {
    fn word<'a>(&self, _script: &'a Script) -> &'a str {
        self.text()
    }
}

impl Worded for Mode {
    fn word<'a>(&self, _script: &'a Script) -> &'a str {
        self.text()
    }
}

impl Worded for ContextValue {
    fn word<'a>(&self, _script: &'a Script) -> &'a str {
        self.text()
    }
}

impl Worded for Spot {
    fn word<'a>(&self, script: &'a Script) -> &'a str {
        match *self {
            Spot::Absent => "absent",
            Spot::Null => "-",
            Spot::In(context) => context_name(script, context),
        }
    }
}

impl Worded for EventsName {
    fn word<'a>(&self, script: &'a Script) -> &'a str {
        script.events_name(*self).unwrap_or(NO_NAME)
    }
}

impl Worded for Remote {
    fn word<'a>(&self, script: &'a Script) -> &'a str {
        match *self {
            Remote::Unset => "none",
            Remote::Gone => "gone",
            Remote::To(ephemeral) => ephemeral_name(script, ephemeral),
        }
    }
}

/// The word of whether a line may play a signal.
pub(crate) fn plays_word(plays: bool) -> &'static str {
    if plays { "may" } else { "no" }
}

/// The word of whether media is cut.
pub(crate) fn cut_word(cut: bool) -> &'static str {
    if cut { "yes" } else { "no" }
}

/// The word of a signal, without its package.
pub(crate) fn signal_word(signal: Signal) -> &'static str {
    match signal {
        Signal::Ring => "ri",
        Signal::DialTone => "dt",
        Signal::RingingTone => "rt",
        Signal::BusyTone => "bt",
        Signal::CongestionTone => "ct",
    }
}
