use mg_names::signals::Signal;
use mg_names::symbols::Symbol;

/// The hook state of a line (H.248.1 Annex E.9).
#[derive(Clone, Copy, PartialEq, Eq)]
pub enum Hook {
    /// On hook.
    On,
    /// Off hook.
    Off,
}

/// How a digit map was completed: the parameter `Meth` of `dd/ce` (H.248.1 Annex E.6).
#[derive(Clone, Copy)]
pub enum Method {
    /// UM: no other alternative is left, and this one is matched.
    Unambiguous,
    /// FM: an alternative is matched, and no more can be.
    Full,
    /// PM: none is matched.
    Partial,
}

/// The signals that play on a line (H.248.1 Annex E.7 and E.9).
#[derive(Clone, Copy, PartialEq, Eq)]
pub struct SignalSet {
    /// `al/ri`.
    pub ring: bool,
    /// `cg/dt`.
    pub dial_tone: bool,
    /// `cg/rt`.
    pub ringing_tone: bool,
    /// `cg/bt`.
    pub busy_tone: bool,
    /// `cg/ct`.
    pub congestion_tone: bool,
}

impl SignalSet {
    /// No signal.
    pub const SILENT: SignalSet = SignalSet {
        ring: false,
        dial_tone: false,
        ringing_tone: false,
        busy_tone: false,
        congestion_tone: false,
    };
}

/// What happens on a line.
#[derive(Clone, Copy, PartialEq, Eq)]
pub enum LineEvent {
    /// The hook goes to a state (H.248.1 Annex E.9).
    Hook(Hook),
    /// The user flashes the hook (Annex E.9).
    Flash,
    /// The user dials a symbol (Annex E.6).
    Digit(Symbol),
    /// The timer of the digit map ends (H.248.1 section 7.1.14).
    Pause,
    /// A signal that plays ends, at any moment (this profile's own).
    SignalEnd(Signal),
}
