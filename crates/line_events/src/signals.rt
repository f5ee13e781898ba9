//! Signals that play.
ghost use Rattle.std.specs.Prelude.{◌≡◌};
ghost use Rattle.mg_model.specs.LineEvents.{plays, without_signal};

use mg_model::line_events::SignalSet;
use mg_names::signals::Signal;

/// Whether a signal plays.
pub(crate) fn plays(set: SignalSet, signal: Signal) -> bool
    ensures { result ≡ plays set signal }
{
    match signal {
        Signal::Ring => set.ring,
        Signal::DialTone => set.dial_tone,
        Signal::RingingTone => set.ringing_tone,
        Signal::BusyTone => set.busy_tone,
        Signal::CongestionTone => set.congestion_tone,
    }
}

/// The signals without one of them.
pub(crate) fn without(set: SignalSet, signal: Signal) -> SignalSet
    ensures { result ≡ without_signal set signal }
{
    match signal {
        Signal::Ring => SignalSet { ring: false, ..set },
        Signal::DialTone => SignalSet {
            dial_tone: false,
            ..set
        },
        Signal::RingingTone => SignalSet {
            ringing_tone: false,
            ..set
        },
        Signal::BusyTone => SignalSet {
            busy_tone: false,
            ..set
        },
        Signal::CongestionTone => SignalSet {
            congestion_tone: false,
            ..set
        },
    }
}
