//! Signals descriptors, as words such as `cg/dt+al/ri` (H.248.1 section 7.1.11).
use crate::pages::Page;
use crate::words::Words;
use mg_model::line_events::SignalSet;
use mg_names::signals::Signal;

/// The most signals that a text names.
const MOST: usize = 8;

/// A set gets one more signal.
fn add(set: &mut SignalSet, signal: Signal) {
    match signal {
        Signal::Ring => set.ring = true,
        Signal::DialTone => set.dial_tone = true,
        Signal::RingingTone => set.ringing_tone = true,
        Signal::BusyTone => set.busy_tone = true,
        Signal::CongestionTone => set.congestion_tone = true,
    }
}

/// The signals that a text names; `none` for an empty descriptor.
pub(crate) fn read(text: &str) -> Option<SignalSet> {
    let mut set = SignalSet::SILENT;
    let mut words = Words::of(if text == "none" { "" } else { text });
    for _ in 0..MOST {
        if !words.rest().is_empty() {
            match Signal::read(words.part("+")) {
                Some(signal) => add(&mut set, signal),
                None => return None,
            }
        }
    }
    Some(set)
}

/// Writes the signals that play.
pub(crate) fn write(page: &mut Page, playing: SignalSet) {
    let all = [
        (playing.ring, Signal::Ring),
        (playing.dial_tone, Signal::DialTone),
        (playing.ringing_tone, Signal::RingingTone),
        (playing.busy_tone, Signal::BusyTone),
        (playing.congestion_tone, Signal::CongestionTone),
    ];
    for (plays, signal) in all {
        if plays {
            page.say(", plays ");
            page.say(signal.text());
        }
    }
}
