//! What a command sets on its termination, as words such as `mode=SendOnly remote=e1 events=al/on:state+dd/ce:12|123 signals=cg/dt`.
use crate::names::Names;
use crate::signals;
use crate::words::{Words, number_behind};
use mg_model::items::{RemoteSetting, Settings};
use mg_model::line_events::SignalSet;
use mg_model::references::{EphemeralRef, RemoteRef, SettingsRef};
use mg_names::modes::Mode;

/// What the words of a command set, with its events list as it is written.
#[derive(Clone, Copy)]
pub(crate) struct Options<'a> {
    pub(crate) settings: SettingsRef,
    pub(crate) events: Option<&'a str>,
    pub(crate) signals: Option<SignalSet>,
}

/// Nothing is set.
const NOTHING: Options<'static> = Options {
    settings: SettingsRef {
        mode: None,
        remote: None,
    },
    events: None,
    signals: None,
};

/// The most words by which a command sets something.
const MOST: usize = 8;

/// The place that a word such as `@0` names: that of an earlier command of the request, from 0.
pub(crate) fn place(word: &str) -> Option<usize> {
    match number_behind(word, "@") {
        Some(place) => Some(place as usize),
        None => None,
    }
}

/// The ephemeral that a word names.
pub(crate) fn ephemeral(names: &Names, word: &str) -> Option<EphemeralRef> {
    match (place(word), names.ephemeral(word)) {
        (Some(place), _) => Some(EphemeralRef::MadeAt(place)),
        (_, Some(number)) => Some(EphemeralRef::Number(number)),
        _ => None,
    }
}

/// The Remote that a word names.
fn remote(names: &Names, word: &str) -> Option<RemoteRef> {
    match ephemeral(names, word) {
        Some(ephemeral) => Some(RemoteRef::To(ephemeral)),
        None if word == "none" => Some(RemoteRef::Nothing),
        None => None,
    }
}

/// Sets what a key with its value sets; whether it sets anything.
fn sets<'a>(names: &Names, options: &mut Options<'a>, key: &str, value: &'a str) -> bool {
    match key {
        "mode" => options.settings.mode = Mode::read(value),
        "remote" => options.settings.remote = remote(names, value),
        "signals" => options.signals = signals::read(value),
        _ => options.events = Some(value),
    }
    match key {
        "mode" => options.settings.mode.is_some(),
        "remote" => options.settings.remote.is_some(),
        "signals" => options.signals.is_some(),
        _ => key == "events",
    }
}

/// What the words of a text set.
pub(crate) fn read<'a>(names: &Names, text: &'a str) -> Option<Options<'a>> {
    let mut options = NOTHING;
    let mut words = Words::of(text);
    for _ in 0..MOST {
        if !words.rest().is_empty() {
            let key = words.part("=");
            if !sets(names, &mut options, key, words.next()) {
                return None;
            }
        }
    }
    Some(options)
}

/// What the words of a text set on the connection model, by numbers.
pub(crate) fn settings(names: &Names, text: &str) -> Option<Settings> {
    let Some(options) = read(names, text) else {
        return None;
    };
    let remote = match options.settings.remote {
        None => None,
        Some(RemoteRef::Nothing) => Some(RemoteSetting::Nothing),
        Some(RemoteRef::To(EphemeralRef::Number(number))) => {
            Some(RemoteSetting::Ephemeral(number))
        }
        Some(RemoteRef::To(EphemeralRef::MadeAt(_))) => return None,
    };
    Some(Settings {
        mode: options.settings.mode,
        remote,
    })
}
