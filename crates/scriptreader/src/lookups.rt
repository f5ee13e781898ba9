//! What the names of a document stand for: their places among those that it declares.
ghost use Rattle.std.specs.Prelude.{◌≡◌};
ghost use Rattle.typed_values.specs.Shape.{optional_at, Gives};
ghost use Rattle.scriptreader.specs.Meaning.{slot_for, number_for, list_place_for, events_for, signals_for, remote_for, termination_for, place_for, line_options_for, ephemeral_options_for};

use crate::names::Names;
use crate::scope::Scope;
use crate::syntax::Options;
use mg_model::commands::{
    EphemeralOptions, EventsName, LineOptions, Place, RemoteOption, SignalsName, Termination,
};
use mg_names::list_places::ListPlace;
use mg_names::slots::Slot;
use typed_values::{Missing, Word};

/// The slot of a name.
pub(crate) fn slot(names: &Names, name: &Word) -> Result<Slot, Missing>
    ensures { Gives (λ slot. slot) result (slot_for names.now name.now) }
{
    let Some(place) = names.place(name.as_str()) else {
        return Err(Missing::Nothing);
    };
    match Slot::new(place) {
        Some(slot) => Ok(slot),
        None => Err(Missing::Nothing),
    }
}

/// The place of a name, as a small number.
pub(crate) fn number(names: &Names, name: &Word) -> Result<u8, Missing>
    ensures { Gives (λ number. number) result (number_for names.now name.now) }
{
    let Some(place) = names.place(name.as_str()) else {
        return Err(Missing::Nothing);
    };
    if place > 255 {
        return Err(Missing::Nothing);
    }
    Ok(place as u8)
}

/// The place of an events list of a name.
fn list_place(names: &Names, name: &Word) -> Result<ListPlace, Missing>
    ensures { Gives (λ place. place) result (list_place_for names.now name.now) }
{
    let Some(place) = names.place(name.as_str()) else {
        return Err(Missing::Nothing);
    };
    match ListPlace::new(place) {
        Some(list) => Ok(list),
        None => Err(Missing::Nothing),
    }
}

/// The place of a name, where there is a name.
pub(crate) fn number_if_given(names: &Names, name: &Option<Word>) -> Result<Option<u8>, Missing>
    ensures { Gives (λ number. number) result (optional_at (number_for names.now) name.now) }
{
    match name {
        Some(name) => Ok(Some(number(names, name)?)),
        None => Ok(None),
    }
}

fn events_name(scope: &Scope, name: &Word) -> Result<EventsName, Missing>
    ensures { Gives (λ events. events) result (events_for scope.now name.now) }
{
    match name.as_str() {
        "none" => Ok(EventsName::Empty),
        "armed" => Ok(EventsName::Armed),
        _ => Ok(EventsName::Own(list_place(&scope.events, name)?)),
    }
}

fn events_if_given(scope: &Scope, name: &Option<Word>) -> Result<Option<EventsName>, Missing>
    ensures { Gives (λ events. events) result (optional_at (events_for scope.now) name.now) }
{
    match name {
        Some(name) => Ok(Some(events_name(scope, name)?)),
        None => Ok(None),
    }
}

fn signals_name(scope: &Scope, name: &Word) -> Result<SignalsName, Missing>
    ensures { Gives (λ signals. signals) result (signals_for scope.now name.now) }
{
    match name.as_str() {
        "none" => Ok(SignalsName::Silent),
        _ => Ok(SignalsName::OwnSignals(number(&scope.signals, name)?)),
    }
}

fn signals_if_given(scope: &Scope, name: &Option<Word>) -> Result<Option<SignalsName>, Missing>
    ensures { Gives (λ signals. signals) result (optional_at (signals_for scope.now) name.now) }
{
    match name {
        Some(name) => Ok(Some(signals_name(scope, name)?)),
        None => Ok(None),
    }
}

fn remote(scope: &Scope, name: &Word) -> Result<RemoteOption, Missing>
    ensures { Gives (λ remote. remote) result (remote_for scope.now name.now) }
{
    match name.as_str() {
        "none" => Ok(RemoteOption::NoneGiven),
        _ => Ok(RemoteOption::Peer(slot(&scope.ephemerals, name)?)),
    }
}

fn remote_if_given(scope: &Scope, name: &Option<Word>) -> Result<Option<RemoteOption>, Missing>
    ensures { Gives (λ remote. remote) result (optional_at (remote_for scope.now) name.now) }
{
    match name {
        Some(name) => Ok(Some(remote(scope, name)?)),
        None => Ok(None),
    }
}

/// The options of a line.
pub(crate) fn line_options(scope: &Scope, options: &Options) -> Result<LineOptions, Missing>
    ensures { Gives (λ options. options) result (line_options_for scope.now options.now) }
{
    let events = events_if_given(scope, &options.events)?;
    let signals = signals_if_given(scope, &options.signals)?;
    Ok(LineOptions {
        mode: options.mode,
        events,
        signals,
    })
}

/// The options of an ephemeral termination.
pub(crate) fn ephemeral_options(
    scope: &Scope,
    options: &Options,
) -> Result<EphemeralOptions, Missing>
    ensures { Gives (λ options. options) result (ephemeral_options_for scope.now options.now) }
{
    let remote = remote_if_given(scope, &options.remote)?;
    Ok(EphemeralOptions {
        mode: options.mode,
        remote,
    })
}

/// The termination of a name: a line, or else an ephemeral.
pub(crate) fn termination(scope: &Scope, name: &Word) -> Result<Termination, Missing>
    ensures { Gives (λ termination. termination) result (termination_for scope.now name.now) }
{
    if scope.lines.has(name.as_str()) {
        return Ok(Termination::Line(slot(&scope.lines, name)?));
    }
    Ok(Termination::Ephemeral(slot(&scope.ephemerals, name)?))
}

/// Where a termination is looked for: the null context where no name is written.
pub(crate) fn place(scope: &Scope, name: &Option<Word>) -> Result<Place, Missing>
    ensures { Gives (λ place. place) result (place_for scope.now name.now) }
{
    match name {
        Some(name) => Ok(Place::Context(slot(&scope.contexts, name)?)),
        None => Ok(Place::NullContext),
    }
}
