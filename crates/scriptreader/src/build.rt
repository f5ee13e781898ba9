//! The table that a document means. Where the document has no fault, each look-up here finds what it looks for.
ghost use Rattle.std.specs.Prelude.{◌≡◌, IfOk, map, string_bytes};
ghost use Rattle.typed_values.specs.Shape.{each, Gives};
ghost use Rattle.scriptreader.specs.Meaning.{pair_for, transition_for, state_for, item_for, events_list_for, signals_list_for, named_map_for, if_read, state_at, script_in};
ghost use Rattle.digits.specs.Reading.{map_of};

use crate::limits::is_too_large;
use crate::lookups::{number, number_if_given, slot};
use crate::requests::commands;
use crate::scope::Scope;
use crate::syntax::{
    Document, WrittenEvents, WrittenItem, WrittenMap, WrittenPair, WrittenSignal, WrittenSignals,
    WrittenState, WrittenTransition,
};
use digits::{DigitMap, MapFault};
use mg_model::transitions::{EventItem, Pair, Transition};
use mg_names::signals::Signal;
use script_table::{EventsList, NamedMap, Script, SignalsList, State, Tables};
use std::alloc::{AllocError, Global};
use typed_values::{Missing, Word};

#[tactic(auto, unfolding(crate::specs::Meaning::pair_for))]
fn pair(scope: &Scope, written: &WrittenPair) -> Result<Pair, Missing>
    ensures { Gives (λ pair. pair) result (pair_for scope.now written.now) }
{
    let first = slot(&scope.lines, &written.first)?;
    let second = slot(&scope.lines, &written.second)?;
    Ok(Pair { first, second })
}

fn pairs(alloc: Global, scope: &Scope, written: &[WrittenPair]) -> Result<Vec<Pair>, Missing>
    ensures { Gives (λ pairs. pairs.items) result (each (pair_for scope.now) written.now) }
{
    let mut found = Vec::new(alloc);
    for one in written {
        found.push(pair(scope, one)?)?;
    }
    Ok(found)
}

#[tactic(auto, unfolding(crate::specs::Meaning::transition_for))]
fn transition(scope: &Scope, written: &WrittenTransition) -> Result<Transition, Missing>
    ensures { Gives (λ transition. transition) result (transition_for scope.now written.now) }
{
    let line = slot(&scope.lines, &written.line)?;
    let target = number(&scope.states, &written.target)?;
    Ok(Transition {
        line,
        kind: written.kind,
        target,
    })
}

fn transitions(
    alloc: Global,
    scope: &Scope,
    written: &[WrittenTransition],
) -> Result<Vec<Transition>, Missing>
    ensures { Gives (λ transitions. transitions.items) result (each (transition_for scope.now) written.now) }
{
    let mut found = Vec::new(alloc);
    for one in written {
        found.push(transition(scope, one)?)?;
    }
    Ok(found)
}

#[tactic(auto, unfolding(crate::specs::Meaning::state_for))]
fn state(alloc: Global, scope: &Scope, written: &WrittenState) -> Result<State, Missing>
    ensures { Gives (λ state. state) result (state_for scope.now written.now) }
{
    let commands = commands(alloc, scope, written.commands.as_slice())?;
    let talk = pairs(alloc, scope, written.talk.as_slice())?;
    let ok = number_if_given(&scope.states, &written.ok)?;
    let fault = number_if_given(&scope.states, &written.fault)?;
    let timer = number_if_given(&scope.states, &written.timer)?;
    let on = transitions(alloc, scope, written.on.as_slice())?;
    let name = text(alloc, &written.name)?;
    Ok(State {
        name,
        commands,
        talk,
        is_end: written.is_end,
        ok,
        fault,
        timer,
        on,
    })
}

fn states(alloc: Global, scope: &Scope, written: &[WrittenState]) -> Result<Vec<State>, Missing>
    ensures { Gives (λ states. states.items) result (each (state_for scope.now) written.now) }
{
    let mut found = Vec::new(alloc);
    for one in written {
        found.push(state(alloc, scope, one)?)?;
    }
    Ok(found)
}

fn text(alloc: Global, word: &Word) -> Result<String, AllocError>
    ensures { IfOk result (λ text. string_bytes text ≡ word.now) }
{
    String::from_str(alloc, word.as_str())
}

fn texts(alloc: Global, words: &[Word]) -> Result<Vec<String>, AllocError>
    ensures { IfOk result (λ texts. map (λ text. string_bytes text) texts.items ≡ words.now) }
{
    let mut found = Vec::new(alloc);
    for word in words {
        found.push(text(alloc, word)?)?;
    }
    Ok(found)
}

#[tactic(auto, unfolding(crate::specs::Meaning::item_for))]
fn item(scope: &Scope, written: &WrittenItem) -> Result<EventItem<u8>, Missing>
    ensures { Gives (λ item. item) result (item_for scope.now written.now) }
{
    match written {
        WrittenItem::OnHook(strict) => Ok(EventItem::OnHook(*strict)),
        WrittenItem::OffHook(strict) => Ok(EventItem::OffHook(*strict)),
        WrittenItem::Flash => Ok(EventItem::Flash),
        WrittenItem::Digits(map) => Ok(EventItem::Digits(number(&scope.maps, map)?)),
    }
}

fn items(
    alloc: Global,
    scope: &Scope,
    written: &[WrittenItem],
) -> Result<Vec<EventItem<u8>>, Missing>
    ensures { Gives (λ items. items.items) result (each (item_for scope.now) written.now) }
{
    let mut found = Vec::new(alloc);
    for one in written {
        let item = item(scope, one)?;
        found.extend_from_slice(&[item])?;
    }
    Ok(found)
}

#[tactic(auto, unfolding(crate::specs::Meaning::events_list_for))]
fn events_list(alloc: Global, scope: &Scope, written: &WrittenEvents) -> Result<EventsList, Missing>
    ensures { Gives (λ list. list) result (events_list_for scope.now written.now) }
{
    let items = items(alloc, scope, written.items.as_slice())?;
    let name = text(alloc, &written.name)?;
    Ok(EventsList { name, items })
}

fn events_lists(
    alloc: Global,
    scope: &Scope,
    written: &[WrittenEvents],
) -> Result<Vec<EventsList>, Missing>
    ensures { Gives (λ lists. lists.items) result (each (events_list_for scope.now) written.now) }
{
    let mut found = Vec::new(alloc);
    for one in written {
        found.push(events_list(alloc, scope, one)?)?;
    }
    Ok(found)
}

fn signals(alloc: Global, written: &[WrittenSignal]) -> Result<Vec<Signal>, AllocError>
    ensures { IfOk result (λ signals. signals.items ≡ written.now) }
{
    let mut found = Vec::new(alloc);
    for one in written {
        found.push(one.signal)?;
    }
    Ok(found)
}

fn signals_list(alloc: Global, written: &WrittenSignals) -> Result<SignalsList, AllocError>
    ensures { IfOk result (λ list. list ≡ signals_list_for written.now) }
{
    let name = text(alloc, &written.name)?;
    let items = signals(alloc, written.items.as_slice())?;
    Ok(SignalsList { name, items })
}

fn signals_lists(alloc: Global, written: &[WrittenSignals]) -> Result<Vec<SignalsList>, AllocError>
    ensures { IfOk result (λ lists. lists.items ≡ map signals_list_for written.now) }
{
    let mut found = Vec::new(alloc);
    for one in written {
        found.push(signals_list(alloc, one)?)?;
    }
    Ok(found)
}

fn digit_map(alloc: Global, text: &Word) -> Result<DigitMap, Missing>
    ensures { Gives (λ found. found) result (if_read (map_of text.now)) }
{
    match DigitMap::parse(alloc, text.as_str()) {
        Ok(map) => Ok(map),
        Err(MapFault::NoMemory) => Err(Missing::Memory),
        Err(_) => Err(Missing::Nothing),
    }
}

#[tactic(auto, unfolding(crate::specs::Meaning::named_map_for))]
fn named_map(alloc: Global, written: &WrittenMap) -> Result<NamedMap, Missing>
    ensures { Gives (λ found. found) result (named_map_for written.now) }
{
    let map = digit_map(alloc, &written.text)?;
    let name = text(alloc, &written.name)?;
    Ok(NamedMap { name, map })
}

fn named_maps(alloc: Global, written: &[WrittenMap]) -> Result<Vec<NamedMap>, Missing>
    ensures { Gives (λ found. found.items) result (each named_map_for written.now) }
{
    let mut found = Vec::new(alloc);
    for one in written {
        found.push(named_map(alloc, one)?)?;
    }
    Ok(found)
}

/// The state that a document opens or restarts in.
fn named_state(scope: &Scope, name: &Option<Word>) -> Result<u8, Missing>
    ensures { Gives (λ number. number) result (state_at scope.now name.now) }
{
    match name {
        Some(name) => number(&scope.states, name),
        None => Err(Missing::Nothing),
    }
}

/// The table of a document, whose names are these.
#[tactic(auto, unfolding(crate::specs::Meaning::script_in))]
pub fn script_in(alloc: Global, scope: &Scope, document: &Document) -> Result<Script, Missing>
    ensures { Gives (λ script. script) result (script_in scope.now document.now) }
{
    if is_too_large(document) {
        return Err(Missing::Nothing);
    }
    let lists = events_lists(alloc, scope, document.events.as_slice())?;
    let maps = named_maps(alloc, document.maps.as_slice())?;
    let states = states(alloc, scope, document.states.as_slice())?;
    let start = named_state(scope, &document.start)?;
    let restart = named_state(scope, &document.restart)?;
    let signals = signals_lists(alloc, document.signals.as_slice())?;
    let lines = texts(alloc, document.lines.as_slice())?;
    let contexts = texts(alloc, document.contexts.as_slice())?;
    let ephemerals = texts(alloc, document.ephemerals.as_slice())?;
    Ok(Script::new(Tables {
        lines,
        contexts,
        ephemerals,
        lists,
        signals,
        maps,
        states,
        start,
        restart,
    }))
}
