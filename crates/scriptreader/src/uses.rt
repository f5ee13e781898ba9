//! Whether a document uses names that it doesn't declare as what their places ask for.
ghost use Rattle.std.specs.Prelude.{◌≡◌, ◌&&◌, if◌then◌else◌};
ghost use Rattle.std.specs.List.{list_all};
ghost use Rattle.typed_values.specs.Names.{is_among};
ghost use Rattle.scriptreader.specs.Faults.{item_known, state_known, command_known, pair_known, transition_known, is_known, ephemeral_options_known, line_options_known, termination_known, options_known, option_passes, is_events_list, is_signals_list, is_remote};

use crate::scope::Scope;
use crate::syntax::{
    Document, Options, WrittenCommand, WrittenEvents, WrittenItem, WrittenPair, WrittenState,
    WrittenTransition,
};
use typed_values::Word;

/// Whether each name that the document uses is declared as what its place asks for.
pub(crate) fn knows(scope: &Scope, document: &Document) -> bool
    ensures { result ≡ (list_all (λ e. list_all (λ i. item_known scope.now i) e.items) document.now.events && list_all (λ s. state_known scope.now s) document.now.states) }
{
    knows_events(scope, document.events.as_slice())
        && knows_states(scope, document.states.as_slice())
}

fn knows_events(scope: &Scope, lists: &[WrittenEvents]) -> bool
    ensures { result ≡ list_all (λ e. list_all (λ i. item_known scope.now i) e.items) lists.now }
{
    for list in lists {
        if !knows_items(scope, list.items.as_slice()) {
            return false;
        }
    }
    true
}

fn knows_items(scope: &Scope, items: &[WrittenItem]) -> bool
    ensures { result ≡ list_all (λ i. item_known scope.now i) items.now }
{
    for item in items {
        if !knows_item(scope, item) {
            return false;
        }
    }
    true
}

#[tactic(auto, unfolding(crate::specs::Faults::item_known))]
fn knows_item(scope: &Scope, item: &WrittenItem) -> bool
    ensures { result ≡ item_known scope.now item.now }
{
    match item {
        WrittenItem::Digits(map) => scope.maps.has(map.as_str()),
        _ => true,
    }
}

fn knows_states(scope: &Scope, states: &[WrittenState]) -> bool
    ensures { result ≡ list_all (λ s. state_known scope.now s) states.now }
{
    for state in states {
        if !knows_state(scope, state) {
            return false;
        }
    }
    true
}

#[tactic(auto, unfolding(crate::specs::Faults::state_known))]
fn knows_state(scope: &Scope, state: &WrittenState) -> bool
    ensures { result ≡ state_known scope.now state.now }
{
    if !knows_commands(scope, state.commands.as_slice()) {
        return false;
    }
    if !knows_pairs(scope, state.talk.as_slice()) {
        return false;
    }
    if !knows_transitions(scope, state.on.as_slice()) {
        return false;
    }
    if !knows_target(scope, &state.ok) {
        return false;
    }
    knows_target(scope, &state.fault) && knows_target(scope, &state.timer)
}

fn knows_commands(scope: &Scope, commands: &[WrittenCommand]) -> bool
    ensures { result ≡ list_all (λ c. command_known scope.now c) commands.now }
{
    for command in commands {
        if !knows_command(scope, command) {
            return false;
        }
    }
    true
}

fn knows_pairs(scope: &Scope, pairs: &[WrittenPair]) -> bool
    ensures { result ≡ list_all (λ p. pair_known scope.now p) pairs.now }
{
    pairs.iter().all(|pair| {
        scope.lines.has(pair.first.as_str()) && scope.lines.has(pair.second.as_str())
    })
}

fn knows_transitions(scope: &Scope, transitions: &[WrittenTransition]) -> bool
    ensures { result ≡ list_all (λ t. transition_known scope.now t) transitions.now }
{
    transitions.iter().all(|t| scope.lines.has(t.line.as_str())
        && scope.states.has(t.target.as_str()))
}

fn knows_target(scope: &Scope, target: &Option<Word>) -> bool
    ensures { result ≡ is_known scope.now.states target.now }
{
    match target {
        Some(name) => scope.states.has(name.as_str()),
        None => true,
    }
}

fn knows_place(scope: &Scope, place: &Option<Word>) -> bool
    ensures { result ≡ is_known scope.now.contexts place.now }
{
    match place {
        Some(name) => scope.contexts.has(name.as_str()),
        None => true,
    }
}

#[tactic(auto, unfolding(crate::specs::Faults::command_known))]
fn knows_command(scope: &Scope, command: &WrittenCommand) -> bool
    ensures { result ≡ command_known scope.now command.now }
{
    match command {
        WrittenCommand::Add {
            context,
            own,
            name,
            options,
            ..
        } => scope.contexts.has(context.as_str())
            && knows_added(scope, *own, name.as_str(), options),
        WrittenCommand::Modify {
            place,
            name,
            options,
        } => knows_place(scope, place) && knows_options(scope, name.as_str(), options),
        WrittenCommand::Move {
            context,
            name,
            options,
        } => scope.contexts.has(context.as_str()) && knows_options(scope, name.as_str(), options),
        WrittenCommand::Subtract { context, name } => {
            scope.contexts.has(context.as_str()) && knows_termination(scope, name.as_str())
        }
        WrittenCommand::SubtractAll { context } => scope.contexts.has(context.as_str()),
        WrittenCommand::SetTopology {
            context,
            first,
            second,
            ..
        } => {
            scope.contexts.has(context.as_str())
                && knows_termination(scope, first.as_str())
                && knows_termination(scope, second.as_str())
        }
    }
}

fn knows_added(scope: &Scope, own: bool, name: &str, options: &Options) -> bool
    ensures { result ≡ (if own then is_among name.now scope.now.ephemerals && ephemeral_options_known scope.now options.now else is_among name.now scope.now.lines && line_options_known scope.now options.now) }
{
    if own {
        scope.ephemerals.has(name) && knows_ephemeral_options(scope, options)
    } else {
        scope.lines.has(name) && knows_line_options(scope, options)
    }
}

fn knows_termination(scope: &Scope, name: &str) -> bool
    ensures { result ≡ termination_known scope.now name.now }
{
    scope.lines.has(name) || scope.ephemerals.has(name)
}

fn knows_options(scope: &Scope, name: &str, options: &Options) -> bool
    ensures { result ≡ options_known scope.now name.now options.now }
{
    if scope.lines.has(name) {
        return knows_line_options(scope, options);
    }
    scope.ephemerals.has(name) && knows_ephemeral_options(scope, options)
}

fn knows_line_options(scope: &Scope, options: &Options) -> bool
    ensures { result ≡ line_options_known scope.now options.now }
{
    options.suits_line()
        && knows_events_list(scope, &options.events)
        && knows_signals_list(scope, &options.signals)
}

fn knows_ephemeral_options(scope: &Scope, options: &Options) -> bool
    ensures { result ≡ ephemeral_options_known scope.now options.now }
{
    options.suits_ephemeral() && knows_remote(scope, &options.remote)
}

fn knows_events_list(scope: &Scope, name: &Option<Word>) -> bool
    ensures { result ≡ option_passes (is_events_list scope.now) name.now }
{
    let Some(name) = name else {
        return true;
    };
    let name = name.as_str();
    name == "none" || name == "armed" || scope.events.has(name)
}

fn knows_signals_list(scope: &Scope, name: &Option<Word>) -> bool
    ensures { result ≡ option_passes (is_signals_list scope.now) name.now }
{
    let Some(name) = name else {
        return true;
    };
    let name = name.as_str();
    name == "none" || scope.signals.has(name)
}

fn knows_remote(scope: &Scope, name: &Option<Word>) -> bool
    ensures { result ≡ option_passes (is_remote scope.now) name.now }
{
    let Some(name) = name else {
        return true;
    };
    let name = name.as_str();
    name == "none" || scope.ephemerals.has(name)
}
