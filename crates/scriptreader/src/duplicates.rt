//! What comes twice in a document.
ghost use Rattle.std.specs.Prelude.{◌≡◌, ◌++◌, [], false, map, IfOk};
ghost use Rattle.mg_names.specs.Words.{signal_text};
ghost use Rattle.std.specs.List.{flat_map, list_any};
ghost use Rattle.typed_values.specs.Names.{repeats_after};
ghost use Rattle.scriptreader.specs.DeclaredNames.{event_text};
ghost use Rattle.scriptreader.specs.Faults.{has_duplicate, is_loop, is_one_line, created_by, state_repeats};

use crate::named::{add_all, repeats};
use crate::names::Names;
use crate::syntax::{
    Document, WrittenCommand, WrittenEvents, WrittenPair, WrittenSignals, WrittenState,
};
use std::alloc::{AllocError, Global};
use typed_values::Word;

/// Whether something is declared, listed or created twice, or paired with itself.
#[tactic(auto, unfolding(crate::specs::Faults::has_duplicate))]
pub(crate) fn has_duplicate(alloc: Global, document: &Document) -> Result<bool, AllocError>
    ensures { IfOk result (λ r. r ≡ has_duplicate document.now) }
{
    let lines = document.lines.as_slice();
    let contexts = document.contexts.as_slice();
    let ephemerals = document.ephemerals.as_slice();
    if repeats_name(alloc, lines, contexts, ephemerals)? {
        return Ok(true);
    }
    if repeats(alloc, document.events.as_slice())? {
        return Ok(true);
    }
    if repeats(alloc, document.signals.as_slice())? {
        return Ok(true);
    }
    if repeats(alloc, document.maps.as_slice())? {
        return Ok(true);
    }
    if repeats(alloc, document.states.as_slice())? {
        return Ok(true);
    }
    if lists_event_twice(alloc, document.events.as_slice())? {
        return Ok(true);
    }
    if lists_signal_twice(alloc, document.signals.as_slice())? {
        return Ok(true);
    }
    states_repeat(alloc, document.states.as_slice())
}

/// Whether a name comes twice among lines, contexts and ephemerals.
fn repeats_name(
    alloc: Global,
    lines: &[Word],
    contexts: &[Word],
    ephemerals: &[Word],
) -> Result<bool, AllocError>
    ensures { IfOk result (λ r. r ≡ repeats_after [] (lines.now ++ (contexts.now ++ ephemerals.now))) }
{
    let mut names = Names::new(alloc);
    let first = add_all(&mut names, lines)?;
    if first {
        return Ok(true);
    }
    let second = add_all(&mut names, contexts)?;
    if second {
        return Ok(true);
    }
    let third = add_all(&mut names, ephemerals)?;
    Ok(third)
}

/// Whether an events list has an event twice.
fn lists_event_twice(alloc: Global, lists: &[WrittenEvents]) -> Result<bool, AllocError>
    ensures { IfOk result (λ r. r ≡ list_any (λ list. repeats_after [] (map event_text list.items)) lists.now) }
{
    for list in lists {
        if repeats(alloc, list.items.as_slice())? {
            return Ok(true);
        }
    }
    Ok(false)
}

/// Whether a signals list has a signal twice.
fn lists_signal_twice(alloc: Global, lists: &[WrittenSignals]) -> Result<bool, AllocError>
    ensures { IfOk result (λ r. r ≡ list_any (λ list. repeats_after [] (map signal_text list.items)) lists.now) }
{
    for list in lists {
        if repeats(alloc, list.items.as_slice())? {
            return Ok(true);
        }
    }
    Ok(false)
}

/// Whether one of the states pairs something with itself, or creates a name twice.
fn states_repeat(alloc: Global, states: &[WrittenState]) -> Result<bool, AllocError>
    ensures { IfOk result (λ r. r ≡ list_any (λ state. state_repeats state) states.now) }
{
    for state in states {
        if state_repeats(alloc, state)? {
            return Ok(true);
        }
    }
    Ok(false)
}

/// Whether a state pairs something with itself, or creates a name twice.
#[tactic(auto, unfolding(crate::specs::Faults::state_repeats))]
fn state_repeats(alloc: Global, state: &WrittenState) -> Result<bool, AllocError>
    ensures { IfOk result (λ r. r ≡ state_repeats state.now) }
{
    if pairs_itself(state.talk.as_slice()) || loops(state.commands.as_slice()) {
        return Ok(true);
    }
    creates_twice(alloc, state.commands.as_slice())
}

/// Whether a line talks with itself.
fn pairs_itself(pairs: &[WrittenPair]) -> bool
    ensures { result ≡ list_any (λ pair. is_one_line pair) pairs.now }
{
    pairs
        .iter()
        .any(|pair| pair.first.as_str() == pair.second.as_str())
}

/// Whether a topology is between a termination and itself.
fn loops(commands: &[WrittenCommand]) -> bool
    ensures { result ≡ list_any (λ command. is_loop command) commands.now }
{
    for command in commands {
        if is_loop(command) {
            return true;
        }
    }
    false
}

/// Whether a name is created twice.
fn creates_twice(alloc: Global, commands: &[WrittenCommand]) -> Result<bool, AllocError>
    ensures { IfOk result (λ r. r ≡ repeats_after [] (flat_map created_by commands.now)) }
{
    let mut names = Names::new(alloc);
    for command in commands {
        if add_created(&mut names, command)? {
            return Ok(true);
        }
    }
    Ok(false)
}

/// Adds the names that a command creates, and says whether one is there already.
fn add_created<'a>(names: &mut Names<'a>, command: &'a WrittenCommand) -> Result<bool, AllocError>
    ensures repeats { IfOk result (λ r. r ≡ repeats_after names.old (created_by command.now)) }
    ensures names { IfOk result (λ r. r ≡ false → names.new ≡ names.old ++ created_by command.now) }
{
    let WrittenCommand::Add {
        create,
        context,
        own,
        name,
        ..
    } = command
    else {
        return Ok(false);
    };
    if *create && !names.add(context.as_str())? {
        return Ok(true);
    }
    if *own && !names.add(name.as_str())? {
        return Ok(true);
    }
    Ok(false)
}

/// Whether a command is a topology between a termination and itself.
#[tactic(auto, unfolding(crate::specs::Faults::is_loop))]
fn is_loop(command: &WrittenCommand) -> bool
    ensures { result ≡ is_loop command.now }
{
    match command {
        WrittenCommand::SetTopology { first, second, .. } => first.as_str() == second.as_str(),
        _ => false,
    }
}
