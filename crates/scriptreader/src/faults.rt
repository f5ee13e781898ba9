//! The faults of a document that are not of its shape, the lowest first.
ghost use Rattle.std.specs.Prelude.{◌≡◌, ◌++◌, List, ℕ, None, false, not, nat_lt, length, IfOk, OnOk};
ghost use Rattle.std.specs.List.{list_any, flat_map};
ghost use Rattle.typed_values.specs.Names.{each_once};
ghost use Rattle.scriptreader.specs.Limits.{is_too_large};
ghost use Rattle.scriptreader.specs.DeclaredNames.{scope_of};
ghost use Rattle.scriptreader.specs.Faults.{has_bad_name, has_duplicate, is_bad_map, has_bad_map, has_unknown, names_state, subtracts_made, makes_and_subtracts, contexts_made, ephemerals_made, has_commands, lacks_fault, has_outcome_without_commands, goes_on, is_end_that_goes_on, state_fault_of, use_fault_of, name_fault_of};

use crate::duplicates::has_duplicate;
use crate::fault::ScriptFault;
use crate::limits::is_too_large;
use crate::named::are_declarable;
use crate::names::Names;
use crate::scope::Scope;
use crate::syntax::{Document, WrittenCommand, WrittenMap, WrittenState};
use crate::uses::knows;
use digits::{DigitMap, MapFault};
use std::alloc::{AllocError, Global};
use typed_values::Word;

/// Whether a declared name may not be declared.
#[tactic(auto, unfolding(crate::specs::Faults::has_bad_name))]
fn has_bad_name(document: &Document) -> bool
    ensures { result ≡ has_bad_name document.now }
{
    if !are_declarable(document.lines.as_slice()) {
        return true;
    }
    if !are_declarable(document.contexts.as_slice()) {
        return true;
    }
    if !are_declarable(document.ephemerals.as_slice()) {
        return true;
    }
    if !are_declarable(document.events.as_slice()) {
        return true;
    }
    if !are_declarable(document.signals.as_slice()) {
        return true;
    }
    if !are_declarable(document.maps.as_slice()) {
        return true;
    }
    !are_declarable(document.states.as_slice())
}

/// Whether a map's text is no digit map.
fn is_bad_map(alloc: Global, map: &WrittenMap) -> Result<bool, AllocError>
    ensures { IfOk result (λ r. r ≡ is_bad_map map.now) }
{
    match DigitMap::parse(alloc, map.text.as_str()) {
        Ok(_) => Ok(false),
        Err(MapFault::NoMemory) => Err(AllocError),
        Err(_) => Ok(true),
    }
}

/// Whether one of these texts is no digit map.
fn one_is_bad_map(alloc: Global, maps: &[WrittenMap]) -> Result<bool, AllocError>
    ensures { IfOk result (λ r. r ≡ list_any (λ m. is_bad_map m) maps.now) }
{
    for map in maps {
        if is_bad_map(alloc, map)? {
            return Ok(true);
        }
    }
    Ok(false)
}

/// Whether one of the document's maps is no digit map.
#[tactic(auto, unfolding(crate::specs::Faults::has_bad_map))]
fn has_bad_map(alloc: Global, document: &Document) -> Result<bool, AllocError>
    ensures { IfOk result (λ r. r ≡ has_bad_map document.now) }
{
    one_is_bad_map(alloc, document.maps.as_slice())
}

fn has_commands(state: &WrittenState) -> bool
    ensures { result ≡ has_commands state.now }
{
    !state.commands.is_empty()
}

fn lacks_fault(state: &WrittenState) -> bool
    ensures { result ≡ lacks_fault state.now }
{
    has_commands(state) && state.fault.is_none()
}

fn has_outcome_without_commands(state: &WrittenState) -> bool
    ensures { result ≡ has_outcome_without_commands state.now }
{
    !has_commands(state) && (state.ok.is_some() || state.fault.is_some())
}

fn goes_on(state: &WrittenState) -> bool
    ensures { result ≡ goes_on state.now }
{
    has_commands(state)
        || state.ok.is_some()
        || state.fault.is_some()
        || state.timer.is_some()
        || !state.on.is_empty()
}

fn is_end_that_goes_on(state: &WrittenState) -> bool
    ensures { result ≡ is_end_that_goes_on state.now }
{
    state.is_end && goes_on(state)
}

/// Whether a state creates what it subtracts.
#[tactic(auto, unfolding(crate::specs::Faults::makes_and_subtracts))]
fn makes_and_subtracts(alloc: Global, state: &WrittenState) -> Result<bool, AllocError>
    ensures { IfOk result (λ r. r ≡ makes_and_subtracts state.now) }
{
    let commands = state.commands.as_slice();
    let mut contexts = Names::new(alloc);
    add_contexts(&mut contexts, commands)?;
    let mut ephemerals = Names::new(alloc);
    add_ephemerals(&mut ephemerals, commands)?;
    Ok(one_subtracts_made(&contexts, &ephemerals, commands))
}

/// Adds the context that a command creates.
fn add_context<'a>(names: &mut Names<'a>, command: &'a WrittenCommand) -> Result<(), AllocError>
    ensures { OnOk result ((rest : List (List ℕ)) → each_once names.new rest ≡ each_once names.old (contexts_made command.now ++ rest)) }
{
    let WrittenCommand::Add {
        create,
        context,
        ..
    } = command
    else {
        return Ok(());
    };
    if *create {
        let _ = names.add(context.as_str())?;
    }
    Ok(())
}

/// Adds the contexts that the commands create.
fn add_contexts<'a>(names: &mut Names<'a>, commands: &'a [WrittenCommand]) -> Result<(), AllocError>
    ensures { OnOk result (names.new ≡ each_once names.old (flat_map contexts_made commands.now)) }
{
    for command in commands {
        add_context(names, command)?;
    }
    Ok(())
}

/// Adds the ephemeral that a command creates.
fn add_ephemeral<'a>(names: &mut Names<'a>, command: &'a WrittenCommand) -> Result<(), AllocError>
    ensures { OnOk result ((rest : List (List ℕ)) → each_once names.new rest ≡ each_once names.old (ephemerals_made command.now ++ rest)) }
{
    let WrittenCommand::Add { own, name, .. } = command else {
        return Ok(());
    };
    if *own {
        let _ = names.add(name.as_str())?;
    }
    Ok(())
}

/// Adds the ephemerals that the commands create.
fn add_ephemerals<'a>(
    names: &mut Names<'a>,
    commands: &'a [WrittenCommand],
) -> Result<(), AllocError>
    ensures { OnOk result (names.new ≡ each_once names.old (flat_map ephemerals_made commands.now)) }
{
    for command in commands {
        add_ephemeral(names, command)?;
    }
    Ok(())
}

/// Whether one of the commands subtracts one of the ephemerals, or all of one of the contexts.
fn one_subtracts_made(contexts: &Names, ephemerals: &Names, commands: &[WrittenCommand]) -> bool
    ensures { result ≡ list_any (λ c. subtracts_made contexts.now ephemerals.now c) commands.now }
{
    for command in commands {
        if subtracts_made(contexts, ephemerals, command) {
            return true;
        }
    }
    false
}

/// Whether a command subtracts one of the ephemerals, or all of one of the contexts.
#[tactic(auto, unfolding(crate::specs::Faults::subtracts_made))]
fn subtracts_made(contexts: &Names, ephemerals: &Names, command: &WrittenCommand) -> bool
    ensures { result ≡ subtracts_made contexts.now ephemerals.now command.now }
{
    match command {
        WrittenCommand::Subtract { name, .. } => ephemerals.has(name.as_str()),
        WrittenCommand::SubtractAll { context } => contexts.has(context.as_str()),
        _ => false,
    }
}

/// Whether one of the states creates what it subtracts.
fn one_makes_and_subtracts(alloc: Global, states: &[WrittenState]) -> Result<bool, AllocError>
    ensures { IfOk result (λ r. r ≡ list_any (λ s. makes_and_subtracts s) states.now) }
{
    for state in states {
        if makes_and_subtracts(alloc, state)? {
            return Ok(true);
        }
    }
    Ok(false)
}

/// Whether a state has commands and no fault target.
fn one_lacks_fault(states: &[WrittenState]) -> bool
    ensures { result ≡ list_any (λ s. lacks_fault s) states.now }
{
    states.iter().any(|state| lacks_fault(state))
}

/// Whether a state without commands has a target of their outcome.
fn one_has_vain_outcome(states: &[WrittenState]) -> bool
    ensures { result ≡ list_any (λ s. has_outcome_without_commands s) states.now }
{
    states
        .iter()
        .any(|state| has_outcome_without_commands(state))
}

/// Whether an end state has commands or a target.
fn one_end_goes_on(states: &[WrittenState]) -> bool
    ensures { result ≡ list_any (λ s. is_end_that_goes_on s) states.now }
{
    states.iter().any(|state| is_end_that_goes_on(state))
}

/// The lowest fault of the states, and of the document's size.
#[tactic(auto, unfolding(crate::specs::Faults::state_fault_of))]
fn state_fault(alloc: Global, document: &Document) -> Result<Option<ScriptFault>, AllocError>
    ensures { IfOk result (λ f. f ≡ state_fault_of document.now) }
{
    let states = document.states.as_slice();
    if one_lacks_fault(states) {
        return Ok(Some(ScriptFault::NoFault));
    }
    if one_has_vain_outcome(states) {
        return Ok(Some(ScriptFault::OkWithoutActions));
    }
    if one_end_goes_on(states) {
        return Ok(Some(ScriptFault::EndWithTransitions));
    }
    if one_makes_and_subtracts(alloc, states)? {
        return Ok(Some(ScriptFault::MadeAndSubtracted));
    }
    if is_too_large(document) {
        return Ok(Some(ScriptFault::TooMany));
    }
    Ok(None)
}

/// Whether the document uses a name that isn't declared as what its place asks for.
#[tactic(auto, unfolding(crate::specs::Faults::has_unknown))]
fn has_unknown(scope: &Scope, document: &Document) -> bool
    requires { scope.now ≡ scope_of document.now }
    ensures { result ≡ has_unknown document.now }
{
    !knows(scope, document)
}

/// Whether a state is named, and is one of the document.
fn lacks_state(scope: &Scope, document: &Document, name: &Option<Word>) -> bool
    requires { scope.now ≡ scope_of document.now }
    ensures { result ≡ not (names_state document.now name.now) }
{
    match name {
        Some(name) => !scope.states.has(name.as_str()),
        None => true,
    }
}

/// The lowest fault from the names that the document uses on.
#[tactic(auto, unfolding(crate::specs::Faults::use_fault_of))]
pub fn use_fault(
    alloc: Global,
    scope: &Scope,
    document: &Document,
) -> Result<Option<ScriptFault>, AllocError>
    requires { scope.now ≡ scope_of document.now }
    ensures { IfOk result (λ f. f ≡ use_fault_of document.now) }
{
    if has_unknown(scope, document) {
        return Ok(Some(ScriptFault::Unknown));
    }
    if has_bad_map(alloc, document)? {
        return Ok(Some(ScriptFault::BadMap));
    }
    if lacks_state(scope, document, &document.start) {
        return Ok(Some(ScriptFault::NoStart));
    }
    if lacks_state(scope, document, &document.restart) {
        return Ok(Some(ScriptFault::NoRestart));
    }
    state_fault(alloc, document)
}

/// The lowest fault of the names that a document declares.
#[tactic(auto, unfolding(crate::specs::Faults::name_fault_of))]
pub fn name_fault(alloc: Global, document: &Document) -> Result<Option<ScriptFault>, AllocError>
    ensures { IfOk result (λ f. f ≡ name_fault_of document.now) }
{
    if has_bad_name(document) {
        return Ok(Some(ScriptFault::BadName));
    }
    let duplicate = has_duplicate(alloc, document)?;
    if duplicate {
        return Ok(Some(ScriptFault::Duplicate));
    }
    Ok(None)
}
