//! What is so of a telephone where calls rest in a state.
ghost use Rattle.std.specs.Prelude.{◌≡◌, ◌↔◌, ◌<◌, ◌++◌, ◌∷◌, ℕ, [], IfOk, IsTrue, OnOk, Some, length, slice_get};
ghost use Rattle.mg_model.specs.Paths.{HasPath};
ghost use Rattle.mg_model.specs.Tables.{items_of};
ghost use Rattle.configuration.specs.Config.{configuration_of};
ghost use Rattle.call_ends.specs.Spreading.{Adds, IsAmong, IsHeard, IsLifted, IsOnce, IsSilent, IsTold, RestsIn, RestsSo, point_of, points_of};
ghost use Rattle.call_ends.specs.Telephones.{IsHeardAt, IsHeardDown, IsInSilence, hears_down, hears_lifted};

use crate::following::Node;
use crate::notes::has_standing;
use call_ways::has_path;
use configuration::config::Config;
use mg_model::line_events::SignalSet;
use mg_names::kinds::Kind;
use mg_names::phases::LinkPhase;
use mg_names::slots::Slot;
use script_table::Script;
use std::alloc::{AllocError, Global};

/// Whether a call rests in a state.
fn rests_in(node: &Node, state: u8) -> bool
    ensures { IsTrue result ↔ RestsIn state (point_of node.now) }
{
    if node.config.state() != state {
        return false;
    }
    node.config.link() == LinkPhase::Resting
}

// ---- what the line was given last

/// Whether the set at a place of some is this one.
fn is_at(sets: &[SignalSet], place: usize, set: SignalSet) -> bool
    ensures { IsTrue result ↔ slice_get sets.now place ≡ Some set }
{
    let Some(other) = sets.get(place) else {
        return false;
    };
    *other == set
}

/// Whether a set is among some.
fn is_among(sets: &[SignalSet], set: SignalSet) -> bool
    ensures { IsTrue result ↔ IsAmong sets.now set }
{
    for place in 0..sets.len() {
        if is_at(sets, place, set) {
            return true;
        }
    }
    false
}

/// Adds a set behind the others.
fn push(sets: &mut Vec<SignalSet>, set: SignalSet) -> Result<(), AllocError>
    ensures { OnOk result (sets.new.items ≡ sets.old.items ++ set ∷ []) }
{
    sets.extend_from_slice(&[set])
}

/// Adds a set behind the others, if it isn't there yet.
fn add_set(sets: &mut Vec<SignalSet>, set: SignalSet) -> Result<(), AllocError>
    requires once { IsOnce sets.old.items }
    ensures once { OnOk result (IsOnce sets.new.items) }
    ensures adds { OnOk result (Adds (λ other. other ≡ set) sets.old.items sets.new.items) }
{
    if is_among(sets.as_slice(), set) {
        return Ok(());
    }
    push(sets, set)
}

/// Adds what the line of a node was given last, where it rests in a state.
fn add_told(sets: &mut Vec<SignalSet>, node: &Node, state: u8) -> Result<(), AllocError>
    requires once { IsOnce sets.old.items }
    ensures once { OnOk result (IsOnce sets.new.items) }
    ensures adds { OnOk result (Adds (λ set. RestsIn state (point_of node.now) × IsTold set (point_of node.now)) sets.old.items sets.new.items) }
{
    if !rests_in(node, state) {
        return Ok(());
    }
    add_set(sets, node.phone.told)
}

/// What the line was given last where calls rest in a state, each set once. The only error is running out of memory.
pub(crate) fn told_in(
    alloc: Global,
    nodes: &[Node],
    state: u8,
) -> Result<Vec<SignalSet>, AllocError>
    ensures told { IfOk result (λ sets. Adds (λ set. RestsSo (IsTold set) (points_of nodes.now) state) [] sets.items) }
    ensures once { IfOk result (λ sets. IsOnce sets.items) }
{
    let mut sets = Vec::new(alloc);
    for node in nodes {
        add_told(&mut sets, node, state)?;
    }
    Ok(sets)
}

// ---- its receiver

/// Whether a call rests in a state with the receiver lifted.
fn rests_lifted(node: &Node, state: u8) -> bool
    ensures { IsTrue result ↔ (RestsIn state (point_of node.now) × IsLifted (point_of node.now)) }
{
    if !node.phone.lifted {
        return false;
    }
    rests_in(node, state)
}

/// Whether some call does.
pub(crate) fn is_lifted_in(nodes: &[Node], state: u8) -> bool
    ensures { IsTrue result ↔ RestsSo IsLifted (points_of nodes.now) state }
{
    for node in nodes {
        if rests_lifted(node, state) {
            return true;
        }
    }
    false
}

/// Whether something is raised of what can be done with a lifted receiver, or of its being lifted.
fn hears_lifted(script: &Script, config: &Config, line: Slot) -> bool
    ensures { result ≡ hears_lifted (items_of script.now ((configuration_of config.now).events line)) }
{
    script.raises(config.events(line), Kind::On)
        || script.raises(config.events(line), Kind::Fl)
        || script.raises(config.events(line), Kind::Full)
        || script.raises(config.events(line), Kind::Part)
        || has_standing(script.list(config.events(line)), Kind::Of)
}

/// Whether some line is heard at a line.
fn hears_any(script: &Script, config: &Config, line: Slot) -> bool
    ensures { IsTrue result ↔ ((j : ℕ) × ((j < length script.now.lines) × HasPath (configuration_of config.now) j line)) }
{
    let slots = Slot::all();
    for place in 0..script.lines() {
        if has_path(config, slots[place], line) {
            return true;
        }
    }
    false
}

/// Whether the receiver is lifted, no line is heard there and nothing that can be done with the receiver is raised. A tone does not count: it may end by itself.
fn is_in_silence(script: &Script, line: Slot, node: &Node) -> bool
    ensures { IsTrue result ↔ IsInSilence script.now line (configuration_of node.now.config) node.now.phone }
{
    if !node.phone.lifted {
        return false;
    }
    if hears_lifted(script, &node.config, line) {
        return false;
    }
    !hears_any(script, &node.config, line)
}

/// Whether a call rests in a state so.
fn rests_silent(script: &Script, line: Slot, node: &Node, state: u8) -> bool
    ensures { IsTrue result ↔ (RestsIn state (point_of node.now) × IsSilent script.now line (point_of node.now)) }
{
    if !rests_in(node, state) {
        return false;
    }
    is_in_silence(script, line, node)
}

/// Whether some call does.
pub(crate) fn is_silent_in(script: &Script, line: Slot, nodes: &[Node], state: u8) -> bool
    ensures { IsTrue result ↔ RestsSo (IsSilent script.now line) (points_of nodes.now) state }
{
    for node in nodes {
        if rests_silent(script, line, node, state) {
            return true;
        }
    }
    false
}

// ---- what is said there while it is down

/// Whether what is said at a line is heard at this other one.
fn is_heard_at(config: &Config, line: Slot, other: Slot) -> bool
    ensures { IsTrue result ↔ IsHeardAt (configuration_of config.now) line other }
{
    if other == line {
        return false;
    }
    has_path(config, line, other)
}

/// Whether it is heard at some other line.
fn is_heard(script: &Script, config: &Config, line: Slot) -> bool
    ensures { IsTrue result ↔ ((j : ℕ) × ((j < length script.now.lines) × IsHeardAt (configuration_of config.now) line j)) }
{
    let slots = Slot::all();
    for place in 0..script.lines() {
        if is_heard_at(config, line, slots[place]) {
            return true;
        }
    }
    false
}

/// Whether it leads on that the receiver lies down, since the line's list recognises that as it stands.
fn hears_down(script: &Script, config: &Config, line: Slot) -> bool
    ensures { result ≡ hears_down script.now line (configuration_of config.now) }
{
    has_standing(script.list(config.events(line)), Kind::On)
        && script.target_of(config.state(), line, Kind::On).is_some()
}

/// Whether the receiver is down, nothing comes of that, and another line hears what is said there.
fn is_heard_down(script: &Script, line: Slot, node: &Node) -> bool
    ensures { IsTrue result ↔ IsHeardDown script.now line (configuration_of node.now.config) node.now.phone }
{
    if node.phone.lifted {
        return false;
    }
    if hears_down(script, &node.config, line) {
        return false;
    }
    is_heard(script, &node.config, line)
}

/// Whether a call rests in a state so.
fn rests_heard(script: &Script, line: Slot, node: &Node, state: u8) -> bool
    ensures { IsTrue result ↔ (RestsIn state (point_of node.now) × IsHeard script.now line (point_of node.now)) }
{
    if !rests_in(node, state) {
        return false;
    }
    is_heard_down(script, line, node)
}

/// Whether some call does.
pub(crate) fn is_heard_in(script: &Script, line: Slot, nodes: &[Node], state: u8) -> bool
    ensures { IsTrue result ↔ RestsSo (IsHeard script.now line) (points_of nodes.now) state }
{
    for node in nodes {
        if rests_heard(script, line, node, state) {
            return true;
        }
    }
    false
}
