//! The obligations of a single configuration.
ghost use Rattle.std.specs.Prelude.{◌≡◌, ℕ, ◌<◌, ◌≤◌, ◌↔◌, ◌&&◌, ◌||◌, not, nat_lt, ◌==◌, length, ◌∷◌, [], IsTrue};
ghost use Rattle.std.specs.List.{list_all};
ghost use Rattle.mg_model.specs.Tables.{state_of, items_of, is_armed_list, is_marked};
ghost use Rattle.mg_model.specs.Steps.{names_unbound};
ghost use Rattle.mg_model.specs.Obligations.{JoinedAreMarked, IsCleared, EndedIsCleared, CreatedAreUnbound, IsLive, NamesAreLive};
ghost use Rattle.mg_names.specs.declared.context_values.ContextValue.TheVariants as ContextValue;
ghost use Rattle.mg_model.specs.declared.components.Remote.TheVariants as Remote;
ghost use Rattle.configuration.specs.Config.{configuration_of};
ghost use Rattle.configuration.specs.Search.{IsWays};
ghost use Rattle.closure.specs.Tests.{PairBelowIsMarked, line_is_cleared, ephemeral_is_absent, context_stands, remote_stands};

use crate::requests::are_names_unbound;
use configuration::config::Config;
use configuration::config::paths::Ways;
use configuration::spots;
use configuration::well_formed::at_rest;
use mg_model::commands::Termination;
use mg_model::components::Remote;
use mg_model::transitions::{EventItem, Pair};
use mg_names::context_values::ContextValue;
use mg_names::phases::LinkPhase;
use mg_names::slots::Slot;
use mg_names::strictness::Strict;
use script_table::Script;

/// Whether a state marks two lines, in either order.
pub fn is_marked(talk: &[Pair], one: Slot, other: Slot) -> bool
    ensures { result ≡ is_marked talk.now one other }
{
    talk.iter().any(|pair| {
        pair.first.index() == one.index() && pair.second.index() == other.index()
            || pair.first.index() == other.index() && pair.second.index() == one.index()
    })
}

/// Whether two lines are marked in the configuration's state, if they are two of the script that are joined.
fn pair_below_is_marked(
    script: &Script,
    config: &Config,
    ways: Ways,
    lines: usize,
    one: Slot,
    other: Slot,
) -> bool
    requires ways { IsWays (configuration_of config.now) ways }
    ensures { IsTrue result ↔ PairBelowIsMarked script.now (configuration_of config.now) lines one other }
{
    if one.index() >= lines || other.index() >= lines {
        return true;
    }
    if !ways.join(one, other) {
        return true;
    }
    is_marked(script.talk_of(config.state()), one, other)
}

/// Whether a line is marked with each line that it is joined with.
fn line_is_marked(script: &Script, config: &Config, ways: Ways, lines: usize, one: Slot) -> bool
    requires ways { IsWays (configuration_of config.now) ways }
    ensures { IsTrue result ↔ ((j : ℕ) → j < 4 → PairBelowIsMarked script.now (configuration_of config.now) lines one j) }
{
    let others = Slot::all();
    for other in &others {
        if !pair_below_is_marked(script, config, ways, lines, one, *other) {
            return false;
        }
    }
    true
}

/// Whether each of so many lines is marked with each that it is joined with.
fn lines_are_marked(script: &Script, config: &Config, ways: Ways, lines: usize) -> bool
    requires ways { IsWays (configuration_of config.now) ways }
    ensures { IsTrue result ↔ ((i : ℕ) → i < 4 → (j : ℕ) → j < 4 → PairBelowIsMarked script.now (configuration_of config.now) lines i j) }
{
    let slots = Slot::all();
    for one in &slots {
        if !line_is_marked(script, config, ways, lines, *one) {
            return false;
        }
    }
    true
}

/// Whether lines that are joined are marked in the configuration's state.
pub fn joined_are_marked(script: &Script, config: &Config) -> bool
    ensures { IsTrue result ↔ JoinedAreMarked script.now (configuration_of config.now) }
{
    let lines = script.lines();
    let ways = Ways::of(config);
    if ways.are_none() {
        return true;
    }
    lines_are_marked(script, config, ways, lines)
}

/// Whether an events list is exactly `al/of` with `strict=exact`.
pub fn is_armed_list(items: &[EventItem<u8>]) -> bool
    ensures { result ≡ is_armed_list items.now }
{
    match items {
        [EventItem::OffHook(Strict::Exact)] => true,
        _ => false,
    }
}

/// Whether a line is in the null context, silent and armed, if it is one of so many.
fn line_is_cleared(script: &Script, config: &Config, lines: usize, line: Slot) -> bool
    ensures { result ≡ line_is_cleared script.now (configuration_of config.now) lines line }
{
    let in_null = spots::is_null(config.spot(Termination::Line(line)));
    let silent = !config.plays(line);
    let armed = is_armed_list(script.list(config.events(line)));
    line.index() >= lines || in_null && silent && armed
}

/// Whether each of so many lines is in the null context, silent and armed.
fn lines_are_cleared(script: &Script, config: &Config, lines: usize) -> bool
    ensures { result ≡ list_all (line_is_cleared script.now (configuration_of config.now) lines) (0 ∷ 1 ∷ 2 ∷ 3 ∷ []) }
{
    Slot::all()
        .iter()
        .all(|line| line_is_cleared(script, config, lines, *line))
}

/// Whether an ephemeral doesn't exist.
fn is_absent(config: &Config, ephemeral: Slot) -> bool
    ensures { result ≡ ephemeral_is_absent (configuration_of config.now) ephemeral }
{
    !spots::is_present(config.spot(Termination::Ephemeral(ephemeral)))
}

/// Whether no ephemeral exists.
fn ephemerals_are_absent(config: &Config) -> bool
    ensures { result ≡ list_all (ephemeral_is_absent (configuration_of config.now)) (0 ∷ 1 ∷ 2 ∷ 3 ∷ []) }
{
    Slot::all()
        .iter()
        .all(|ephemeral| is_absent(config, *ephemeral))
}

/// Whether each line is in the null context, silent and armed, and no ephemeral exists.
fn is_cleared(script: &Script, config: &Config) -> bool
    ensures { IsTrue result ↔ IsCleared script.now (configuration_of config.now) }
{
    let lines = lines_are_cleared(script, config, script.lines());
    let ephemerals = ephemerals_are_absent(config);
    lines && ephemerals
}

/// Whether a call that rests in an end state has cleared its lines and ephemerals.
pub fn ended_is_cleared(script: &Script, config: &Config) -> bool
    ensures { IsTrue result ↔ EndedIsCleared script.now (configuration_of config.now) }
{
    if !at_rest(config) {
        return true;
    }
    if !script.ends_in(config.state()) {
        return true;
    }
    is_cleared(script, config)
}

/// Whether the link is `sent`.
fn is_sent(config: &Config) -> bool
    ensures { IsTrue result ↔ ((configuration_of config.now).link ≡ LinkPhase.Sent) }
{
    match config.link() {
        LinkPhase::Sent => true,
        _ => false,
    }
}

/// Whether the names that the state creates are not bound, where its request is sent.
pub fn created_are_unbound(script: &Script, config: &Config) -> bool
    ensures { IsTrue result ↔ CreatedAreUnbound script.now (configuration_of config.now) }
{
    if !is_sent(config) {
        return true;
    }
    are_names_unbound(script, config)
}

/// Whether a context is not one that is bound and deleted.
fn context_stands(config: &Config, context: Slot) -> bool
    ensures value { result ≡ context_stands (configuration_of config.now) context }
    ensures slots { (j : ℕ) → 4 ≤ j → (configuration_of config.now).context j ≡ ContextValue.Free }
{
    match config.context(context) {
        ContextValue::Stale => false,
        ContextValue::Free | ContextValue::Live => true,
    }
}

/// Whether the Remote of an ephemeral does not name what has been destroyed.
fn remote_stands(config: &Config, ephemeral: Slot) -> bool
    ensures value { result ≡ remote_stands (configuration_of config.now) ephemeral }
    ensures slots { (k : ℕ) → 4 ≤ k → (configuration_of config.now).remote k ≡ Remote.Unset }
{
    match config.remote(ephemeral) {
        Remote::Gone => false,
        Remote::Unset | Remote::To(_) => true,
    }
}

/// Whether each context stands.
fn contexts_stand(config: &Config) -> bool
    ensures value { result ≡ list_all (context_stands (configuration_of config.now)) (0 ∷ 1 ∷ 2 ∷ 3 ∷ []) }
    ensures slots { (j : ℕ) → 4 ≤ j → (configuration_of config.now).context j ≡ ContextValue.Free }
{
    let slots = Slot::all();
    let first = context_stands(config, slots[0]);
    let second = context_stands(config, slots[1]);
    let third = context_stands(config, slots[2]);
    let fourth = context_stands(config, slots[3]);
    first && second && third && fourth
}

/// Whether each Remote stands.
fn remotes_stand(config: &Config) -> bool
    ensures value { result ≡ list_all (remote_stands (configuration_of config.now)) (0 ∷ 1 ∷ 2 ∷ 3 ∷ []) }
    ensures slots { (k : ℕ) → 4 ≤ k → (configuration_of config.now).remote k ≡ Remote.Unset }
{
    let slots = Slot::all();
    let first = remote_stands(config, slots[0]);
    let second = remote_stands(config, slots[1]);
    let third = remote_stands(config, slots[2]);
    let fourth = remote_stands(config, slots[3]);
    first && second && third && fourth
}

/// Whether no context that is bound has been deleted, and no Remote names what has been destroyed.
fn is_live(config: &Config) -> bool
    ensures { IsTrue result ↔ IsLive (configuration_of config.now) }
{
    let contexts = contexts_stand(config);
    let remotes = remotes_stand(config);
    contexts && remotes
}

/// Whether the names of a configuration stand for what exists, where its request is sent or the call rests.
pub fn names_are_live(config: &Config) -> bool
    ensures { IsTrue result ↔ NamesAreLive (configuration_of config.now) }
{
    match config.link() {
        LinkPhase::Sent | LinkPhase::Resting => is_live(config),
        _ => true,
    }
}
