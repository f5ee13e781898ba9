//! What configurations that calls come to show.
ghost use Rattle.std.specs.Prelude.{◌↔◌, IsTrue, IfOk, List};
ghost use Rattle.mg_model.specs.Script.{Script as Table};
ghost use Rattle.mg_model.specs.Entries.{Entry as Listed};
ghost use Rattle.configuration.specs.Config.{configuration_of};
ghost use Rattle.closure.specs.Shown.{shown};
ghost use Rattle.call_ways.specs.Ways.{AreAll};
ghost use Rattle.call_ways.specs.Warnings.{IsShown, RestsIn, Shows};
ghost use Rattle.call_ways.specs.Seen.{IsSeen, LeadAway};
ghost use Rattle.call_ways.specs.declared.sights.Sight.TheVariants as Sight;

use crate::hearing::has_path;
use crate::reached::Reached;
use closure::steps::steps;
use configuration::config::Config;
use configuration::config::paths::Ways;
use configuration::step::Step;
use mg_model::transitions::Pair;
use mg_names::kinds::Kind;
use mg_names::phases::LinkPhase;
use mg_names::slots::Slot;
use script_table::Script;
use std::alloc::{AllocError, Global};

/// What a configuration may show. States go by their places, from 0. This profile's own.
#[derive(Clone, Copy)]
pub enum Sight {
    /// It is of this state.
    Stands(u8),
    /// It is of this state, and a step leads from it to another one.
    Leaves(u8),
    /// It rests in this state, with a list for this line that raises a note of this kind.
    Raises(u8, Slot, Kind),
    /// It is of this state, and these two lines are joined.
    Joins(u8, Pair),
    /// It rests in this state, with a list for this line that has no events.
    Deafens(u8, Slot),
    /// It rests in this state.
    Rests(u8),
    /// It rests in this state, and media goes from the one line to the other: the second hears the first.
    Hears(u8, Slot, Slot),
    /// It rests in this state, and no media goes from the one line to the other.
    Misses(u8, Slot, Slot),
    /// It is of this state, its request has come so far, and these two lines are joined.
    JoinsAt(u8, LinkPhase, Pair),
}

/// Whether a configuration rests in a state.
fn rests_in(config: &Config, state: u8) -> bool
    ensures { IsTrue result ↔ RestsIn (configuration_of config.now) state }
{
    if config.state() != state {
        return false;
    }
    config.link() == LinkPhase::Resting
}

/// Whether one of some steps leads to another state.
fn lead_away(steps: &[Step], state: u8) -> bool
    ensures { IsTrue result ↔ LeadAway (shown steps.now) state }
{
    for step in steps {
        if step.result.state() != state {
            return true;
        }
    }
    false
}

/// Whether a configuration is of a state that a step from it leaves.
fn leaves(alloc: Global, script: &Script, config: &Config, state: u8) -> Result<bool, AllocError>
    ensures { IfOk result (λ holds. IsTrue holds ↔ Shows script.now (configuration_of config.now) (Sight.Leaves state)) }
{
    if config.state() != state {
        return Ok(false);
    }
    let steps = steps(alloc, script, config)?;
    Ok(lead_away(steps.as_slice(), state))
}

/// Whether a configuration rests in a state, with a list for a line that raises a note of a kind.
fn raises(script: &Script, config: &Config, state: u8, line: Slot, kind: Kind) -> bool
    ensures { IsTrue result ↔ Shows script.now (configuration_of config.now) (Sight.Raises state line kind) }
{
    if !rests_in(config, state) {
        return false;
    }
    script.raises(config.events(line), kind)
}

/// Whether a configuration is of a state and joins two lines.
fn joins(config: &Config, state: u8, pair: Pair) -> bool
    ensures { (script : Table) → IsTrue result ↔ Shows script (configuration_of config.now) (Sight.Joins state pair) }
{
    if config.state() != state {
        return false;
    }
    let ways = Ways::of(config);
    ways.join(pair.first, pair.second)
}

/// Whether a configuration rests in a state, with a list for a line that has no events.
fn deafens(script: &Script, config: &Config, state: u8, line: Slot) -> bool
    ensures { IsTrue result ↔ Shows script.now (configuration_of config.now) (Sight.Deafens state line) }
{
    if !rests_in(config, state) {
        return false;
    }
    script.list(config.events(line)).is_empty()
}

/// Whether a configuration rests in a state, and media goes from one line to another.
fn hears(config: &Config, state: u8, from: Slot, to: Slot) -> bool
    ensures { (script : Table) → IsTrue result ↔ Shows script (configuration_of config.now) (Sight.Hears state from to) }
{
    if !rests_in(config, state) {
        return false;
    }
    has_path(config, from, to)
}

/// Whether a configuration rests in a state, and no media goes from one line to another.
fn misses(config: &Config, state: u8, from: Slot, to: Slot) -> bool
    ensures { (script : Table) → IsTrue result ↔ Shows script (configuration_of config.now) (Sight.Misses state from to) }
{
    if !rests_in(config, state) {
        return false;
    }
    !has_path(config, from, to)
}

/// Whether a configuration is of a state, its request has come so far, and it joins two lines.
fn joins_at(config: &Config, state: u8, link: LinkPhase, pair: Pair) -> bool
    ensures { (script : Table) → IsTrue result ↔ Shows script (configuration_of config.now) (Sight.JoinsAt state link pair) }
{
    if config.link() != link {
        return false;
    }
    joins(config, state, pair)
}

/// Whether a configuration shows something. The only error is running out of memory.
fn shows(alloc: Global, script: &Script, config: &Config, sight: &Sight) -> Result<bool, AllocError>
    ensures { IfOk result (λ holds. IsTrue holds ↔ Shows script.now (configuration_of config.now) sight.now) }
{
    match *sight {
        Sight::Stands(state) => Ok(config.state() == state),
        Sight::Leaves(state) => leaves(alloc, script, config, state),
        Sight::Raises(state, line, kind) => Ok(raises(script, config, state, line, kind)),
        Sight::Joins(state, pair) => Ok(joins(config, state, pair)),
        Sight::Deafens(state, line) => Ok(deafens(script, config, state, line)),
        Sight::Rests(state) => Ok(rests_in(config, state)),
        Sight::Hears(state, from, to) => Ok(hears(config, state, from, to)),
        Sight::Misses(state, from, to) => Ok(misses(config, state, from, to)),
        Sight::JoinsAt(state, link, pair) => Ok(joins_at(config, state, link, pair)),
    }
}

/// Whether one of some configurations shows something. The only error is running out of memory.
pub(crate) fn is_seen(
    alloc: Global,
    script: &Script,
    configs: &[Config],
    sight: &Sight,
) -> Result<bool, AllocError>
    ensures { IfOk result (λ holds. IsTrue holds ↔ IsSeen script.now configs.now sight.now) }
{
    for config in configs {
        if shows(alloc, script, config, sight)? {
            return Ok(true);
        }
    }
    Ok(false)
}

/// Whether some configuration that calls come to shows something, where these are those. The only error is running out of memory.
pub fn is_shown(
    alloc: Global,
    script: &Script,
    reached: &Reached,
    sight: &Sight,
) -> Result<bool, AllocError>
    ensures { IfOk result (λ holds. (entries : List Listed) → AreAll script.now entries reached.now
        → IsTrue holds ↔ IsShown script.now entries sight.now) }
{
    is_seen(alloc, script, reached.configs(), sight)
}
