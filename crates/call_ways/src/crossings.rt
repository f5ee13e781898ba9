//! What calls that enter over the arrows of a script tell: whether any does, with which requests, and what becomes of each command.
ghost use Rattle.std.specs.Prelude.{◌≡◌, ◌↔◌, ◌∷◌, ◌++◌, [], IfOk, IsTrue, List, OnOk};
ghost use Rattle.mg_model.specs.Entries.{Entry as Listed};
ghost use Rattle.configuration.specs.Config.{configuration_of};
ghost use Rattle.call_ways.specs.Crossed.{values_of};
ghost use Rattle.call_ways.specs.Fates.{AreCrossings, IsCrossing};
ghost use Rattle.call_ways.specs.Passing.{IsAny, IsEmpty, IsSending, IsTold, SomeIsSo};
ghost use Rattle.call_ways.specs.Ways.{AreAll};

use crate::arrows::{Arrow, arrows};
use crate::entering::entering;
use crate::fate_sets::{FateSet, fates_among, set_at};
use crate::reached::Reached;
use configuration::config::Config;
use mg_names::phases::LinkPhase;
use script_table::Script;
use std::alloc::{AllocError, Global};

/// What the calls that enter over an arrow tell of it. This profile's own.
#[derive(Drop)]
pub struct Crossing {
    /// The arrow.
    pub arrow: Arrow,
    /// Whether some call enters over it.
    pub entered: bool,
    /// Whether some call enters over it with an empty request.
    pub empty: bool,
    /// Whether some call enters over it with a request that isn't empty.
    pub sending: bool,
    /// What becomes of the commands of the state that it leads to; behind the last set, and where none enters, nothing does.
    pub fates: Vec<FateSet>,
}

impl Crossing {
    ghost use Rattle.std.specs.Prelude.{◌≡◌};
    ghost use Rattle.call_ways.specs.Fates.{set_at};

    /// What becomes of the command at a place.
    pub fn fates_of(&self, place: usize) -> FateSet
        ensures { result ≡ set_at self.now.fates.items place }
    {
        set_at(self.fates.as_slice(), place)
    }
}

/// Whether there is a configuration.
fn has_any(configs: &[Config]) -> bool
    ensures { IsTrue result ↔ SomeIsSo IsAny (values_of configs.now) }
{
    0 < configs.len()
}

/// Whether a configuration was entered with an empty request.
fn is_empty(config: &Config) -> bool
    ensures { IsTrue result ↔ IsEmpty (configuration_of config.now) }
{
    config.link() == LinkPhase::Answered
}

/// Whether one of some configurations was entered with an empty request.
fn has_empty(configs: &[Config]) -> bool
    ensures { IsTrue result ↔ SomeIsSo IsEmpty (values_of configs.now) }
{
    for config in configs {
        if is_empty(config) {
            return true;
        }
    }
    false
}

/// Whether one of some configurations was entered with a request that is sent.
fn has_sending(configs: &[Config]) -> bool
    ensures { IsTrue result ↔ SomeIsSo IsSending (values_of configs.now) }
{
    for config in configs {
        if !is_empty(config) {
            return true;
        }
    }
    false
}

/// What is told of an arrow by the configurations that are entered over it.
fn tell(
    alloc: Global,
    script: &Script,
    arrow: Arrow,
    configs: &[Config],
) -> Result<Crossing, AllocError>
    ensures { IfOk result (IsTold script.now arrow (values_of configs.now)) }
{
    let fates = fates_among(alloc, script, configs)?;
    Ok(Crossing {
        arrow,
        entered: has_any(configs),
        empty: has_empty(configs),
        sending: has_sending(configs),
        fates,
    })
}

/// What calls tell of an arrow, where they come to these configurations. The only error is running out of memory.
fn cross(
    alloc: Global,
    script: &Script,
    reached: &Reached,
    arrow: Arrow,
) -> Result<Crossing, AllocError>
    ensures arrow { IfOk result (λ told. told.arrow ≡ arrow) }
    ensures told { IfOk result (λ told. (entries : List Listed) → AreAll script.now entries reached.now → IsCrossing script.now entries told) }
{
    let entering = entering(alloc, script, reached.configs(), &arrow)?;
    tell(alloc, script, arrow, entering.as_slice())
}

/// Adds what calls tell of an arrow.
fn push(list: &mut Vec<Crossing>, crossing: Crossing) -> Result<(), AllocError>
    ensures { OnOk result (list.new.items ≡ list.old.items ++ crossing ∷ []) }
{
    list.push(crossing)?;
    Ok(())
}

/// What calls tell of each arrow of a script, where they come to these configurations. The only error is running out of memory.
pub fn find_crossings(
    alloc: Global,
    script: &Script,
    reached: &Reached,
) -> Result<Vec<Crossing>, AllocError>
    ensures { IfOk result (λ list. (entries : List Listed) → AreAll script.now entries reached.now → AreCrossings script.now entries list.items) }
{
    let all = arrows(alloc, script)?;
    let mut list = Vec::new(alloc);
    let each = all.as_slice();
    for arrow in each {
        let crossing = cross(alloc, script, reached, *arrow)?;
        push(&mut list, crossing)?;
    }
    Ok(list)
}
