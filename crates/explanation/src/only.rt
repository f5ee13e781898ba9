//! Components that have one value each, a configuration's.
ghost use Rattle.std.specs.Prelude.{◌≡◌, ◌∷◌, [], IfOk};
ghost use Rattle.mg_model.specs.Entries.{links, spots, modes, events, plays, contexts, remotes, cuts};
ghost use Rattle.configuration.specs.Config.{configuration_of};
ghost use Rattle.entry_table.specs.Shown.{shown};
ghost use Rattle.explanation.specs.Alone.{IsOnly, bare};

use configuration::config::Config;
use entry_table::{Component, Values};
use mg_model::commands::Termination;
use mg_names::slots::Slot;

/// How far the state's request has come.
#[tactic(auto, using(crate::proofs::Single::has_one, crate::proofs::Single::counts_one))]
pub(crate) fn only_link(config: &Config) -> Component
    ensures only { IsOnly (configuration_of config.now) (shown result) }
    ensures which { bare (shown result) ≡ links [] }
{
    Component::Links(Values::one(config.link()))
}

/// Where a termination stands.
#[tactic(auto, using(crate::proofs::Single::has_one, crate::proofs::Single::counts_one))]
pub(crate) fn only_spot(config: &Config, termination: &Termination) -> Component
    ensures only { IsOnly (configuration_of config.now) (shown result) }
    ensures which { bare (shown result) ≡ spots termination.now [] }
{
    Component::Spots(*termination, Values::one(config.spot(*termination)))
}

/// The mode of a termination.
#[tactic(auto, using(crate::proofs::Single::has_one, crate::proofs::Single::counts_one))]
pub(crate) fn only_mode(config: &Config, termination: &Termination) -> Component
    ensures only { IsOnly (configuration_of config.now) (shown result) }
    ensures which { bare (shown result) ≡ modes termination.now [] }
{
    Component::Modes(*termination, Values::one(config.mode(*termination)))
}

/// The events list of a line.
#[tactic(auto, using(crate::proofs::Single::has_one, crate::proofs::Single::counts_one))]
pub(crate) fn only_events(config: &Config, line: Slot) -> Component
    ensures only { IsOnly (configuration_of config.now) (shown result) }
    ensures which { bare (shown result) ≡ events line [] }
{
    Component::Events(line, Values::one(config.events(line)))
}

/// Whether a line may play a signal.
#[tactic(auto, using(crate::proofs::Single::has_one, crate::proofs::Single::counts_one))]
pub(crate) fn only_plays(config: &Config, line: Slot) -> Component
    ensures only { IsOnly (configuration_of config.now) (shown result) }
    ensures which { bare (shown result) ≡ plays line [] }
{
    Component::Plays(line, Values::one(config.plays(line)))
}

/// What a context name stands for.
#[tactic(auto, using(crate::proofs::Single::has_one, crate::proofs::Single::counts_one))]
pub(crate) fn only_context(config: &Config, context: Slot) -> Component
    ensures only { IsOnly (configuration_of config.now) (shown result) }
    ensures which { bare (shown result) ≡ contexts context [] }
{
    Component::Contexts(context, Values::one(config.context(context)))
}

/// The Remote of an ephemeral.
#[tactic(auto, using(crate::proofs::Single::has_one, crate::proofs::Single::counts_one))]
pub(crate) fn only_remote(config: &Config, ephemeral: Slot) -> Component
    ensures only { IsOnly (configuration_of config.now) (shown result) }
    ensures which { bare (shown result) ≡ remotes ephemeral [] }
{
    Component::Remotes(ephemeral, Values::one(config.remote(ephemeral)))
}

/// Whether media from one termination to another is cut.
#[tactic(auto, using(crate::proofs::Single::has_one, crate::proofs::Single::counts_one))]
pub(crate) fn only_cut(config: &Config, source: &Termination, sink: &Termination) -> Component
    ensures only { IsOnly (configuration_of config.now) (shown result) }
    ensures which { bare (shown result) ≡ cuts source.now sink.now [] }
{
    Component::Cuts(*source, *sink, Values::one(config.cut(*source, *sink)))
}
