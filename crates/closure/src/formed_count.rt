//! How many points some components make of a configuration. All obligations are known to hold of them, so those that are well formed are counted, and asked for
//! nothing else. A component of which any value is as good counts as often as it has values.
ghost use Rattle.std.specs.Prelude.{◌≡◌, ◌<◌, ◌≤◌, ◌^◌, false, List, IsTrue};
ghost use Rattle.mg_model.specs.Entries.{Entry as Listed, size_of, spots};
ghost use Rattle.mg_model.specs.Paths.{is_shared};
ghost use Rattle.mg_model.specs.Script.{Script as Table};
ghost use Rattle.mg_model.specs.declared.components.Spot.{Spot as Place};
ghost use Rattle.configuration.specs.Config.{configuration_of};
ghost use Rattle.entry_table.specs.Shown.{shown, shown_all};
ghost use Rattle.closure.specs.Counting.{AreAllCounted, IsCutFree, IsModeFree, KeepsWellformedness, NoneGivesPlace};

use configuration::config::Config;
use configuration::spots;
use configuration::well_formed::is_well_formed;
use entry_table::Component;
use mg_model::commands::Termination;
use mg_model::components::Spot;

/// Whether two places are one context that isn't the null context.
fn is_shared(one: Spot, other: Spot) -> bool
    ensures { result ≡ is_shared one other }
{
    match one {
        Spot::Absent => false,
        Spot::Null => false,
        Spot::In(context) => spots::is_in(other, context),
    }
}

/// Whether a component gives a termination its place.
fn is_place_of(component: &Component, termination: &Termination) -> bool
    ensures { result ≡ false → (values : List Place) → shown component.now ≡ spots termination.now values → ⊥ }
{
    match component {
        Component::Spots(placed, _) => *placed == *termination,
        _ => false,
    }
}

/// Whether one of some components does.
fn give_place(components: &[Component], termination: &Termination) -> bool
    ensures { result ≡ false → NoneGivesPlace (shown_all components.now) termination.now }
{
    for component in components {
        if is_place_of(component, termination) {
            return true;
        }
    }
    false
}

/// Whether a termination exists and keeps its place, whatever the rest of some components give a configuration.
fn is_placed(rest: &[Component], config: &Config, termination: &Termination) -> bool
    ensures { IsTrue result → IsModeFree (shown_all rest.now) (configuration_of config.now) termination.now }
{
    if !spots::is_present(config.spot(*termination)) {
        return false;
    }
    if give_place(rest, termination) {
        return false;
    }
    true
}

/// Whether two terminations stand in one context and keep their places.
fn stay_together(
    rest: &[Component],
    config: &Config,
    source: &Termination,
    sink: &Termination,
) -> bool
    ensures { IsTrue result → IsCutFree (shown_all rest.now) (configuration_of config.now) source.now sink.now }
{
    if !is_shared(config.spot(*source), config.spot(*sink)) {
        return false;
    }
    if give_place(rest, source) {
        return false;
    }
    if give_place(rest, sink) {
        return false;
    }
    true
}

/// Whether what the rest of some components make of a configuration is well formed with each value of a component or with none. In the order of a certificate
/// places come before what hangs on them.
fn keeps_wellformedness(rest: &[Component], config: &Config, component: &Component) -> bool
    ensures { IsTrue result → KeepsWellformedness (shown_all rest.now) (configuration_of config.now) (shown component.now) }
{
    match component {
        Component::Events(_, _) => true,
        Component::Plays(_, _) => true,
        Component::Modes(termination, _) => is_placed(rest, config, termination),
        Component::Cuts(source, sink, _) => stay_together(rest, config, source, sink),
        _ => false,
    }
}

/// How many of the configurations are well formed that some components make of one.
pub(crate) fn count_formed(components: &[Component], config: &Config) -> u64
    requires small { size_of (shown_all components.now) < 2 ^ 32 }
    ensures few { result ≤ size_of (shown_all components.now) }
    ensures counted { (script : Table) (entries : List Listed) → AreAllCounted (shown_all components.now) (configuration_of config.now) script entries result }
{
    let Some((first, rest)) = components.split_first() else {
        return u64::from(is_well_formed(config));
    };
    if first.count() > 0 && keeps_wellformedness(rest, config, first) {
        let mut chosen = *config;
        first.choose(0, &mut chosen);
        return count_formed(rest, &chosen) * first.count() as u64;
    }
    let mut points = 0;
    for place in 0..first.count() {
        let mut chosen = *config;
        first.choose(place, &mut chosen);
        points += count_formed(rest, &chosen);
    }
    points
}
