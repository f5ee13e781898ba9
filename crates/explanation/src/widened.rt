//! Components with a configuration's value among theirs.
ghost use Rattle.std.specs.Prelude.{◌≡◌, ◌≤◌, ◌+◌, ◌++◌, ◌∷◌, [], false, IfNone, IfOk, IfSome, if◌then◌else◌, map};
ghost use Rattle.std.specs.List.{All};
ghost use Rattle.mg_model.specs.Configuration.{IsWellFormed};
ghost use Rattle.mg_model.specs.Entries.{Allows, Includes, size_of};
ghost use Rattle.configuration.specs.Config.{configuration_of};
ghost use Rattle.entry_table.specs.Shown.{shown, shown_all};
ghost use Rattle.explanation.specs.Alone.{HasAllOf, KeepAll, Keeps};
ghost use Rattle.explanation.specs.Alone.{AreTooWide, AreWidened, IsWidened, bare, bare_all, count_of, most_points};

use configuration::config::Config;
use entry_table::{Component, Entry, Values, product_of};
use script_table::Script;
use std::alloc::{AllocError, Global};

/// How many points an entry may have.
const POINTS: u64 = 65_536;

/// Some values, and one more behind them if it is wanted.
pub(crate) fn values_with<T: Copy>(
    alloc: Global,
    values: &[T],
    wanted: bool,
    value: T,
) -> Result<Values<T>, AllocError>
    ensures { IfOk result (λ all. all ≡ values.now ++ (if wanted then value ∷ [] else [])) }
{
    let mut all = Vec::new(alloc);
    all.extend_from_slice(values)?;
    if wanted {
        all.push(value)?;
    }
    Ok(Values::new(all))
}

/// A component with a configuration's value behind its own, if that is wanted.
#[tactic(auto, using(crate::proofs::Added::counted_with, crate::proofs::Added::kept_with))]
fn component_with(
    alloc: Global,
    component: &Component,
    wanted: bool,
    config: &Config,
) -> Result<Component, AllocError>
    requires { wanted ≡ false → Allows (configuration_of config.now) (shown component.now) }
    ensures has { IfOk result (λ wide. Allows (configuration_of config.now) (shown wide)) }
    ensures keeps { IfOk result (λ wide. Keeps (shown component.now) (shown wide)) }
    ensures counts { IfOk result (λ wide. count_of (shown wide) ≡ count_of (shown component.now) + (if wanted then 1 else 0)) }
    ensures which { IfOk result (λ wide. bare (shown wide) ≡ bare (shown component.now)) }
{
    match component {
        Component::Links(values) => {
            let all = values_with(alloc, values.as_slice(), wanted, config.link())?;
            Ok(Component::Links(all))
        }
        Component::Spots(t, values) => {
            let all = values_with(alloc, values.as_slice(), wanted, config.spot(*t))?;
            Ok(Component::Spots(*t, all))
        }
        Component::Modes(t, values) => {
            let all = values_with(alloc, values.as_slice(), wanted, config.mode(*t))?;
            Ok(Component::Modes(*t, all))
        }
        Component::Events(i, values) => {
            let all = values_with(alloc, values.as_slice(), wanted, config.events(*i))?;
            Ok(Component::Events(*i, all))
        }
        Component::Plays(i, values) => {
            let all = values_with(alloc, values.as_slice(), wanted, config.plays(*i))?;
            Ok(Component::Plays(*i, all))
        }
        Component::Contexts(j, values) => {
            let all = values_with(alloc, values.as_slice(), wanted, config.context(*j))?;
            Ok(Component::Contexts(*j, all))
        }
        Component::Remotes(k, values) => {
            let all = values_with(alloc, values.as_slice(), wanted, config.remote(*k))?;
            Ok(Component::Remotes(*k, all))
        }
        Component::Cuts(t, u, values) => {
            let all = values_with(alloc, values.as_slice(), wanted, config.cut(*t, *u))?;
            Ok(Component::Cuts(*t, *u, all))
        }
    }
}

/// A component with a configuration's value among its own.
fn widened_component(
    alloc: Global,
    component: &Component,
    config: &Config,
) -> Result<Component, AllocError>
    ensures has { IfOk result (λ wide. Allows (configuration_of config.now) (shown wide)) }
    ensures keeps { IfOk result (λ wide. Keeps (shown component.now) (shown wide)) }
    ensures counts { IfOk result (λ wide. IsWidened (configuration_of config.now) (shown component.now) (count_of (shown wide))) }
    ensures which { IfOk result (λ wide. bare (shown wide) ≡ bare (shown component.now)) }
{
    component_with(alloc, component, !component.allows(config), config)
}

/// Some components, each with a configuration's value among its own.
fn widened_components(
    alloc: Global,
    components: &[Component],
    config: &Config,
) -> Result<Vec<Component>, AllocError>
    ensures have { IfOk result (λ wide. All (Allows (configuration_of config.now)) (shown_all wide.items)) }
    ensures keep { IfOk result (λ wide. KeepAll (shown_all components.now) (shown_all wide.items)) }
    ensures sizes { IfOk result (λ wide. AreWidened (configuration_of config.now) (shown_all components.now) (size_of (shown_all wide.items))) }
    ensures which { IfOk result (λ wide. bare_all wide.items ≡ bare_all components.now) }
{
    let mut wide = Vec::new(alloc);
    for component in components {
        wide.push(widened_component(alloc, component, config)?)?;
    }
    Ok(wide)
}

/// An entry with the values of a configuration of its state added where it lacks them. `None` where it would have more points than an entry may.
/// The only error is running out of memory.
pub fn widen(
    alloc: Global,
    script: &Script,
    entry: &Entry,
    config: &Config,
) -> Result<Option<Entry>, AllocError>
    requires well_formed { IsWellFormed (configuration_of config.now) }
    requires state { entry.now.state ≡ (configuration_of config.now).state }
    ensures includes { IfOk result (λ found. IfSome found (λ wide. Includes wide (configuration_of config.now))) }
    ensures keeps { IfOk result (λ found. IfSome found (λ wide. HasAllOf wide entry.now)) }
    ensures whole { IfOk result (λ found. IfSome found (λ wide. map bare wide.components ≡ map bare entry.now.components)) }
    ensures sizes { IfOk result (λ found. IfSome found (λ wide. AreWidened (configuration_of config.now) entry.now.components (size_of wide.components))) }
    ensures fits { IfOk result (λ found. IfSome found (λ wide. size_of wide.components ≤ most_points)) }
    ensures none { IfOk result (λ found. IfNone found (AreTooWide (configuration_of config.now) entry.now.components)) }
{
    let components = widened_components(alloc, entry.components(), config)?;
    let size = product_of(components.as_slice());
    if size > POINTS {
        return Ok(None);
    }
    let wide = Entry::new(alloc, config.state(), script.lines(), components)?;
    Ok(Some(wide))
}

/// An entry once more, by a configuration that it has: that lacks in none of its components. The only error is running out of memory.
pub(crate) fn whole(
    alloc: Global,
    script: &Script,
    entry: &Entry,
    config: &Config,
) -> Result<Entry, AllocError>
    requires { Includes entry.now (configuration_of config.now) }
    ensures keeps { IfOk result (λ copy. HasAllOf copy entry.now) }
    ensures state { IfOk result (λ copy. copy.state ≡ entry.now.state) }
{
    let components = widened_components(alloc, entry.components(), config)?;
    // There are as many points as before, and 32 bits count these.
    let _size = entry.size();
    Entry::new(alloc, entry.state(), script.lines(), components)
}
