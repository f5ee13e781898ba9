//! What `subtract CONTEXT *` makes of the whole hull of a few configurations, whoever stands in the context. Who stands there in each of these
//! leaves in all. What becomes of one who stands there in some hangs on where it stands: it keeps what is its own, or loses it, and of the latter one
//! configuration more shows all values. One more shows that a Remote is gone, of an ephemeral that may stay as the one leaves whom it names.
ghost use Rattle.std.specs.Prelude.{◌≡◌, ℕ, IsTrue, IfOk, OnOk, Contains, map};
ghost use Rattle.mg_model.specs.declared.commands.Command.TheVariants.{SubtractAll};
ghost use Rattle.mg_model.specs.declared.commands.Termination.{Termination as Named};
ghost use Rattle.mg_model.specs.declared.components.Remote.TheVariants.{Gone};
ghost use Rattle.mg_model.specs.Configuration.{Configuration, is_in, terminations};
ghost use Rattle.configuration.specs.Config.{configuration_of};
ghost use Rattle.closure.specs.Emptying.{AreMade, IsLost, NamesNoneOf, StandsInEach, StandsToo, emptied, out_each, put_out, spot_out};

use crate::hull::{Hull, TooMany};
use crate::hull_commands::{is_nowhere, unsettled};
use crate::hull_contexts::does_each_stand;
use crate::lookup::is_same;
use configuration::config::Config;
use configuration::spots;
use configuration::well_formed::all_terminations;
use mg_model::commands::{Command, Termination};
use mg_model::components::{Remote, Spot};
use mg_names::slots::Slot;
use script_table::Script;

/// Puts a termination into a context, if it stands there in one of some configurations.
fn stand_too(config: &mut Config, hull: &Hull, termination: &Termination, context: Slot)
    ensures kept { (u : Named) → IsTrue (is_in ((configuration_of config.old).spot u) context) → IsTrue (is_in ((configuration_of config.new).spot u) context) }
    ensures there { StandsToo (map configuration_of hull.now) context (configuration_of config.new) termination.now }
{
    if is_nowhere(hull, termination, context) {
        return;
    }
    config.set_spot(*termination, Spot::In(context));
}

/// A configuration in which all stand in a context that do in one of some configurations.
fn standing_too(hull: &Hull, one: &Config, context: Slot) -> Config
    ensures { (t : Named) → StandsToo (map configuration_of hull.now) context (configuration_of result) t }
{
    let mut config = *one;
    let all = all_terminations();
    for termination in &all {
        stand_too(&mut config, hull, termination, context);
    }
    config
}

/// Takes a termination out of a context, unless it stands there in each of some configurations.
fn stand_less(config: &mut Config, hull: &Hull, termination: &Termination, context: Slot)
    ensures kept { (u : Named) → IsTrue (is_in ((configuration_of config.new).spot u) context) → IsTrue (is_in ((configuration_of config.old).spot u) context) }
    ensures there { StandsInEach (map configuration_of hull.now) context (configuration_of config.new) termination.now }
{
    if does_each_stand(hull, termination, context) {
        return;
    }
    config.set_spot(*termination, Spot::Absent);
}

/// A configuration in which only those stand in a context that do in each of some configurations.
fn standing_in_each(hull: &Hull, one: &Config, context: Slot) -> Config
    ensures { (t : Named) → StandsInEach (map configuration_of hull.now) context (configuration_of result) t }
{
    let mut config = *one;
    let all = all_terminations();
    for termination in &all {
        stand_less(&mut config, hull, termination, context);
    }
    config
}

/// The place of a termination once those are put out of a context that don't surely stand there.
fn spot_out(config: &Config, sure: &Config, termination: &Termination, context: Slot) -> Spot
    ensures { result ≡ spot_out (configuration_of sure.now) context termination.now ((configuration_of config.now).spot termination.now) }
{
    if !spots::is_in(config.spot(*termination), context) {
        return config.spot(*termination);
    }
    if spots::is_in(sure.spot(*termination), context) {
        return config.spot(*termination);
    }
    match *termination {
        Termination::Line(_) => Spot::Null,
        Termination::Ephemeral(_) => Spot::Absent,
    }
}

/// Puts a termination there.
fn put_out(config: &mut Config, sure: &Config, termination: &Termination, context: Slot)
    ensures { configuration_of config.new ≡ put_out (configuration_of sure.now) context (configuration_of config.old) termination.now }
{
    let spot = spot_out(config, sure, termination, context);
    config.set_spot(*termination, spot);
}

/// A configuration in which none stands in a context but those who surely do.
fn out_each(config: &Config, sure: &Config, context: Slot) -> Config
    ensures { configuration_of result ≡ out_each (configuration_of sure.now) context (configuration_of config.now) terminations }
{
    let mut out = *config;
    let all = all_terminations();
    for termination in &all {
        put_out(&mut out, sure, termination, context);
    }
    out
}

/// A configuration whose context all leave, and those who surely stand there lose what is theirs.
fn emptied(script: &Script, config: &Config, sure: &Config, context: Slot) -> Config
    ensures { configuration_of result ≡ emptied script.now context (configuration_of sure.now) (configuration_of config.now) }
{
    let out = out_each(config, sure, context);
    unsettled(script, &out, &Command::SubtractAll { context })
}

/// Whether the Remote of an ephemeral names none that stands in a context in one of some configurations.
fn names_none_of(config: &Config, hull: &Hull, ephemeral: Slot, context: Slot) -> bool
    ensures { IsTrue result → NamesNoneOf (map configuration_of hull.now) context ephemeral (configuration_of config.now) }
{
    match config.remote(ephemeral) {
        Remote::To(named) => is_nowhere(hull, &Termination::Ephemeral(named), context),
        Remote::Gone => true,
        Remote::Unset => true,
    }
}

/// Makes the Remote of an ephemeral name nothing, if it may stay as the one leaves whom its Remote names.
fn lose_remote(gone: &mut Config, hull: &Hull, ephemeral: Slot, context: Slot)
    ensures kept { (k : ℕ) → (configuration_of gone.old).remote k ≡ Gone → (configuration_of gone.new).remote k ≡ Gone }
    ensures lost { IsLost (map configuration_of hull.now) context (configuration_of gone.new) ephemeral }
{
    if does_each_stand(hull, &Termination::Ephemeral(ephemeral), context) {
        return;
    }
    if hull.all(|config| names_none_of(config, hull, ephemeral, context)) {
        return;
    }
    gone.set_remote(ephemeral, Remote::Gone);
}

/// A configuration with all Remotes gone that may name who leaves.
fn with_lost(hull: &Hull, one: &Config, context: Slot) -> Config
    ensures { (k : ℕ) → IsLost (map configuration_of hull.now) context (configuration_of result) k }
{
    let [first, second, third, fourth] = Slot::all();
    let mut gone = *one;
    lose_remote(&mut gone, hull, first, context);
    lose_remote(&mut gone, hull, second, context);
    lose_remote(&mut gone, hull, third, context);
    lose_remote(&mut gone, hull, fourth, context);
    gone
}

/// Adds a configuration, unless it is there.
fn add(hull: &mut Hull, config: &Config) -> Result<(), TooMany>
    ensures kept { OnOk result ((d : Configuration) → Contains (map configuration_of hull.old) d → Contains (map configuration_of hull.new) d) }
    ensures there { OnOk result (Contains (map configuration_of hull.new) (configuration_of config.now)) }
{
    if let Some(_there) = hull.find(|one| is_same(one, config)) {
        return Ok(());
    }
    hull.push(config)?;
    Ok(())
}

/// Configurations whose hull has all that is left of the hull of some once all of a context are subtracted, but for the question which contexts
/// still exist.
pub(crate) fn all_emptied(script: &Script, hull: &Hull, context: Slot) -> Result<Hull, TooMany>
    ensures { IfOk result (λ m. AreMade script.now (map configuration_of hull.now) (SubtractAll context) (map configuration_of m)) }
{
    let Some(one) = hull.as_slice().first() else {
        return Err(TooMany);
    };
    let sure = standing_in_each(hull, one, context);
    let left = standing_too(hull, one, context);
    let mut made = hull.map(|config| emptied(script, config, &sure, context))?;
    add(
        &mut made,
        &unsettled(script, &left, &Command::SubtractAll { context }),
    )?;
    let first = emptied(script, one, &sure, context);
    add(&mut made, &with_lost(hull, &first, context))?;
    Ok(made)
}
