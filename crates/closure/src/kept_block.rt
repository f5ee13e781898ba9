//! Whether all obligations but that of joined lines hold of all points at once that some components make of a configuration; and whether joined lines are
//! marked in all of them. Points that differ in places, contexts and Remotes are told of so, too.
ghost use Rattle.std.specs.Prelude.{◌≡◌, IsTrue, map};
ghost use Rattle.mg_model.specs.Steps.{bound_names};
ghost use Rattle.configuration.specs.Config.{configuration_of};
ghost use Rattle.entry_table.specs.Shown.{shown_all};
ghost use Rattle.closure.specs.Hulls.{AreAlike, AreOfState, IsBlockKept, IsBlockMarked};
ghost use Rattle.closure.specs.Naming.{AreNamedKept};

use crate::block_hull::hull_of;
use crate::hull::Hull;
use crate::hull_media::are_joined_marked;
use crate::hull_steps::are_steps_covered;
use crate::looks::Looks;
use crate::named_hull::{is_as_bound, is_number_bound, named_as, with_name_of};
use crate::obligations::{created_are_unbound, ended_is_cleared, names_are_live};
use crate::requests::have_same_names;
use configuration::config::Config;
use entry_table::{Cert, Component};
use mg_names::phases::LinkPhase;
use script_table::Script;

/// Whether two links are one.
fn is_same_link(one: LinkPhase, other: LinkPhase) -> bool
    ensures { IsTrue result → one ≡ other }
{
    one == other
}

/// Whether some configurations are of one state.
fn are_of_state(hull: &Hull, one: &Config) -> bool
    ensures { IsTrue result → AreOfState (map configuration_of hull.now) (configuration_of one.now).state }
{
    hull.all(|config| config.state() == one.state())
}

/// Whether they are of one state, have one link and the same names bound.
fn are_alike(hull: &Hull, one: &Config) -> bool
    ensures { IsTrue result → AreAlike (map configuration_of hull.now) (configuration_of one.now) }
{
    if !are_of_state(hull, one) {
        return false;
    }
    if !hull.all(|config| is_same_link(config.link(), one.link())) {
        return false;
    }
    hull.all(|config| have_same_names(config, one))
}

/// To give a configuration the names of another, and to ask it for obligations, takes so many looks.
const LOOKS_A_NAMED: u64 = 10;

/// Whether all obligations but that of joined lines hold of all in the hull of some configurations and have the names bound that one has.
fn is_hull_kept(script: &Script, cert: &Cert, hull: &Hull, one: &Config, looks: &mut Looks) -> bool
    ensures { IsTrue result → AreNamedKept script.now cert.now (map configuration_of hull.now) 8 (configuration_of one.now) }
{
    if !looks.take(LOOKS_A_NAMED, hull.as_slice().len()) {
        return false;
    }
    let Ok(named) = hull.map(|config| named_as(config, one)) else {
        return false;
    };
    if !are_alike(&named, one) {
        return false;
    }
    if !named.all(|config| ended_is_cleared(script, config)) {
        return false;
    }
    if !created_are_unbound(script, one) {
        return false;
    }
    if !named.all(|config| names_are_live(config)) {
        return false;
    }
    are_steps_covered(script, cert, &named, one, looks)
}

/// Of fewer numbers no hull is asked: each step is looked for in the entries of a state, of which there may be as many, and one by one a number's step is
/// looked for in little more than one.
pub(crate) const NUMBERS_A_HULL: u64 = 256;

/// The same of all that have the first few of the eight names bound that one has, whatever the others are. It fails too where so many looks aren't enough.
fn are_named_kept(
    script: &Script,
    cert: &Cert,
    hull: &Hull,
    number: usize,
    one: &Config,
    looks: &mut Looks,
) -> bool
    ensures { IsTrue result → AreNamedKept script.now cert.now (map configuration_of hull.now) number (configuration_of one.now) }
{
    if number >= 8 {
        return is_hull_kept(script, cert, hull, one, looks);
    }
    if !are_named_kept(script, cert, hull, number + 1, one, looks) {
        return false;
    }
    let bound = is_number_bound(one, number);
    let Some(unlike) = hull.find(|config| !is_as_bound(is_number_bound(config, number), bound))
    else {
        return true;
    };
    let other = with_name_of(one, number, &unlike);
    are_named_kept(script, cert, hull, number + 1, &other, looks)
}

/// Whether it is known that all obligations but that of joined lines hold of all points that some components make of a configuration, where so many looks may be
/// taken.
pub(crate) fn is_block_kept(
    script: &Script,
    cert: &Cert,
    components: &[Component],
    config: &Config,
    looks: &mut Looks,
) -> bool
    ensures { IsTrue result → IsBlockKept script.now cert.now (shown_all components.now) (configuration_of config.now) }
{
    let Ok(hull) = hull_of(components, config) else {
        return false;
    };
    let Some(one) = hull.as_slice().first() else {
        return false;
    };
    are_named_kept(script, cert, &hull, 0, one, looks)
}

/// Whether it is known that joined lines are marked in all that some components make of a configuration.
pub(crate) fn is_block_marked(script: &Script, components: &[Component], config: &Config) -> bool
    ensures { IsTrue result → IsBlockMarked script.now (shown_all components.now) (configuration_of config.now) }
{
    let Ok(hull) = hull_of(components, config) else {
        return false;
    };
    let Some(one) = hull.as_slice().first() else {
        return false;
    };
    if !are_of_state(&hull, one) {
        return false;
    }
    are_joined_marked(script, &hull, one)
}
