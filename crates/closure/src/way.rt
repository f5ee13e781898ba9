//! How the points that some components make of a configuration are passed: counted, where all obligations are known to hold of all of them; looked at one after
//! the other; or taken in parts.
ghost use Rattle.std.specs.Prelude.{◌<◌, ◌^◌, IsTrue};
ghost use Rattle.mg_model.specs.Entries.{size_of};
ghost use Rattle.configuration.specs.Config.{configuration_of};
ghost use Rattle.entry_table.specs.Shown.{shown_all};
ghost use Rattle.closure.specs.Hulls.{IsBlockKept};
ghost use Rattle.closure.specs.Ways.{IsWay};

use crate::formed_count::count_formed;
use crate::kept_block::{NUMBERS_A_HULL, is_block_kept, is_block_marked};
use crate::looks::Looks;
use configuration::config::Config;
use entry_table::{Cert, Component, product_of};
use script_table::Script;

/// How points are passed.
#[derive(Clone, Copy)]
pub(crate) enum Way {
    /// No obligation is broken, and there are so many points.
    Counted(u64),
    /// One after the other. Whether all obligations but that of joined lines are known to hold.
    Walked(bool),
    /// For each value of the first component by itself.
    Split,
}

/// Whether the first component gives the link. At rest other components are free than else, so each link is taken by itself.
fn is_of_links(components: &[Component]) -> bool {
    match components.first() {
        Some(Component::Links(_)) => true,
        _ => false,
    }
}

/// How the points are passed that some components make of a configuration, where so many looks may be taken to tell. Where none is left they are looked at
/// one after the other.
pub(crate) fn way_of(
    script: &Script,
    cert: &Cert,
    components: &[Component],
    config: &Config,
    looks: &mut Looks,
) -> Way
    requires small { size_of (shown_all components.now) < 2 ^ 32 }
    ensures { IsWay script.now cert.now (shown_all components.now) (configuration_of config.now) result }
{
    if is_of_links(components) {
        return Way::Split;
    }
    if looks.are_few() || product_of(components) < NUMBERS_A_HULL {
        return Way::Walked(false);
    }
    let lent = looks.lend(script, components, config);
    let mut left = lent;
    if !is_block_kept(script, cert, components, config, &mut left) {
        looks.pay(&lent, &left);
        return Way::Split;
    }
    if !is_block_marked(script, components, config) {
        return Way::Walked(true);
    }
    Way::Counted(count_formed(components, config))
}
