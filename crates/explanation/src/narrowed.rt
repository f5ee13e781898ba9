//! An entry that has of some configurations those that another one has.
ghost use Rattle.std.specs.Prelude.{◌≡◌, IfOk};
ghost use Rattle.mg_model.specs.Configuration.{Configuration};
ghost use Rattle.mg_model.specs.Entries.{Includes};
ghost use Rattle.configuration.specs.Config.{configuration_of};
ghost use Rattle.explanation.specs.Parts.{HoldsEach, IsHeld, IsOfState};

use crate::mended::alone;
use crate::widened::{whole, widen};
use configuration::config::Config;
use entry_table::Entry;
use script_table::Script;
use std::alloc::{AllocError, Global};

/// An entry of what was found of another one and of a configuration of that more. Where the two make none that fits it is the whole other one.
fn grown(
    alloc: Global,
    script: &Script,
    entry: &Entry,
    found: Option<Entry>,
    config: &Config,
) -> Result<Entry, AllocError>
    requires included { Includes entry.now (configuration_of config.now) }
    requires state { IsOfState entry.now found }
    ensures has { IfOk result (λ more. Includes more (configuration_of config.now)) }
    ensures keeps { IfOk result (λ more. (c : Configuration) → Includes entry.now c → IsHeld found c → Includes more c) }
    ensures state { IfOk result (λ more. more.state ≡ entry.now.state) }
{
    let Some(narrow) = found else {
        return alone(alloc, script, config);
    };
    match widen(alloc, script, &narrow, config)? {
        Some(wide) => Ok(wide),
        None => whole(alloc, script, entry, config),
    }
}

/// What was found of an entry, with a configuration more if that has it.
fn with_one(
    alloc: Global,
    script: &Script,
    entry: &Entry,
    found: Option<Entry>,
    config: &Config,
) -> Result<Option<Entry>, AllocError>
    requires state { IsOfState entry.now found }
    ensures has { IfOk result (λ more. Includes entry.now (configuration_of config.now) → IsHeld more (configuration_of config.now)) }
    ensures keeps { IfOk result (λ more. (c : Configuration) → Includes entry.now c → IsHeld found c → IsHeld more c) }
    ensures state { IfOk result (IsOfState entry.now) }
{
    if !entry.contains(config) {
        return Ok(found);
    }
    let more = grown(alloc, script, entry, found, config)?;
    Ok(Some(more))
}

/// An entry that has those configurations of another one that are among some; nothing where it has none of them.
pub(crate) fn narrowed(
    alloc: Global,
    script: &Script,
    entry: &Entry,
    configs: &[Config],
) -> Result<Option<Entry>, AllocError>
    ensures { IfOk result (HoldsEach entry.now configs.now) }
{
    let mut found = None;
    for config in configs {
        found = with_one(alloc, script, entry, found, config)?;
    }
    Ok(found)
}
