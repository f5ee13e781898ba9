//! The last of some configurations that doesn't show what a breach is about.
ghost use Rattle.std.specs.Prelude.{IfNone, IfSome};
ghost use Rattle.explanation.specs.Causes.{IsLastWithout, ShowEach};
ghost use Rattle.explanation.specs.Shown.{values_of};

use crate::breach::Breach;
use crate::shows::shows;
use configuration::config::Config;
use script_table::Script;

/// The place of the last of some configurations that doesn't show what a breach is about; nothing where each does.
pub(crate) fn last_without(script: &Script, configs: &[Config], breach: &Breach) -> Option<usize>
    ensures last { IfSome result (IsLastWithout script.now (values_of configs.now) breach.now) }
    ensures none { IfNone result (ShowEach script.now (values_of configs.now) breach.now) }
{
    let mut found = None;
    for (place, config) in configs.iter().enumerate() {
        if !shows(script, config, breach) {
            found = Some(place);
        }
    }
    found
}
