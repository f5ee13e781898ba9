//! The reader of plans.
ghost use Rattle.std.specs.Prelude.{IfOk};
ghost use Rattle.toml.specs.View.{table_view};
ghost use Rattle.typed_values.specs.Unread.{OrNoMemory};
ghost use Rattle.plans.specs.Accepted.{IsPlanFor};
ghost use Rattle.plans.specs.Reading.{Answers, ReadsPlan, tree_read};

use crate::fault::PlanFault;
use crate::plan::Plan;
use crate::tables;
use script_table::Script;
use std::alloc::Global;
use toml::Table;
use typed_values::{Missing, Unread};

/// The plan that a tree is. The tree, which takes several times the memory of its document, is let go once that is read.
#[tactic(auto, unfolding(crate::specs::Reading::tree_read))]
fn of_tree(alloc: Global, script: &Script, tree: Table) -> Result<Plan, Unread<PlanFault>>
    ensures { OrNoMemory (Answers (tree_read script.now (table_view tree))) result }
{
    let read = tables::plan(alloc, script, &tree);
    drop(tree);
    match read {
        Ok(plan) => {
            if plan.is_too_large() {
                return Err(Unread::Fault(PlanFault::TooMany));
            }
            Ok(plan)
        }
        Err(Missing::Nothing) => Err(Unread::Fault(PlanFault::BadStep)),
        Err(Missing::Memory) => Err(Unread::NoMemory),
    }
}

impl Plan {
    /// Reads a plan of calls of a script. The bytes are TOML; the format is this profile's own. Of all faults that the document has anywhere the lowest is
    /// given; `NoMemory` may come in place of any answer.
    #[tactic(auto, using(crate::proofs::Readings::plan_is_read))]
    pub fn read(alloc: Global, bytes: &[u8], script: &Script) -> Result<Plan, Unread<PlanFault>>
        ensures reads { OrNoMemory (ReadsPlan script.now bytes.now) result }

        // Of two calls no line is the same, and each call has a line for each of the script's.
        ensures accepted { IfOk result (λ plan. IsPlanFor script.now plan) }
    {
        match toml::table_from_slice(alloc, bytes) {
            Ok(tree) => of_tree(alloc, script, tree),
            Err(error) => {
                if error.is_memory() {
                    return Err(Unread::NoMemory);
                }
                Err(Unread::Fault(PlanFault::NotToml))
            }
        }
    }
}
