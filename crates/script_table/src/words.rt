//! The words of steps.
ghost use Rattle.std.specs.Prelude.{◌≡◌, IfOk, string_bytes};
ghost use Rattle.script_table.specs.Words.{words_of};

use crate::script::Script;
use mg_model::steps::StepName;
use std::alloc::{AllocError, Global};

impl Script {
    /// The words of a step, as a report writes them: `refuse 2`, `execute`, `reply`, `timer`, or for a note its line
    /// and kind, as `a.of`.
    pub fn step_words(&self, alloc: Global, step: &StepName) -> Result<String, AllocError>
        ensures { IfOk result (λ s. string_bytes s ≡ words_of self.now.lines step.now) }
    {
        match *step {
            StepName::Refuse(place) => format!(in alloc; "refuse {place}"),
            StepName::Execute => String::from_str(alloc, "execute"),
            StepName::Reply => String::from_str(alloc, "reply"),
            StepName::Observe { line, kind } => {
                let name = self.line_name(line).unwrap_or("");
                let word = kind.text();
                format!(in alloc; "{name}.{word}")
            }
            StepName::Timer => String::from_str(alloc, "timer"),
        }
    }
}
