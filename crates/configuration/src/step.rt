//! A step of a configuration as data, and lists of steps.
ghost use Rattle.std.specs.Prelude.{◌≡◌, ◌∷◌, [], ◌++◌, OnOk, OnErr};

use crate::config::Config;
use mg_model::steps::StepName;
use std::alloc::{AllocError, Global};

/// A step of a configuration, with the configuration that it leads to.
#[derive(Clone, Copy)]
pub struct Step {
    /// Its name.
    pub name: StepName,
    /// What it leads to.
    pub result: Config,
}

/// An empty list of steps.
pub fn no_steps(alloc: Global) -> Vec<Step>
    ensures { result.items ≡ [] }
{
    Vec::new(alloc)
}

/// Adds a step at the end of a list, which stays as it was where memory is refused.
pub fn push_step(steps: &mut Vec<Step>, name: StepName, result_of: Config) -> Result<(), AllocError>
    ensures ok { OnOk result (steps.new.items ≡ steps.old.items ++ record { name = name; result = result_of } ∷ []) }
    ensures err { OnErr result (steps.new.items ≡ steps.old.items) }
{
    let step = Step {
        name,
        result: result_of,
    };
    steps.extend_from_slice(&[step])
}
