//! The step of a configuration that leads where no entry is.
ghost use Rattle.std.specs.Prelude.{IfOk, IfSome, IfNone};
ghost use Rattle.mg_model.specs.Steps.{steps_of};
ghost use Rattle.configuration.specs.Config.{configuration_of};
ghost use Rattle.closure.specs.Shown.{shown};
ghost use Rattle.closure.specs.Findings.{AreCovered};
ghost use Rattle.explanation.specs.Uncovered.{IsFirstUncovered};

use closure::cover::covers;
use closure::steps::steps;
use configuration::config::Config;
use configuration::step::Step;
use entry_table::Cert;
use script_table::Script;
use std::alloc::{AllocError, Global};

/// The first of some steps whose result is in no entry.
fn first_uncovered(cert: &Cert, steps: &[Step]) -> Option<Step>
    ensures some { IfSome result (λ step. IsFirstUncovered cert.now (shown steps.now) (step.name, configuration_of step.result)) }
    ensures none { IfNone result (AreCovered cert.now (shown steps.now)) }
{
    for step in steps {
        if !covers(cert, &step.result) {
            return Some(*step);
        }
    }
    None
}

/// The first step of a configuration whose result is in no entry, with that result; `None` where each is in one. The only error is running out
/// of memory.
pub fn uncovered_step(
    alloc: Global,
    script: &Script,
    cert: &Cert,
    config: &Config,
) -> Result<Option<Step>, AllocError>
    ensures some { IfOk result (λ found. IfSome found
        (λ step. IsFirstUncovered cert.now (steps_of script.now (configuration_of config.now)) (step.name, configuration_of step.result))) }
    ensures none { IfOk result (λ found. IfNone found (AreCovered cert.now (steps_of script.now (configuration_of config.now)))) }
{
    let steps = steps(alloc, script, config)?;
    Ok(first_uncovered(cert, steps.as_slice()))
}
