//! The step of a point that leads where no entry is, with the request that its state builds, command by command, and its result.
use crate::command_text::CommandText;
use crate::configurations::write_configuration;
use crate::names::state_name;
use built_request::Request;
use closure::requests::bound_in;
use configuration::config::Config;
use configuration::step::Step;
use mg_model::steps::StepName;
use script_table::Script;
use std::alloc::{AllocError, Global};

/// What becomes of the command at a place in a step.
fn mark(step: &StepName, place: usize) -> &'static str {
    match *step {
        StepName::Refuse(refused) => {
            if place < refused {
                "done"
            } else if place == refused {
                "REFUSED"
            } else {
                "not reached"
            }
        }
        StepName::Execute => "done",
        _ => "not sent yet",
    }
}

/// Adds the commands of the request that a state builds in a configuration: those of its `do` that use names alone that are bound or created before.
fn write_request(
    out: &mut String,
    script: &Script,
    config: &Config,
    step: &Step,
) -> Result<(), AllocError> {
    let state = step.result.state();
    let mut request = Request::new(script, bound_in(config), state);
    let mut gap = "";
    for place in 0..script.commands_of(state).len() {
        let Some(command) = request.take_first() else {
            return Ok(());
        };
        let command = CommandText {
            script,
            command: &command,
        };
        let mark = mark(&step.name, place);
        write!(
            out,
            r#"{gap}{{"command_place":{place},"command":"{command}","mark":"{mark}"}}"#
        )?;
        gap = ",";
    }
    Ok(())
}

/// Adds a step of a configuration.
pub(crate) fn write_step(
    alloc: Global,
    out: &mut String,
    script: &Script,
    config: &Config,
    step: &Step,
) -> Result<(), AllocError> {
    let words = script.step_words(alloc, &step.name)?;
    let state = state_name(script, step.result.state());
    write!(
        out,
        r#","step":{{"step":"{words}","state":"{state}","request":["#
    )?;
    write_request(out, script, config, step)?;
    out.push_str(r#"],"result":"#)?;
    write_configuration(alloc, out, script, &step.result)?;
    out.push_str("}")
}
