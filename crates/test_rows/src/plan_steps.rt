//! What a row writes that happens to a call: a step by the words of a plan, or an event that no step means.
use mg_model::events::CallEvent;
use mg_model::line_events::{Hook, LineEvent};
use mg_model::plans::PlanStep;
use mg_names::identifiers::{Assoc, LineNo};
use plans::Plan;
use script_table::Script;
use std::alloc::{AllocError, Global};
use test_layers::pages::{Answer, Page};
use test_layers::words::Words;
use typed_values::Unread;

/// Room for a plan of one step, made at once.
const ROOM: usize = 256;

/// A plan of one call with this one step.
fn written(alloc: Global, step: &str) -> Result<Page, AllocError> {
    let mut page = Page::new(alloc, ROOM)?;
    page.say("[[call]]\nlines = [1, 2]\nepochs = [['");
    page.say(step);
    page.say("']]\n");
    Ok(page)
}

/// The one step of a plan of one call.
fn first_step(plan: &Plan) -> Option<PlanStep> {
    let [call] = plan.calls() else {
        return None;
    };
    let [epoch] = call.epochs() else {
        return None;
    };
    let [step] = epoch.steps() else {
        return None;
    };
    Some(*step)
}

/// The one step of a plan that is read.
fn read_plan(alloc: Global, script: &Script, text: &str) -> Result<PlanStep, Answer> {
    match Plan::read(alloc, text.as_bytes(), script) {
        Ok(plan) => match first_step(&plan) {
            Some(step) => Ok(step),
            None => Err(Answer::NoCall),
        },
        Err(Unread::NoMemory) => Err(Answer::NoMemory),
        Err(Unread::Fault(_)) => Err(Answer::NoCall),
    }
}

/// The step that a row writes by the words of a plan.
pub(crate) fn read(alloc: Global, script: &Script, step: &str) -> Result<PlanStep, Answer> {
    match written(alloc, step) {
        Ok(page) => read_plan(alloc, script, page.text()),
        Err(_) => Err(Answer::NoMemory),
    }
}

/// An event that a row writes and no step of a plan means: a verb with the number of a message, a line of the gateway or an association.
pub(crate) fn event(words: &mut Words<'_>) -> Option<CallEvent> {
    let verb = words.next();
    let number = words.number()?;
    match verb {
        "off" => Some(CallEvent::OnLine {
            line: LineNo(number),
            event: LineEvent::Hook(Hook::Off),
        }),
        "execute" => Some(CallEvent::Execute {
            number,
            chosen: None,
        }),
        "reply" => Some(CallEvent::Reply { number }),
        "note" => Some(CallEvent::Note { number }),
        "hear" => Some(CallEvent::Hear {
            association: Assoc(u64::from(number)),
        }),
        _ => None,
    }
}
