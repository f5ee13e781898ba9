//! How a call enters a state.
ghost use Rattle.mg_model.specs.Agent as model;
ghost use Rattle.agent.specs.Entering.{IsEntering, leads_from};

use crate::bindings::Bindings;
use crate::building;
use crate::fault::PlainFault;
use crate::phase::Phase;
use mg_model::failures::Failure;
use mg_names::identifiers::{Assoc, CallNo, LAST_NUMBER};
use requests::{MessageId, Request};
use script_table::Script;
use std::alloc::Global;

/// What a call enters a state with: the state that it is in, the association, the number of the next request, from 1 to one more than
/// the last number, and what its names stand for.
#[derive(Clone, Copy)]
pub(crate) struct Start {
    pub(crate) call: CallNo,
    pub(crate) state: u8,
    pub(crate) association: Assoc,
    pub(crate) next: u64,
    pub(crate) bindings: Bindings,
}

/// What a call has once it entered a state.
#[derive(Drop)]
pub(crate) struct Entered {
    pub(crate) state: u8,
    pub(crate) phase: Phase,
    pub(crate) next: u64,
}

/// Enters a state: its request is sent, or where it is empty there is none and no number is taken. It can't be entered where no number is
/// left for the request.
pub(crate) fn enter(
    alloc: Global,
    script: &Script,
    start: &Start,
    state: u8,
) -> Result<Entered, PlainFault>
    ensures { IsEntering (λ a. model.entered script.now a state) start.now result }
{
    let Ok(commands) = building::commands(alloc, script, &start.bindings, state) else {
        return Err(PlainFault::NoMemory);
    };
    if commands.as_slice().is_empty() {
        return Ok(Entered {
            state,
            phase: Phase::AwaitsPass,
            next: start.next,
        });
    }
    if start.next > LAST_NUMBER as u64 {
        return Err(PlainFault::NotEnabled);
    }
    let id = MessageId {
        call: start.call,
        association: start.association,
        number: start.next as u32,
    };
    Ok(Entered {
        state,
        phase: Phase::AwaitsReply(Request::new(id, commands)),
        next: start.next + 1,
    })
}

/// Enters a target, or rests where there is none.
pub(crate) fn enter_or_rest(
    alloc: Global,
    script: &Script,
    start: &Start,
    target: Option<u8>,
) -> Result<Entered, PlainFault>
    ensures { IsEntering (λ a. model.entered_or_rests script.now a target) start.now result }
{
    match target {
        Some(state) => enter(alloc, script, start, state),
        None => Ok(Entered {
            state: start.state,
            phase: Phase::Resting,
            next: start.next,
        }),
    }
}

/// Enters a target; nothing can be entered where there is none.
pub(crate) fn enter_if(
    alloc: Global,
    script: &Script,
    start: &Start,
    target: Option<u8>,
) -> Result<Entered, PlainFault>
    ensures { IsEntering (λ a. model.entered_if script.now a target) start.now result }
{
    match target {
        Some(state) => enter(alloc, script, start, state),
        None => Err(PlainFault::NotEnabled),
    }
}

/// Goes on from a state after a reply, by whether it has a failure.
pub(crate) fn lead_on(
    alloc: Global,
    script: &Script,
    start: &Start,
    failure: Option<Failure>,
) -> Result<Entered, PlainFault>
    ensures { IsEntering (λ a. leads_from script.now start.now.state a failure) start.now result }
{
    match failure {
        None => enter_or_rest(alloc, script, start, script.ok_of(start.state)),
        Some(_) => enter_if(alloc, script, start, script.fault_of(start.state)),
    }
}
