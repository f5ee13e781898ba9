//! Open calls with a line each, whose requests are executed one call after the other: each adds the call's line to a new context and a new ephemeral
//! beside it, and subtracts both again. Or open calls with two lines each, on whose lines new calls begin, each on those of the call that is open the longest.
use crate::bench_boards::lines;
use gateway::{Answer, Gateway};
use mg_model::references::{ContextRef, SettingsRef};
use mg_names::identifiers::{CallNo, ContextId, LineNo};
use mg_names::modes::Mode;
use requests::{LineDescriptors, MessageId, Newcomer, Request, RequestCommand};
use std::alloc::{AllocError, Global};

/// What is set on each termination that is added.
const SETTINGS: SettingsRef = SettingsRef {
    mode: Some(Mode::SendReceive),
    remote: None,
};

/// Opens each call on so many lines of its own.
fn opens(gateway: &mut Gateway, calls: u32, width: u32) -> bool {
    for call in 0..calls {
        let first = LineNo(call.saturating_mul(width).saturating_add(1));
        let second = LineNo(first.0.saturating_add(1));
        let opened = match width {
            1 => gateway.open_call(CallNo(call), &[first]),
            _ => gateway.open_call(CallNo(call), &[first, second]),
        };
        if opened.is_err() {
            return false;
        }
    }
    true
}

/// So many calls begin on the lines of those that are open the longest.
fn begin(gateway: &mut Gateway, calls: u32, count: u32) -> bool {
    for old in 0..count {
        let new = CallNo(calls.saturating_add(old));
        if gateway.begin(CallNo(old), new).is_err() {
            return false;
        }
    }
    true
}

/// The request with this number: the line of the call goes to a new context with a new ephemeral, and both out of it.
fn request(alloc: Global, id: MessageId) -> Result<Request, AllocError> {
    let add = RequestCommand::Add {
        context: ContextRef::Number(ContextId::CHOOSE),
        added: Newcomer::Line {
            line: LineNo(id.call.0.saturating_add(1)),
            descriptors: LineDescriptors::default(),
        },
        settings: SETTINGS,
    };
    let add_beside = RequestCommand::Add {
        context: ContextRef::MadeAt(0),
        added: Newcomer::NewEphemeral,
        settings: SETTINGS,
    };
    let subtract = RequestCommand::SubtractAll {
        context: ContextRef::MadeAt(0),
    };
    match Vec::from_array(alloc, [add, add_beside, subtract]) {
        Ok(commands) => Ok(Request::new(id, commands)),
        Err(_) => Err(AllocError),
    }
}

/// Whether a request is executed, and none of its commands fails.
fn is_done(gateway: &mut Gateway, request: &Request) -> bool {
    match gateway.execute(request.call(), request, None) {
        Answer::Executed { reply, .. } => reply.failure().is_none(),
        _ => false,
    }
}

/// The call's request with this number, executed.
fn executes(alloc: Global, gateway: &mut Gateway, call: u32, number: u32) -> bool {
    let id = MessageId {
        call: CallNo(call),
        association: gateway.association(),
        number,
    };
    match request(alloc, id) {
        Ok(request) => is_done(gateway, &request),
        Err(_) => false,
    }
}

/// So many requests, one call after the other.
fn execute_all(alloc: Global, gateway: &mut Gateway, calls: u32, count: u32) -> bool {
    for number in 0..count {
        let call = number.checked_rem(calls).unwrap_or(0);
        if !executes(alloc, gateway, call, number.saturating_add(1)) {
            return false;
        }
    }
    true
}

/// A gateway with the lines from 1 on, so many.
fn gateway(alloc: Global, count: u32) -> Result<Gateway, AllocError> {
    match lines(alloc, count) {
        Ok(lines) => Gateway::new(alloc, lines.as_slice()),
        Err(_) => Err(AllocError),
    }
}

/// Whether so many requests of calls with one line each, or so many beginnings on calls with two, came to what they should.
pub(crate) fn measured(alloc: Global, calls: u32, count: u32, width: u32) -> bool {
    match gateway(alloc, calls.saturating_mul(width)) {
        Ok(mut gateway) => {
            let is_open = opens(&mut gateway, calls, width);
            is_open
                && match width {
                    1 => execute_all(alloc, &mut gateway, calls, count),
                    _ => begin(&mut gateway, calls, count),
                }
        }
        Err(_) => false,
    }
}
