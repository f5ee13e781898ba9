//! What happens to a call without its shard.
use crate::plan_steps::event;
use crate::typed::{self, write_next};
use agent::{Delivery, Next, Refusal};
use mg_model::events::Event;
use mg_names::identifiers::{Assoc, CallNo};
use script_table::Script;
use test_layers::pages::{Answer, Page};
use test_layers::words::Words;

/// Writes whether a call took without its shard what reached it, and where it stands then.
fn write_apart(
    page: &mut Page,
    script: &Script,
    next: &Next<'_>,
    done: &Result<(), Refusal>,
) -> Answer {
    match done {
        Err(Refusal::NoMemory) => return Answer::NoMemory,
        Err(_) => page.say("refused, "),
        Ok(()) => page.say("taken, "),
    }
    write_next(page, script, next)
}

/// A call hears of an association without its shard.
pub(crate) fn hear<'s>(
    page: &mut Page,
    script: &Script,
    next: Next<'s>,
    words: &mut Words<'_>,
) -> (Next<'s>, Answer) {
    let (_hear, Some(of)) = (words.next(), words.number()) else {
        return (next, Answer::NoCall);
    };
    let (next, done) = next.advance(&Delivery::Hear(Assoc(u64::from(of))));
    let answer = write_apart(page, script, &next, &done);
    (next, answer)
}

/// The event that a row puts into what happened to a call: of the call with a number, or a restart.
fn logged(words: &mut Words<'_>) -> Option<Event> {
    match (words.number(), event(words)) {
        (Some(call), Some(event)) => Some(Event::OfCall {
            call: CallNo(call),
            event,
        }),
        (Some(_), None) => None,
        (None, _) => Some(Event::Restart),
    }
}

/// A row's event is put into what happened to a call, without its shard.
pub(crate) fn log<'s>(
    page: &mut Page,
    script: &Script,
    next: Next<'s>,
    words: &mut Words<'_>,
) -> (Next<'s>, Answer) {
    let Some(event) = logged(words) else {
        return (next, Answer::NoCall);
    };
    let (next, done) = typed::log(next, event);
    let answer = write_apart(page, script, &next, &done);
    (next, answer)
}
