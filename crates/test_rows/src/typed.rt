//! A typed call, by what it is in its phase: it always comes back.
use agent::{Next, Refusal, Refused};
use mg_model::events::Event;
use script_table::Script;
use test_layers::pages::{Answer, Page};
use test_layers::told::{Phase, waiting, write_standing};

/// Tells what is seen of a call: its state, its association, and how many events happened to it.
pub(crate) fn show(page: &mut Page, next: &Next<'_>) {
    page.numbered("; state ", u64::from(next.state()));
    page.numbered(", association ", next.association().0);
    page.numbered(", events ", next.transcript().len() as u64);
}

/// Writes where a call stands.
pub(crate) fn write_next(page: &mut Page, script: &Script, next: &Next<'_>) -> Answer {
    let phase = match next {
        Next::Resting(_) => Phase::Resting,
        Next::Waiting(call) => waiting(call.request()),
        Next::Ended(_) => Phase::Ended,
    };
    write_standing(page, script, next.state(), phase, next.association())
}

/// An event of the gateway is put into what happened to a call.
pub(crate) fn log(next: Next<'_>, event: Event) -> (Next<'_>, Result<(), Refusal>) {
    match next {
        Next::Resting(call) => match call.log_event(event) {
            Ok(next) => (next, Ok(())),
            Err(Refused { call, why }) => (Next::Resting(call), Err(why)),
        },
        Next::Waiting(call) => match call.log_event(event) {
            Ok(next) => (next, Ok(())),
            Err(Refused { call, why }) => (Next::Waiting(call), Err(why)),
        },
        Next::Ended(call) => match call.log_event(event) {
            Ok(next) => (next, Ok(())),
            Err(Refused { call, why }) => (Next::Ended(call), Err(why)),
        },
    }
}

/// Writes the refusals of a call.
pub(crate) fn write_faults(page: &mut Page) -> Answer {
    for why in [
        Refusal::NotEnabled,
        Refusal::Behind { slot_count: 4 },
        Refusal::NoMemory,
    ] {
        page.refused(u16::from(why.number()), why.name());
        page.say(" ");
    }
    page.say("and no more");
    Answer::Told
}
