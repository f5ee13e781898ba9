//! What is written of a reply and of a note that is sent.
use crate::names::Names;
use crate::pages::{Answer, Page};
use crate::{events, results};
use contexts::Done;
use requests::{MessageId, Reply, SentNote};

/// What each command of a request created is given, and its result is written.
fn write_results(page: &mut Page, names: &mut Names, results: &[Done]) {
    for done in results {
        results::give(names, done);
        results::write_done(page, names, done);
        page.say(" ; ");
    }
}

/// Writes which message a reply answers, where it isn't this one.
fn write_other(page: &mut Page, id: MessageId, reply: &Reply) {
    let (call, association, number) = (reply.call(), reply.association(), reply.number());
    if call == id.call && association == id.association && number == id.number {
        return;
    }
    page.numbered("to request ", u64::from(number));
    page.numbered(" of call ", u64::from(call.0));
    page.numbered(" in association ", association.0);
    page.say(": ");
}

/// Writes a reply: the result of each command that was done, and then the code of the one that failed with its place, or `all`.
pub(crate) fn write_reply(
    page: &mut Page,
    names: &mut Names,
    id: MessageId,
    reply: &Reply,
) -> Answer {
    write_other(page, id, reply);
    write_results(page, names, reply.results());
    match reply.failure() {
        Some(failure) => {
            results::write_code(page, failure.code);
            page.numbered(" at ", failure.place as u64);
        }
        None => page.say("all"),
    }
    Answer::Told
}

/// Writes a note that is sent.
pub(crate) fn write_note(page: &mut Page, sent: &SentNote) -> Answer {
    page.numbered("note ", u64::from(sent.number()));
    page.numbered(" to call ", u64::from(sent.call().0));
    page.numbered(": l/", u64::from(sent.line().0));
    page.say(" ");
    events::write_note(page, sent.note());
    Answer::Told
}
