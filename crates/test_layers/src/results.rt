//! What is written of what a command did.
use crate::names::{Names, write_names};
use crate::pages::{Answer, Page};
use contexts::Done;
use mg_names::codes::Code;

/// Writes a code with its name.
pub(crate) fn write_code(page: &mut Page, code: Code) -> Answer {
    page.refused(code.number(), code.name())
}

/// Writes what a command did: what it created, and what it subtracted.
pub(crate) fn write_done(page: &mut Page, names: &Names, done: &Done) -> Answer {
    page.say("done");
    if let Some(context) = done.context() {
        page.say(", context ");
        names.write_context(page, context);
    }
    if let Some(ephemeral) = done.ephemeral() {
        page.say(", ephemeral ");
        names.write_ephemeral(page, ephemeral);
    }
    if !done.lines().is_empty() || !done.ephemerals().is_empty() {
        page.say(", subtracted");
        write_names(page, names, done.lines());
        write_names(page, names, done.ephemerals());
    }
    Answer::Told
}

/// What a command created is given.
pub(crate) fn give(names: &mut Names, done: &Done) {
    if let Some(context) = done.context() {
        names.contexts.give(context.0);
    }
    if let Some(ephemeral) = done.ephemeral() {
        names.ephemerals.give(ephemeral);
    }
}
