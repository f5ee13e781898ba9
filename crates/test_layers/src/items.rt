//! A command on the connection model, as the words of a row (H.248.1 section 7.2).
use crate::names::Names;
use crate::options;
use crate::words::Words;
use mg_model::items::{Added, Item};
use mg_names::identifiers::{ContextId, TermId};
use mg_names::topologies::Topology;

/// A command that sets something: what an Add brings is `$` for a new ephemeral, or a line.
fn setting(names: &Names, verb: &str, context: ContextId, words: &mut Words<'_>) -> Option<Item> {
    let word = words.next();
    let Some(settings) = options::settings(names, words.rest()) else {
        return None;
    };
    let added = Added::NewEphemeral;
    match (verb, names.termination(word)) {
        ("add", Some(TermId::Line(line))) => {
            let added = Added::Line(line);
            Some(Item::Add {
                context,
                added,
                settings,
            })
        }
        ("add", None) if word == "$" => Some(Item::Add {
            context,
            added,
            settings,
        }),
        ("modify", Some(termination)) => Some(Item::Modify {
            context,
            termination,
            settings,
        }),
        ("move", Some(termination)) => Some(Item::Move {
            context,
            termination,
            settings,
        }),
        _ => None,
    }
}

fn subtract(names: &Names, context: ContextId, word: &str) -> Option<Item> {
    match names.termination(word) {
        Some(termination) => Some(Item::Subtract {
            context,
            termination,
        }),
        None if word == "*" => Some(Item::SubtractAll { context }),
        None => None,
    }
}

fn topology(names: &Names, context: ContextId, words: &mut Words<'_>) -> Option<Item> {
    let first = names.termination(words.next());
    let second = names.termination(words.next());
    match (first, second, Topology::read(words.next())) {
        (Some(first), Some(second), Some(topology)) => {
            Some(Item::SetTopology {
                context,
                first,
                second,
                topology,
            })
        }
        _ => None,
    }
}

/// The command of a row: its verb, its context, its termination, and the rest.
pub(crate) fn item(names: &Names, verb: &str, words: &mut Words<'_>) -> Option<Item> {
    match (verb, names.context(words.next())) {
        ("subtract", Some(context)) => subtract(names, context, words.next()),
        ("topology", Some(context)) => topology(names, context, words),
        (_, Some(context)) => setting(names, verb, context, words),
        _ => None,
    }
}
