//! The commands of a request, as the words of a row. A context or an ephemeral that an earlier command of the request creates is named by the
//! place of that command, from 0, as `@0`.
use crate::events;
use crate::names::{self, Names};
use crate::options::{self, Options};
use crate::pages::Answer;
use crate::words::{Words, two_numbers};
use mg_model::failures::{ChosenRefusal, Refusal};
use mg_model::references::{ContextRef, SettingsRef, TerminationRef};
use mg_names::topologies::Topology;
use requests::{LineDescriptors, Newcomer, RequestCommand, Target};
use std::alloc::Global;

/// The most commands of a request that a row writes.
const MOST: usize = 16;

/// The context that a word names.
fn context(names: &Names, word: &str) -> Option<ContextRef> {
    match (options::place(word), names.context(word)) {
        (Some(place), _) => Some(ContextRef::MadeAt(place)),
        (_, Some(context)) => Some(ContextRef::Number(context)),
        _ => None,
    }
}

/// The termination that a word names.
fn termination(names: &Names, word: &str) -> Option<TerminationRef> {
    match (names::line(word), options::ephemeral(names, word)) {
        (Some(line), _) => Some(TerminationRef::Line(line)),
        (_, Some(ephemeral)) => Some(TerminationRef::Ephemeral(ephemeral)),
        _ => None,
    }
}

/// The descriptors that only a line takes.
fn descriptors(alloc: Global, options: &Options<'_>) -> Result<LineDescriptors, Answer> {
    let signals = options.signals;
    let Some(text) = options.events else {
        return Ok(LineDescriptors {
            events: None,
            signals,
        });
    };
    match events::read(alloc, text) {
        Ok(list) => Ok(LineDescriptors {
            events: Some(list),
            signals,
        }),
        Err(answer) => Err(answer),
    }
}

/// The termination of a Modify or a Move.
fn target(termination: TerminationRef, descriptors: LineDescriptors) -> Target {
    match termination {
        TerminationRef::Line(line) => Target::Line { line, descriptors },
        TerminationRef::Ephemeral(ephemeral) => Target::Ephemeral(ephemeral),
    }
}

/// A Modify, a Move, or an Add, which brings a line, or a new ephemeral where it names nothing.
fn setting(
    verb: &str,
    context: ContextRef,
    termination: Option<TerminationRef>,
    settings: SettingsRef,
    descriptors: LineDescriptors,
) -> Option<RequestCommand> {
    match (verb, termination) {
        ("modify", Some(termination)) => Some(RequestCommand::Modify {
            context,
            target: target(termination, descriptors),
            settings,
        }),
        ("move", Some(termination)) => Some(RequestCommand::Move {
            context,
            target: target(termination, descriptors),
            settings,
        }),
        ("add", Some(TerminationRef::Line(line))) => Some(RequestCommand::Add {
            context,
            added: Newcomer::Line { line, descriptors },
            settings,
        }),
        ("add", None) => Some(RequestCommand::Add {
            context,
            added: Newcomer::NewEphemeral,
            settings,
        }),
        _ => None,
    }
}

/// A Subtract, or a Topology.
fn plain(
    names: &Names,
    verb: &str,
    context: ContextRef,
    words: &mut Words<'_>,
) -> Option<RequestCommand> {
    let word = words.next();
    let second = termination(names, words.next());
    match (
        verb,
        termination(names, word),
        second,
        Topology::read(words.next()),
    ) {
        ("subtract", Some(termination), _, _) => Some(RequestCommand::Subtract {
            context,
            termination,
        }),
        ("subtract", None, _, _) if word == "*" => Some(RequestCommand::SubtractAll { context }),
        ("topology", Some(first), Some(second), Some(topology)) => {
            Some(RequestCommand::SetTopology {
                context,
                first,
                second,
                topology,
            })
        }
        _ => None,
    }
}

/// The command of a verb and its context that words name: its termination, and the rest.
fn command_in(
    alloc: Global,
    names: &Names,
    verb: &str,
    context: ContextRef,
    words: &mut Words<'_>,
) -> Result<Option<RequestCommand>, Answer> {
    let mut ahead = *words;
    let word = ahead.next();
    let named = termination(names, word);
    if verb == "subtract" || verb == "topology" || named.is_none() && word != "$" {
        return Ok(plain(names, verb, context, words));
    }
    let Some(options) = options::read(names, ahead.rest()) else {
        return Err(Answer::NoCall);
    };
    match descriptors(alloc, &options) {
        Ok(descriptors) => Ok(setting(verb, context, named, options.settings, descriptors)),
        Err(answer) => Err(answer),
    }
}

/// Adds the command that a text names: its verb, its context, its termination, and the rest.
fn add(alloc: Global, names: &Names, commands: &mut Vec<RequestCommand>, text: &str) -> Answer {
    let mut words = Words::of(text);
    let verb = words.next();
    let Some(context) = context(names, words.next()) else {
        return Answer::NoCall;
    };
    match command_in(alloc, names, verb, context, &mut words) {
        Ok(Some(command)) => match commands.push(command) {
            Ok(()) => Answer::Told,
            Err(_) => Answer::NoMemory,
        },
        Ok(None) => Answer::NoCall,
        Err(answer) => answer,
    }
}

/// Adds the commands that a text names, divided by ` ; `.
fn add_all(alloc: Global, names: &Names, commands: &mut Vec<RequestCommand>, text: &str) -> Answer {
    let mut parts = Words::of(text);
    for _ in 0..MOST {
        let answer = add(alloc, names, commands, parts.part(" ; "));
        if answer != Answer::Told || parts.rest().is_empty() {
            return answer;
        }
    }
    Answer::NoCall
}

/// The commands that a text names.
pub(crate) fn read(
    alloc: Global,
    names: &Names,
    text: &str,
) -> Result<Vec<RequestCommand>, Answer> {
    let mut commands = Vec::new(alloc);
    match add_all(alloc, names, &mut commands, text) {
        Answer::Told => Ok(commands),
        answer => Err(answer),
    }
}

/// The refusal that is chosen for a command of a request, such as `refuse=1/500`: the command at place 1, from 0, with 500.
pub(crate) fn chosen(words: &mut Words<'_>) -> Option<ChosenRefusal> {
    match two_numbers(words.value_of("refuse=")) {
        Some((place, 500)) => Some(ChosenRefusal {
            place,
            refusal: Refusal::InternalFailure,
        }),
        Some((place, 510)) => Some(ChosenRefusal {
            place,
            refusal: Refusal::InsufficientResources,
        }),
        _ => None,
    }
}
