//! A command as a script writes it in `do`.
use crate::names::{NO_NAME, context_name, ephemeral_name, line_name, termination_name};
use mg_model::commands::{
    Command, EphemeralOptions, EventsName, LineOptions, Place, RemoteOption, SignalsName,
};
use mg_names::modes::Mode;
use mg_names::slots::Slot;
use script_table::Script;
use std::fmt;

/// A command in the words of a script. This profile's own.
#[derive(Clone, Copy)]
pub struct CommandText<'a> {
    /// The script.
    pub script: &'a Script,
    /// The command.
    pub command: &'a Command,
}

/// An option of a line or an ephemeral with its word, behind a blank; nothing where it isn't given.
#[derive(Clone, Copy)]
struct OptionText<'a>(&'a str, Option<&'a str>);

impl fmt::Display for OptionText<'_> {
    fn fmt<W: fmt::Write>(&self, f: &mut fmt::Formatter<W>) -> fmt::Result {
        let key = self.0;
        match self.1 {
            Some(word) => write!(f, " {key}={word}"),
            None => Ok(()),
        }
    }
}

/// The word of a mode that is given.
fn mode_word(mode: Option<Mode>) -> Option<&'static str> {
    match mode {
        Some(mode) => Some(mode.text()),
        None => None,
    }
}

/// The name of an events list that is given.
fn events_word(script: &Script, list: Option<EventsName>) -> Option<&str> {
    match list {
        Some(list) => Some(script.events_name(list).unwrap_or(NO_NAME)),
        None => None,
    }
}

/// The name of a signals list that is given.
fn signals_word(script: &Script, list: Option<SignalsName>) -> Option<&str> {
    match list {
        Some(list) => Some(script.signals_name(list).unwrap_or(NO_NAME)),
        None => None,
    }
}

/// The options of a line, each behind a blank.
#[derive(Clone, Copy)]
struct LineOptionsText<'a>(&'a Script, LineOptions);

impl fmt::Display for LineOptionsText<'_> {
    fn fmt<W: fmt::Write>(&self, f: &mut fmt::Formatter<W>) -> fmt::Result {
        let (script, options) = (self.0, &self.1);
        let mode = OptionText("mode", mode_word(options.mode));
        let events = OptionText("events", events_word(script, options.events));
        let signals = OptionText("signals", signals_word(script, options.signals));
        write!(f, "{mode}{events}{signals}")
    }
}

/// The word of a Remote that is given.
fn remote_word<'a>(script: &'a Script, remote: &Option<RemoteOption>) -> Option<&'a str> {
    match *remote {
        Some(RemoteOption::NoneGiven) => Some("none"),
        Some(RemoteOption::Peer(peer)) => Some(ephemeral_name(script, peer)),
        None => None,
    }
}

/// The options of an ephemeral, each behind a blank.
#[derive(Clone, Copy)]
struct EphemeralOptionsText<'a>(&'a Script, EphemeralOptions);

impl fmt::Display for EphemeralOptionsText<'_> {
    fn fmt<W: fmt::Write>(&self, f: &mut fmt::Formatter<W>) -> fmt::Result {
        let (script, options) = (self.0, &self.1);
        let mode = OptionText("mode", mode_word(options.mode));
        let remote = OptionText("remote", remote_word(script, &options.remote));
        write!(f, "{mode}{remote}")
    }
}

/// A context that a command adds to: with `$` before its name where it is created.
#[derive(Clone, Copy)]
struct Target<'a>(&'a Script, bool, Slot);

impl fmt::Display for Target<'_> {
    fn fmt<W: fmt::Write>(&self, f: &mut fmt::Formatter<W>) -> fmt::Result {
        let name = context_name(self.0, self.2);
        if self.1 {
            write!(f, "${name}")
        } else {
            write!(f, "{name}")
        }
    }
}

/// Where a Modify looks for its termination.
fn place_word(script: &Script, place: Place) -> &str {
    match place {
        Place::NullContext => "-",
        Place::Context(context) => context_name(script, context),
    }
}

impl fmt::Display for CommandText<'_> {
    fn fmt<W: fmt::Write>(&self, f: &mut fmt::Formatter<W>) -> fmt::Result {
        let script = self.script;
        match *self.command {
            Command::AddLine {
                create,
                context,
                line,
                options,
            } => {
                let target = Target(script, create, context);
                let name = line_name(script, line);
                write!(f, "add {target} {name}{}", LineOptionsText(script, options))
            }
            Command::AddEphemeral {
                create,
                context,
                ephemeral,
                options,
            } => {
                let target = Target(script, create, context);
                let name = ephemeral_name(script, ephemeral);
                write!(
                    f,
                    "add {target} ${name}{}",
                    EphemeralOptionsText(script, options)
                )
            }
            _ => write_change(self, f),
        }
    }
}

/// Writes a Modify, or what is neither that nor an Add.
fn write_change<W: fmt::Write>(text: &CommandText<'_>, f: &mut fmt::Formatter<W>) -> fmt::Result {
    let script = text.script;
    match *text.command {
        Command::ModifyLine {
            place,
            line,
            options,
        } => {
            let (place, name) = (place_word(script, place), line_name(script, line));
            let options = LineOptionsText(script, options);
            write!(f, "modify {place} {name}{options}")
        }
        Command::ModifyEphemeral {
            place,
            ephemeral,
            options,
        } => {
            let (place, name) = (place_word(script, place), ephemeral_name(script, ephemeral));
            let options = EphemeralOptionsText(script, options);
            write!(f, "modify {place} {name}{options}")
        }
        _ => write_move(text, f),
    }
}

/// Writes a Move, or what is none of these.
fn write_move<W: fmt::Write>(text: &CommandText<'_>, f: &mut fmt::Formatter<W>) -> fmt::Result {
    let script = text.script;
    match *text.command {
        Command::MoveLine {
            context,
            line,
            options,
        } => {
            let (context, name) = (context_name(script, context), line_name(script, line));
            let options = LineOptionsText(script, options);
            write!(f, "move {context} {name}{options}")
        }
        Command::MoveEphemeral {
            context,
            ephemeral,
            options,
        } => {
            let context = context_name(script, context);
            let name = ephemeral_name(script, ephemeral);
            let options = EphemeralOptionsText(script, options);
            write!(f, "move {context} {name}{options}")
        }
        _ => write_rest(text, f),
    }
}

/// Writes a Subtract or a Topology descriptor.
fn write_rest<W: fmt::Write>(text: &CommandText<'_>, f: &mut fmt::Formatter<W>) -> fmt::Result {
    let script = text.script;
    match *text.command {
        Command::Subtract {
            context,
            termination,
        } => {
            let name = termination_name(script, termination);
            write!(f, "subtract {} {name}", context_name(script, context))
        }
        Command::SubtractAll { context } => {
            write!(f, "subtract {} *", context_name(script, context))
        }
        Command::SetTopology {
            context,
            first,
            second,
            topology,
        } => {
            let context = context_name(script, context);
            let (first, second) = (
                termination_name(script, first),
                termination_name(script, second),
            );
            write!(f, "topology {context} {first} {second} {}", topology.text())
        }
        _ => Ok(()),
    }
}
