//! A component of an entry in the words of the format of certificates: its keys, its values, and the value that a configuration has of it.
use crate::names::{
    Worded, context_name, cut_word, ephemeral_name, line_name, plays_word, termination_name,
};
use configuration::config::Config;
use entry_table::Component;
use mg_model::commands::Termination;
use script_table::Script;
use std::alloc::AllocError;
use std::fmt;

/// The keys of a termination in an entry.
#[derive(Clone, Copy)]
struct Owner<'a>(&'a Script, Termination);

impl fmt::Display for Owner<'_> {
    fn fmt<W: fmt::Write>(&self, f: &mut fmt::Formatter<W>) -> fmt::Result {
        match self.1 {
            Termination::Line(line) => write!(f, "lines.{}", line_name(self.0, line)),
            Termination::Ephemeral(name) => {
                write!(f, "ephemerals.{}", ephemeral_name(self.0, name))
            }
        }
    }
}

/// The keys of a component in an entry, with dots between them.
#[derive(Clone, Copy)]
pub(crate) struct Keys<'a> {
    pub(crate) script: &'a Script,
    pub(crate) component: &'a Component,
}

impl fmt::Display for Keys<'_> {
    fn fmt<W: fmt::Write>(&self, f: &mut fmt::Formatter<W>) -> fmt::Result {
        let script = self.script;
        match self.component {
            Component::Links(_) => write!(f, "link"),
            Component::Spots(t, _) => write!(f, "{}.at", Owner(script, *t)),
            Component::Modes(t, _) => write!(f, "{}.mode", Owner(script, *t)),
            Component::Events(line, _) => write!(f, "lines.{}.events", line_name(script, *line)),
            Component::Plays(line, _) => write!(f, "lines.{}.plays", line_name(script, *line)),
            Component::Contexts(name, _) => write!(f, "contexts.{}", context_name(script, *name)),
            Component::Remotes(name, _) => {
                write!(f, "ephemerals.{}.remote", ephemeral_name(script, *name))
            }
            Component::Cuts(t, u, _) => {
                let (from, to) = (termination_name(script, *t), termination_name(script, *u));
                write!(f, "cuts.{from}>{to}")
            }
        }
    }
}

/// The value that a configuration has of a component, as a word.
pub(crate) fn word_in<'a>(script: &'a Script, component: &Component, config: &Config) -> &'a str {
    match component {
        Component::Links(_) => config.link().word(script),
        Component::Spots(t, _) => config.spot(*t).word(script),
        Component::Modes(t, _) => config.mode(*t).word(script),
        Component::Events(line, _) => config.events(*line).word(script),
        Component::Plays(line, _) => plays_word(config.plays(*line)),
        Component::Contexts(name, _) => config.context(*name).word(script),
        Component::Remotes(name, _) => config.remote(*name).word(script),
        Component::Cuts(t, u, _) => cut_word(config.cut(*t, *u)),
    }
}

/// Adds values in words, with commas between them.
fn write_values<T: Worded>(
    out: &mut String,
    script: &Script,
    values: &[T],
) -> Result<(), AllocError> {
    let mut gap = "";
    for value in values {
        let word = value.word(script);
        write!(out, r#"{gap}"{word}""#)?;
        gap = ",";
    }
    Ok(())
}

/// Adds values of whether something is so, with this word for what is so.
fn write_tests(out: &mut String, values: &[bool], so: &str) -> Result<(), AllocError> {
    let mut gap = "";
    for value in values {
        let word = if *value { so } else { "no" };
        write!(out, r#"{gap}"{word}""#)?;
        gap = ",";
    }
    Ok(())
}

/// Adds the values of a component, with commas between them.
pub(crate) fn write_has(
    out: &mut String,
    script: &Script,
    component: &Component,
) -> Result<(), AllocError> {
    match component {
        Component::Links(values) => write_values(out, script, values.as_slice()),
        Component::Spots(_, values) => write_values(out, script, values.as_slice()),
        Component::Modes(_, values) => write_values(out, script, values.as_slice()),
        Component::Events(_, values) => write_values(out, script, values.as_slice()),
        Component::Plays(_, values) => write_tests(out, values.as_slice(), "may"),
        Component::Contexts(_, values) => write_values(out, script, values.as_slice()),
        Component::Remotes(_, values) => write_values(out, script, values.as_slice()),
        Component::Cuts(_, _, values) => write_tests(out, values.as_slice(), "yes"),
    }
}
