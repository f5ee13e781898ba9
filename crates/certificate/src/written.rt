//! A certificate as it is written: texts, before any name in it is looked up.
use crate::reads::{Reads, Row, expect_only, needed, optional, tabled};
use serde_json::Value;
use std::alloc::Global;
use std::marker::Model;
use typed_values::{Missing, Word, Words};

/// What is written for a line; what is left out has its default.
#[derive(Drop)]
pub struct WrittenLine {
    pub at: Option<Words>,
    pub mode: Option<Words>,
    pub events: Option<Words>,
    pub plays: Option<Words>,
}

impl Model for WrittenLine {
    ghost use Rattle.certificate.specs.Written.{Line};

    ghost Value = { Line };

    ghost view = { λ w. record { at = w.at; mode = w.mode; events = w.events; plays = w.plays } };
}

/// What is written for an ephemeral.
#[derive(Drop)]
pub struct WrittenEphemeral {
    pub at: Option<Words>,
    pub mode: Option<Words>,
    pub remote: Option<Words>,
}

impl Model for WrittenEphemeral {
    ghost use Rattle.certificate.specs.Written.{Ephemeral};

    ghost Value = { Ephemeral };

    ghost view = { λ w. record { at = w.at; mode = w.mode; remote = w.remote } };
}

/// What is written for a state.
#[derive(Drop)]
pub struct WrittenEntry {
    pub state: Word,
    pub link: Words,
    pub lines: Vec<Row<WrittenLine>>,
    pub contexts: Vec<Row<Words>>,
    pub ephemerals: Vec<Row<WrittenEphemeral>>,
    pub cuts: Vec<Row<Words>>,
}

impl Model for WrittenEntry {
    ghost use Rattle.std.specs.Prelude.{map};
    ghost use Rattle.certificate.specs.Written.{Entry};

    ghost Value = { Entry };

    ghost view = { λ w. record { state = w.state; link = w.link; lines = map (λ r. (r.name, r.value)) w.lines.items; contexts = map (λ r. (r.name, r.value)) w.contexts.items; ephemerals = map (λ r. (r.name, r.value)) w.ephemerals.items; cuts = map (λ r. (r.name, r.value)) w.cuts.items } };
}

/// The whole of what is written.
#[derive(Drop)]
pub struct WrittenDocument {
    pub is_old: bool,
    pub entries: Vec<WrittenEntry>,
}

impl Model for WrittenDocument {
    ghost use Rattle.certificate.specs.Written.{Document};

    ghost Value = { Document };

    ghost view = { λ w. record { is_old = w.is_old; entries = w.entries.items } };
}

impl Reads for WrittenLine {
    ghost use Rattle.certificate.specs.Document.{line_meant};
    ghost use Rattle.certificate.specs.Written.{Line};

    ghost Seen = { Line };

    ghost seen = { λ w. w };

    ghost meaning = { line_meant };

    fn read(alloc: Global, value: &Value) -> Result<WrittenLine, Missing> {
        expect_only(value, &["at", "mode", "events", "plays"])?;
        let at = optional(alloc, value, "at")?;
        let mode = optional(alloc, value, "mode")?;
        let events = optional(alloc, value, "events")?;
        let plays = optional(alloc, value, "plays")?;
        Ok(WrittenLine {
            at,
            mode,
            events,
            plays,
        })
    }
}

impl Reads for WrittenEphemeral {
    ghost use Rattle.certificate.specs.Document.{ephemeral_meant};
    ghost use Rattle.certificate.specs.Written.{Ephemeral};

    ghost Seen = { Ephemeral };

    ghost seen = { λ w. w };

    ghost meaning = { ephemeral_meant };

    fn read(alloc: Global, value: &Value) -> Result<WrittenEphemeral, Missing> {
        expect_only(value, &["at", "mode", "remote"])?;
        let at = optional(alloc, value, "at")?;
        let mode = optional(alloc, value, "mode")?;
        let remote = optional(alloc, value, "remote")?;
        Ok(WrittenEphemeral { at, mode, remote })
    }
}

/// The keys of an entry.
const ENTRY_KEYS: [&str; 6] = ["state", "link", "lines", "contexts", "ephemerals", "cuts"];

impl Reads for WrittenEntry {
    ghost use Rattle.certificate.specs.Document.{entry_meant};
    ghost use Rattle.certificate.specs.Written.{Entry};

    ghost Seen = { Entry };

    ghost seen = { λ w. w };

    ghost meaning = { entry_meant };

    fn read(alloc: Global, value: &Value) -> Result<WrittenEntry, Missing> {
        expect_only(value, &ENTRY_KEYS)?;
        let state = needed(alloc, value, "state")?;
        let link = needed(alloc, value, "link")?;
        let lines = tabled(alloc, value, "lines")?;
        let contexts = tabled(alloc, value, "contexts")?;
        let ephemerals = tabled(alloc, value, "ephemerals")?;
        let cuts = tabled(alloc, value, "cuts")?;
        Ok(WrittenEntry {
            state,
            link,
            lines,
            contexts,
            ephemerals,
            cuts,
        })
    }
}
