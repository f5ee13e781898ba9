//! A document as it is written: every mention of a thing is still its name.
use mg_names::kinds::Kind;
use mg_names::modes::Mode;
use mg_names::signals::Signal;
use mg_names::strictness::Strict;
use mg_names::topologies::Topology;
use std::marker::Model;
use typed_values::Word;

/// An item of an events list.
#[derive(Drop)]
pub enum WrittenItem {
    OnHook(Strict),
    OffHook(Strict),
    Flash,
    Digits(Word),
}

/// An events list.
#[derive(Drop)]
pub struct WrittenEvents {
    pub name: Word,
    pub items: Vec<WrittenItem>,
}

impl Model for WrittenEvents {
    ghost use Rattle.scriptreader.specs.Written as written;

    ghost Value = { written.Events };

    ghost view = { λ e. record { name = e.name; items = e.items.items } };
}

/// A signal of a signals list.
#[derive(Drop)]
pub struct WrittenSignal {
    pub signal: Signal,
}

impl Model for WrittenSignal {
    ghost use Rattle.mg_names.specs.declared.signals.Signal.{Signal};

    ghost Value = { Signal };

    ghost view = { λ s. s.signal };
}

/// A signals list.
#[derive(Drop)]
pub struct WrittenSignals {
    pub name: Word,
    pub items: Vec<WrittenSignal>,
}

impl Model for WrittenSignals {
    ghost use Rattle.scriptreader.specs.Written as written;

    ghost Value = { written.Signals };

    ghost view = { λ e. record { name = e.name; items = e.items.items } };
}

/// A digit map.
#[derive(Drop)]
pub struct WrittenMap {
    pub name: Word,
    pub text: Word,
}

/// What a command sets. Each option is there at most once.
#[derive(Drop)]
pub struct Options {
    pub mode: Option<Mode>,
    pub events: Option<Word>,
    pub signals: Option<Word>,
    pub remote: Option<Word>,
}

/// A command. A context or an ephemeral is created where `create` or `own` is set.
#[derive(Drop)]
pub enum WrittenCommand {
    Add {
        create: bool,
        context: Word,
        own: bool,
        name: Word,
        options: Options,
    },
    Modify {
        place: Option<Word>,
        name: Word,
        options: Options,
    },
    Move {
        context: Word,
        name: Word,
        options: Options,
    },
    Subtract {
        context: Word,
        name: Word,
    },
    SubtractAll {
        context: Word,
    },
    SetTopology {
        context: Word,
        first: Word,
        second: Word,
        topology: Topology,
    },
}

/// Two lines that talk.
#[derive(Drop)]
pub struct WrittenPair {
    pub first: Word,
    pub second: Word,
}

/// Where a note of a line and kind leads.
#[derive(Drop)]
pub struct WrittenTransition {
    pub line: Word,
    pub kind: Kind,
    pub target: Word,
}

/// A state.
#[derive(Drop)]
pub struct WrittenState {
    pub name: Word,
    pub commands: Vec<WrittenCommand>,
    pub talk: Vec<WrittenPair>,
    pub is_end: bool,
    pub ok: Option<Word>,
    pub fault: Option<Word>,
    pub timer: Option<Word>,
    pub on: Vec<WrittenTransition>,
}

impl Model for WrittenState {
    ghost use Rattle.scriptreader.specs.Written as written;

    ghost Value = { written.State };

    ghost view = { λ s. record { name = s.name; commands = s.commands.items; talk = s.talk.items; is_end = s.is_end; ok = s.ok; fault = s.fault; timer = s.timer; on = s.on.items } };
}

/// A whole document.
#[derive(Drop)]
pub struct Document {
    pub lines: Vec<Word>,
    pub contexts: Vec<Word>,
    pub ephemerals: Vec<Word>,
    pub start: Option<Word>,
    pub restart: Option<Word>,
    pub events: Vec<WrittenEvents>,
    pub signals: Vec<WrittenSignals>,
    pub maps: Vec<WrittenMap>,
    pub states: Vec<WrittenState>,
}

impl Model for Document {
    ghost use Rattle.scriptreader.specs.Written as written;

    ghost Value = { written.Document };

    ghost view = { λ d. record { lines = d.lines.items; contexts = d.contexts.items; ephemerals = d.ephemerals.items; start = d.start; restart = d.restart; events = d.events.items; signals = d.signals.items; maps = d.maps.items; states = d.states.items } };
}
