use mg_names::list_places::ListPlace;
use mg_names::modes::Mode;
use mg_names::slots::Slot;
use mg_names::topologies::Topology;

/// A termination that a script declares.
#[derive(Clone, Copy, PartialEq, Eq)]
pub enum Termination {
    /// A line, a physical termination that always exists.
    Line(Slot),
    /// An ephemeral termination, created by Add and destroyed by Subtract.
    Ephemeral(Slot),
}

/// Where Modify looks for its termination.
#[derive(Clone, Copy, PartialEq, Eq)]
pub enum Place {
    /// The null context, written `-`.
    NullContext,
    /// A context of the script.
    Context(Slot),
}

/// An events list: one of the two that are predefined, or one of the script's own by its place from 0.
#[derive(Clone, Copy, PartialEq, Eq)]
pub enum EventsName {
    /// The list `none`, which is empty.
    Empty,
    /// The list `armed`, which is `al/of` with `strict=exact` alone.
    Armed,
    /// An own list.
    Own(ListPlace),
}

/// A signals list: the predefined one, or one of the script's own by its place from 0.
#[derive(Clone, Copy, PartialEq, Eq)]
pub enum SignalsName {
    /// The list `none`, which is empty.
    Silent,
    /// An own list.
    OwnSignals(u8),
}

/// What `remote=` sets.
#[derive(Clone, Copy, PartialEq, Eq)]
pub enum RemoteOption {
    /// No Remote, written `none`.
    NoneGiven,
    /// An ephemeral of the script.
    Peer(Slot),
}

/// What a command sets on a line. What it leaves out stays as it was (H.248.1 section 7.1.1).
#[derive(Clone, Copy, PartialEq, Eq)]
pub struct LineOptions {
    /// The mode, `mode=`.
    pub mode: Option<Mode>,
    /// The Events descriptor, `events=`.
    pub events: Option<EventsName>,
    /// The Signals descriptor, `signals=`.
    pub signals: Option<SignalsName>,
}

/// What a command sets on an ephemeral termination. What it leaves out stays as it was.
#[derive(Clone, Copy, PartialEq, Eq)]
pub struct EphemeralOptions {
    /// The mode, `mode=`.
    pub mode: Option<Mode>,
    /// The Remote, `remote=`.
    pub remote: Option<RemoteOption>,
}

/// A command of a state's request (H.248.1 section 7.2).
#[derive(Clone, Copy, PartialEq, Eq)]
pub enum Command {
    /// `add`: takes a line from the null context into a context, which it creates where `create` is set.
    AddLine {
        /// Whether the context is created (`$` before its name).
        create: bool,
        /// The context.
        context: Slot,
        /// The line.
        line: Slot,
        /// What is set on it.
        options: LineOptions,
    },
    /// `add` with `$`: creates an ephemeral termination in a context, which it creates where `create` is set.
    AddEphemeral {
        /// Whether the context is created.
        create: bool,
        /// The context.
        context: Slot,
        /// The ephemeral.
        ephemeral: Slot,
        /// What is set on it.
        options: EphemeralOptions,
    },
    /// `modify` of a line.
    ModifyLine {
        /// Where the line has to stand.
        place: Place,
        /// The line.
        line: Slot,
        /// What is set on it.
        options: LineOptions,
    },
    /// `modify` of an ephemeral termination.
    ModifyEphemeral {
        /// Where the ephemeral has to stand.
        place: Place,
        /// The ephemeral.
        ephemeral: Slot,
        /// What is set on it.
        options: EphemeralOptions,
    },
    /// `move` of a line into a context that exists.
    MoveLine {
        /// The context that it is moved to.
        context: Slot,
        /// The line.
        line: Slot,
        /// What is set on it.
        options: LineOptions,
    },
    /// `move` of an ephemeral termination into a context that exists.
    MoveEphemeral {
        /// The context that it is moved to.
        context: Slot,
        /// The ephemeral.
        ephemeral: Slot,
        /// What is set on it.
        options: EphemeralOptions,
    },
    /// `subtract`: returns a line to the null context, or destroys an ephemeral.
    Subtract {
        /// The context.
        context: Slot,
        /// What leaves it.
        termination: Termination,
    },
    /// `subtract` with `*`: all of a context.
    SubtractAll {
        /// The context.
        context: Slot,
    },
    /// `topology`: sets the Topology descriptor of a pair.
    SetTopology {
        /// The context.
        context: Slot,
        /// The first termination of the descriptor.
        first: Termination,
        /// The second one.
        second: Termination,
        /// What it says of them.
        topology: Topology,
    },
}
