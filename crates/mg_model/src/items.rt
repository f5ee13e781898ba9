use mg_names::identifiers::{ContextId, LineNo, TermId};
use mg_names::modes::Mode;
use mg_names::topologies::Topology;

/// A Remote that a command gives to an ephemeral. This profile's own.
#[derive(Clone, Copy)]
pub enum RemoteSetting {
    /// No Remote.
    Nothing,
    /// The ephemeral with this number.
    Ephemeral(u32),
}

/// What a command sets on its termination, the Events and Signals descriptors apart; what it leaves out stays.
#[derive(Clone, Copy)]
pub struct Settings {
    /// The mode (H.248.1 section 7.1.7 on LocalControl).
    pub mode: Option<Mode>,
    /// The Remote.
    pub remote: Option<RemoteSetting>,
}

/// What an Add brings into its context.
#[derive(Clone, Copy)]
pub enum Added {
    /// A line, from the null context.
    Line(LineNo),
    /// An ephemeral that the gateway creates.
    NewEphemeral,
}

/// A command on contexts and terminations, by identifiers (H.248.1 section 7.2).
#[derive(Clone, Copy)]
pub enum Item {
    /// Add.
    Add {
        /// The context, or CHOOSE for a new one.
        context: ContextId,
        /// What is added.
        added: Added,
        /// What is set on it.
        settings: Settings,
    },
    /// Modify.
    Modify {
        /// The context, or NULL.
        context: ContextId,
        /// The termination.
        termination: TermId,
        /// What is set on it.
        settings: Settings,
    },
    /// Move.
    Move {
        /// The context that it goes to.
        context: ContextId,
        /// The termination.
        termination: TermId,
        /// What is set on it.
        settings: Settings,
    },
    /// Subtract of one termination.
    Subtract {
        /// The context.
        context: ContextId,
        /// The termination.
        termination: TermId,
    },
    /// Subtract of all terminations of a context.
    SubtractAll {
        /// The context.
        context: ContextId,
    },
    /// A Topology descriptor with one triple (H.248.1 section 7.1.18).
    SetTopology {
        /// The context.
        context: ContextId,
        /// The first termination of the triple.
        first: TermId,
        /// The second one.
        second: TermId,
        /// Which way media may go.
        topology: Topology,
    },
}
