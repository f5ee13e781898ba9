//! A command of a request.
use line_events::EventList;
use mg_model::line_events::SignalSet;
use mg_model::references::{ContextRef, EphemeralRef, SettingsRef, TerminationRef};
use mg_names::identifiers::LineNo;
use mg_names::topologies::Topology;

/// The descriptors that only a line takes; what is left out stays.
#[derive(Default, Drop)]
pub struct LineDescriptors {
    /// The Events descriptor (H.248.1 section 7.1.9).
    pub events: Option<EventList>,
    /// The Signals descriptor (H.248.1 section 7.1.11).
    pub signals: Option<SignalSet>,
}

/// What an Add brings into its context.
#[derive(Drop)]
pub enum Newcomer {
    /// A line, from the null context.
    Line {
        /// The line.
        line: LineNo,
        /// What is set on it beside the settings of the command.
        descriptors: LineDescriptors,
    },
    /// An ephemeral that the gateway creates.
    NewEphemeral,
}

/// The termination of a Modify or a Move.
#[derive(Drop)]
pub enum Target {
    /// A line.
    Line {
        /// The line.
        line: LineNo,
        /// What is set on it beside the settings of the command.
        descriptors: LineDescriptors,
    },
    /// An ephemeral.
    Ephemeral(EphemeralRef),
}

/// A command of a request (H.248.1 section 7.2): an `Item` of the model with references in the place of identifiers, and with the
/// descriptors of its line.
#[derive(Drop)]
pub enum RequestCommand {
    /// Add.
    Add {
        /// The context, or CHOOSE for a new one.
        context: ContextRef,
        /// What is added.
        added: Newcomer,
        /// What is set on it.
        settings: SettingsRef,
    },
    /// Modify.
    Modify {
        /// The context, or NULL.
        context: ContextRef,
        /// The termination.
        target: Target,
        /// What is set on it.
        settings: SettingsRef,
    },
    /// Move.
    Move {
        /// The context that it goes to.
        context: ContextRef,
        /// The termination.
        target: Target,
        /// What is set on it.
        settings: SettingsRef,
    },
    /// Subtract of one termination.
    Subtract {
        /// The context.
        context: ContextRef,
        /// The termination.
        termination: TerminationRef,
    },
    /// Subtract of all terminations of a context.
    SubtractAll {
        /// The context.
        context: ContextRef,
    },
    /// A Topology descriptor with one triple (H.248.1 section 7.1.18).
    SetTopology {
        /// The context.
        context: ContextRef,
        /// The first termination of the triple.
        first: TerminationRef,
        /// The second one.
        second: TerminationRef,
        /// Which way media may go.
        topology: Topology,
    },
}
