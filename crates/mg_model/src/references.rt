//! How a command of a request names what it is about.
use mg_names::identifiers::{ContextId, LineNo};
use mg_names::modes::Mode;

/// A context: by its number, CHOOSE and NULL among them, or the one that an earlier command of the request created. The place of
/// that command, from 0, is this profile's own.
#[derive(Clone, Copy)]
pub enum ContextRef {
    /// The context with this number.
    Number(ContextId),
    /// The one that the command at this place created.
    MadeAt(usize),
}

/// An ephemeral: by its number, or the one that an earlier command of the request created.
#[derive(Clone, Copy)]
pub enum EphemeralRef {
    /// The ephemeral with this number.
    Number(u32),
    /// The one that the command at this place created.
    MadeAt(usize),
}

/// A termination.
#[derive(Clone, Copy)]
pub enum TerminationRef {
    /// A line.
    Line(LineNo),
    /// An ephemeral.
    Ephemeral(EphemeralRef),
}

/// The Remote that a command gives to an ephemeral. This profile's own.
#[derive(Clone, Copy)]
pub enum RemoteRef {
    /// No Remote.
    Nothing,
    /// An ephemeral.
    To(EphemeralRef),
}

/// What a command sets on the connection model; what it leaves out stays.
#[derive(Clone, Copy, Default)]
pub struct SettingsRef {
    /// The mode (H.248.1 section 7.1.7 on LocalControl).
    pub mode: Option<Mode>,
    /// The Remote.
    pub remote: Option<RemoteRef>,
}
