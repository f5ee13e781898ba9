use mg_names::identifiers::ContextId;
use mg_names::modes::Mode;

/// What the gateway's connection model keeps of a termination (H.248.1 section 6.2).
#[derive(Clone, Copy)]
pub struct Row {
    /// The context in which it stands.
    pub place: ContextId,
    /// Its mode.
    pub mode: Mode,
    /// The number of the ephemeral that its Remote names; a line has none. This profile's own.
    pub remote: Option<u32>,
}
