//! A call that a shard opens with.
use mg_names::identifiers::{CallNo, LineNo};

/// A call that a shard opens with: its number, and the line of the gateway for each line of the script, in its order.
#[derive(Drop)]
pub struct OpenedCall {
    /// The call.
    pub call: CallNo,
    /// Its lines.
    pub lines: Vec<LineNo>,
}
