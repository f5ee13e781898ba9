//! Which message one is.
use mg_names::identifiers::{Assoc, CallNo};

/// Which message one is: of which call, in which association, and with which number. A request has the number of its transaction
/// (H.248.1 section 8.2), and its reply the same; a note has its own among the notes of its call, from 1 (this profile's own).
#[derive(Clone, Copy)]
pub struct MessageId {
    /// The call.
    pub call: CallNo,
    /// The association in which it is sent.
    pub association: Assoc,
    /// The number.
    pub number: u32,
}
