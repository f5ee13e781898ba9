//! The forms in which something is told.

/// In which form a program tells what it tells. This profile's own.
#[derive(Clone, Copy)]
pub enum Form {
    /// The line or the report, and a line that says where there are words.
    Text,
    /// One JSON value, with the facts.
    Json,
}
