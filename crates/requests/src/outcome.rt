//! What a request came to.
use contexts::Done;
use line_events::Note;
use mg_model::failures::Failure;
use mg_names::identifiers::LineNo;

/// A note that is raised on a line.
#[derive(Drop)]
pub struct LineNote {
    /// The line.
    pub line: LineNo,
    /// What is reported of it.
    pub note: Note,
}

/// What the commands of a request came to.
#[derive(Drop)]
pub struct Outcome {
    /// The results of the commands that were done, in their order.
    pub results: Vec<Done>,
    /// The place of the command that failed, from 0, with its code; `None` where all were done.
    pub failure: Option<Failure>,
    /// The notes to be sent: those whose descriptor still stands.
    pub notes: Vec<LineNote>,
}
