//! A text with its status: the line of a reply and a line under it, or a JSON value that begins with that line.
ghost use Rattle.std.specs.Prelude.{◌≡◌, IfOk, string_bytes};
ghost use Rattle.check_lines.specs.Output.{line_status};
ghost use Rattle.check_lines.specs.Replies.{line_of};
ghost use Rattle.program_rim.specs.Statuses.{code_of};
ghost use Rattle.check_facts.specs.Saying.{Begins, IsInValue, IsUnder, value_text};

use crate::form::Form;
use check_lines::reply::Reply;
use program_rim::status::Status;
use std::alloc::{AllocError, Global};

/// A text and the status that goes with it. This profile's own.
#[derive(Drop)]
pub struct Said {
    /// The text, with its last line's end.
    pub text: String,
    /// The status.
    pub status: Status,
}

/// The line under a line or a report that says where there are words.
pub const IN_WORDS: &str = "In words: mgcall-why, or tools/why of the sources.\n";

/// A JSON value with the line of a reply, a status and these members, each behind a comma.
fn value_of(alloc: Global, reply: &Reply, code: u8, members: &str) -> Result<String, AllocError>
    ensures { IfOk result (λ text. string_bytes text ≡ value_text (line_of reply.now) code members.now) }
{
    format!(in alloc; "{{\"format\":2,\"line\":\"{reply}\",\"status\":{code}{members}}}\n")
}

/// The same, as a value that has the line and the status.
fn in_value(alloc: Global, reply: &Reply, code: u8, members: &str) -> Result<String, AllocError>
    ensures { IfOk result (λ text. IsInValue (line_of reply.now) code (string_bytes text)) }
{
    value_of(alloc, reply, code, members)
}

/// The line of a reply as text, or in a JSON value with a status and with these members, each behind a comma.
pub(crate) fn text_of(
    alloc: Global,
    form: Form,
    reply: &Reply,
    status: Status,
    members: &str,
) -> Result<String, AllocError>
    ensures { IfOk result (λ text. Begins form (line_of reply.now) (code_of status) (string_bytes text)) }
{
    match form {
        Form::Text => format!(in alloc; "{reply}\n{IN_WORDS}"),
        Form::Json => in_value(alloc, reply, status.code(), members),
    }
}

/// The line of a reply, with its status.
pub(crate) fn said_of(
    alloc: Global,
    form: Form,
    reply: &Reply,
    members: &str,
) -> Result<Said, AllocError>
    ensures { IfOk result (IsUnder form (line_of reply.now)) }
{
    let status = reply.status();
    let text = text_of(alloc, form, reply, status, members)?;
    Ok(Said { text, status })
}
