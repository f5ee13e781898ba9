//! The numbers of notes.
ghost use Rattle.std.specs.Prelude.{◌≡◌, ◌+◌, ◌≤◌, IfOk, length};
ghost use Rattle.mg_model.specs.Numbers.{last_number};
ghost use Rattle.mg_model.specs.Gateway.{sent_notes};
ghost use Rattle.requests.specs.Views.{line_notes};

use requests::{LineNote, MessageId, Request, SentNote};
use std::alloc::{AllocError, Global};

/// The notes of a request on their way to its call, numbered on from the last one that was sent.
pub(crate) fn numbered(
    alloc: Global,
    request: &Request,
    last: u32,
    notes: Vec<LineNote>,
) -> Result<Vec<SentNote>, AllocError>
    requires { last + length notes.items ≤ last_number }
    ensures { IfOk result (λ sent. sent.items ≡ sent_notes request.now.call request.now.association last (line_notes notes.items)) }
{
    let mut sent = Vec::new(alloc);
    let mut number = last;
    for noted in notes {
        number += 1;
        let id = MessageId {
            number,
            ..request.id()
        };
        sent.push(SentNote::new(id, noted))?;
    }
    Ok(sent)
}
