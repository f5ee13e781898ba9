//! A reply.
ghost use Rattle.std.specs.Prelude.{◌≡◌, IfOk};

use crate::message_id::MessageId;
use contexts::Done;
use mg_model::failures::Failure;
use mg_names::identifiers::{Assoc, CallNo};
use std::alloc::AllocError;
use std::marker::Model;

/// The reply to a request: the results of the commands that were done, and the failure if there was one (H.248.1 section 8.2.2).
#[derive(Drop)]
pub struct Reply {
    id: MessageId,
    results: Vec<Done>,
    failure: Option<Failure>,
}

impl Model for Reply {
    ghost use Rattle.mg_model.specs.Messages as model;

    ghost Value = { model.Reply };

    ghost view = { λ r. record { call = r.id.call.0; association = r.id.association.0; number = r.id.number; results = r.results.items; failure = r.failure } };
}

/// The same results again.
fn copied(results: &Vec<Done>) -> Result<Vec<Done>, AllocError>
    ensures { IfOk result (λ found. found.items ≡ results.now.items) }
{
    results.clone()
}

impl Reply {
    /// The reply with these results. The failure has the place of its command, from 0.
    pub fn new(id: MessageId, results: Vec<Done>, failure: Option<Failure>) -> Reply
        ensures { result ≡ record { call = id.call.0; association = id.association.0; number = id.number; results = results.items; failure = failure } }
    {
        Reply {
            id,
            results,
            failure,
        }
    }

    /// An equal reply.
    pub fn copy(&self) -> Result<Reply, AllocError>
        ensures { IfOk result (λ copied. copied ≡ self.now) }
    {
        Ok(Reply {
            id: self.id,
            results: copied(&self.results)?,
            failure: self.failure,
        })
    }

    /// The call.
    pub fn call(&self) -> CallNo
        ensures { result.0 ≡ self.now.call }
    {
        self.id.call
    }

    /// The association in which the request was sent.
    pub fn association(&self) -> Assoc
        ensures { result.0 ≡ self.now.association }
    {
        self.id.association
    }

    /// The number of the transaction.
    pub fn number(&self) -> u32
        ensures { result ≡ self.now.number }
    {
        self.id.number
    }

    /// The results of the commands that were done, in their order.
    pub fn results(&self) -> &[Done]
        ensures { result.now ≡ self.now.results }
    {
        self.results.as_slice()
    }

    /// The place of the command that failed, from 0, with its code; `None` where all were done.
    pub fn failure(&self) -> Option<Failure>
        ensures { result ≡ self.now.failure }
    {
        self.failure
    }
}
