//! A request.
ghost use Rattle.std.specs.Prelude.{◌≡◌, map};
ghost use Rattle.requests.specs.Views.{command_of};

use crate::command::RequestCommand;
use crate::message_id::MessageId;
use mg_names::identifiers::{Assoc, CallNo};
use std::marker::Model;

/// A request of a call's agent: a transaction with one action after the other (H.248.1 section 8.2.1).
#[derive(Drop)]
pub struct Request {
    id: MessageId,
    commands: Vec<RequestCommand>,
}

impl Model for Request {
    ghost use Rattle.std.specs.Prelude.{map};
    ghost use Rattle.mg_model.specs.Messages as model;
    ghost use Rattle.requests.specs.Views.{command_of};

    ghost Value = { model.Request };

    ghost view = { λ r. record { call = r.id.call.0; association = r.id.association.0; number = r.id.number; commands = map command_of r.commands.items } };
}

impl Request {
    /// The request of these commands. A number 0 has no meaning to the gateway: it discards such a request.
    pub fn new(id: MessageId, commands: Vec<RequestCommand>) -> Request
        ensures { result ≡ record { call = id.call.0; association = id.association.0; number = id.number; commands = map command_of commands.items } }
    {
        Request { id, commands }
    }

    /// Which message it is. Its reply is the same one.
    pub fn id(&self) -> MessageId
        ensures call { result.call.0 ≡ self.now.call }
        ensures association { result.association.0 ≡ self.now.association }
        ensures number { result.number ≡ self.now.number }
    {
        self.id
    }

    /// The call.
    pub fn call(&self) -> CallNo
        ensures { result.0 ≡ self.now.call }
    {
        self.id.call
    }

    /// The association in which it was sent.
    pub fn association(&self) -> Assoc
        ensures { result.0 ≡ self.now.association }
    {
        self.id.association
    }

    /// The number of the transaction.
    pub fn number(&self) -> u32
        ensures { result ≡ self.now.number }
    {
        self.id.number
    }

    /// The commands, in their order.
    pub fn commands(&self) -> &[RequestCommand]
        ensures { map command_of result.now ≡ self.now.commands }
    {
        self.commands.as_slice()
    }
}
