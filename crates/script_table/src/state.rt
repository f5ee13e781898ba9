//! A state of a script.
ghost use Rattle.std.specs.Prelude.{◌≡◌, string_bytes};
ghost use Rattle.mg_model.specs.Tables.{target_in};

use mg_model::commands::Command;
use mg_model::transitions::{Pair, Transition};
use mg_names::kinds::Kind;
use mg_names::slots::Slot;
use std::marker::Model;

/// A state of a script: the commands that a call sends as it enters it, the pairs of lines that it marks as talking,
/// and where it leads. This profile's own.
#[derive(Drop)]
pub struct State {
    /// The name.
    pub name: String,
    /// The commands of its request, in their order.
    pub commands: Vec<Command>,
    /// The pairs of lines that it marks as talking.
    pub talk: Vec<Pair>,
    /// Whether a call ends in it.
    pub is_end: bool,
    /// The place of the state that a reply without a failure leads to.
    pub ok: Option<u8>,
    /// The place of the state that a reply with a failure leads to.
    pub fault: Option<u8>,
    /// The place of the state that the timer leads to.
    pub timer: Option<u8>,
    /// The states that notes of lines lead to.
    pub on: Vec<Transition>,
}

impl Model for State {
    ghost use Rattle.std.specs.Prelude.{string_bytes};
    ghost use Rattle.mg_model.specs.Script as table;

    ghost Value = { table.State };

    ghost view = { λ s. record { name = string_bytes s.name; commands = s.commands.items; talk = s.talk.items; is_end = s.is_end; ok = s.ok; fault = s.fault; timer = s.timer; on = s.on.items } };
}

impl State {
    /// The name.
    pub fn name(&self) -> &str
        ensures { result.now ≡ self.now.name }
    {
        self.name.as_str()
    }

    /// The commands of the state's request, in their order.
    pub fn commands(&self) -> &[Command]
        ensures { result.now ≡ self.now.commands }
    {
        self.commands.as_slice()
    }

    /// The pairs of lines that the state marks as talking.
    pub fn talk(&self) -> &[Pair]
        ensures { result.now ≡ self.now.talk }
    {
        self.talk.as_slice()
    }

    /// Whether a call ends in the state.
    pub fn is_end(&self) -> bool
        ensures { result ≡ self.now.is_end }
    {
        self.is_end
    }

    /// The state that a reply without a failure leads to.
    pub fn ok(&self) -> Option<u8>
        ensures { result ≡ self.now.ok }
    {
        self.ok
    }

    /// The state that a reply with a failure leads to.
    pub fn fault(&self) -> Option<u8>
        ensures { result ≡ self.now.fault }
    {
        self.fault
    }

    /// The state that the timer leads to.
    pub fn timer(&self) -> Option<u8>
        ensures { result ≡ self.now.timer }
    {
        self.timer
    }

    /// The state that a note of this line and kind leads to.
    pub fn target(&self, line: Slot, kind: Kind) -> Option<u8>
        ensures { result ≡ target_in self.now.on line kind }
    {
        self.on
            .iter()
            .find(|t| t.line == line && t.kind == kind)
            .map(|t| t.target)
    }
}
