//! A built request, command by command.
ghost use Rattle.std.specs.Prelude.{◌≡◌, ◌<◌, ◌^◌, ◌∷◌, [], IfSome, IfNone, length};
ghost use Rattle.mg_model.specs.Tables.{state_of, is_empty};
ghost use Rattle.mg_model.specs.Request.{built};
ghost use Rattle.built_request.specs.Known.{names_of};

use crate::names::Names;
use mg_model::commands::Command;
use script_table::Script;
use std::marker::Model;

/// What is left to take of a built request: the commands that are kept, in their order. This profile's own.
#[derive(Drop)]
pub struct Request<'a> {
    names: Names,
    commands: &'a [Command],
    place: usize,
}

impl<'a> Model for Request<'a> {
    ghost use Rattle.std.specs.Prelude.{List, drop, ◌≤◌, length};
    ghost use Rattle.mg_model.specs.Request.{built};
    ghost use Rattle.mg_model.specs.declared.commands.Command.{Command};
    ghost use Rattle.built_request.specs.Known.{names_of};

    ghost Value = { List Command };

    ghost view = { λ r. built (names_of r.names) (drop r.place r.commands.now) };

    ghost invariant = { λ r. r.place ≤ length r.commands.now };
}

impl<'a> Request<'a> {
    /// The request that a state builds where these names are bound; it has no commands where the script has no such
    /// state.
    pub fn new(script: &'a Script, names: Names, state: u8) -> Request<'a>
        ensures value { result ≡ built (names_of names) (state_of script.now state).commands }
        ensures few { length result < 2 ^ 64 }
    {
        let commands = script.commands_of(state);
        Request {
            names,
            commands,
            place: 0,
        }
    }

    /// Takes the first command that is left; `None` where none is.
    pub fn take_first(&mut self) -> Option<Command>
        ensures some { IfSome result (λ command. self.old ≡ command ∷ self.new) }
        ensures none { IfNone result (self.old ≡ []) }
    {
        self.take_next().copied()
    }

    /// Takes the first command that is left where the script has it; `None` where none is.
    #[inline(always)]
    pub fn take_next(&mut self) -> Option<&'a Command>
        ensures some { IfSome result (λ command. self.old ≡ command.now ∷ self.new) }
        ensures none { IfNone result (self.old ≡ []) }
    {
        for place in self.place..self.commands.len() {
            let command = &self.commands[place];
            if self.names.know_all_of(command) {
                self.names.add_created(command);
                self.place = place + 1;
                return Some(command);
            }
        }
        None
    }

    /// Whether no command is left.
    pub fn is_empty(&self) -> bool
        ensures { result ≡ is_empty self.now }
    {
        !self.names.keep_any(&self.commands[self.place..])
    }
}
