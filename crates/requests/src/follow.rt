//! A request that ran is done once more on an equal value, by the results that it had.
ghost use Rattle.std.specs.Prelude.{◌≡◌, ◌↔◌, true, IsTrue, Option, IfSome};
ghost use Rattle.mg_model.specs.Board.{Board, IsSettled};
ghost use Rattle.mg_model.specs.Items.{IsLegal};
ghost use Rattle.mg_model.specs.RequestRun.{Running, RunsFrom, item_at};
ghost use Rattle.mg_model.specs.declared.failures.Failure.{Failure};
ghost use Rattle.requests.specs.Commands.{created, IsRepeated};
ghost use Rattle.requests.specs.Connected.{board_in, line_in, start_in, HasResults};
ghost use Rattle.requests.specs.Views.{command_of};

use crate::command::RequestCommand;
use crate::connections::Connections;
use crate::descriptors::described;
use crate::items::item_at;
use crate::request::Request;
use contexts::Done;
use mg_model::failures::ChosenRefusal;

/// Whether a command created what another one did.
fn is_same_created(one: &Done, other: &Done) -> bool
    ensures { (result ≡ true) ↔ (created one.now ≡ created other.now) }
{
    if one.context() != other.context() {
        return false;
    }
    one.ephemeral() == other.ephemeral()
}

impl Connections {
    /// A command that had this result, once more, where it is known to be legal; `false` where memory ran out, or where other identifiers
    /// were chosen.
    fn repeat(&mut self, command: &RequestCommand, before: &[Done], had: &Done, number: u32) -> bool
        requires { IsLegal (board_in self.old) (item_at before.now (command_of command.now)) }
        ensures { IsTrue result → IsRepeated (board_in self.old) (line_in self.old) (command_of command.now) before.now had.now number (board_in self.new) (line_in self.new) }
    {
        let Ok(done) = self.carry_out(&item_at(before, command)) else {
            return false;
        };
        if !is_same_created(&done, had) {
            return false;
        }
        self.describe(&described(command), done.lines(), number)
            .is_ok()
    }

    /// A request once more, on an equal value: what every run leaves whose results are these. `None` where memory ran out, or where other
    /// identifiers were chosen. Each command that has a result was executed, so no code is asked for; one that failed changed nothing.
    pub fn follow(
        self,
        request: &Request,
        chosen: Option<ChosenRefusal>,
        results: &[Done],
    ) -> Option<Connections>
        requires { HasResults self request.now chosen results.now }
        ensures { IfSome result (λ c. (e : Running) (failure : Option Failure) (settled : Board) → RunsFrom request.now.number chosen (start_in self) 0 request.now.commands e failure → e.results ≡ results.now → IsSettled e.board settled → (board_in c ≡ settled) × (line_in c ≡ e.line)) }
    {
        let mut connections = self;
        let commands = request.commands();
        let number = request.number();
        for place in 0..results.len() {
            let (before, had) = (&results[..place], &results[place]);
            if !connections.repeat(&commands[place], before, had, number) {
                return None;
            }
        }
        connections.settle();
        Some(connections)
    }
}
