//! What can happen to a gateway: an event of a line, and a request that reaches it. Nothing happens by asking, and it takes no memory.
ghost use Rattle.gateway.specs.Answers.{CanExecute, CanHappen};

use crate::calls;
use crate::gateway::Gateway;
use delivery::Offer;
use mg_model::line_events::LineEvent;
use mg_names::identifiers::{CallNo, LineNo};
use requests::Request;

impl Gateway {
    /// Whether an event of a line can happen: false exactly where `happen` answers `CannotHappen` (this profile's own).
    pub fn can_happen(&self, line: LineNo, event: LineEvent) -> bool
        ensures { CanHappen self.now line.0 event result }
    {
        let Some(_) = self.holder_for(line, event) else {
            return false;
        };
        self.connections.can_happen(line, event)
    }

    /// Whether a request can reach the gateway for a call: false exactly where `execute` answers `CannotHappen`, since it would be executed and the numbers
    /// of notes could run out (this profile's own).
    pub fn can_execute(&self, call: CallNo, request: &Request) -> bool
        ensures { CanExecute self.now call.0 request.now result }
    {
        if request.call() != call {
            return true;
        }
        let Some(state) = calls::call(&self.calls, call.0) else {
            return true;
        };
        match state.offer(request.association(), request.number()) {
            Offer::Fresh => request.commands().len() <= state.room(),
            Offer::Kept(_) => true,
            Offer::Discard => true,
        }
    }
}
