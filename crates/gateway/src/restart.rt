//! A restart.
ghost use Rattle.gateway.specs.Answers.{IsRestarted};

use crate::calls;
use crate::fault::CannotHappen;
use crate::gateway::Gateway;
use mg_names::identifiers::Assoc;

impl Gateway {
    /// A restart: the next association, which is answered, begins. Contexts, ephemerals, descriptors, signals, modes and kept replies are
    /// lost; hook states stay (H.248.1 section 11.2 on ServiceChange with the method Restart). After the association 2^64 - 1 it can't
    /// happen.
    pub fn restart(&mut self) -> Result<Assoc, CannotHappen>
        ensures { IsRestarted self.old self.new result }
    {
        let Some(number) = self.association.0.checked_add(1) else {
            return Err(CannotHappen);
        };
        let association = Assoc(number);
        self.association = association;
        self.connections.restart();
        calls::restart(&mut self.calls, association);
        self.creators.clear();
        Ok(association)
    }
}
