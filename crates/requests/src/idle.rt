//! A line that is set Inactive in the null context.
ghost use Rattle.std.specs.Prelude.{◌≡◌, ◌↔◌, true, Some, option_map, OnOk, OnErr};
ghost use Rattle.mg_names.specs.declared.identifiers.TermId.TheVariants.{Line};
ghost use Rattle.mg_names.specs.declared.modes.Mode.TheVariants.{Inactive};
ghost use Rattle.requests.specs.Connected.{board_in, line_in};
ghost use Rattle.requests.specs.Idle.{deactivated};

use crate::connections::Connections;
use contexts::ExecFault;
use mg_model::items::{Item, Settings};
use mg_names::identifiers::{ContextId, LineNo, TermId};
use mg_names::modes::Mode;
use std::alloc::AllocError;

impl Connections {
    /// Whether a line is Inactive, wherever it stands.
    fn is_inactive(&self, line: LineNo) -> bool
        ensures { (result ≡ true) ↔ (option_map (λ row. row.mode) ((board_in self.now).row (Line line)) ≡ Some Inactive) }
    {
        match self.board.get(TermId::Line(line)) {
            Some(row) => matches!(row.mode, Mode::Inactive),
            None => false,
        }
    }

    /// Sets a line in the null context Inactive, as a Modify does. A line that isn't there, or stands in a context, is passed over.
    pub fn deactivate(&mut self, line: LineNo) -> Result<(), AllocError>
        ensures board { OnOk result (board_in self.new ≡ deactivated (board_in self.old) line.0) }
        ensures lines { line_in self.new ≡ line_in self.old }
        ensures unchanged { OnErr result (board_in self.new ≡ board_in self.old) }
    {
        // Each line is, until a call is opened on it: so a gateway with many calls opens without a command for each line.
        if self.is_inactive(line) {
            return Ok(());
        }
        let modify = Item::Modify {
            context: ContextId::NULL,
            termination: TermId::Line(line),
            settings: Settings {
                mode: Some(Mode::Inactive),
                remote: None,
            },
        };
        match self.exec(&modify) {
            Ok(_) => Ok(()),
            Err(ExecFault::Code(_)) => Ok(()),
            Err(ExecFault::NoMemory) => Err(AllocError),
        }
    }
}
