//! Modify (H.248.1 section 7.2.2).
ghost use Rattle.std.specs.Prelude.{◌≡◌, true};
ghost use Rattle.mg_model.specs.Board.{place_of, exists};
ghost use Rattle.mg_model.specs.Items.{placed};
ghost use Rattle.terminations.specs.Rows.{fits};
ghost use Rattle.contexts.specs.BoardValue.{board_of};

use crate::board::Board;
use crate::rows;
use mg_model::items::Settings;
use mg_names::identifiers::TermId;

impl Board {
    /// Sets what a command sets on a termination that stays where it is.
    pub(crate) fn modify(&mut self, t: TermId, settings: &Settings)
        requires exists { exists (board_of self.old) t ≡ true }
        requires fits { fits t settings.now.remote ≡ true }
        ensures { board_of self.new ≡ placed (board_of self.old) t (place_of (board_of self.old) t) settings.now }
    {
        rows::apply(&mut self.terms, t, settings);
    }
}
