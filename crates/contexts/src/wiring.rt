//! The tables over which media goes.
ghost use Rattle.std.specs.Prelude.{◌≡◌, map};
ghost use Rattle.terminations.specs.Table.{row_of};
ghost use Rattle.contexts.specs.Groups.{group_at, members_at, items_of};
ghost use Rattle.contexts.specs.TiedBoard.{IsTied};

use crate::cuts::{self, Cuts};
use crate::members::Members;
use mg_model::rows::Row;
use mg_names::identifiers::TermId;
use std::marker::Model;
use terminations::Terms;

/// The rows of the terminations, and of each context its members and its cuts.
#[derive(Drop)]
pub struct Wiring<'a> {
    terms: &'a Terms,
    pub(crate) members: &'a Members,
    cuts: &'a Cuts,
}

impl<'a> Model for Wiring<'a> {
    ghost use Rattle.std.specs.Prelude.{map};
    ghost use Rattle.terminations.specs.Table.{row_of};
    ghost use Rattle.contexts.specs.Groups.{group_at, members_at, items_of};
    ghost use Rattle.contexts.specs.TiedBoard.{BoardValue, IsTied};

    ghost Value = { BoardValue };

    ghost view = { λ w. record { table = w.terms.now; cuts = map (λ e. (e.0, e.1.items)) w.cuts.now.entries; members = items_of w.members.now } };

    ghost invariant = { λ w. IsTied (row_of w.terms.now) (members_at w.members.now) (group_at w.cuts.now.entries) };
}

impl<'a> Wiring<'a> {
    ghost use Rattle.mg_model.specs.Board.{exists, place_of};
    ghost use Rattle.contexts.specs.TiedBoard.{board_of};

    /// The wiring of these tables.
    pub fn new(terms: &'a Terms, members: &'a Members, cuts: &'a Cuts) -> Wiring<'a>
        requires { IsTied (row_of terms.now) (members_at members.now) (group_at cuts.now.entries) }
        ensures { result ≡ record { table = terms.now; cuts = map (λ e. (e.0, e.1.items)) cuts.now.entries; members = items_of members.now } }
    {
        Wiring {
            terms,
            members,
            cuts,
        }
    }

    /// The row of a termination; `None` where it doesn't exist.
    #[tactic(auto, unfolding(crate::specs::TiedBoard::board_of))]
    pub(crate) fn get(&self, t: TermId) -> Option<Row>
        ensures { result ≡ (board_of self.now).row t }
    {
        self.terms.get(t)
    }

    /// Whether a termination exists.
    #[tactic(auto, unfolding(crate::specs::TiedBoard::board_of))]
    pub(crate) fn exists(&self, t: TermId) -> bool
        ensures { result ≡ exists (board_of self.now) t }
    {
        self.get(t).is_some()
    }

    /// The number of the context of a termination; 0 where it doesn't exist.
    #[tactic(auto, unfolding(crate::specs::TiedBoard::board_of))]
    pub(crate) fn place_of(&self, t: TermId) -> u32
        ensures { result ≡ place_of (board_of self.now) t }
    {
        match self.get(t) {
            Some(row) => row.place.0,
            None => 0,
        }
    }

    /// Whether media from the one termination to the other is cut.
    pub fn is_cut(&self, from: TermId, to: TermId) -> bool
        ensures { result ≡ (board_of self.now).cut from to }
    {
        cuts::is_cut(self.cuts, self.place_of(from), &from, &to)
    }
}
