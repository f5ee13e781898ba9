//! The board.
ghost use Rattle.std.specs.Prelude.{◌≡◌, ℕ, Bool, true, false, Some, None, IsTrue, ◌↔◌, IfOk, OnErr, Contains, map};
ghost use Rattle.contexts.specs.BoardValue.{opened, started};

use crate::cuts::Cuts;
use crate::members::{self, Members};
use mg_model::rows::Row;
use mg_names::identifiers::{ContextId, LineNo, TermId};
use std::alloc::{AllocError, Global};
use std::marker::Model;
use terminations::Terms;

/// The connection model of a gateway (H.248.1 section 6).
#[derive(Drop)]
pub struct Board {
    pub(crate) alloc: Global,
    pub(crate) terms: Terms,
    pub(crate) members: Members,
    pub(crate) cuts: Cuts,
}

impl Model for Board {
    ghost use Rattle.std.specs.Prelude.{map};
    ghost use Rattle.terminations.specs.Table.{row_of};
    ghost use Rattle.contexts.specs.Groups.{group_at, members_at, items_of};
    ghost use Rattle.contexts.specs.BoardValue.{BoardValue, IsTied, IsOneClass};

    ghost Value = { BoardValue };

    ghost view = { λ b. record { table = b.terms; cuts = map (λ e. (e.0, e.1.items)) b.cuts.entries; members = items_of b.members } };

    ghost invariant = { λ b. IsTied (row_of b.terms) (members_at b.members) (group_at b.cuts.entries) × IsOneClass b.terms.ephemerals.class b.members.class };
}

impl Board {
    ghost use Rattle.mg_names.specs.declared.identifiers.TermId.{TermId};
    ghost use Rattle.mg_names.specs.declared.identifiers.TermId.TheVariants.{Line, Eph};
    ghost use Rattle.std.specs.List.{list_any, IsDistinct};
    ghost use Rattle.mg_model.specs.Board.{ContextExists, IsSettled, exists, same_term};
    ghost use Rattle.mg_model.specs.Items.{IsRising};
    ghost use Rattle.terminations.specs.Table.{cleared};
    ghost use Rattle.identifiers.specs.Count.{IsCount};
    ghost use Rattle.contexts.specs.BoardValue.{board_of, stands_in};

    /// The row of a termination; `None` where it doesn't exist.
    #[tactic(auto, unfolding(crate::specs::BoardValue::board_of))]
    pub fn get(&self, t: TermId) -> Option<Row>
        ensures { result ≡ (board_of self.now).row t }
    {
        self.terms.get(t)
    }

    /// Whether a context exists.
    pub(crate) fn has_context(&self, context: u32) -> bool
        ensures { IsTrue result ↔ ContextExists (board_of self.now) context }
    {
        members::has_any(&self.members, context)
    }

    /// The terminations that stand in a context, each once; none of the null context, which is no context. The order has no meaning.
    pub fn members(&self, context: ContextId) -> &[TermId]
        ensures exactly { (t : TermId) → list_any (same_term t) result.now ≡ stands_in (board_of self.now).row context.0 t }
        ensures once { IsDistinct same_term result.now }
    {
        members::of_context(&self.members, context.0)
    }

    /// How many contexts exist.
    pub fn contexts(&self) -> usize
        ensures { IsCount (ContextExists (board_of self.now)) result }
    {
        self.members.len()
    }

    /// The contexts that exist, in rising order.
    pub fn context_numbers(&self) -> Result<Vec<ContextId>, AllocError>
        ensures rising { IfOk result (λ found. IsRising (map (λ c. c.0) found.items)) }
        ensures exactly { IfOk result (λ found. (n : ℕ) → Contains (map (λ c. c.0) found.items) n ↔ ContextExists (board_of self.now) n) }
    {
        let numbers = self.members.numbers(self.alloc)?;
        let found: Vec<ContextId> = terminations::named(self.alloc, numbers.as_slice())?;
        Ok(found)
    }

    /// The lines that exist, in rising order.
    #[tactic(auto, unfolding(crate::specs::BoardValue::board_of))]
    pub fn lines(&self) -> Result<Vec<LineNo>, AllocError>
        ensures rising { IfOk result (λ found. IsRising (map (λ l. l.0) found.items)) }
        ensures exactly { IfOk result (λ found. (n : ℕ) → Contains (map (λ l. l.0) found.items) n ↔ IsTrue (exists (board_of self.now) (Line (record { 0 = n })))) }
    {
        self.terms.lines(self.alloc)
    }

    /// The numbers of the ephemerals that exist, in rising order.
    #[tactic(auto, unfolding(crate::specs::BoardValue::board_of))]
    pub fn ephemerals(&self) -> Result<Vec<u32>, AllocError>
        ensures rising { IfOk result (λ found. IsRising found.items) }
        ensures exactly { IfOk result (λ found. (n : ℕ) → Contains found.items n ↔ IsTrue (exists (board_of self.now) (Eph n))) }
    {
        self.terms.ephemerals(self.alloc)
    }

    /// A request ends: from now on the numbers of contexts and ephemerals that are no more may be given again (this profile's own).
    /// This takes no memory.
    pub fn settle(&mut self)
        ensures { IsSettled (board_of self.old) (board_of self.new) }
    {
        self.terms.settle();
        self.members.settle();
    }

    /// Every line goes to the null context and is Inactive; no context, no ephemeral and no cut is left, and each number may be given
    /// again, as in a new association (this profile's own).
    pub fn reset(&mut self)
        ensures { board_of self.new ≡ opened (board_of self.old).class (λ t. cleared t ((board_of self.old).row t)) }
    {
        self.terms.reset();
        self.members.clear();
        self.cuts.clear();
    }
}
