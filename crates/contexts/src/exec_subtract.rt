//! Subtract on a board on which it is legal.
ghost use Rattle.std.specs.Prelude.{◌≡◌, ℕ, true, [], ◌∷◌, OnErr, OnOk, IfOk};
ghost use Rattle.std.specs.BTreeSet.{contains, IsOrdered};
ghost use Rattle.std.specs.Ordering.{nat_cmp};
ghost use Rattle.std.specs.List.{list_any};
ghost use Rattle.mg_names.specs.declared.identifiers.TermId.TheVariants.{Line, Eph};
ghost use Rattle.mg_model.specs.Board.{same_term};
ghost use Rattle.mg_model.specs.Items.{IsLegal, IsExecuted, Lists};
ghost use Rattle.mg_model.specs.declared.items.Item.TheVariants as item;
ghost use Rattle.contexts.specs.BoardValue.{board_of};
ghost use Rattle.contexts.specs.Steps.{IsTakenOut, IsEmptied};

use crate::board::Board;
use crate::done::Done;
use crate::{members, single};
use mg_names::identifiers::{ContextId, LineNo, TermId};
use std::alloc::{AllocError, Global};
use std::collections::BTreeSet;

/// The lines among terminations, as a set.
fn line_set(alloc: Global, group: &[TermId]) -> Result<BTreeSet<u32>, AllocError>
    ensures { IfOk result (λ set. (n : ℕ) → contains nat_cmp set n ≡ list_any (same_term (Line (record { 0 = n }))) group.now) }
{
    let mut set = BTreeSet::new(alloc);
    for t in group {
        if let TermId::Line(line) = t {
            set.insert(line.0)?;
        }
    }
    Ok(set)
}

/// The ephemerals among terminations, as a set.
fn ephemeral_set(alloc: Global, group: &[TermId]) -> Result<BTreeSet<u32>, AllocError>
    ensures { IfOk result (λ set. (n : ℕ) → contains nat_cmp set n ≡ list_any (same_term (Eph n)) group.now) }
{
    let mut set = BTreeSet::new(alloc);
    for t in group {
        if let TermId::Eph(number) = t {
            set.insert(*number)?;
        }
    }
    Ok(set)
}

/// The keys of a set.
fn keys(alloc: Global, set: &BTreeSet<u32>) -> Result<Vec<u32>, AllocError>
    ensures keys { IfOk result (λ numbers. numbers.items ≡ set.now.keys) }
    ensures ordered { OnOk result (IsOrdered nat_cmp set.now) }
{
    set.iter().copied().collect(alloc)
}

/// The numbers of a set, in rising order.
fn listed(alloc: Global, set: &BTreeSet<u32>) -> Result<Vec<u32>, AllocError>
    ensures { IfOk result (λ numbers. Lists (λ n. contains nat_cmp set.now n) numbers.items) }
{
    let numbers = keys(alloc, set)?;
    Ok(numbers)
}

/// What Subtract tells of the terminations that it took out.
fn taken_out(alloc: Global, group: &[TermId]) -> Result<Done, AllocError>
    ensures { IfOk result (IsTakenOut group.now) }
{
    let numbers = listed(alloc, &line_set(alloc, group)?)?;
    let lines: Vec<LineNo> = terminations::named(alloc, numbers.as_slice())?;
    let ephemerals = listed(alloc, &ephemeral_set(alloc, group)?)?;
    Ok(Done {
        context: None,
        ephemeral: None,
        lines,
        ephemerals,
    })
}

/// What Subtract tells of a line that it took out.
fn line_taken_out(alloc: Global, line: LineNo) -> Result<Done, AllocError>
    ensures { IfOk result (IsTakenOut (Line line ∷ [])) }
{
    let lines = single::list(alloc, line)?;
    Ok(Done {
        context: None,
        ephemeral: None,
        lines,
        ephemerals: Vec::new(alloc),
    })
}

/// What Subtract tells of an ephemeral that it took out.
fn ephemeral_taken_out(alloc: Global, number: u32) -> Result<Done, AllocError>
    ensures { IfOk result (IsTakenOut (Eph number ∷ [])) }
{
    let ephemerals = single::list(alloc, number)?;
    Ok(Done {
        context: None,
        ephemeral: None,
        lines: Vec::new(alloc),
        ephemerals,
    })
}

/// What Subtract tells of the one termination that it took out.
fn one_taken_out(alloc: Global, t: TermId) -> Result<Done, AllocError>
    ensures { IfOk result (IsTakenOut (t ∷ [])) }
{
    match t {
        TermId::Line(line) => line_taken_out(alloc, line),
        TermId::Eph(number) => ephemeral_taken_out(alloc, number),
    }
}

impl Board {
    /// What Subtract of all terminations of a context tells.
    fn taken_out_of(&self, context: ContextId) -> Result<Done, AllocError>
        ensures { IfOk result (IsEmptied (board_of self.now) context.0) }
    {
        taken_out(self.alloc, members::of_context(&self.members, context.0))
    }

    /// Subtract of one termination.
    pub(crate) fn exec_subtract(
        &mut self,
        context: ContextId,
        t: TermId,
    ) -> Result<Done, AllocError>
        requires { IsLegal (board_of self.old) (item.Subtract context t) }
        ensures ok { IfOk result (IsExecuted (board_of self.old) (item.Subtract context t) (board_of self.new)) }
        ensures err { OnErr result (board_of self.new ≡ board_of self.old) }
    {
        let Ok(done) = one_taken_out(self.alloc, t) else {
            return Err(AllocError);
        };
        self.subtract(context.0, t);
        Ok(done)
    }

    /// Subtract of all terminations of a context.
    pub(crate) fn exec_subtract_all(&mut self, context: ContextId) -> Result<Done, AllocError>
        requires { IsLegal (board_of self.old) (item.SubtractAll context) }
        ensures ok { IfOk result (IsExecuted (board_of self.old) (item.SubtractAll context) (board_of self.new)) }
        ensures err { OnErr result (board_of self.new ≡ board_of self.old) }
    {
        let Ok(done) = self.taken_out_of(context) else {
            return Err(AllocError);
        };
        self.subtract_all(context.0);
        Ok(done)
    }
}
