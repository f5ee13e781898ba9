//! What a run of a plan came to: what each shard and each call went through, and the report. The shards' histories are one that is merged where it is asked for.
ghost use Rattle.std.specs.Prelude.{◌≡◌, IfOk, length};
ghost use Rattle.run_shards.specs.Parts.{of_call};

use crate::compare::push_of;
use crate::merge::merge;
use mg_model::events::Event;
use mg_names::identifiers::CallNo;
use run_shards::{Line, PLAN_CALLS, PlannedCall};
use std::alloc::{AllocError, Global};
use std::marker::Model;

/// What a run of a plan came to. This profile's own.
#[derive(Drop)]
pub struct Outcome<'s> {
    pub(crate) histories: Vec<Vec<Event>>,
    pub(crate) restarts: usize,
    pub(crate) report: Vec<Line>,
    pub(crate) planned_calls: Vec<PlannedCall<'s>>,
}

impl<'s> Model for Outcome<'s> {
    ghost use Rattle.run_account.specs.Comparing.{trails_of};
    ghost use Rattle.run_account.specs.Merging.{one_history};
    ghost use Rattle.run_account.specs.Runs.{IsOutcome, OutcomeValue};
    ghost use Rattle.std.specs.Prelude.{map};

    ghost Value = { OutcomeValue };

    ghost view = { λ o. record { history = one_history (map (λ history. history.items) o.histories.items) o.restarts; trails = trails_of o.planned_calls.items; lines = o.report.items } };

    ghost invariant = { λ o. IsOutcome (one_history (map (λ history. history.items) o.histories.items) o.restarts) (trails_of o.planned_calls.items) };
}

impl<'s> Outcome<'s> {
    /// A line for each call of the plan, in its order, with those of the calls that began within it behind its own.
    pub fn lines(&self) -> &[Line]
        ensures { result.now ≡ self.now.lines }
    {
        self.report.as_slice()
    }

    /// One history of all shards: association by association, in each shard after shard, one restart between two. It is merged anew each time, since few ask
    /// for it, and a run holds each of its events in two lists beside it. `AllocError` where memory ran out.
    pub fn history(&self, alloc: Global) -> Result<Vec<Event>, AllocError>
        ensures { IfOk result (λ history. history.items ≡ self.now.history) }
    {
        merge(alloc, self.histories.as_slice(), self.restarts)
    }

    /// What happened to a call, in order; nothing where there was none of that number. The `g`th call that began within call `n` of the plan has the number
    /// 10,000 `g` and `n`. `AllocError` where memory ran out.
    pub fn transcript(&self, alloc: Global, call: CallNo) -> Result<Vec<Event>, AllocError>
        ensures { IfOk result (λ events. events.items ≡ of_call call.0 self.now.history) }
    {
        let mut events = Vec::new(alloc);
        let number = (call.0 % PLAN_CALLS) as usize;
        if number >= self.planned_calls.len() {
            return Ok(events);
        }
        let planned = &self.planned_calls[number];
        push_of(call, planned.log.trail.as_slice(), &mut events)?;
        push_of(call, planned.next.transcript(), &mut events)?;
        Ok(events)
    }
}
