//! What a run of a plan came to, with its history.
ghost use Rattle.std.specs.Prelude.{◌≡◌, IfOk};

use mg_model::events::Event;
use run_account::Outcome;
use std::alloc::{AllocError, Global};
use std::marker::Model;

/// What a run of a plan came to, with its one history: an outcome merges it anew each time, and the steps of each call are compared with it. This profile's own.
#[derive(Drop)]
pub struct MergedOutcome<'s> {
    outcome: Outcome<'s>,
    history: Vec<Event>,
}

impl<'s> Model for MergedOutcome<'s> {
    ghost use Rattle.std.specs.Prelude.{◌≡◌};
    ghost use Rattle.run_account.specs.Runs.{OutcomeValue};

    ghost Value = { OutcomeValue };

    ghost view = { λ m. m.outcome };

    ghost invariant = { λ m. m.history.items ≡ m.outcome.history };
}

impl<'s> MergedOutcome<'s> {
    /// The outcome with its history. `AllocError` where memory ran out.
    pub fn new(alloc: Global, outcome: Outcome<'s>) -> Result<MergedOutcome<'s>, AllocError>
        ensures { IfOk result (λ merged. merged ≡ outcome.entry) }
    {
        let history = outcome.history(alloc)?;
        Ok(MergedOutcome { outcome, history })
    }

    /// The outcome.
    pub fn outcome(&self) -> &Outcome<'s>
        ensures { result.now ≡ self.now }
    {
        &self.outcome
    }

    /// One history of all shards: association by association, in each shard after shard, one restart between two.
    pub fn history(&self) -> &[Event]
        ensures { result.now ≡ self.now.history }
    {
        self.history.as_slice()
    }
}
