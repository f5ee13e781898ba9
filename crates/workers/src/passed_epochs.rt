//! Which epochs of a run are passed, and which of them ended with a restart of all shards.
ghost use Rattle.std.specs.Prelude.{◌≡◌, ◌+◌, ◌<◌, ◌==◌, length};
ghost use Rattle.workers.specs.PlanSteps.{AreOver};

use crate::{LockedShard, Places, RestartedShards, RunPlan, Running};
use std::sync::Mutex;

/// How many epochs of a plan are passed, from the first on, and how many of them ended. What is counted is shown: an epoch is passed where the calls have no
/// step of it left, and it ended where all shards restarted.
#[derive(Drop)]
pub(crate) struct PassedEpochs {
    passed: usize,
    ended: usize,
}

impl PassedEpochs {
    /// No epoch is passed yet.
    pub(crate) fn none() -> PassedEpochs
        ensures passed { result.passed ≡ 0 }
        ensures ended { result.ended ≡ 0 }
    {
        PassedEpochs {
            passed: 0,
            ended: 0,
        }
    }

    /// Whether each epoch that is passed ended.
    pub(crate) fn have_ended(&self) -> bool
        ensures { result ≡ (self.now.ended == self.now.passed) }
    {
        self.ended == self.passed
    }

    /// The next epoch is passed, behind those that ended: no call at its place has a step of it left.
    pub(crate) fn pass<B: Running>(&mut self, _plan: &RunPlan<'_, B>, _places: &Places<'_>)
        requires over { AreOver _plan.now.calls self.old.passed _places.now.items }
        requires ended { self.old.ended ≡ self.old.passed }
        requires few { self.old.passed + 1 < 18446744073709551616 }
        ensures passed { self.new.passed ≡ self.old.passed + 1 }
        ensures ended { self.new.ended ≡ self.old.ended }
    {
        self.passed += 1;
    }

    /// An epoch that is passed ended: all of these shards restarted.
    pub(crate) fn end<B: Running>(
        &mut self,
        _restarted: RestartedShards,
        _shards: &[Mutex<LockedShard<'_, B>>],
    )
        requires all { _restarted ≡ length _shards.now }
        requires passed { self.old.ended < self.old.passed }
        ensures passed { self.new.passed ≡ self.old.passed }
        ensures ended { self.new.ended ≡ self.old.ended + 1 }
    {
        self.ended += 1;
    }
}
