//! How many shards of a run restarted for one cause.
ghost use Rattle.std.specs.Prelude.{◌≡◌, ◌+◌, OnOk};

use planned_calls::RunFault;
use std::marker::Model;

/// How many shards of a run, from the first on, restarted for one cause, each in its turn. Only a shard under its lock counts itself, as it restarts. This
/// profile's own.
#[derive(Drop)]
pub struct RestartedShards {
    shards: u32,
}

impl Model for RestartedShards {
    ghost use Rattle.std.specs.Prelude.{ℕ};

    ghost Value = { ℕ };

    ghost view = { λ r. r.shards };
}

impl RestartedShards {
    /// None restarted yet.
    pub fn none() -> RestartedShards
        ensures { result ≡ 0 }
    {
        RestartedShards { shards: 0 }
    }

    /// The shard with this number, from 0, is one of them. `Disagree` where it isn't its turn.
    pub(crate) fn add(&mut self, number: u32) -> Result<(), RunFault>
        ensures turn { OnOk result (number ≡ self.old) }
        ensures counted { OnOk result (self.new ≡ self.old + 1) }
    {
        if number != self.shards {
            return Err(RunFault::Disagree);
        }
        let Some(shards) = self.shards.checked_add(1) else {
            return Err(RunFault::Disagree);
        };
        self.shards = shards;
        Ok(())
    }
}
