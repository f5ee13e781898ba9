//! Where a call is.
ghost use Rattle.taken_steps.specs.Positions.{IsPlaced};
ghost use Rattle.std.specs.Prelude.{◌≡◌};
ghost use Rattle.agent.specs.Calls.{variant_of};
ghost use Rattle.planned_calls.specs.ReportLines.{kind_phase};

use agent::Next;
use planned_calls::{CallPhase, Shard};

/// Where a call is. This profile's own.
#[derive(Clone, Copy, PartialEq, Eq)]
pub struct Position {
    /// The place of its state in the script, from 0.
    pub state: u8,
    /// Where it is in it.
    pub phase: CallPhase,
}

/// Where a call that stands is in its own association.
fn phase_of(next: &Next<'_>) -> CallPhase
    ensures { result ≡ kind_phase (variant_of next.now) }
{
    match next {
        Next::Resting(_) => CallPhase::Resting,
        Next::Waiting(_) => CallPhase::Waiting,
        Next::Ended(_) => CallPhase::Ended,
    }
}

/// Where a call is on a gateway: lost where it is of another association. This profile's own.
pub fn position_of(shard: &Shard<'_>, next: &Next<'_>) -> Position
    ensures { IsPlaced shard.now next.now result }
{
    let phase = if next.association() == shard.association() {
        phase_of(next)
    } else {
        CallPhase::Lost
    };
    Position {
        state: next.state(),
        phase,
    }
}
