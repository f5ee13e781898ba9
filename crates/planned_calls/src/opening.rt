//! A call of the plan, as a shard opens with it.
ghost use Rattle.std.specs.Prelude.{◌≡◌, IfOk};
ghost use Rattle.mg_model.specs.Plans as plans;
ghost use Rattle.shards.specs.Shards.{opened_as};

use mg_names::identifiers::CallNo;
use plans::PlanCall;
use shards::OpenedCall;
use std::alloc::{AllocError, Global};

/// A call of the plan, as a shard opens with it.
pub fn opened_call(alloc: Global, number: u32, call: &PlanCall) -> Result<OpenedCall, AllocError>
    ensures { IfOk result (λ one. opened_as one ≡ plans.opened_as number call.now) }
{
    let mut lines = Vec::new(alloc);
    lines.extend_from_slice(call.lines())?;
    Ok(OpenedCall {
        call: CallNo(number),
        lines,
    })
}
