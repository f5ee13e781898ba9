//! Where a call that is open in a shard is.
ghost use Rattle.agent.specs.AgentValue.{agent_of};
ghost use Rattle.shards.specs.Standings.{Stands, TellsStanding};

use crate::call_record::CallRecord;
use crate::call_table;
use crate::shard::Shard;
use mg_names::identifiers::{Assoc, CallNo};

/// Where a call that is open in a shard is. This profile's own.
#[derive(Clone, Copy)]
pub struct Standing {
    /// The association of its agent, from 1.
    pub association: Assoc,
    /// Its state, by its place in the script, from 0.
    pub state: u8,
    /// Whether it waits for no reply and for no pass.
    pub is_resting: bool,
}

/// Where the call of a record is.
pub(crate) fn standing_of(call_record: &CallRecord) -> Standing
    ensures { Stands (agent_of call_record.now.agent) result }
{
    let agent = &call_record.agent;
    Standing {
        association: agent.association(),
        state: agent.state(),
        is_resting: agent.is_resting(),
    }
}

impl<'s> Shard<'s> {
    /// Where a call is; nothing where none of this number is open: none was ever opened, or another began on its lines. It looks at no other call, and not at
    /// the history.
    pub fn standing(&self, call: CallNo) -> Option<Standing>
        ensures { TellsStanding self.now call.0 result }
    {
        let call_record = call_table::call_record(&self.call_table, call)?;
        Some(Standing {
            association: call_record.agent.association(),
            state: call_record.agent.state(),
            is_resting: call_record.agent.is_resting(),
        })
    }
}
