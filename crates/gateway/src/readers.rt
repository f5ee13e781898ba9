//! What a program reads of a gateway beside its board: lines, the calls that hold them, and open calls.
ghost use Rattle.std.specs.Prelude.{◌≡◌, IfOk, option_map, map};
ghost use Rattle.mg_model.specs.Items.{Lists};
ghost use Rattle.requests.specs.Connected.{board_in, line_there, has_line};
ghost use Rattle.gateway.specs.GatewayValue.{gateway_of, holder_in, is_open};

use crate::gateway::Gateway;
use crate::{calls, creators, holders};
use line_events::LineRow;
use mg_names::identifiers::{CallNo, LineNo, TermId};
use std::alloc::AllocError;

impl Gateway {
    /// The lines that are there, in rising order.
    pub fn lines(&self) -> Result<Vec<LineNo>, AllocError>
        ensures { IfOk result (λ lines. Lists (has_line (board_in self.now.connected)) (map (λ l. l.0) lines.items)) }
    {
        let lines = holders::lines(self.alloc, &self.holders)?;
        Ok(lines)
    }

    /// The row of a line, with its hook state, its Events descriptor and its signals; `None` where there is no such line.
    pub fn line(&self, line: LineNo) -> Option<&LineRow>
        ensures { option_map (λ row. row.now) result ≡ line_there self.now.connected line.0 }
    {
        self.connections.line(line)
    }

    /// The call that holds a line; `None` where no call does, or where there is no such line.
    pub fn holder(&self, line: LineNo) -> Option<CallNo>
        ensures { option_map (λ call. call.0) result ≡ holder_in self.now line.0 }
    {
        match holders::holder(&self.holders, line.0) {
            Some(call) => Some(CallNo(call)),
            None => None,
        }
    }

    /// The call of which a request created an ephemeral; `None` where there is no such ephemeral.
    #[tactic(auto, unfolding(crate::specs::GatewayValue::gateway_of))]
    pub fn creator(&self, ephemeral: u32) -> Option<CallNo>
        ensures { option_map (λ call. call.0) result ≡ (gateway_of self.now).creator ephemeral }
    {
        self.board().get(TermId::Eph(ephemeral))?;
        let call = creators::creator(&self.creators, ephemeral)?;
        Some(CallNo(call))
    }

    /// Whether a call is open.
    #[tactic(auto, unfolding(crate::specs::GatewayValue::is_open))]
    pub fn is_open(&self, call: CallNo) -> bool
        ensures { result ≡ is_open self.now call.0 }
    {
        calls::call(&self.calls, call.0).is_some()
    }

    /// The open calls, in rising order. It looks at each call that was opened, retired ones too.
    #[tactic(auto, unfolding(crate::specs::GatewayValue::is_open))]
    pub fn calls(&self) -> Result<Vec<CallNo>, AllocError>
        ensures { IfOk result (λ calls. Lists (is_open self.now) (map (λ c. c.0) calls.items)) }
    {
        let calls = calls::open_calls(self.alloc, &self.calls)?;
        Ok(calls)
    }
}
