//! The gateway.
ghost use Rattle.std.specs.Prelude.{◌≡◌, ℕ, ◌<◌, false, IfOk};
ghost use Rattle.identifiers.specs.Class.{is_of_class};
ghost use Rattle.gateway.specs.Openings.{first_gateway};
ghost use Rattle.gateway.specs.GatewayValue.{gateway_of, is_open};

use crate::active_and_standby::ActiveAndStandby;
use crate::calls::Calls;
use crate::creators::Creators;
use crate::holders::{self, Holders};
use contexts::Board;
use mg_names::identifiers::{Assoc, LineNo};
use std::alloc::{AllocError, Global};
use std::collections::HashMap;
use std::marker::Model;

/// A media gateway: its association, its connections, an entry for each line with the call that holds it, an entry for each call that was
/// opened, and which call created an ephemeral. A line has its entry from the start, so that opening a call needs none; of a call that was
/// retired an empty entry is left. A request and an opening run on a standby of the connections, which
/// then changes places with them, so that running out of memory changes nothing and many open calls cost a request no copy.
#[derive(Drop)]
pub struct Gateway {
    pub(crate) alloc: Global,
    pub(crate) association: Assoc,
    pub(crate) connections: ActiveAndStandby,
    pub(crate) holders: Holders,
    pub(crate) calls: Calls,
    pub(crate) creators: Creators,
}

impl Model for Gateway {
    ghost use Rattle.gateway.specs.GatewayValue.{GatewayValue, AreTied};

    ghost Value = { GatewayValue };

    ghost view = { λ g. record { association = g.association.0; connected = g.connections; holders = g.holders.entries; calls = g.calls.entries; creators = g.creators.entries } };

    ghost invariant = { λ g. AreTied (record { association = g.association.0; connected = g.connections; holders = g.holders.entries; calls = g.calls.entries; creators = g.creators.entries }) };
}

impl Gateway {
    /// A gateway in its first association, with these lines, each in the null context, Inactive, on hook, silent and with an empty
    /// Events descriptor; no call is open.
    pub fn new(alloc: Global, lines: &[LineNo]) -> Result<Gateway, AllocError>
        ensures gateway { IfOk result (λ g. gateway_of g ≡ first_gateway (is_of_class 0 1) lines.now) }
        ensures no_call { IfOk result (λ g. (call : ℕ) → is_open g call ≡ false) }
    {
        Gateway::with_ids(alloc, lines, 0, 1)
    }

    /// The same, where contexts and ephemerals are given numbers that leave `first` where they are divided by `stride`, and no others, so
    /// that several gateways never give the same one (this profile's own).
    pub fn with_ids(
        alloc: Global,
        lines: &[LineNo],
        first: u32,
        stride: u32,
    ) -> Result<Gateway, AllocError>
        requires { first < stride }
        ensures gateway { IfOk result (λ g. gateway_of g ≡ first_gateway (is_of_class first stride) lines.now) }
        ensures no_call { IfOk result (λ g. (call : ℕ) → is_open g call ≡ false) }
    {
        let connections = ActiveAndStandby::with_ids(alloc, lines, first, stride)?;
        let holders = holders::new(alloc, lines)?;
        Ok(Gateway {
            alloc,
            association: Assoc::FIRST,
            connections,
            holders,
            calls: HashMap::new(alloc),
            creators: HashMap::new(alloc),
        })
    }

    /// The connection model.
    pub fn board(&self) -> &Board
        ensures { result.now ≡ self.now.connected.board_value }
    {
        self.connections.board()
    }

    /// The association.
    pub fn association(&self) -> Assoc
        ensures { result.0 ≡ self.now.association }
    {
        self.association
    }
}
