//! A call that begins on the lines of one that has ended.
ghost use Rattle.std.specs.Prelude.{◌≡◌, ℕ, ◌==◌, true, false, OnOk, OnErr};
ghost use Rattle.std.specs.List.{list_all, list_any};
ghost use Rattle.requests.specs.Connected.{board_in, line_in};
ghost use Rattle.mg_model.specs.Gateway.{begun};
ghost use Rattle.gateway.specs.Beginnings.{is_inactive, is_null, is_silent, is_exactly_off, is_ready_row, is_ready, is_created_by, is_at_rest, CanBegin, OpenBegun, IsBegun};
ghost use Rattle.gateway.specs.GatewayValue.{gateway_of, is_open, is_taken};

use crate::call::CallState;
use crate::fault::BeginFault;
use crate::gateway::Gateway;
use crate::{calls, holders};
use line_events::{EventList, LineRow};
use mg_model::line_events::SignalSet;
use mg_model::rows::Row;
use mg_model::transitions::EventItem;
use mg_names::identifiers::{CallNo, ContextId, LineNo, TermId};
use mg_names::modes::Mode;
use mg_names::strictness::Strict;
use std::alloc::AllocError;
use std::collections::BTreeSet;

/// Whether a mode is Inactive.
fn is_inactive(mode: Mode) -> bool
    ensures { result ≡ is_inactive mode }
{
    matches!(mode, Mode::Inactive)
}

/// Whether a row is that of a line in the null context that is Inactive.
fn is_null(row: Option<Row>) -> bool
    ensures { result ≡ is_null row }
{
    match row {
        Some(row) => row.place.0 == 0 && is_inactive(row.mode) && row.remote.is_none(),
        None => false,
    }
}

/// Whether no signal plays.
fn is_silent(set: SignalSet) -> bool
    ensures { result ≡ is_silent set }
{
    !set.ring && !set.dial_tone && !set.ringing_tone && !set.busy_tone && !set.congestion_tone
}

/// Whether a list is `al/of` with `strict=exact`, alone.
fn is_exactly_off(list: &EventList) -> bool
    ensures { result ≡ is_exactly_off list.now }
{
    matches!(list.items(), [EventItem::OffHook(Strict::Exact)])
}

/// Whether a row is silent and its list `al/of` with `strict=exact`, alone.
fn is_ready_row(row: &LineRow) -> bool
    ensures { result ≡ is_ready_row row.now }
{
    if !is_silent(row.playing()) {
        return false;
    }
    is_exactly_off(row.list())
}

impl Gateway {
    /// Whether a line is as a call needs it to begin.
    fn is_ready(&self, line: LineNo) -> bool
        ensures { result ≡ is_ready (board_in self.now.connected) (line_in self.now.connected) line }
    {
        if !is_null(self.board().get(TermId::Line(line))) {
            return false;
        }
        match self.connections.line(line) {
            Some(row) => is_ready_row(row),
            None => false,
        }
    }

    /// Whether each of these lines is.
    fn are_ready(&self, lines: &[LineNo]) -> bool
        ensures { result ≡ list_all (is_ready (board_in self.now.connected) (line_in self.now.connected)) lines.now }
    {
        lines.iter().all(|line| self.is_ready(*line))
    }

    /// Whether an ephemeral stands that a call created.
    fn has_created(&self, ephemeral: u32, call: CallNo) -> bool
        ensures { result ≡ is_created_by ((gateway_of self.now).creator ephemeral) call.0 }
    {
        match self.creator(ephemeral) {
            Some(creator) => creator.0 == call.0,
            None => false,
        }
    }

    /// Whether one of these ephemerals stands and a call created it.
    fn has_any(&self, ephemerals: &BTreeSet<u32>, call: CallNo) -> bool
        ensures { result ≡ list_any (λ k. is_created_by ((gateway_of self.now).creator k) call.0) ephemerals.now.keys }
    {
        ephemerals
            .iter()
            .any(|number| self.has_created(*number, call))
    }

    /// Whether each line of a call is ready, and no ephemeral stands that it created.
    fn is_at_rest(&self, call: CallNo, state: &CallState) -> bool
        ensures { result ≡ is_at_rest (board_in self.now.connected) (line_in self.now.connected) (gateway_of self.now).creator call.0 state.now }
    {
        if !self.are_ready(state.lines()) {
            return false;
        }
        !self.has_any(state.created(), call)
    }

    /// Whether a call can begin on the lines of another: the fault that `begin` answers, but want of memory (this profile's own).
    pub fn can_begin(&self, old: CallNo, new: CallNo) -> Result<(), BeginFault>
        ensures { CanBegin self.now old.0 new.0 result }
    {
        let Some(state) = calls::call(&self.calls, old.0) else {
            return Err(BeginFault::UnknownCall);
        };
        if calls::is_taken(&self.calls, new.0) {
            return Err(BeginFault::Taken);
        }
        if !self.is_at_rest(old, state) {
            return Err(BeginFault::CannotHappen);
        }
        Ok(())
    }

    /// Retires a call, and hands its lines to a new one; only running out of memory keeps it from that.
    fn hand_over(&mut self, old: CallNo, new: CallNo) -> Result<(), AllocError>
        requires open { is_open self.old old.0 ≡ true }
        requires free { is_taken self.old new.0 ≡ false }
        ensures begun { OnOk result (gateway_of self.new ≡ begun (gateway_of self.old) old.0 new.0) }
        ensures open_calls { OnOk result (OpenBegun self.old old.0 new.0 self.new) }
        ensures unchanged { OnErr result (self.new ≡ self.old) }
    {
        let Ok(()) = calls::reserve(&mut self.calls, new.0) else {
            return Err(AllocError);
        };
        let Some(state) = calls::retire(&mut self.calls, old.0) else {
            return Ok(());
        };
        let lines = state.into_lines();
        holders::hold(&mut self.holders, lines.as_slice(), new.0);
        let begun = CallState::new(self.alloc, self.association, lines);
        calls::fill(&mut self.calls, new.0, begun);
        Ok(())
    }

    /// A call begins on the lines of another, which is retired (this profile's own): each line that the old call holds is in the null
    /// context, Inactive, silent and armed by `al/of` with `strict=exact` alone, and no ephemeral exists that the old call created. The lines
    /// stay as they are; of the new call no reply is kept and no note was sent. A request of a retired call does nothing, and no call has
    /// its number again. The fault of the lowest number that applies is answered, or `NoMemory` where none does. It takes as long as the old
    /// call has lines and created ephemerals, however many calls are open.
    pub fn begin(&mut self, old: CallNo, new: CallNo) -> Result<(), BeginFault>
        ensures { IsBegun self.old old.0 new.0 self.new result }
    {
        match self.can_begin(old, new) {
            Err(fault) => Err(fault),
            Ok(()) => match self.hand_over(old, new) {
                Ok(()) => Ok(()),
                Err(_) => Err(BeginFault::NoMemory),
            },
        }
    }
}
