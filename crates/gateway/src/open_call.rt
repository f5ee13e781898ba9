//! The opening of a call.
ghost use Rattle.std.specs.Prelude.{◌≡◌, ℕ, ◌==◌, ◌||◌, Ok, IfOk, OnOk, OnErr};
ghost use Rattle.std.specs.List.{list_all};
ghost use Rattle.contexts.specs.BoardValue.{names_line};
ghost use Rattle.requests.specs.Connected.{board_in};
ghost use Rattle.gateway.specs.Openings.{opened, opening, opening_on, has_twice, are_there, are_free, is_free, is_memory};
ghost use Rattle.mg_model.specs.Memory.{IsOrNoMemory};
ghost use Rattle.gateway.specs.GatewayValue.{gateway_of, holder_in, is_open, is_taken};

use crate::call::CallState;
use crate::fault::OpenFault;
use crate::gateway::Gateway;
use crate::{calls, holders};
use mg_names::identifiers::{CallNo, LineNo};
use std::alloc::{AllocError, Global};

/// Whether a line is among others.
fn is_among(lines: &[LineNo], line: LineNo) -> bool
    ensures { result ≡ names_line lines.now line.0 }
{
    lines.iter().any(|other| line.0 == other.0)
}

/// Whether a line is named twice.
fn has_twice(lines: &[LineNo]) -> bool
    ensures { result ≡ has_twice lines.now }
{
    for place in 0..lines.len() {
        if is_among(&lines[place + 1..], lines[place]) {
            return true;
        }
    }
    false
}

/// A copy of lines.
fn copied(alloc: Global, lines: &[LineNo]) -> Result<Vec<LineNo>, AllocError>
    ensures { IfOk result (λ copied. copied.items ≡ lines.now) }
{
    lines.iter().copied().collect(alloc)
}

impl Gateway {
    /// Whether a line is there in the null context, and no call holds it.
    fn is_free(&self, line: LineNo) -> bool
        ensures { result ≡ is_free (board_in self.now.connected) (holder_in self.now) line }
    {
        if !self.connections.is_idle(line) {
            return false;
        }
        holders::holder(&self.holders, line.0).is_none()
    }

    /// Whether these lines are there.
    fn are_there(&self, lines: &[LineNo]) -> bool
        ensures { result ≡ are_there (board_in self.now.connected) lines.now }
    {
        let connections = &self.connections;
        lines.iter().all(|line| connections.has_line(*line))
    }

    /// Whether each of these lines is free.
    fn all_free(&self, lines: &[LineNo]) -> bool
        ensures { result ≡ list_all (is_free (board_in self.now.connected) (holder_in self.now)) lines.now }
    {
        lines.iter().all(|line| self.is_free(*line))
    }

    /// Whether these lines are free, and none is named twice.
    fn are_free(&self, lines: &[LineNo]) -> bool
        ensures { result ≡ are_free (board_in self.now.connected) (holder_in self.now) lines.now }
    {
        if !self.all_free(lines) {
            return false;
        }
        !has_twice(lines)
    }

    /// Whether a call can be opened on lines.
    #[tactic(auto, unfolding(crate::specs::GatewayValue::is_taken))]
    fn can_open(&self, call: CallNo, lines: &[LineNo]) -> Result<(), OpenFault>
        ensures { result ≡ opening_on (board_in self.now.connected) (holder_in self.now) (is_taken self.now call.0) lines.now }
    {
        if !self.are_there(lines) {
            return Err(OpenFault::UnknownLine);
        }
        if calls::is_taken(&self.calls, call.0) {
            return Err(OpenFault::Taken);
        }
        if !self.are_free(lines) {
            return Err(OpenFault::Taken);
        }
        Ok(())
    }

    /// Opens a call on lines that are free; only running out of memory keeps it from that.
    fn open_free(&mut self, call: CallNo, lines: &[LineNo]) -> Result<(), AllocError>
        requires { opening_on (board_in self.old.connected) (holder_in self.old) (is_taken self.old call.0) lines.now ≡ Ok tt }
        ensures opened { OnOk result (gateway_of self.new ≡ opened (gateway_of self.old) call.0 lines.now) }
        ensures open_calls { OnOk result ((other : ℕ) → is_open self.new other ≡ ((other == call.0) || is_open self.old other)) }
        ensures unchanged { OnErr result (self.new ≡ self.old) }
    {
        let held = copied(self.alloc, lines)?;
        let state = CallState::new(self.alloc, self.association, held);
        let Ok(connections) = self.connections.opened(lines) else {
            return Err(AllocError);
        };
        let Ok(()) = calls::open(&mut self.calls, call.0, state) else {
            return Err(AllocError);
        };
        holders::hold(&mut self.holders, lines, call.0);
        self.connections.change_places_opened(connections, lines);
        Ok(())
    }

    /// Opens a call on lines (this profile's own). Each of them is Inactive and silent, armed by `al/of` with `strict=exact` alone, with
    /// RequestID 0, and held by the call; no reply is kept and no note was sent. A number is taken where a call of it is open or was retired. The fault of
    /// the lowest number that applies is answered, or `NoMemory` in its place.
    pub fn open_call(&mut self, call: CallNo, lines: &[LineNo]) -> Result<(), OpenFault>
        ensures answer { IsOrNoMemory is_memory result (opening (gateway_of self.old) (is_taken self.old call.0) lines.now) }
        ensures opened { OnOk result (gateway_of self.new ≡ opened (gateway_of self.old) call.0 lines.now) }
        ensures open_calls { OnOk result ((other : ℕ) → is_open self.new other ≡ ((other == call.0) || is_open self.old other)) }
        ensures unchanged { OnErr result (self.new ≡ self.old) }
    {
        match self.can_open(call, lines) {
            Err(fault) => Err(fault),
            Ok(()) => match self.open_free(call, lines) {
                Ok(()) => Ok(()),
                Err(_) => Err(OpenFault::NoMemory),
            },
        }
    }
}
