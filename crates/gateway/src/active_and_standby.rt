//! The connections of a gateway with a standby.
ghost use Rattle.std.specs.Prelude.{◌≡◌, ◌<◌, ◌&&◌, is_some, IfOk, OnOk, option_map};
ghost use Rattle.mg_model.specs.Gateway.{outcome_of, board_restarted};
ghost use Rattle.mg_model.specs.LineEvents.{new_line, cleared};
ghost use Rattle.contexts.specs.BoardValue.{opened, started};
ghost use Rattle.line_events.specs.Raising.{is_raised};
ghost use Rattle.requests.specs.Connected.{board_in, line_in, line_there, has_line, is_idle, answer_where, lines_after, Ends};
ghost use Rattle.requests.specs.Views.{line_notes};
ghost use Rattle.identifiers.specs.Class.{is_of_class};
ghost use Rattle.gateway.specs.Standby.{ShowsSame, ShowsOpened, HasEnd};

use contexts::{Board, Done};
use line_events::{LineFault, LineRow, Note};
use mg_model::failures::ChosenRefusal;
use mg_model::line_events::LineEvent;
use mg_names::identifiers::LineNo;
use requests::{Connections, Outcome, Request};
use std::alloc::{AllocError, Global};
use std::marker::Model;
use std::mem;

/// The connections that are active, and a standby of equal value. A request runs on the standby (a copy, where there is none), and then
/// the two change places and the other one follows; where it can't, it is dropped, and the next request makes a copy. So a request
/// takes no longer where many calls are open, and running out of memory changes nothing.
#[derive(Drop)]
pub(crate) struct ActiveAndStandby {
    active: Connections,
    standby: Option<Connections>,
}

impl Model for ActiveAndStandby {
    ghost use Rattle.requests.specs.Connected.{Connected};
    ghost use Rattle.gateway.specs.Standby.{IsStandby};

    ghost Value = { Connected };

    ghost view = { λ d. d.active };

    ghost invariant = { λ d. IsStandby d.standby d.active };
}

/// Opens lines.
fn open_lines(connections: &mut Connections, lines: &[LineNo]) -> Result<(), AllocError>
    ensures { OnOk result (ShowsOpened connections.old lines.now connections.new) }
{
    for line in lines {
        connections.deactivate(*line)?;
        connections.open_line(*line)?;
    }
    Ok(())
}

impl ActiveAndStandby {
    /// These lines, each in the null context, Inactive, on hook, silent and with an empty Events descriptor; contexts and ephemerals are
    /// given numbers that leave `first` where they are divided by `stride`.
    pub(crate) fn with_ids(
        alloc: Global,
        lines: &[LineNo],
        first: u32,
        stride: u32,
    ) -> Result<ActiveAndStandby, AllocError>
        requires { first < stride }
        ensures board { IfOk result (λ c. board_in c ≡ opened (is_of_class first stride) (started lines.now)) }
        ensures lines { IfOk result (λ c. line_in c ≡ (λ l. new_line)) }
    {
        Ok(ActiveAndStandby {
            active: Connections::with_ids(alloc, lines, first, stride)?,
            standby: None,
        })
    }

    /// The connection model.
    pub(crate) fn board(&self) -> &Board
        ensures { result.now ≡ self.now.board_value }
    {
        self.active.board()
    }

    /// The row of a line; `None` where it isn't there.
    pub(crate) fn line(&self, line: LineNo) -> Option<&LineRow>
        ensures { option_map (λ row. row.now) result ≡ line_there self.now line.0 }
    {
        self.active.line(line)
    }

    /// Whether a line is there.
    pub(crate) fn has_line(&self, line: LineNo) -> bool
        ensures { result ≡ has_line (board_in self.now) line.0 }
    {
        self.active.has_line(line)
    }

    /// Whether a line is there, in the null context.
    pub(crate) fn is_idle(&self, line: LineNo) -> bool
        ensures { result ≡ is_idle (board_in self.now) line.0 }
    {
        self.active.is_idle(line)
    }

    /// Whether an event on a line raises a note.
    pub(crate) fn raises(&self, line: LineNo, event: LineEvent) -> bool
        ensures { result ≡ is_raised (outcome_of (line_in self.now line.0) event) }
    {
        self.active.raises(line, event)
    }

    /// Whether an event can happen on a line.
    pub(crate) fn can_happen(&self, line: LineNo, event: LineEvent) -> bool
        ensures { result ≡ (has_line (board_in self.now) line.0 && is_some (outcome_of (line_in self.now line.0) event)) }
    {
        self.active.can_happen(line, event)
    }

    /// The standby, or a copy.
    fn take_standby(&mut self) -> Result<Connections, AllocError>
        ensures same { IfOk result (λ standby. ShowsSame standby self.old) }
        ensures unchanged { self.new ≡ self.old }
    {
        if let Some(standby) = self.standby.take() {
            return Ok(standby);
        }
        self.active.copy()
    }

    /// The run of a request on the standby.
    pub(crate) fn run(
        &mut self,
        request: &Request,
        chosen: Option<ChosenRefusal>,
    ) -> Result<(Connections, Outcome), AllocError>
        ensures runs { IfOk result (λ ended. Ends self.old request.now chosen ended.0 ended.1.results.items (line_notes ended.1.notes.items) ended.1.failure) }
        ensures unchanged { self.new ≡ self.old }
    {
        let standby = self.take_standby()?;
        standby.run(request, chosen)
    }

    /// Where a request ended is active from now on, and the other one follows.
    pub(crate) fn change_places(
        &mut self,
        ended: Connections,
        request: &Request,
        chosen: Option<ChosenRefusal>,
        results: &[Done],
    )
        requires { HasEnd self.old request.now chosen ended results.now }
        ensures { self.new ≡ ended }
    {
        let before = mem::replace(&mut self.active, ended);
        self.standby = before.follow(request, chosen, results);
    }

    /// Lines opened on the standby.
    pub(crate) fn opened(&mut self, lines: &[LineNo]) -> Result<Connections, AllocError>
        ensures opened { IfOk result (λ c. ShowsOpened self.old lines.now c) }
        ensures unchanged { self.new ≡ self.old }
    {
        let mut standby = self.take_standby()?;
        open_lines(&mut standby, lines)?;
        Ok(standby)
    }

    /// Where lines were opened is active from now on, and the other one follows.
    pub(crate) fn change_places_opened(&mut self, opened: Connections, lines: &[LineNo])
        requires { ShowsOpened self.old lines.now opened }
        ensures { self.new ≡ opened }
    {
        let mut before = mem::replace(&mut self.active, opened);
        let Ok(()) = open_lines(&mut before, lines) else {
            self.standby = None;
            return;
        };
        self.standby = Some(before);
    }

    /// An event on a line, on both.
    pub(crate) fn happen(
        &mut self,
        line: LineNo,
        event: LineEvent,
    ) -> Result<Option<Note>, LineFault>
        ensures answer { result ≡ answer_where (has_line (board_in self.old) line.0) (outcome_of (line_in self.old line.0) event) }
        ensures board { board_in self.new ≡ board_in self.old }
        ensures lines { line_in self.new ≡ lines_after (has_line (board_in self.old) line.0) (line_in self.old) line.0 (outcome_of (line_in self.old line.0) event) }
    {
        let answer = self.active.happen(line, event);
        let Some(standby) = &mut self.standby else {
            return answer;
        };
        let _ = standby.happen(line, event);
        answer
    }

    /// A restart, of both.
    pub(crate) fn restart(&mut self)
        ensures board { board_in self.new ≡ board_restarted (board_in self.old) }
        ensures lines { line_in self.new ≡ (λ l. cleared (line_in self.old l)) }
    {
        self.active.restart();
        let Some(standby) = &mut self.standby else {
            return;
        };
        standby.restart();
    }
}
