//! A line of a report, as `mgcall run` writes it.
ghost use Rattle.std.specs.Prelude.{◌≡◌, IfOk, string_bytes};
ghost use Rattle.check_lines.specs.Output.{report, written};
ghost use Rattle.run_reports.specs.RunAnswers.{call_lines};

use run_reports::{Line, state_name};
use script_table::Script;
use std::alloc::{AllocError, Global};
use std::fmt;

/// A line of a report of a script's run. This profile's own.
#[derive(Clone, Copy)]
pub struct LineText<'a> {
    /// The script.
    pub script: &'a Script,
    /// The line.
    pub line: &'a Line,
}

/// The number of a call that began within one of the plan, behind a point; nothing of that one itself.
#[derive(Clone, Copy)]
pub(crate) struct Begun(pub(crate) usize);

impl fmt::Display for Begun {
    ghost use Rattle.std.specs.Prelude.{Some};
    ghost use Rattle.check_lines.specs.Output.{begun_text};

    ghost output = { λ begun. Some (begun_text begun.0) };

    fn fmt<W: fmt::Write>(&self, f: &mut fmt::Formatter<W>) -> fmt::Result {
        let begun = self.0;
        if begun == 0 {
            return Ok(());
        }
        write!(f, ".{begun}")
    }
}

impl fmt::Display for LineText<'_> {
    ghost use Rattle.std.specs.Prelude.{Some};
    ghost use Rattle.check_lines.specs.Output.{call_text};
    ghost use Rattle.run_reports.specs.RunAnswers.{call_line};

    ghost output = { λ text. Some (call_text (call_line text.script.now text.line.now)) };

    fn fmt<W: fmt::Write>(&self, f: &mut fmt::Formatter<W>) -> fmt::Result {
        let (call, begun) = (self.line.call, Begun(self.line.begun));
        let state = state_name(self.script, self.line.state);
        let phase = self.line.phase.text();
        let (events, idle) = (self.line.events, self.line.idle);
        writeln!(
            f,
            "call {call}{begun} {state} {phase} events={events} idle={idle}"
        )
    }
}

/// All lines of a report, one after the other, each with its end.
pub fn report_text(alloc: Global, script: &Script, lines: &[Line]) -> Result<String, AllocError>
    ensures { IfOk result (λ text. string_bytes text ≡ written (report (call_lines script.now lines.now))) }
{
    let mut text = String::new(alloc);
    for line in lines {
        let one = LineText { script, line };
        let told = format!(in alloc; "{one}")?;
        text.push_str(told.as_str())?;
    }
    Ok(text)
}
