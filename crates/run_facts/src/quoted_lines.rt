//! The lines of a report as the members of a JSON list.
ghost use Rattle.std.specs.Prelude.{◌≡◌, false, IfOk, string_bytes};
ghost use Rattle.run_reports.specs.RunAnswers.{call_lines};
ghost use Rattle.run_facts.specs.Saying.{quoted_from};

use crate::line_text::Begun;
use run_reports::{Line, state_name};
use script_table::Script;
use std::alloc::{AllocError, Global};
use std::fmt;

/// A comma before each line but the first.
#[derive(Clone, Copy)]
struct Gap(bool);

impl fmt::Display for Gap {
    ghost use Rattle.std.specs.Prelude.{Some};
    ghost use Rattle.run_facts.specs.Saying.{gap_text};

    ghost output = { λ gap. Some (gap_text gap.0) };

    fn fmt<W: fmt::Write>(&self, f: &mut fmt::Formatter<W>) -> fmt::Result {
        if self.0 {
            return write!(f, ",");
        }
        Ok(())
    }
}

/// A line of a report without its end, in quotation marks: its names have none, so it is a JSON string.
#[derive(Clone, Copy)]
struct QuotedLine<'a> {
    is_next: bool,
    script: &'a Script,
    line: &'a Line,
}

impl fmt::Display for QuotedLine<'_> {
    ghost use Rattle.std.specs.Prelude.{Some};
    ghost use Rattle.run_reports.specs.RunAnswers.{call_line};
    ghost use Rattle.run_facts.specs.Saying.{quoted_line};

    ghost output = { λ text. Some (quoted_line text.is_next (call_line text.script.now text.line.now)) };

    fn fmt<W: fmt::Write>(&self, f: &mut fmt::Formatter<W>) -> fmt::Result {
        let (gap, call, begun) = (Gap(self.is_next), self.line.call, Begun(self.line.begun));
        let state = state_name(self.script, self.line.state);
        let phase = self.line.phase.text();
        let (events, idle) = (self.line.events, self.line.idle);
        write!(
            f,
            "{gap}\"call {call}{begun} {state} {phase} events={events} idle={idle}\""
        )
    }
}

/// All lines of a report as the members of a JSON list. The only error is running out of memory.
pub(crate) fn quoted_lines(
    alloc: Global,
    script: &Script,
    lines: &[Line],
) -> Result<String, AllocError>
    ensures { IfOk result (λ text. string_bytes text ≡ quoted_from false (call_lines script.now lines.now)) }
{
    let mut text = String::new(alloc);
    let mut is_next = false;
    for line in lines {
        let one = QuotedLine {
            is_next,
            script,
            line,
        };
        let told = format!(in alloc; "{one}")?;
        text.push_str(told.as_str())?;
        is_next = true;
    }
    Ok(text)
}
