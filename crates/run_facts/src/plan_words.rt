//! A step of a plan as a plan writes it.
use check_facts::names::line_name;
use mg_model::plans::PlanStep;
use mg_names::slots::Slot;
use script_table::Script;
use std::fmt;

/// A step of a plan in the words of its format. This profile's own.
#[derive(Clone, Copy)]
pub struct PlanWords<'a> {
    /// The script.
    pub script: &'a Script,
    /// The step.
    pub step: PlanStep,
}

/// A number behind a blank; nothing where none is given.
#[derive(Clone, Copy)]
struct Which(Option<u32>);

impl fmt::Display for Which {
    fn fmt<W: fmt::Write>(&self, f: &mut fmt::Formatter<W>) -> fmt::Result {
        match self.0 {
            Some(number) => write!(f, " {number}"),
            None => Ok(()),
        }
    }
}

/// The place that is refused, behind its word; nothing where none is given.
#[derive(Clone, Copy)]
struct Refuses(Option<u8>);

impl fmt::Display for Refuses {
    fn fmt<W: fmt::Write>(&self, f: &mut fmt::Formatter<W>) -> fmt::Result {
        match self.0 {
            Some(place) => write!(f, " refuse {place}"),
            None => Ok(()),
        }
    }
}

impl PlanWords<'_> {
    /// The name of a line.
    fn line(&self, line: Slot) -> &str {
        line_name(self.script, line)
    }

    /// Writes a step that no line takes.
    fn write_of_call<W: fmt::Write>(&self, f: &mut fmt::Formatter<W>) -> fmt::Result {
        match self.step {
            PlanStep::Executes(which, place) => {
                write!(f, "execute{}{}", Which(which), Refuses(place))
            }
            PlanStep::TakesReply(which) => write!(f, "reply{}", Which(which)),
            PlanStep::TakesNote(which) => write!(f, "note{}", Which(which)),
            PlanStep::Passes => write!(f, "pass"),
            PlanStep::TimesOut => write!(f, "timer"),
            PlanStep::Hears => write!(f, "hear"),
            PlanStep::Begins => write!(f, "begin"),
            PlanStep::Restarts => write!(f, "restart"),
            _ => Ok(()),
        }
    }
}

impl fmt::Display for PlanWords<'_> {
    fn fmt<W: fmt::Write>(&self, f: &mut fmt::Formatter<W>) -> fmt::Result {
        match self.step {
            PlanStep::GoesOff(line) => write!(f, "off {}", self.line(line)),
            PlanStep::GoesOn(line) => write!(f, "on {}", self.line(line)),
            PlanStep::Flashes(line) => write!(f, "flash {}", self.line(line)),
            PlanStep::Dials(line, symbol) => {
                write!(f, "digit {} {}", self.line(line), symbol.text())
            }
            PlanStep::Pauses(line) => write!(f, "pause {}", self.line(line)),
            PlanStep::Ends(line, signal) => write!(f, "end {} {}", self.line(line), signal.text()),
            _ => self.write_of_call(f),
        }
    }
}
