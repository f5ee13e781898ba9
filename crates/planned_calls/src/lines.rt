//! Where the calls of a run are at its end: a line for each call of the plan, and for each that began within it.
ghost use Rattle.std.specs.Prelude.{◌≡◌, ◌++◌, ◌∷◌, [], IfOk, OnOk, length, map};
ghost use Rattle.mg_model.specs.Script.{Script};
ghost use Rattle.planned_calls.specs.ReportLines.{AreNumbered, gone_line, line_of, lines_told, number_of, numbers_from, phase_standing, phase_text};

use crate::call_count::{CallCount, RetiredCall};
use mg_names::identifiers::Assoc;
use script_table::Script;
use shards::Standing;
use std::alloc::{AllocError, Global};

/// Where a call is at the end of a run. This profile's own.
#[derive(Clone, Copy, PartialEq, Eq)]
pub enum CallPhase {
    /// Its association isn't its gateway's.
    Lost,
    /// At rest, in a state that isn't marked end.
    Resting,
    /// It waits for a reply, or for its pass.
    Waiting,
    /// At rest in a state marked end.
    Ended,
    /// Another call began on its lines.
    Retired,
}

/// What is told of a call at the end of a run. This profile's own.
#[derive(Clone, Copy, PartialEq, Eq)]
pub struct Line {
    /// The number of the call of the plan that it is, or began within.
    pub call: u32,
    /// Which of those that began within that call it is, from 1; 0 for the call of the plan itself.
    pub begun: usize,
    /// The place of its state in the script.
    pub state: u8,
    /// Where it is.
    pub phase: CallPhase,
    /// How many events happened to it.
    pub events: usize,
    /// How many of its steps couldn't happen.
    pub idle: usize,
}

impl CallPhase {
    /// The word for it in a report.
    pub fn text(self) -> &'static str
        ensures { result.now ≡ phase_text self }
    {
        match self {
            CallPhase::Lost => "lost",
            CallPhase::Resting => "resting",
            CallPhase::Waiting => "waiting",
            CallPhase::Ended => "ended",
            CallPhase::Retired => "retired",
        }
    }
}

/// Adds the lines of those that others began on.
fn push_gone(lines: &mut Vec<Line>, call: u32, gone: &[RetiredCall]) -> Result<(), AllocError>
    ensures told { OnOk result ((script : Script) → map (line_of script) lines.new.items ≡ map (line_of script) lines.old.items ++ map (gone_line script) gone.now) }
    ensures numbered { OnOk result (map number_of lines.new.items ≡ map number_of lines.old.items ++ numbers_from call 0 (length gone.now)) }
{
    for (begun, one) in gone.iter().enumerate() {
        let RetiredCall {
            state,
            events,
            idle,
        } = *one;
        lines.push(Line {
            call,
            begun,
            state,
            phase: CallPhase::Retired,
            events,
            idle,
        })?;
    }
    Ok(())
}

/// Where a call is that stands so, where its gateway is in this association.
pub fn phase_of(script: &Script, standing: Standing, association: Assoc) -> CallPhase
    ensures { result ≡ phase_standing script.now standing association.0 }
{
    if standing.association != association {
        return CallPhase::Lost;
    }
    if !standing.is_resting {
        return CallPhase::Waiting;
    }
    if script.ends_in(standing.state) {
        CallPhase::Ended
    } else {
        CallPhase::Resting
    }
}

/// The lines of a call of the plan, of which this is counted, and of those that began within it: the one that stands stands so, in this phase.
pub fn lines_of(
    alloc: Global,
    call: u32,
    count: &CallCount,
    state: u8,
    phase: CallPhase,
) -> Result<Vec<Line>, AllocError>
    ensures { IfOk result (λ lines. ((script : Script) → map (line_of script) lines.items ≡ lines_told script count.now state phase) × AreNumbered call lines.items) }
{
    let mut lines = Vec::new(alloc);
    let gone = count.gone.as_slice();
    push_gone(&mut lines, call, gone)?;
    lines.push(Line {
        call,
        begun: gone.len(),
        state,
        phase,
        events: count.events,
        idle: count.idle,
    })?;
    Ok(lines)
}
