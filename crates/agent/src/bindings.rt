//! What the names of a call stand for.
ghost use Rattle.std.specs.Prelude.{◌≡◌, ℕ, ◌≤◌, Some, None, if◌then◌else◌, nat_lt, length, map, slice_index_or};
ghost use Rattle.std.specs.List.{list_any};
ghost use Rattle.mg_model.specs.Agent.{bound_by, is_listed, line_in};
ghost use Rattle.mg_model.specs.Numbers.{opening_request};
ghost use Rattle.mg_model.specs.Tables.{line_places};
ghost use Rattle.built_request.specs.Known.{names_of};
ghost use Rattle.agent.specs.Parts.{agent_in};

use built_request::Names;
use mg_names::identifiers::{LineNo, OPENING_REQUEST};
use mg_names::slots::Slot;
use script_table::Script;

/// What the names of a call stand for: of each line of the script the number of the gateway's, of each context and ephemeral the number
/// that it is bound to, and of each line the RequestID that is expected in its notes. What a script has fewer of than four is 0, or
/// bound to nothing. This profile's own.
#[derive(Clone, Copy)]
pub(crate) struct Bindings {
    pub(crate) lines: [u32; 4],
    pub(crate) contexts: [Option<u32>; 4],
    pub(crate) ephemerals: [Option<u32>; 4],
    pub(crate) expected: [Option<u32>; 4],
}

/// No name is bound.
const UNBOUND: [Option<u32>; 4] = [None; 4];

/// The number of a line at a place; 0 where there is none.
fn number_at(lines: &[LineNo], place: usize) -> u32
    ensures { result ≡ slice_index_or (map (λ l. l.0) lines.now) place 0 }
{
    match lines.get(place) {
        Some(line) => line.0,
        None => 0,
    }
}

/// The RequestID that is expected first of a line, where the script has it.
fn opening(script: &Script, place: usize) -> Option<u32>
    ensures value { result ≡ (if nat_lt place (length script.now.lines) then Some opening_request else None) }
    ensures few { length script.now.lines ≤ 4 }
{
    if place < script.lines() {
        Some(OPENING_REQUEST)
    } else {
        None
    }
}

#[tactic(auto, unfolding(crate::specs::Parts::agent_in))]
impl Bindings {
    /// The bindings that a call opens with: each of these lines of the gateway, 4 at most, is the script's at its place, nothing is bound,
    /// and every line of the script is expected to report with RequestID 0.
    pub(crate) fn opened(script: &Script, lines: &[LineNo]) -> Bindings
        requires { length lines.now ≤ 4 }
        ensures lines { (agent_in result).lines ≡ (λ i. slice_index_or (map (λ l. l.0) lines.now) i 0) }
        ensures contexts { (agent_in result).contexts ≡ (λ j. None) }
        ensures ephemerals { (agent_in result).ephemerals ≡ (λ k. None) }
        ensures expected { (agent_in result).expected ≡ (λ i. if nat_lt i (length script.now.lines) then Some opening_request else None) }
    {
        Bindings {
            lines: [
                number_at(lines, 0),
                number_at(lines, 1),
                number_at(lines, 2),
                number_at(lines, 3),
            ],
            contexts: UNBOUND,
            ephemerals: UNBOUND,
            expected: [
                opening(script, 0),
                opening(script, 1),
                opening(script, 2),
                opening(script, 3),
            ],
        }
    }

    /// The number of the gateway's line.
    pub(crate) fn line(&self, line: Slot) -> LineNo
        ensures { result.0 ≡ (agent_in self.now).lines line }
    {
        LineNo(self.lines[line.index()])
    }

    /// What a context is bound to.
    pub(crate) fn context(&self, context: Slot) -> Option<u32>
        ensures { result ≡ (agent_in self.now).contexts context }
    {
        self.contexts[context.index()]
    }

    /// What an ephemeral is bound to.
    pub(crate) fn ephemeral(&self, ephemeral: Slot) -> Option<u32>
        ensures { result ≡ (agent_in self.now).ephemerals ephemeral }
    {
        self.ephemerals[ephemeral.index()]
    }

    /// The RequestID that is expected in the notes of a line.
    pub(crate) fn expected(&self, line: Slot) -> Option<u32>
        ensures { result ≡ (agent_in self.now).expected line }
    {
        self.expected[line.index()]
    }

    /// The names that are bound.
    pub(crate) fn names(&self) -> Names
        ensures { names_of result ≡ bound_by (agent_in self.now) }
    {
        let contexts = [
            self.contexts[0].is_some(),
            self.contexts[1].is_some(),
            self.contexts[2].is_some(),
            self.contexts[3].is_some(),
        ];
        let ephemerals = [
            self.ephemerals[0].is_some(),
            self.ephemerals[1].is_some(),
            self.ephemerals[2].is_some(),
            self.ephemerals[3].is_some(),
        ];
        Names::new(contexts, ephemerals)
    }

    /// The same where a call begins on the lines: nothing is bound.
    pub(crate) fn unbound(&self) -> Bindings
        ensures lines { (agent_in result).lines ≡ (agent_in self.now).lines }
        ensures contexts { (agent_in result).contexts ≡ (λ j. None) }
        ensures ephemerals { (agent_in result).ephemerals ≡ (λ k. None) }
        ensures expected { (agent_in result).expected ≡ (agent_in self.now).expected }
    {
        Bindings {
            contexts: [None; 4],
            ephemerals: [None; 4],
            ..*self
        }
    }

    /// The same where nothing is bound and nothing expected, as a new association begins.
    pub(crate) fn forgotten(&self) -> Bindings
        ensures lines { (agent_in result).lines ≡ (agent_in self.now).lines }
        ensures contexts { (agent_in result).contexts ≡ (λ j. None) }
        ensures ephemerals { (agent_in result).ephemerals ≡ (λ k. None) }
        ensures expected { (agent_in result).expected ≡ (λ i. None) }
    {
        Bindings {
            expected: [None; 4],
            ..self.unbound()
        }
    }

    /// The script's line of a line of the gateway.
    pub(crate) fn line_of(&self, script: &Script, line: LineNo) -> Option<Slot>
        ensures { result ≡ line_in (agent_in self.now) line.0 (line_places script.now) }
    {
        let lines = script.lines();
        let slots = Slot::all();
        for slot in &slots {
            if slot.index() >= lines {
                return None;
            }
            if self.lines[slot.index()] == line.0 {
                return Some(*slot);
            }
        }
        None
    }
}
