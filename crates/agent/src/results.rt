//! What a reply binds.
ghost use Rattle.std.specs.Prelude.{◌≡◌, ◌==◌, ℕ, None, Some, if◌then◌else◌, is_some, map, slice_index_or};
ghost use Rattle.mg_model.specs.Items as items;
ghost use Rattle.mg_model.specs.Updates.{with_at};
ghost use Rattle.mg_model.specs.declared.commands.Command.TheVariants.{Subtract, SubtractAll};
ghost use Rattle.mg_model.specs.Agent as model;
ghost use Rattle.std.specs.List.{list_any};
ghost use Rattle.agent.specs.Parts.{agent_in, read_in, without_listed, without_lines};

use crate::bindings::Bindings;
use built_request::Request;
use contexts::Done;
use mg_model::commands::{Command, LineOptions, Termination};
use mg_names::identifiers::LineNo;
use mg_names::slots::Slot;
use script_table::Script;

fn is_number(other: &u32, number: u32) -> bool
    ensures { result ≡ (other.now == number) }
{
    *other == number
}

/// Whether a number is among these.
fn has_number(gone: &[u32], number: u32) -> bool
    ensures { result ≡ list_any (λ other. other == number) gone.now }
{
    gone.iter().any(|other| is_number(other, number))
}

/// Whether a number that is bound is among these.
fn is_among(gone: &[u32], bound: Option<u32>) -> bool
    ensures { result ≡ model.is_listed gone.now bound }
{
    match bound {
        Some(number) => has_number(gone, number),
        None => false,
    }
}

/// Whether a line is among these.
fn has_line(gone: &[LineNo], line: u32) -> bool
    ensures { result ≡ model.is_listed (map (λ l. l.0) gone.now) (Some line) }
{
    for other in gone {
        if other.0 == line {
            return true;
        }
    }
    false
}

/// What is left bound where these numbers are gone.
fn kept(gone: &[u32], bound: Option<u32>) -> Option<u32>
    ensures { result ≡ (if model.is_listed gone.now bound then None else bound) }
{
    if is_among(gone, bound) { None } else { bound }
}

/// What is left expected of a line where these lines went to the null context.
fn still_expected(gone: &[LineNo], line: u32, expected: Option<u32>) -> Option<u32>
    ensures { result ≡ (if model.is_listed (map (λ l. l.0) gone.now) (Some line) then None else expected) }
{
    if has_line(gone, line) { None } else { expected }
}

/// What is left bound of four names where these numbers are gone.
fn all_kept(gone: &[u32], bound: [Option<u32>; 4]) -> [Option<u32>; 4]
    ensures { read_in result ≡ without_listed gone.now (read_in bound) }
{
    [
        kept(gone, bound[0]),
        kept(gone, bound[1]),
        kept(gone, bound[2]),
        kept(gone, bound[3]),
    ]
}

/// What is left expected of four lines where these lines went to the null context.
fn all_expected(gone: &[LineNo], lines: [u32; 4], expected: [Option<u32>; 4]) -> [Option<u32>; 4]
    ensures { read_in result ≡ without_lines (map (λ l. l.0) gone.now) (λ i. slice_index_or lines i 0) (read_in expected) }
{
    [
        still_expected(gone, lines[0], expected[0]),
        still_expected(gone, lines[1], expected[1]),
        still_expected(gone, lines[2], expected[2]),
        still_expected(gone, lines[3], expected[3]),
    ]
}

#[tactic(auto, unfolding(crate::specs::Parts::agent_in))]
impl Bindings {
    /// A context that a command created is bound.
    fn bind_context(&mut self, create: bool, context: Slot, done: &Done)
        ensures { agent_in self.new ≡ record (agent_in self.old) { contexts = model.bound_if create (agent_in self.old).contexts context done.now.context } }
    {
        if create {
            self.contexts[context.index()] = match done.context() {
                Some(number) => Some(number.0),
                None => None,
            };
        }
    }

    /// What an ephemeral is bound to.
    fn bind_ephemeral(&mut self, ephemeral: Slot, number: Option<u32>)
        ensures { agent_in self.new ≡ record (agent_in self.old) { ephemerals = with_at (agent_in self.old).ephemerals ephemeral number } }
    {
        self.ephemerals[ephemeral.index()] = number;
    }

    /// What is expected in the notes of a line.
    fn expect(&mut self, line: Slot, number: Option<u32>)
        ensures { agent_in self.new ≡ record (agent_in self.old) { expected = with_at (agent_in self.old).expected line number } }
    {
        self.expected[line.index()] = number;
    }

    /// An Events descriptor of a command makes the request's number expected.
    fn arm(&mut self, line: Slot, options: &LineOptions, number: u32)
        ensures { agent_in self.new ≡ record (agent_in self.old) { expected = model.expected_if (is_some options.now.events) (agent_in self.old).expected line number } }
    {
        if options.events.is_some() {
            self.expect(line, Some(number));
        }
    }

    /// What a Subtract of one termination unbinds.
    fn lose(&mut self, termination: &Termination)
        ensures { (c : ℕ) (d : items.Done) (n : ℕ) → agent_in self.new ≡ model.after_result (agent_in self.old) (Subtract c termination.now) d n }
    {
        match *termination {
            Termination::Line(line) => self.expect(line, None),
            Termination::Ephemeral(ephemeral) => self.bind_ephemeral(ephemeral, None),
        }
    }

    /// A context is bound no more.
    fn lose_context(&mut self, context: Slot)
        ensures { agent_in self.new ≡ record (agent_in self.old) { contexts = with_at (agent_in self.old).contexts context None } }
    {
        self.contexts[context.index()] = None;
    }

    /// Ephemerals are bound no more.
    fn lose_ephemerals(&mut self, gone: &[u32])
        ensures { agent_in self.new ≡ record (agent_in self.old) { ephemerals = without_listed gone.now (agent_in self.old).ephemerals } }
    {
        self.ephemerals = all_kept(gone, self.ephemerals);
    }

    /// Nothing is expected of lines any more.
    fn lose_lines(&mut self, gone: &[LineNo])
        ensures { agent_in self.new ≡ record (agent_in self.old) { expected = without_lines (map (λ l. l.0) gone.now) (agent_in self.old).lines (agent_in self.old).expected } }
    {
        self.expected = all_expected(gone, self.lines, self.expected);
    }

    /// What a Subtract of all terminations of a context unbinds.
    fn lose_all(&mut self, context: Slot, done: &Done)
        ensures { (n : ℕ) → agent_in self.new ≡ model.after_result (agent_in self.old) (SubtractAll context) done.now n }
    {
        self.lose_context(context);
        self.lose_ephemerals(done.ephemerals());
        self.lose_lines(done.lines());
    }

    /// What a command that was done binds and unbinds.
    fn take(&mut self, command: &Command, done: &Done, number: u32)
        ensures { agent_in self.new ≡ model.after_result (agent_in self.old) command.now done.now number }
    {
        match command {
            Command::AddLine {
                create,
                context,
                line,
                options,
            } => {
                self.bind_context(*create, *context, done);
                self.arm(*line, options, number);
            }
            Command::AddEphemeral {
                create,
                context,
                ephemeral,
                ..
            } => {
                self.bind_context(*create, *context, done);
                self.bind_ephemeral(*ephemeral, done.ephemeral());
            }
            Command::ModifyLine { line, options, .. } => self.arm(*line, options, number),
            Command::MoveLine { line, options, .. } => self.arm(*line, options, number),
            Command::Subtract { termination, .. } => self.lose(termination),
            Command::SubtractAll { context } => self.lose_all(*context, done),
            _ => {}
        }
    }
}

/// What the names stand for after the results of a state's request, by the commands that were built where they stood for this.
pub(crate) fn after(
    script: &Script,
    bindings: &Bindings,
    state: u8,
    results: &[Done],
    number: u32,
) -> Bindings
    ensures { agent_in result ≡ model.after_results (agent_in bindings.now) (model.built_by script.now (agent_in bindings.now) state) results.now number }
{
    let mut left = Request::new(script, bindings.names(), state);
    let mut after = *bindings;
    for done in results {
        let Some(command) = left.take_next() else {
            return after;
        };
        after.take(command, done, number);
    }
    after
}
