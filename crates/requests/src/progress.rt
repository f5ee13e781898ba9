//! A request while it runs.
ghost use Rattle.std.specs.Prelude.{◌≡◌, [], ◌∷◌, ◌++◌, map, IfOk, OnOk};
ghost use Rattle.mg_model.specs.RequestRun.{RunsFrom, chosen_at, has_new_events, descriptors_for};
ghost use Rattle.requests.specs.Commands.{running, IsThere, notes_left, noted, finished, described_line, IsStep};
ghost use Rattle.mg_model.specs.Members.{is_among};
ghost use Rattle.requests.specs.Connected.{board_in, start_in};
ghost use Rattle.requests.specs.Views.{command_of, line_described, line_notes};

use crate::command::{LineDescriptors, RequestCommand};
use crate::connections::Connections;
use crate::descriptors::described;
use crate::items::item_at;
use crate::outcome::LineNote;
use contexts::{Done, ExecFault};
use mg_model::failures::{ChosenRefusal, Failure, Refusal};
use mg_names::codes::Code;
use mg_names::identifiers::LineNo;
use std::alloc::AllocError;

/// A request while it runs: the connections, the results so far, and the notes to be sent.
#[derive(Drop)]
pub(crate) struct Progress {
    pub(crate) connections: Connections,
    pub(crate) results: Vec<Done>,
    pub(crate) notes: Vec<LineNote>,
}

/// The refusal that is chosen for a place.
fn chosen_at(chosen: Option<ChosenRefusal>, place: usize) -> Option<Refusal>
    ensures { result ≡ chosen_at chosen place }
{
    let Some(chosen) = chosen else {
        return None;
    };
    if chosen.place as usize == place {
        return Some(chosen.refusal);
    }
    None
}

/// Whether a line is among those that left.
fn is_among(gone: &[LineNo], line: LineNo) -> bool
    ensures { result ≡ is_among (map (λ l. l.0) gone.now) line.0 }
{
    gone.iter()
        .map(|left| left.0)
        .any(|number| line.0 == number)
}

/// Whether a command replaces the Events descriptor of a line.
fn has_new_events(described: &Option<(LineNo, &LineDescriptors)>, line: LineNo) -> bool
    ensures { result ≡ has_new_events (line_described described.now) line.0 }
{
    match described {
        Some((described, descriptors)) => described.0 == line.0 && descriptors.events.is_some(),
        None => false,
    }
}

/// Keeps the notes whose descriptor still stands.
fn keep_standing(
    notes: &mut Vec<LineNote>,
    gone: &[LineNo],
    described: &Option<(LineNo, &LineDescriptors)>,
)
    ensures { line_notes notes.new.items ≡ notes_left (map (λ l. l.0) gone.now) (line_described described.now) (line_notes notes.old.items) }
{
    notes.retain(|note| !(is_among(gone, note.line) || has_new_events(described, note.line)));
}

/// Adds a note, if there is one.
fn add_note(notes: &mut Vec<LineNote>, note: Option<LineNote>) -> Result<(), AllocError>
    ensures { OnOk result (line_notes notes.new.items ≡ line_notes notes.old.items ++ noted note) }
{
    if let Some(note) = note {
        notes.push(note)?;
    }
    Ok(())
}

/// Adds a result.
fn add_result(results: &mut Vec<Done>, done: Done) -> Result<(), AllocError>
    ensures { OnOk result (results.new.items ≡ results.old.items ++ done ∷ []) }
{
    results.push(done)?;
    Ok(())
}

impl Progress {
    /// A request of so many commands that starts: each of them has room for its result.
    pub(crate) fn start(connections: Connections, commands: usize) -> Result<Progress, AllocError>
        ensures { IfOk result (λ progress. running progress ≡ start_in connections) }
    {
        let alloc = connections.alloc;
        let results = Vec::with_capacity(alloc, commands)?;
        Ok(Progress {
            connections,
            results,
            notes: Vec::new(alloc),
        })
    }

    /// The rest of a command that the board did.
    fn finish(
        &mut self,
        command: &RequestCommand,
        done: Done,
        number: u32,
    ) -> Result<(), AllocError>
        requires { IsThere (board_in self.old.connections) (descriptors_for (command_of command.now)) }
        ensures { OnOk result (running self.new ≡ finished (running self.old) (described_line (command_of command.now)) done number) }
    {
        let described = described(command);
        let note = self.connections.describe(&described, done.lines(), number)?;
        keep_standing(&mut self.notes, done.lines(), &described);
        add_note(&mut self.notes, note)?;
        add_result(&mut self.results, done)
    }

    /// One command: it is executed, or fails with a code.
    fn step(
        &mut self,
        command: &RequestCommand,
        place: usize,
        chosen: Option<ChosenRefusal>,
        number: u32,
    ) -> Result<Option<Code>, AllocError>
        ensures { IfOk result (IsStep (running self.old) (command_of command.now) place chosen number (running self.new)) }
    {
        let item = item_at(self.results.as_slice(), command);
        if let Some(refusal) = chosen_at(chosen, place) {
            return Ok(Some(self.connections.refused(&item, refusal)));
        }
        match self.connections.exec(&item) {
            Ok(done) => {
                self.finish(command, done, number)?;
                Ok(None)
            }
            Err(ExecFault::Code(code)) => Ok(Some(code)),
            Err(ExecFault::NoMemory) => Err(AllocError),
        }
    }

    /// The commands in their order, up to the first that fails or to the end; the failure, if there is one.
    pub(crate) fn run(
        &mut self,
        commands: &[RequestCommand],
        chosen: Option<ChosenRefusal>,
        number: u32,
    ) -> Result<Option<Failure>, AllocError>
        ensures { IfOk result (RunsFrom number chosen (running self.old) 0 (map command_of commands.now) (running self.new)) }
    {
        for place in 0..commands.len() {
            if let Some(code) = self.step(&commands[place], place, chosen, number)? {
                return Ok(Some(Failure { place, code }));
            }
        }
        Ok(None)
    }
}
