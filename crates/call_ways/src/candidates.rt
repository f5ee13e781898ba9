//! All that can be warned of.
ghost use Rattle.std.specs.Prelude.{◌≡◌, ◌∷◌, ◌++◌, [], IfOk, OnOk, length, map, slice_get};
ghost use Rattle.std.specs.List.{flat_map};
ghost use Rattle.mg_model.specs.Tables.{state_of};
ghost use Rattle.call_ways.specs.declared.warning.Warning.TheVariants as Warning;
ghost use Rattle.call_ways.specs.Arrows.{arrows_of};
ghost use Rattle.call_ways.specs.Candidates.{candidates_of, commands_over, of_arrow, of_command, of_command_over, of_entry, of_line, of_lists, of_notes, of_state};
ghost use Rattle.call_ways.specs.Numbers.{numbers};

use crate::arrows::{Arrow, arrows};
use crate::warning::Warning;
use entry_table::Cert;
use mg_model::transitions::Pair;
use mg_names::kinds::Kind;
use mg_names::slots::Slot;
use script_table::Script;
use std::alloc::{AllocError, Global};

/// Adds what can be warned of the arrows that a state has for a line.
fn add_notes(list: &mut Vec<Warning>, state: u8, line: Slot) -> Result<(), AllocError>
    ensures { OnOk result (list.new.items ≡ list.old.items ++ of_notes state line) }
{
    list.extend_from_slice(&[
        Warning::ArrowUnused(state, line, Kind::On),
        Warning::ArrowUnused(state, line, Kind::Of),
        Warning::ArrowUnused(state, line, Kind::Fl),
        Warning::ArrowUnused(state, line, Kind::Full),
        Warning::ArrowUnused(state, line, Kind::Part),
    ])
}

/// Adds what can be warned of the lists that a line has in a state.
fn add_lists(list: &mut Vec<Warning>, state: u8, line: Slot) -> Result<(), AllocError>
    ensures { OnOk result (list.new.items ≡ list.old.items ++ of_lists state line) }
{
    list.extend_from_slice(&[
        Warning::NoteSwallowed(state, line, Kind::On),
        Warning::NoteSwallowed(state, line, Kind::Of),
        Warning::NoteSwallowed(state, line, Kind::Fl),
        Warning::NoteSwallowed(state, line, Kind::Full),
        Warning::NoteSwallowed(state, line, Kind::Part),
        Warning::LineDeaf(state, line),
    ])
}

/// Adds what can be warned of a line in a state.
fn add_line(list: &mut Vec<Warning>, state: u8, line: Slot) -> Result<(), AllocError>
    ensures { OnOk result (list.new.items ≡ list.old.items ++ of_line state line) }
{
    add_notes(list, state, line)?;
    add_lists(list, state, line)
}

/// Adds what can be warned of the lines in a state.
fn add_lines(list: &mut Vec<Warning>, state: u8) -> Result<(), AllocError>
    ensures { OnOk result (list.new.items ≡ list.old.items ++ flat_map (of_line state) (0 ∷ 1 ∷ 2 ∷ 3 ∷ [])) }
{
    let [first, second, third, fourth] = Slot::all();
    add_line(list, state, first)?;
    add_line(list, state, second)?;
    add_line(list, state, third)?;
    add_line(list, state, fourth)
}

/// Adds one warning.
pub(crate) fn push(list: &mut Vec<Warning>, warning: Warning) -> Result<(), AllocError>
    ensures { OnOk result (list.new.items ≡ list.old.items ++ warning ∷ []) }
{
    list.extend_from_slice(&[warning])
}

/// Adds what can be warned of a state's marks.
fn add_marks(list: &mut Vec<Warning>, state: u8, talk: &[Pair]) -> Result<(), AllocError>
    ensures { OnOk result (list.new.items ≡ list.old.items ++ map (λ pair. Warning.MarkUnneeded state pair) talk.now) }
{
    for pair in talk {
        push(list, Warning::MarkUnneeded(state, *pair))?;
    }
    Ok(())
}

/// Adds what can be warned of a command of a state.
fn add_command(list: &mut Vec<Warning>, state: u8, place: usize) -> Result<(), AllocError>
    ensures { OnOk result (list.new.items ≡ list.old.items ++ of_command state place) }
{
    push(list, Warning::CommandUnsent(state, place))
}

/// Adds what can be warned of so many commands of a state.
fn add_commands(list: &mut Vec<Warning>, state: u8, count: usize) -> Result<(), AllocError>
    ensures { OnOk result (list.new.items ≡ list.old.items ++ flat_map (of_command state) (numbers count)) }
{
    for place in 0..count {
        add_command(list, state, place)?;
    }
    Ok(())
}

/// Adds what can be warned of a state.
fn add_state(list: &mut Vec<Warning>, script: &Script, state: u8) -> Result<(), AllocError>
    ensures { OnOk result (list.new.items ≡ list.old.items ++ of_state script.now state) }
{
    list.extend_from_slice(&[
        Warning::StateUnlisted(state),
        Warning::StateNeverLeft(state),
    ])?;
    add_lines(list, state)?;
    add_marks(list, state, script.talk_of(state))?;
    add_commands(list, state, script.commands_of(state).len())
}

/// Adds what can be warned of the states.
fn add_states(list: &mut Vec<Warning>, script: &Script) -> Result<(), AllocError>
    ensures { OnOk result (list.new.items ≡ list.old.items ++ flat_map (of_state script.now) (numbers (length script.now.states))) }
{
    for state in 0..script.states() {
        add_state(list, script, state as u8)?;
    }
    Ok(())
}

/// How many commands the state has that the arrow at a place leads to.
fn commands_over(script: &Script, arrows: &[Arrow], place: usize) -> usize
    ensures { result ≡ length (commands_over script.now (slice_get arrows.now place)) }
{
    match arrows.get(place) {
        Some(arrow) => script.commands_of(arrow.to).len(),
        None => 0,
    }
}

/// Adds what can be warned of a command on an arrow.
fn add_command_over(list: &mut Vec<Warning>, arrow: usize, place: usize) -> Result<(), AllocError>
    ensures { OnOk result (list.new.items ≡ list.old.items ++ of_command_over arrow place) }
{
    push(list, Warning::CommandRefused(arrow, place))
}

/// Adds what can be warned of so many commands on an arrow.
fn add_commands_over(list: &mut Vec<Warning>, arrow: usize, count: usize) -> Result<(), AllocError>
    ensures { OnOk result (list.new.items ≡ list.old.items ++ flat_map (of_command_over arrow) (numbers count)) }
{
    for place in 0..count {
        add_command_over(list, arrow, place)?;
    }
    Ok(())
}

/// Adds what can be warned of an arrow.
fn add_arrow(
    list: &mut Vec<Warning>,
    script: &Script,
    arrows: &[Arrow],
    place: usize,
) -> Result<(), AllocError>
    requires { arrows.now ≡ arrows_of script.now }
    ensures { OnOk result (list.new.items ≡ list.old.items ++ of_arrow script.now place) }
{
    push(list, Warning::RequestEmpty(place))?;
    add_commands_over(list, place, commands_over(script, arrows, place))
}

/// Adds what can be warned of the arrows.
fn add_arrows(list: &mut Vec<Warning>, script: &Script, arrows: &[Arrow]) -> Result<(), AllocError>
    requires { arrows.now ≡ arrows_of script.now }
    ensures { OnOk result (list.new.items ≡ list.old.items ++ flat_map (of_arrow script.now) (numbers (length (arrows_of script.now)))) }
{
    for place in 0..arrows.len() {
        add_arrow(list, script, arrows, place)?;
    }
    Ok(())
}

/// Adds what can be warned of an entry.
fn add_entry(list: &mut Vec<Warning>, place: usize) -> Result<(), AllocError>
    ensures { OnOk result (list.new.items ≡ list.old.items ++ of_entry place) }
{
    list.extend_from_slice(&[
        Warning::EntryUnreached(place),
        Warning::EntryHeld(place),
        Warning::PointUnreached(place),
    ])
}

/// Adds what can be warned of so many entries.
fn add_entries(list: &mut Vec<Warning>, count: usize) -> Result<(), AllocError>
    ensures { OnOk result (list.new.items ≡ list.old.items ++ flat_map of_entry (numbers count)) }
{
    for place in 0..count {
        add_entry(list, place)?;
    }
    Ok(())
}

/// All that can be warned of, state by state, arrow by arrow and entry by entry. The only error is running out of memory.
pub(crate) fn candidates(
    alloc: Global,
    script: &Script,
    cert: &Cert,
) -> Result<Vec<Warning>, AllocError>
    ensures { IfOk result (λ list. list.items ≡ candidates_of script.now cert.now) }
{
    let mut list = Vec::new(alloc);
    add_states(&mut list, script)?;
    let arrows = arrows(alloc, script)?;
    add_arrows(&mut list, script, arrows.as_slice())?;
    add_entries(&mut list, cert.entries().len())?;
    Ok(list)
}
