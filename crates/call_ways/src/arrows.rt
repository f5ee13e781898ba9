//! The arrows of a script: what brings a call into a state, and from which one.
ghost use Rattle.std.specs.Prelude.{◌≡◌, ◌∷◌, ◌++◌, [], IfOk, OnOk, length};
ghost use Rattle.std.specs.List.{flat_map};
ghost use Rattle.call_ways.specs.Arrows.{arrow_to, arrows_from, arrows_of, by_note, by_notes, by_notes_of};
ghost use Rattle.call_ways.specs.Numbers.{numbers};

use mg_names::kinds::Kind;
use mg_names::slots::Slot;
use script_table::Script;
use std::alloc::{AllocError, Global};

/// What brings a call into a state. This profile's own.
#[derive(Clone, Copy)]
pub enum EnteredBy {
    /// A reply without a failure.
    Reply,
    /// A reply with a failure.
    Failure,
    /// A note of a line.
    Note(Slot, Kind),
    /// The end of the timer.
    Timer,
    /// That it hears of a restart of its gateway.
    Restart,
}

/// An arrow of a script. States go by their places, from 0. This profile's own.
#[derive(Clone, Copy)]
pub struct Arrow {
    /// The state that it leads from; of a restart, which is heard of in any, 0.
    pub from: u8,
    /// What a call goes over it by.
    pub by: EnteredBy,
    /// The state that it leads to.
    pub to: u8,
}

/// Adds an arrow.
fn push(list: &mut Vec<Arrow>, arrow: Arrow) -> Result<(), AllocError>
    ensures { OnOk result (list.new.items ≡ list.old.items ++ arrow ∷ []) }
{
    list.extend_from_slice(&[arrow])
}

/// Adds the arrow from a state to its target, where it has one.
fn add_arrow(
    list: &mut Vec<Arrow>,
    from: u8,
    by: EnteredBy,
    to: Option<u8>,
) -> Result<(), AllocError>
    ensures { OnOk result (list.new.items ≡ list.old.items ++ arrow_to from by to) }
{
    match to {
        Some(to) => push(list, Arrow { from, by, to }),
        None => Ok(()),
    }
}

/// Adds the arrow from a state by a note, where there is one.
fn add_by_note(
    list: &mut Vec<Arrow>,
    script: &Script,
    from: u8,
    line: Slot,
    kind: Kind,
) -> Result<(), AllocError>
    ensures { OnOk result (list.new.items ≡ list.old.items ++ by_note script.now from line kind) }
{
    let to = script.target_of(from, line, kind);
    add_arrow(list, from, EnteredBy::Note(line, kind), to)
}

/// Adds the arrows from a state by notes of a line.
fn add_by_notes_of(
    list: &mut Vec<Arrow>,
    script: &Script,
    from: u8,
    line: Slot,
) -> Result<(), AllocError>
    ensures { OnOk result (list.new.items ≡ list.old.items ++ by_notes_of script.now from line) }
{
    add_by_note(list, script, from, line, Kind::On)?;
    add_by_note(list, script, from, line, Kind::Of)?;
    add_by_note(list, script, from, line, Kind::Fl)?;
    add_by_note(list, script, from, line, Kind::Full)?;
    add_by_note(list, script, from, line, Kind::Part)
}

/// Adds the arrows from a state by notes.
fn add_by_notes(list: &mut Vec<Arrow>, script: &Script, from: u8) -> Result<(), AllocError>
    ensures { OnOk result (list.new.items ≡ list.old.items ++ by_notes script.now from) }
{
    let [first, second, third, fourth] = Slot::all();
    add_by_notes_of(list, script, from, first)?;
    add_by_notes_of(list, script, from, second)?;
    add_by_notes_of(list, script, from, third)?;
    add_by_notes_of(list, script, from, fourth)
}

/// Adds the arrows from a state.
fn add_from(list: &mut Vec<Arrow>, script: &Script, from: u8) -> Result<(), AllocError>
    ensures { OnOk result (list.new.items ≡ list.old.items ++ arrows_from script.now from) }
{
    add_arrow(list, from, EnteredBy::Reply, script.ok_of(from))?;
    add_arrow(list, from, EnteredBy::Failure, script.fault_of(from))?;
    add_by_notes(list, script, from)?;
    add_arrow(list, from, EnteredBy::Timer, script.timer_of(from))
}

/// Adds the arrows from each state.
fn add_from_states(list: &mut Vec<Arrow>, script: &Script) -> Result<(), AllocError>
    ensures { OnOk result (list.new.items ≡ list.old.items ++ flat_map (arrows_from script.now) (numbers (length script.now.states))) }
{
    for state in 0..script.states() {
        add_from(list, script, state as u8)?;
    }
    Ok(())
}

/// The arrows of a script, state by state: by a reply, by one with a failure, by the notes of each line and by the timer; and at last by a restart. The only
/// error is running out of memory.
pub fn arrows(alloc: Global, script: &Script) -> Result<Vec<Arrow>, AllocError>
    ensures { IfOk result (λ list. list.items ≡ arrows_of script.now) }
{
    let mut list = Vec::new(alloc);
    add_from_states(&mut list, script)?;
    let anew = Arrow {
        from: 0,
        by: EnteredBy::Restart,
        to: script.restart(),
    };
    push(&mut list, anew)?;
    Ok(list)
}
