//! The warnings of a script and a certificate.
ghost use Rattle.std.specs.Prelude.{◌≡◌, ◌↔◌, ◌++◌, ◌∷◌, [], IsTrue, IfOk, OnOk, if◌then◌else◌};
ghost use Rattle.mg_model.specs.Script.{Script as Table};
ghost use Rattle.call_ways.specs.Ways.{AreAll};
ghost use Rattle.call_ways.specs.Candidates.{candidates_of};
ghost use Rattle.call_ways.specs.Fates.{AreCrossings};
ghost use Rattle.call_ways.specs.Points.{HasPoint};
ghost use Rattle.call_ways.specs.Told.{Tells, TellsWithout};
ghost use Rattle.call_ways.specs.Warnings.{ArePicked, IsWarning};
ghost use Rattle.call_ways.specs.declared.warning.Warning.TheVariants as Warning;

use crate::candidates::{candidates, push};
use crate::commands::{is_refused, is_request_empty, is_unsent};
use crate::crossings::Crossing;
use crate::holders::find_holder;
use crate::points::first_point;
use crate::reached::Reached;
use crate::sights::{Sight, is_seen};
use crate::swallowed::is_note_swallowed;
use crate::warning::Warning;
use entry_table::Cert;
use mg_names::kinds::Kind;
use mg_names::slots::Slot;
use script_table::Script;
use std::alloc::{AllocError, Global};

/// Whether some configuration that calls come to shows the one thing, and none the other. The only error is running out of memory.
fn is_shown_without(
    alloc: Global,
    script: &Script,
    reached: &Reached,
    one: &Sight,
    other: &Sight,
) -> Result<bool, AllocError>
    ensures { IfOk result (λ holds. TellsWithout script.now reached.now holds one.now other.now) }
{
    if !is_seen(alloc, script, reached.configs(), one)? {
        return Ok(false);
    }
    let is_other = is_seen(alloc, script, reached.configs(), other)?;
    Ok(!is_other)
}

/// Whether a call comes to some point of the entry at a place, or where that is asked, whether some point is one to which none comes.
fn has_point(cert: &Cert, reached: &Reached, place: usize, wanted: bool) -> bool
    ensures { (script : Table) → AreAll script cert.now reached.now → IsTrue result ↔ HasPoint script cert.now place wanted }
{
    match cert.entries().get(place) {
        Some(entry) => first_point(entry, reached, wanted).is_some(),
        None => false,
    }
}

/// Whether calls come to a state, in which none ends, and no step leads from it to another one. The only error is running out of memory.
fn is_never_left(
    alloc: Global,
    script: &Script,
    reached: &Reached,
    state: u8,
) -> Result<bool, AllocError>
    ensures { IfOk result (λ holds. Tells script.now reached.now holds (Warning.StateNeverLeft state)) }
{
    if script.ends_in(state) {
        return Ok(false);
    }
    let stands = Sight::Stands(state);
    is_shown_without(alloc, script, reached, &stands, &Sight::Leaves(state))
}

/// Whether a state to which calls come says where a note of a line and kind leads, and none rests in it with a list that raises one. The only error is
/// running out of memory.
fn is_arrow_unused(
    alloc: Global,
    script: &Script,
    reached: &Reached,
    state: u8,
    line: Slot,
    kind: Kind,
) -> Result<bool, AllocError>
    ensures { IfOk result (λ holds. Tells script.now reached.now holds (Warning.ArrowUnused state line kind)) }
{
    if script.target_of(state, line, kind).is_none() {
        return Ok(false);
    }
    let raised = Sight::Raises(state, line, kind);
    is_shown_without(alloc, script, reached, &Sight::Stands(state), &raised)
}

/// Whether a call rests in a state while a line of the script has a list without events. The only error is running out of memory.
fn is_line_deaf(
    alloc: Global,
    script: &Script,
    reached: &Reached,
    state: u8,
    line: Slot,
) -> Result<bool, AllocError>
    ensures { IfOk result (λ holds. Tells script.now reached.now holds (Warning.LineDeaf state line)) }
{
    if line.index() >= script.lines() {
        return Ok(false);
    }
    let deaf = Sight::Deafens(state, line);
    is_seen(alloc, script, reached.configs(), &deaf)
}

/// Whether a warning is so. The only error is running out of memory.
fn is_warning(
    alloc: Global,
    script: &Script,
    cert: &Cert,
    reached: &Reached,
    crossings: &[Crossing],
    warning: &Warning,
) -> Result<bool, AllocError>
    requires all { AreAll script.now cert.now reached.now }
    requires crossings { AreCrossings script.now cert.now crossings.now }
    ensures { IfOk result (λ holds. IsTrue holds ↔ IsWarning script.now cert.now warning.now) }
{
    match *warning {
        Warning::StateUnlisted(state) => Ok(cert.of_state(state).is_empty()),
        Warning::StateNeverLeft(state) => is_never_left(alloc, script, reached, state),
        Warning::ArrowUnused(state, line, kind) => {
            is_arrow_unused(alloc, script, reached, state, line, kind)
        }
        Warning::NoteSwallowed(state, line, kind) => {
            is_note_swallowed(alloc, script, reached, state, line, kind)
        }
        Warning::MarkUnneeded(state, pair) => {
            let joined = Sight::Joins(state, pair);
            is_shown_without(alloc, script, reached, &Sight::Stands(state), &joined)
        }
        Warning::LineDeaf(state, line) => is_line_deaf(alloc, script, reached, state, line),
        Warning::CommandUnsent(state, place) => Ok(is_unsent(crossings, state, place)),
        Warning::CommandRefused(arrow, place) => Ok(is_refused(crossings, arrow, place)),
        Warning::RequestEmpty(arrow) => Ok(is_request_empty(script, crossings, arrow)),
        Warning::EntryUnreached(place) => Ok(!has_point(cert, reached, place, true)),
        Warning::EntryHeld(place) => Ok(find_holder(cert, place).is_some()),
        Warning::PointUnreached(place) => {
            if !has_point(cert, reached, place, true) {
                return Ok(false);
            }
            Ok(has_point(cert, reached, place, false))
        }
    }
}

/// Adds a warning where it is so.
fn add_if(found: &mut Vec<Warning>, holds: bool, warning: &Warning) -> Result<(), AllocError>
    ensures { OnOk result (found.new.items ≡ found.old.items ++ (if holds then warning.now ∷ [] else [])) }
{
    if holds {
        push(found, *warning)?;
    }
    Ok(())
}

/// All warnings of a script and a certificate that is a yes, state by state, arrow by arrow and entry by entry, where these are the configurations that calls
/// come to, and what they tell of the arrows. The only error is running out of memory.
pub fn find_warnings(
    alloc: Global,
    script: &Script,
    cert: &Cert,
    reached: &Reached,
    crossings: &[Crossing],
) -> Result<Vec<Warning>, AllocError>
    requires all { AreAll script.now cert.now reached.now }
    requires crossings { AreCrossings script.now cert.now crossings.now }
    ensures { IfOk result (λ found. ArePicked script.now cert.now (candidates_of script.now cert.now) found.items) }
{
    let all = candidates(alloc, script, cert)?;
    let mut found = Vec::new(alloc);
    for warning in all.as_slice() {
        let holds = is_warning(alloc, script, cert, reached, crossings, warning)?;
        add_if(&mut found, holds, warning)?;
    }
    Ok(found)
}
