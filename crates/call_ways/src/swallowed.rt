//! Notes that are raised where a call rests, and lead nowhere.
ghost use Rattle.std.specs.Prelude.{IfOk};
ghost use Rattle.call_ways.specs.Told.{Tells};
ghost use Rattle.call_ways.specs.declared.warning.Warning.TheVariants as Warning;

use crate::reached::Reached;
use crate::sights::{Sight, is_shown};
use mg_names::kinds::Kind;
use mg_names::slots::Slot;
use script_table::Script;
use std::alloc::{AllocError, Global};

/// Whether a call rests in a state, which is neither the start nor an end, with a list for a line that raises a note of a kind, and the state doesn't say where
/// that leads. In the start state each line is armed as the call opens, whatever the script says. The only error is running out of memory.
pub(crate) fn is_note_swallowed(
    alloc: Global,
    script: &Script,
    reached: &Reached,
    state: u8,
    line: Slot,
    kind: Kind,
) -> Result<bool, AllocError>
    ensures { IfOk result (λ holds. Tells script.now reached.now holds (Warning.NoteSwallowed state line kind)) }
{
    if state == script.start() {
        return Ok(false);
    }
    if script.ends_in(state) {
        return Ok(false);
    }
    if script.target_of(state, line, kind).is_some() {
        return Ok(false);
    }
    let raised = Sight::Raises(state, line, kind);
    is_shown(alloc, script, reached, &raised)
}
