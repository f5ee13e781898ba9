//! The names that a script has for the lines of a gateway.
use check_facts::names::line_name;
use mg_names::identifiers::LineNo;
use mg_names::slots::Slot;
use script_table::Script;

/// The name of a line of the gateway, by the lines of the call in the order of the script.
pub(crate) fn name_of<'a>(script: &'a Script, lines: &[LineNo], line: LineNo) -> &'a str {
    for slot in &Slot::all() {
        if lines.get(slot.index()) == Some(&line) {
            return line_name(script, *slot);
        }
    }
    "?"
}
