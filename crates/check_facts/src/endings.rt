//! Whether each call can be brought to its end: by how many moves, or a way to where one can't.
use crate::ways::write_steps;
use call_ends::ending::Ending;
use script_table::Script;
use std::alloc::{AllocError, Global};

/// Adds it, as a member of a JSON object behind a comma. The only error is running out of memory.
pub(crate) fn write_ending(
    alloc: Global,
    out: &mut String,
    script: &Script,
    ending: &Ending,
) -> Result<(), AllocError> {
    match ending {
        Ending::EachCanEnd { moves } => { write!(out, r#","ending":{{"each_within":{moves}}}"#) }
        Ending::Stuck { way } => {
            out.push_str(r#","ending":{"stuck":{"#)?;
            write_steps(alloc, out, script, way.as_slice())?;
            out.push_str("}}")
        }
        Ending::TooMany => Ok(()),
    }
}
