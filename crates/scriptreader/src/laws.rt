//! The law of the scripts that the reader accepts. The function is empty: its contract is the law, which a crate above has by calling it.
ghost use Rattle.scriptreader.specs.Laws.{AcceptedScripts};

/// Each table that bytes are read as is a script of which the promise over runs speaks: it has at most four lines, contexts
/// and ephemerals, its commands name what it declares, no state creates a name twice, and no state has more than 16 commands.
pub fn accepted_scripts()
    ensures { AcceptedScripts }
{}
