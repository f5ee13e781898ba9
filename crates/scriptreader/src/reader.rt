//! The reader of scripts.
ghost use Rattle.std.specs.Prelude.{◌≡◌, Some, None, is_some, true};
ghost use Rattle.toml.specs.Data.{Members};
ghost use Rattle.toml.specs.View.{table_view};
ghost use Rattle.typed_values.specs.Unread.{OrNoMemory};
ghost use Rattle.scriptreader.specs.DeclaredNames.{scope_of};
ghost use Rattle.scriptreader.specs.Faults.{name_fault_of};
ghost use Rattle.scriptreader.specs.Reading.{Answers, ReadsScript, document_read, tree_read};

use crate::fault::ScriptFault;
use crate::faultless;
use crate::faults::{name_fault, use_fault};
use crate::scope::Scope;
use crate::syntax::Document;
use crate::tables::read_document;
use script_table::Script;
use std::alloc::Global;
use toml::Table;
use typed_values::{Missing, Unread};

/// The script that a document is whose declared names have no fault, and are these.
fn in_scope(
    alloc: Global,
    scope: &Scope,
    document: &Document,
) -> Result<Script, Unread<ScriptFault>>
    requires scope { scope.now ≡ scope_of document.now }
    requires names { name_fault_of document.now ≡ None }
    ensures { OrNoMemory (Answers (document_read (Some document.now))) result }
{
    let fault = use_fault(alloc, scope, document)?;
    if let Some(fault) = fault {
        return Err(Unread::Fault(fault));
    }
    let script = faultless::script(alloc, scope, document)?;
    Ok(script)
}

/// The script that a document is.
fn of_document(alloc: Global, document: &Document) -> Result<Script, Unread<ScriptFault>>
    ensures { OrNoMemory (Answers (document_read (Some document.now))) result }
{
    let fault = name_fault(alloc, document)?;
    if let Some(fault) = fault {
        return Err(Unread::Fault(fault));
    }
    let scope = faultless::scope(alloc, document)?;
    let answer = in_scope(alloc, &scope, document);
    drop(scope);
    answer
}

/// The script that a tree is. The tree, which takes several times the memory of its document, is let go once that is read.
#[tactic(auto, unfolding(crate::specs::Reading::tree_read))]
fn of_tree(alloc: Global, tree: Table) -> Result<Script, Unread<ScriptFault>>
    ensures { OrNoMemory (Answers (tree_read (table_view tree))) result }
{
    let read = read_document(alloc, &tree);
    drop(tree);
    match read {
        Ok(document) => of_document(alloc, &document),
        Err(Missing::Nothing) => Err(Unread::Fault(ScriptFault::BadKey)),
        Err(Missing::Memory) => Err(Unread::NoMemory),
    }
}

/// Reads a script. The bytes are TOML; the format is this profile's own. Of all faults that the document has anywhere
/// the lowest is given; `NoMemory` may come in place of any answer. Once the library has made a tree of the bytes, time goes up
/// with their number and its logarithm, whatever they are. What the tree takes stands in `docs/use/LIMITS.md`.
#[tactic(auto, using(crate::proofs::Readings::answered))]
pub fn read_script(alloc: Global, bytes: &[u8]) -> Result<Script, Unread<ScriptFault>>
    ensures reads { OrNoMemory (ReadsScript bytes.now) result }

    // Every tree is read as something: a document without a fault has a table.
    ensures answered { (tree : Members) → is_some (tree_read tree) ≡ true }
{
    match toml::table_from_slice(alloc, bytes) {
        Ok(tree) => of_tree(alloc, tree),
        Err(error) => {
            if error.is_memory() {
                return Err(Unread::NoMemory);
            }
            Err(Unread::Fault(ScriptFault::NotToml))
        }
    }
}
