//! What is made of a document whose declared names, or all that it says, have no fault.
ghost use Rattle.std.specs.Prelude.{◌≡◌, Some, None, IfOk, false};
ghost use Rattle.scriptreader.specs.DeclaredNames.{scope_of};
ghost use Rattle.scriptreader.specs.Faults.{fault_of, has_duplicate};
ghost use Rattle.scriptreader.specs.Meaning.{script_meant};

use crate::build::script_in;
use crate::scope::Scope;
use crate::syntax::Document;
use script_table::Script;
use std::alloc::{AllocError, Global};
use typed_values::Missing;

/// The names of a document, where none comes twice.
pub(crate) fn scope<'a>(alloc: Global, document: &'a Document) -> Result<Scope<'a>, AllocError>
    requires { has_duplicate document.now ≡ false }
    ensures { IfOk result (λ scope. scope ≡ scope_of document.now) }
{
    let scope = Scope::new(alloc, document)?;
    Ok(scope)
}

/// The table of a document that has no fault, whose names are these.
pub(crate) fn script(
    alloc: Global,
    scope: &Scope,
    document: &Document,
) -> Result<Script, AllocError>
    requires scope { scope.now ≡ scope_of document.now }
    requires faultless { fault_of document.now ≡ None }
    ensures { IfOk result (λ script. script_meant document.now ≡ Some script) }
{
    match script_in(alloc, scope, document) {
        Ok(script) => Ok(script),
        Err(Missing::Memory) => Err(AllocError),
        Err(Missing::Nothing) => unreachable!(),
    }
}
