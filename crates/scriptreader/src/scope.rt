//! The names that a document declares.
ghost use Rattle.std.specs.Prelude.{◌≡◌, [], false, map, IfOk, OnOk};
ghost use Rattle.typed_values.specs.Names.{repeats_after};

use crate::named::{Named, add_all};
use crate::names::Names;
use crate::syntax::Document;
use std::alloc::{AllocError, Global};
use std::marker::Model;

/// The names that a document declares, of each kind in their order.
#[derive(Drop)]
pub struct Scope<'a> {
    /// Those of lines.
    pub lines: Names<'a>,
    /// Those of contexts.
    pub contexts: Names<'a>,
    /// Those of ephemerals.
    pub ephemerals: Names<'a>,
    /// Those of events lists.
    pub events: Names<'a>,
    /// Those of signals lists.
    pub signals: Names<'a>,
    /// Those of digit maps.
    pub maps: Names<'a>,
    /// Those of states.
    pub states: Names<'a>,
}

/// Fills a table with the names of these.
fn fill_with<'a, T: Named>(names: &mut Names<'a>, items: &'a [T]) -> Result<(), AllocError>
    requires { names.old ≡ [] }
    ensures { OnOk result (repeats_after [] (map T.called items.now) ≡ false → names.new ≡ map T.called items.now) }
{
    let _ = add_all(names, items)?;
    Ok(())
}

impl<'a> Model for Scope<'a> {
    ghost use Rattle.scriptreader.specs.DeclaredNames as declared;

    ghost Value = { declared.Scope };

    ghost view = { λ s. record { lines = s.lines; contexts = s.contexts; ephemerals = s.ephemerals; events = s.events; signals = s.signals; maps = s.maps; states = s.states } };
}

impl<'a> Scope<'a> {
    ghost use Rattle.scriptreader.specs.DeclaredNames.{no_names, IsScopeOf};

    /// No names.
    fn empty(alloc: Global) -> Scope<'a>
        ensures { result ≡ no_names }
    {
        Scope {
            lines: Names::new(alloc),
            contexts: Names::new(alloc),
            ephemerals: Names::new(alloc),
            events: Names::new(alloc),
            signals: Names::new(alloc),
            maps: Names::new(alloc),
            states: Names::new(alloc),
        }
    }

    /// Adds the names of a document.
    fn fill(&mut self, document: &'a Document) -> Result<(), AllocError>
        requires { self.old ≡ no_names }
        ensures { OnOk result (IsScopeOf document.now self.new) }
    {
        let lines = document.lines.as_slice();
        fill_with(&mut self.lines, lines)?;
        let contexts = document.contexts.as_slice();
        fill_with(&mut self.contexts, contexts)?;
        let ephemerals = document.ephemerals.as_slice();
        fill_with(&mut self.ephemerals, ephemerals)?;
        fill_with(&mut self.events, document.events.as_slice())?;
        fill_with(&mut self.signals, document.signals.as_slice())?;
        fill_with(&mut self.maps, document.maps.as_slice())?;
        fill_with(&mut self.states, document.states.as_slice())?;
        Ok(())
    }

    /// The names of a document. Of a kind with a name that comes twice those up to it alone are sure to be there.
    pub fn new(alloc: Global, document: &'a Document) -> Result<Scope<'a>, AllocError>
        ensures { IfOk result (λ scope. IsScopeOf document.now scope) }
    {
        let mut scope = Scope::empty(alloc);
        match scope.fill(document) {
            Ok(()) => Ok(scope),
            Err(error) => {
                drop(scope);
                Err(error)
            }
        }
    }
}
