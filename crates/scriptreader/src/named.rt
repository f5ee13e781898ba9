//! What has a name in a document, and names that come twice.
ghost use Rattle.std.specs.Prelude.{◌≡◌, ◌++◌, IfOk, map, List, [], false, ℕ};
ghost use Rattle.std.specs.List.{list_all};
ghost use Rattle.typed_values.specs.Names.{is_declarable, repeats_after};

use crate::names::Names;
use crate::syntax::{
    WrittenEvents, WrittenItem, WrittenMap, WrittenSignal, WrittenSignals, WrittenState,
};
use mg_names::events::EventName;
use std::alloc::{AllocError, Global};
use typed_values::{Word, is_name, is_reserved};

/// A thing of a document that is told from others of its kind by a name.
pub trait Named {
    ghost called: { Self → List ℕ };

    /// The name.
    fn name(&self) -> &str
        ensures { result.now ≡ called self.now };
}

impl Named for Word {
    ghost called = { λ w. w };

    fn name(&self) -> &str {
        self.as_str()
    }
}

impl Named for WrittenEvents {
    ghost called = { λ e. e.name };

    fn name(&self) -> &str {
        self.name.as_str()
    }
}

impl Named for WrittenSignals {
    ghost called = { λ s. s.name };

    fn name(&self) -> &str {
        self.name.as_str()
    }
}

impl Named for WrittenMap {
    ghost called = { λ m. m.name };

    fn name(&self) -> &str {
        self.name.as_str()
    }
}

impl Named for WrittenState {
    ghost called = { λ s. s.name };

    fn name(&self) -> &str {
        self.name.as_str()
    }
}

impl Named for WrittenItem {
    ghost use Rattle.scriptreader.specs.DeclaredNames.{event_text};

    ghost called = { event_text };

    fn name(&self) -> &str {
        match self {
            WrittenItem::OnHook(_) => EventName::OnHook.text(),
            WrittenItem::OffHook(_) => EventName::OffHook.text(),
            WrittenItem::Flash => EventName::Flash.text(),
            WrittenItem::Digits(_) => EventName::DigitMapCompletion.text(),
        }
    }
}

impl Named for WrittenSignal {
    ghost use Rattle.mg_names.specs.Words.{signal_text};

    ghost called = { signal_text };

    fn name(&self) -> &str {
        self.signal.text()
    }
}

/// Whether a name may be declared.
fn is_declarable(name: &str) -> bool
    ensures { result ≡ is_declarable name.now }
{
    is_name(name) && !is_reserved(name)
}

/// Whether each of these has a name that may be declared.
pub fn are_declarable<T: Named>(items: &[T]) -> bool
    ensures { result ≡ list_all (λ item. is_declarable (T.called item)) items.now }
{
    items.iter().all(|item| is_declarable(item.name()))
}

/// Adds the names of these, up to the first that is there already, and says whether there is one.
pub fn add_all<'a, T: Named>(names: &mut Names<'a>, items: &'a [T]) -> Result<bool, AllocError>
    ensures repeats { IfOk result (λ r. r ≡ repeats_after names.old (map T.called items.now)) }
    ensures names { IfOk result (λ r. r ≡ false → names.new ≡ names.old ++ map T.called items.now) }
{
    for item in items {
        if !names.add(item.name())? {
            return Ok(true);
        }
    }
    Ok(false)
}

/// Whether a name comes twice among these.
pub fn repeats<T: Named>(alloc: Global, items: &[T]) -> Result<bool, AllocError>
    ensures { IfOk result (λ r. r ≡ repeats_after [] (map T.called items.now)) }
{
    let mut names = Names::new(alloc);
    add_all(&mut names, items)
}
