//! The rows of an entry by what their names stand for in a script. Each name is looked up once, whatever is asked of the entry then.
ghost use Rattle.std.specs.Prelude.{◌≡◌, ◌<◌, option_map};
ghost use Rattle.certificate.specs.FoundRows.{FindsPairs, FindsSlots, at_pair, at_slot};
ghost use Rattle.certificate.specs.NamedRows.{NamesRows};

use crate::by_slot::{BySlot, by_slot};
use crate::named_cuts::{NamedCut, at_pair, named_cuts};
use crate::vocabulary::{ContextNames, EphemeralNames, LineNames};
use crate::written::{WrittenEntry, WrittenEphemeral, WrittenLine};
use mg_model::commands::Termination;
use mg_names::slots::Slot;
use script_table::Script;
use std::alloc::Global;
use typed_values::{Missing, Words};

/// The rows of an entry, each at what its name stands for.
#[derive(Drop)]
pub struct NamedRows<'a> {
    lines: BySlot<'a, WrittenLine>,
    contexts: BySlot<'a, Words>,
    ephemerals: BySlot<'a, WrittenEphemeral>,
    cuts: Vec<NamedCut<'a>>,
}

/// The rows of the lines; `None` where a name stands for no line.
fn named_lines<'a>(script: &Script, entry: &'a WrittenEntry) -> Option<BySlot<'a, WrittenLine>>
    ensures { FindsSlots script.now.lines entry.now.lines result }
{
    by_slot(&LineNames(script), entry.lines.as_slice())
}

/// The rows of the contexts; `None` where a name stands for no context.
fn named_contexts<'a>(script: &Script, entry: &'a WrittenEntry) -> Option<BySlot<'a, Words>>
    ensures { FindsSlots script.now.contexts entry.now.contexts result }
{
    by_slot(&ContextNames(script), entry.contexts.as_slice())
}

/// The rows of the ephemerals; `None` where a name stands for no ephemeral.
fn named_ephemerals<'a>(
    script: &Script,
    entry: &'a WrittenEntry,
) -> Option<BySlot<'a, WrittenEphemeral>>
    ensures { FindsSlots script.now.ephemerals entry.now.ephemerals result }
{
    by_slot(&EphemeralNames(script), entry.ephemerals.as_slice())
}

/// The rows of the cuts.
fn named_pairs<'a>(
    alloc: Global,
    script: &Script,
    entry: &'a WrittenEntry,
) -> Result<Vec<NamedCut<'a>>, Missing>
    ensures { FindsPairs (λ v. v.items) script.now entry.now.cuts result }
{
    named_cuts(alloc, script, entry.cuts.as_slice())
}

/// The rows of an entry by what their names stand for. `Missing::Nothing` where a name stands for nothing in its place, `Missing::Memory`
/// where memory runs out.
pub fn named_rows<'a>(
    alloc: Global,
    script: &Script,
    entry: &'a WrittenEntry,
) -> Result<NamedRows<'a>, Missing>
    ensures { NamesRows script.now entry.now result }
{
    let Some(lines) = named_lines(script, entry) else {
        return Err(Missing::Nothing);
    };
    let Some(contexts) = named_contexts(script, entry) else {
        return Err(Missing::Nothing);
    };
    let Some(ephemerals) = named_ephemerals(script, entry) else {
        return Err(Missing::Nothing);
    };
    match named_pairs(alloc, script, entry) {
        Ok(cuts) => Ok(NamedRows {
            lines,
            contexts,
            ephemerals,
            cuts,
        }),
        Err(missing) => Err(missing),
    }
}

impl<'a> NamedRows<'a> {
    /// What is written for a line.
    pub(crate) fn line(&self, line: Slot) -> Option<&'a WrittenLine>
        ensures value { option_map (λ l. l.now) result ≡ at_slot self.now.lines line }
        ensures in_range { line < 4 }
    {
        self.lines.at(line)
    }

    /// What is written for a context.
    pub(crate) fn context(&self, context: Slot) -> Option<&'a Words>
        ensures value { option_map (λ w. w.now) result ≡ at_slot self.now.contexts context }
        ensures in_range { context < 4 }
    {
        self.contexts.at(context)
    }

    /// What is written for an ephemeral.
    pub(crate) fn ephemeral(&self, ephemeral: Slot) -> Option<&'a WrittenEphemeral>
        ensures value { option_map (λ e. e.now) result ≡ at_slot self.now.ephemerals ephemeral }
        ensures in_range { ephemeral < 4 }
    {
        self.ephemerals.at(ephemeral)
    }

    /// What is written for a pair of terminations.
    pub fn cut(&self, source: &Termination, sink: &Termination) -> Option<&'a Words>
        ensures { option_map (λ w. w.now) result ≡ at_pair self.now.cuts.items source.now sink.now }
    {
        at_pair(self.cuts.as_slice(), source, sink)
    }
}
