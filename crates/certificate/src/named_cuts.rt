//! The cuts of an entry: each key is looked up once, and then what is written for a pair of terminations is at hand.
ghost use Rattle.std.specs.Prelude.{◌≡◌, option_map};
ghost use Rattle.certificate.specs.FoundRows.{at_pair, cut_row, is_cut_of};
ghost use Rattle.typed_values.specs.Shape.{Gives, each};

use crate::names::pair;
use crate::reads::Row;
use configuration::spots::is_same;
use mg_model::commands::Termination;
use script_table::Script;
use std::alloc::Global;
use std::marker::Model;
use typed_values::{Missing, Words};

/// What is written for a pair of terminations.
#[derive(Drop)]
pub(crate) struct NamedCut<'a> {
    source: Termination,
    sink: Termination,
    words: &'a Words,
}

impl<'a> Model for NamedCut<'a> {
    ghost use Rattle.certificate.specs.FoundRows.{PairCut};

    ghost Value = { PairCut };

    ghost view = { λ c. record { source = c.source; sink = c.sink; words = c.words.now } };
}

/// A row of the cuts; `None` where its key names no pair.
fn named_cut<'a>(script: &Script, row: &'a Row<Words>) -> Option<NamedCut<'a>>
    ensures { result ≡ cut_row script.now row.now }
{
    let (source, sink) = pair(script, row.name.as_str())?;
    Some(NamedCut {
        source,
        sink,
        words: &row.value,
    })
}

/// The rows of the cuts, in their order.
pub(crate) fn named_cuts<'a>(
    alloc: Global,
    script: &Script,
    rows: &'a [Row<Words>],
) -> Result<Vec<NamedCut<'a>>, Missing>
    ensures { Gives (λ v. v.items) result (each (cut_row script.now) rows.now) }
{
    let mut found = Vec::new(alloc);
    for row in rows {
        let Some(cut) = named_cut(script, row) else {
            return Err(Missing::Nothing);
        };
        found.push(cut)?;
    }
    Ok(found)
}

/// Whether a row of the cuts is of this pair.
fn is_cut_of(cut: &NamedCut<'_>, source: &Termination, sink: &Termination) -> bool
    ensures { result ≡ is_cut_of source.now sink.now cut.now }
{
    is_same(&cut.source, source) && is_same(&cut.sink, sink)
}

/// What is written for a pair of terminations: of several rows the first.
pub(crate) fn at_pair<'a>(
    cuts: &[NamedCut<'a>],
    source: &Termination,
    sink: &Termination,
) -> Option<&'a Words>
    ensures { option_map (λ w. w.now) result ≡ at_pair cuts.now source.now sink.now }
{
    for cut in cuts {
        if is_cut_of(cut, source, sink) {
            return Some(cut.words);
        }
    }
    None
}
