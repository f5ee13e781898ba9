//! The components of a configuration, in the order in which points are numbered.
ghost use Rattle.std.specs.Prelude.{◌≡◌, ◌∷◌, [], ◌++◌, map, filter, not, IfOk, OnOk, length};
ghost use Rattle.std.specs.List.{flat_map};
ghost use Rattle.certificate.specs.Components.{cut_keys, ephemeral_keys, ephemeral_terminations, keys_of, line_keys, line_terminations, terminations_of};

use configuration::spots::is_same;
use mg_model::commands::Termination;
use mg_names::slots::Slot;
use script_table::Script;
use std::alloc::{AllocError, Global};

/// Which component of a configuration a set of values is for.
#[derive(Clone, Copy)]
pub enum Key {
    /// How far the state's request has come.
    Link,
    /// Where a termination stands.
    Spot(Termination),
    /// The mode of a termination.
    Mode(Termination),
    /// The events list of a line.
    Events(Slot),
    /// Whether a line may play a signal.
    Plays(Slot),
    /// What a context name stands for.
    Context(Slot),
    /// The Remote of an ephemeral.
    Remote(Slot),
    /// Whether media from one termination to another is cut.
    Cut(Termination, Termination),
}

fn add_lines(keys: &mut Vec<Key>, lines: &[Slot]) -> Result<(), AllocError>
    ensures { OnOk result (keys.new.items ≡ keys.old.items ++ flat_map line_keys lines.now) }
{
    for line in lines {
        keys.push(Key::Spot(Termination::Line(*line)))?;
        keys.push(Key::Mode(Termination::Line(*line)))?;
        keys.push(Key::Events(*line))?;
        keys.push(Key::Plays(*line))?;
    }
    Ok(())
}

/// Adds the contexts, and then the ephemerals.
fn add_names(keys: &mut Vec<Key>, contexts: &[Slot], ephemerals: &[Slot]) -> Result<(), AllocError>
    ensures { OnOk result (keys.new.items ≡ keys.old.items ++ map (λ j. Key.Context j) contexts.now
        ++ flat_map ephemeral_keys ephemerals.now) }
{
    for context in contexts {
        keys.push(Key::Context(*context))?;
    }
    for ephemeral in ephemerals {
        keys.push(Key::Spot(Termination::Ephemeral(*ephemeral)))?;
        keys.push(Key::Mode(Termination::Ephemeral(*ephemeral)))?;
        keys.push(Key::Remote(*ephemeral))?;
    }
    Ok(())
}

/// The key of a pair.
fn cut_key(source: &Termination, sink: &Termination) -> Key
    ensures { result ≡ Key.Cut source.now sink.now }
{
    Key::Cut(*source, *sink)
}

/// Adds the pairs of one termination with each other one.
fn add_cuts_of(
    keys: &mut Vec<Key>,
    source: &Termination,
    all: &[Termination],
) -> Result<(), AllocError>
    ensures { OnOk result (keys.new.items ≡ keys.old.items ++ cut_keys all.now source.now) }
{
    for sink in all {
        if !is_same(source, sink) {
            keys.push(cut_key(source, sink))?;
        }
    }
    Ok(())
}

/// Adds the pairs of each of some terminations.
fn add_cuts(keys: &mut Vec<Key>, all: &[Termination]) -> Result<(), AllocError>
    ensures { OnOk result (keys.new.items ≡ keys.old.items ++ flat_map (cut_keys all.now) all.now) }
{
    for source in all {
        add_cuts_of(keys, source, all)?;
    }
    Ok(())
}

fn lines_as_terminations(
    terminations: &mut Vec<Termination>,
    lines: &[Slot],
) -> Result<(), AllocError>
    ensures { OnOk result (terminations.new.items ≡ terminations.old.items ++ line_terminations lines.now) }
{
    for line in lines {
        terminations.push(Termination::Line(*line))?;
    }
    Ok(())
}

fn ephemerals_as_terminations(
    terminations: &mut Vec<Termination>,
    ephemerals: &[Slot],
) -> Result<(), AllocError>
    ensures { OnOk result (terminations.new.items ≡ terminations.old.items ++ ephemeral_terminations ephemerals.now) }
{
    for ephemeral in ephemerals {
        terminations.push(Termination::Ephemeral(*ephemeral))?;
    }
    Ok(())
}

/// The terminations of a script, lines before ephemerals.
fn terminations(alloc: Global, script: &Script) -> Result<Vec<Termination>, AllocError>
    ensures { IfOk result (λ all. all.items ≡ terminations_of script.now) }
{
    let slots = Slot::all();
    let mut all = Vec::new(alloc);
    lines_as_terminations(&mut all, &slots[..script.lines()])?;
    ephemerals_as_terminations(&mut all, &slots[..script.ephemerals()])?;
    Ok(all)
}

/// The components of a script's configurations, in their order.
pub fn keys(alloc: Global, script: &Script) -> Result<Vec<Key>, AllocError>
    ensures { IfOk result (λ keys. keys.items ≡ keys_of script.now) }
{
    let slots = Slot::all();
    let all = terminations(alloc, script)?;
    let mut keys = Vec::new(alloc);
    keys.push(Key::Link)?;
    add_lines(&mut keys, &slots[..script.lines()])?;
    let contexts = &slots[..script.contexts()];
    add_names(&mut keys, contexts, &slots[..script.ephemerals()])?;
    add_cuts(&mut keys, all.as_slice())?;
    Ok(keys)
}
