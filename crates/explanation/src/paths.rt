//! The path that media takes from one line to another.
ghost use Rattle.std.specs.Prelude.{◌≡◌, ◌+◌, ◌∷◌, IfOk, IfSome, IfNone};
ghost use Rattle.mg_model.specs.declared.commands.Termination.TheVariants.{Line};
ghost use Rattle.configuration.specs.Config.{configuration_of};
ghost use Rattle.explanation.specs.Paths.{GoesNowhere, GoesNowhereOver, GoesWithin, HasNoCrossing, IsCrossingOver, IsShortest, shown};

use crate::media::{crossed_from, hops};
use configuration::config::Config;
use mg_model::commands::Termination;
use mg_names::slots::Slot;
use std::alloc::{AllocError, Global};

/// A crossing of media from one ephemeral to another; each is the other's Remote. This profile's own.
#[derive(Clone, Copy)]
pub struct Crossing {
    /// The ephemeral that media leaves its context at.
    pub from: Slot,
    /// The ephemeral that it enters the other context at.
    pub to: Slot,
}

/// How many lengths of paths are tried, from no crossing to one for each ephemeral at which media can arrive.
const LENGTHS: usize = 5;

/// The crossing that media takes from a termination over an ephemeral of its context, if it does.
fn crossing_over(config: &Config, from: &Termination, ephemeral: Slot) -> Option<Crossing>
    ensures some { IfSome result (λ crossing. IsCrossingOver (configuration_of config.now) from.now ephemeral crossing) }
    ensures none { IfNone result (HasNoCrossing (configuration_of config.now) from.now ephemeral) }
{
    if !hops(config, *from, Termination::Ephemeral(ephemeral)) {
        return None;
    }
    let to = crossed_from(config, ephemeral)?;
    Some(Crossing {
        from: ephemeral,
        to,
    })
}

/// A crossing, and those of a path behind it.
fn behind(crossing: Crossing, mut path: Vec<Crossing>) -> Result<Vec<Crossing>, AllocError>
    ensures { IfOk result (λ whole. shown whole.items ≡ (crossing.from, crossing.to) ∷ shown path.items) }
{
    path.insert(0, crossing)?;
    Ok(path)
}

/// The crossings of a path from a termination to a line that begins with one over an ephemeral, with so many behind it at most. Where there are
/// none, there is no such path.
#[cycle(search)]
fn path_over(
    alloc: Global,
    config: &Config,
    from: &Termination,
    ephemeral: Slot,
    to: Slot,
    left: usize,
) -> Result<Option<Vec<Crossing>>, AllocError>
    ensures some { IfOk result (λ found. IfSome found (λ path.
        GoesWithin (configuration_of config.now) from.now (shown path.items) to (left + 1))) }
    ensures none { IfOk result (λ found. IfNone found (GoesNowhereOver (configuration_of config.now) from.now ephemeral to left)) }
{
    let Some(crossing) = crossing_over(config, from, ephemeral) else {
        return Ok(None);
    };
    let next = Termination::Ephemeral(crossing.to);
    let Some(path) = path_within(alloc, config, &next, to, left)? else {
        return Ok(None);
    };
    let whole = behind(crossing, path)?;
    Ok(Some(whole))
}

/// The crossings of a path from a termination to a line, so many at most. Where there are none, there is no such path.
#[cycle(search)]
fn path_within(
    alloc: Global,
    config: &Config,
    from: &Termination,
    to: Slot,
    left: usize,
) -> Result<Option<Vec<Crossing>>, AllocError>
    ensures some { IfOk result (λ found. IfSome found (λ path. GoesWithin (configuration_of config.now) from.now (shown path.items) to left)) }
    ensures none { IfOk result (λ found. IfNone found (GoesNowhere (configuration_of config.now) from.now to left)) }
{
    if hops(config, *from, Termination::Line(to)) {
        return Ok(Some(Vec::new(alloc)));
    }
    if left == 0 {
        return Ok(None);
    }
    let slots = Slot::all();
    for ephemeral in &slots {
        if let Some(path) = path_over(alloc, config, from, *ephemeral, to, left - 1)? {
            return Ok(Some(path));
        }
    }
    Ok(None)
}

/// The crossings of a path from a termination to a line over the fewest of them.
fn shortest_path(
    alloc: Global,
    config: &Config,
    from: &Termination,
    to: Slot,
) -> Result<Option<Vec<Crossing>>, AllocError>
    ensures some { IfOk result (λ found. IfSome found (λ path. IsShortest (configuration_of config.now) from.now (shown path.items) to)) }
    ensures none { IfOk result (λ found. IfNone found (GoesNowhere (configuration_of config.now) from.now to 4)) }
{
    for left in 0..LENGTHS {
        if let Some(path) = path_within(alloc, config, from, to, left)? {
            return Ok(Some(path));
        }
    }
    Ok(None)
}

/// The crossings of a path that media takes from one line to another, with a hop within a context before, between and after them; it has none
/// where the lines hear each other within one context. No path goes over fewer. `None` where no path goes over four crossings or fewer. The only
/// error is running out of memory.
pub fn find_path(
    alloc: Global,
    config: &Config,
    from: Slot,
    to: Slot,
) -> Result<Option<Vec<Crossing>>, AllocError>
    ensures some { IfOk result (λ found. IfSome found (λ path. IsShortest (configuration_of config.now) (Line from) (shown path.items) to)) }
    ensures none { IfOk result (λ found. IfNone found (GoesNowhere (configuration_of config.now) (Line from) to 4)) }
{
    shortest_path(alloc, config, &Termination::Line(from), to)
}
