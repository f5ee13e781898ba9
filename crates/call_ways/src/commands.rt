//! Commands that calls never send or never get done, and requests that are always empty.
ghost use Rattle.std.specs.Prelude.{◌≡◌, ◌↔◌, [], IsTrue, List};
ghost use Rattle.mg_model.specs.Script.{Script as Table};
ghost use Rattle.mg_model.specs.Tables.{state_of};
ghost use Rattle.mg_model.specs.Entries.{Entry as Listed};
ghost use Rattle.call_ways.specs.Fates.{AreCrossings};
ghost use Rattle.call_ways.specs.Meeting.{IsFirstAlone, IsMetAmong, Meets};
ghost use Rattle.call_ways.specs.Warnings.{IsWarning};
ghost use Rattle.call_ways.specs.declared.warning.Warning.TheVariants as Warning;

use crate::crossings::Crossing;
use crate::fates::Fate;
use script_table::Script;

/// Whether an arrow leads to a state, and on it this becomes of the state's command at a place.
fn meets(crossing: &Crossing, state: u8, place: usize, it: Fate) -> bool
    ensures { IsTrue result ↔ Meets crossing.now state place it }
{
    if crossing.arrow.to != state {
        return false;
    }
    crossing.fates_of(place).has(it)
}

/// Whether on one of some arrows that lead to a state this becomes of its command at a place.
fn is_met(crossings: &[Crossing], state: u8, place: usize, it: Fate) -> bool
    ensures { IsTrue result ↔ IsMetAmong crossings.now state place it }
{
    for crossing in crossings {
        if meets(crossing, state, place, it) {
            return true;
        }
    }
    false
}

/// Whether the first is so, and no other one.
fn is_first_alone(first: bool, second: bool, third: bool, fourth: bool) -> bool
    ensures { IsTrue result ↔ IsFirstAlone first second third fourth }
{
    if !first {
        return false;
    }
    if second {
        return false;
    }
    if third {
        return false;
    }
    !fourth
}

/// Whether calls enter a state, and each of its requests goes without the command at a place.
pub(crate) fn is_unsent(crossings: &[Crossing], state: u8, place: usize) -> bool
    ensures { (script : Table) (entries : List Listed) → AreCrossings script entries crossings.now
        → IsTrue result ↔ IsWarning script entries (Warning.CommandUnsent state place) }
{
    let left_out = is_met(crossings, state, place, Fate::LeftOut);
    let not_reached = is_met(crossings, state, place, Fate::NotReached);
    let refused = is_met(crossings, state, place, Fate::Refused);
    let done = is_met(crossings, state, place, Fate::Done);
    is_first_alone(left_out, not_reached, refused, done)
}

/// Whether on the arrow at a place a command is refused, and never done.
pub(crate) fn is_refused(crossings: &[Crossing], arrow: usize, place: usize) -> bool
    ensures { (script : Table) (entries : List Listed) → AreCrossings script entries crossings.now
        → IsTrue result ↔ IsWarning script entries (Warning.CommandRefused arrow place) }
{
    let Some(crossing) = crossings.get(arrow) else {
        return false;
    };
    let fates = crossing.fates_of(place);
    let refused = fates.has(Fate::Refused);
    let done = fates.has(Fate::Done);
    is_first_alone(refused, done, false, false)
}

/// Whether a state has no commands.
fn is_bare(script: &Script, state: u8) -> bool
    ensures { IsTrue result ↔ ((state_of script.now state).commands ≡ []) }
{
    script.commands_of(state).is_empty()
}

/// Whether the arrow at a place leads to a state that has commands, and each request that is sent on it is empty.
pub(crate) fn is_request_empty(script: &Script, crossings: &[Crossing], arrow: usize) -> bool
    ensures { (entries : List Listed) → AreCrossings script.now entries crossings.now
        → IsTrue result ↔ IsWarning script.now entries (Warning.RequestEmpty arrow) }
{
    let Some(crossing) = crossings.get(arrow) else {
        return false;
    };
    if is_bare(script, crossing.arrow.to) {
        return false;
    }
    is_first_alone(crossing.empty, crossing.sending, false, false)
}
