//! What it is worth that a call can be brought to its end, and that what plays on its lines was given to them.
ghost use Rattle.call_ends.specs.CallsCanEnd.{CallsCanEnd, EndsAreWithin};
ghost use Rattle.call_ends.specs.NoCallIsStuck.{NoCallIsStuck};
ghost use Rattle.call_ends.specs.RunsTell.{RunsTell};

/// Where no obligation is broken, a call can be brought to its end from a configuration that calls come to exactly where it can be through such configurations,
/// by steps of the check.
pub fn ends_are_within()
    ensures { EndsAreWithin }
{}

/// Where no obligation is broken, a world of a run shows of each call of the gateway's association a configuration that calls come to, and whatever brings a call
/// from there to its end brings this one there in that world, by events of its own, as long as numbers are left: for any number of calls, whatever was lost,
/// repeated, refused or restarted before.
pub fn calls_can_end()
    ensures { CallsCanEnd }
{}

/// Where no obligation is broken, and calls can be brought to their ends from wherever they come by so many moves, as `find_stuck` tells, no call of any run is
/// stuck: events of its own bring each one that is open to its end, three at most for each of these moves and for one more, by which a call of an older
/// association hears of the restart, as long as numbers are left.
pub fn no_call_is_stuck()
    ensures { NoCallIsStuck }
{}

/// Where no obligation is broken, what plays on a line of a call of the gateway's association, in any world of a run, was given to that line on a way by which
/// calls come to a configuration of the call's state, with its request as far: whatever people do, whether the line's receiver was lifted or down as the call
/// opened, and whatever was lost, repeated, late or restarted before.
pub fn runs_tell()
    ensures { RunsTell }
{}
