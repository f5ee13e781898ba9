//! The promise over runs. `mg_examples` has runs and certificates that show that it isn't hollow.
ghost use Rattle.mg_safety.specs.Beginnings.{EndedCallsMayBegin, LostCallsMayNotBegin};
ghost use Rattle.mg_safety.specs.Ending.{CallsCanBeEnded};
ghost use Rattle.mg_safety.specs.GoingOn.{CallsCanGoOn};
ghost use Rattle.mg_safety.specs.Headline.{EveryRunIsGood, EveryRunOfOneCallIsGood};
ghost use Rattle.mg_safety.specs.MovingOn.{CallsCanBeMoved};
ghost use Rattle.mg_safety.specs.Others.{OthersAreKept, OthersAreLeftAlone};

/// Where no obligation of a script and its certificate is broken, every world of every run of any number of calls, on lines distinct at each moment, is
/// good, whatever is lost, repeated, late, refused or restarted: an audio path joins two lines only inside one call whose current
/// state marks that pair as talking, and a call that has ended owns no ephemeral and has each line silent in the null context, armed for off-hook.
pub fn every_run_is_good()
    ensures { EveryRunIsGood }
{}

/// The same of a call that is alone on the gateway, with all that begin on its lines.
pub fn every_run_of_one_call_is_good()
    ensures { EveryRunOfOneCallIsGood }
{}

/// Where no obligation is broken, another call may begin on the lines of one that has ended, if nothing is set on them in the null context: that
/// they are silent and armed, and that no ephemeral of the call exists, is promised.
pub fn ended_calls_may_begin()
    ensures { EndedCallsMayBegin }
{}

/// On the lines of a call of an older association none may begin, where the script has a line: they report nothing.
pub fn lost_calls_may_not_begin()
    ensures { LostCallsMayNotBegin }
{}

/// Where no obligation is broken, an event of one call leaves what another call owns as it was, in every run: the row of each of its lines and of each
/// ephemeral that it created, and each cut between two of them.
pub fn others_are_left_alone()
    ensures { OthersAreLeftAlone }
{}

/// In every run an event of one call leaves the agent and the link of every other call as they were, and no message of it is new; but of the one that it
/// retires.
pub fn others_are_kept()
    ensures { OthersAreKept }
{}

/// Where no obligation is broken, and each state that has commands says where a failure leads, a call of the gateway's association that waits can be led on
/// in every world of every run, as long as numbers are left: the gateway executes its request, choosing no refusal, and a reply to it comes, or it passes.
pub fn calls_can_go_on()
    ensures { CallsCanGoOn }
{}

/// Where no obligation is broken, a call of the gateway's association that rests in a state that isn't an end can be moved in every world of every run, where its
/// state has a timer, or a line's list names a receiver that is lifted or put down and the state says where the note of it leads: at most three events of
/// this call lead it into the state that is named there, as long as numbers are left.
pub fn calls_can_be_moved()
    ensures { CallsCanBeMoved }
{}

/// Where no obligation is broken, and no state has more than 16 commands, a world of a run shows of each call of the gateway's association a configuration that
/// some entry has, and whatever moves bring a call from there to its end bring this one there in that world, as long as numbers are left: at most three events of
/// its own for each.
pub fn calls_can_be_ended()
    ensures { CallsCanBeEnded }
{}
