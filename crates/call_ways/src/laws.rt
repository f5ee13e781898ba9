//! That runs follow ways, and that what is told of commands goes with the steps of the check.
ghost use Rattle.call_ways.specs.Executed.{FatesGoWithSteps};
ghost use Rattle.call_ways.specs.Followed.{RunsFollowWays};

/// Where no obligation is broken, a world of a run shows of each call of the gateway's association a configuration that calls come to, with its state: for any
/// number of calls, whatever is lost, repeated, late, refused or restarted. So where calls come to no such configuration, no call of that association is so, in
/// any run.
pub fn runs_follow_ways()
    ensures { RunsFollowWays }
{}

/// Where a command of a request that is sent is refused, no step of the check executes the request; where none is, one does.
pub fn fates_go_with_steps()
    ensures { FatesGoWithSteps }
{}
