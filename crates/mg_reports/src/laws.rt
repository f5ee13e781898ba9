//! Small laws of plans and their reports.
ghost use Rattle.mg_reports.specs.Laws.{OnePlacingWithoutRestarts, RepliesDetermineRuns, StepsMeanOneEvent};
ghost use Rattle.mg_reports.specs.Sums.{LinesAddUp, ReportsAddUp};

/// Where no other call of the plan has a `restart` step, the steps of a call are placed in one way: as they are. This profile's own.
pub fn one_placing_without_restarts()
    ensures { OnePlacingWithoutRestarts }
{}

/// A step of a plan means one event at most.
pub fn steps_mean_one_event()
    ensures { StepsMeanOneEvent }
{}

/// Two runs of a call alone by the same steps, from one opening and with the same replies, end alike: so a report leaves open where the restarts of
/// other calls stand, and which identifiers the gateway gives, and nothing else.
pub fn replies_determine_runs()
    ensures { RepliesDetermineRuns }
{}

/// The lines of a call that is run alone, and of those that begin within it, have as many events and idle steps together as it has steps other than restarts.
pub fn lines_add_up()
    ensures { LinesAddUp }
{}

/// So they do in the report of a plan, call by call, over all epochs.
pub fn reports_add_up()
    ensures { ReportsAddUp }
{}
