//! Runs, and certificates that break one obligation.
ghost use Rattle.std.specs.Prelude.{List, [], Some, None};
ghost use Rattle.mg_model.specs.declared.steps.StepName.TheVariants.{Observe};
ghost use Rattle.mg_model.specs.declared.transitions.Pair.{Pair};
ghost use Rattle.mg_names.specs.declared.kinds.Kind.TheVariants.{Of};
ghost use Rattle.mg_names.specs.declared.obligations.Obligation.TheVariants as Obligation;
ghost use Rattle.mg_examples.specs.BegunTalk.{BegunCallTalks};
ghost use Rattle.mg_examples.specs.CreatedTwice.{created_twice, created_twice_entries};
ghost use Rattle.mg_examples.specs.DigitsAreNotEnough.{DigitsAreNotEnough};
ghost use Rattle.mg_examples.specs.FaultsAreNeeded.{FaultsAreNeeded};
ghost use Rattle.mg_examples.specs.FewCommandsAreNeeded.{FewCommandsAreNeeded};
ghost use Rattle.mg_examples.specs.LastsToTheLimit.{LastsToTheLimit};
ghost use Rattle.mg_examples.specs.NameStays.{name_stays};
ghost use Rattle.mg_examples.specs.NamesKept.{name_kept, name_kept_entries};
ghost use Rattle.mg_examples.specs.Needed.{IsNeeded, fault_at, whole_fault};
ghost use Rattle.mg_examples.specs.ReportsCanDiffer.{ReportsCanDiffer};
ghost use Rattle.mg_examples.specs.Talk.{LeadsToATalk};
ghost use Rattle.mg_examples.specs.TalkEntries.{reachable, after_a_restart, at_rest, in_idle};
ghost use Rattle.mg_examples.specs.TwoLines.{calling, recovering};
ghost use Rattle.mg_examples.specs.TwoTalks.{TwoCallsTalk};
ghost use Rattle.mg_examples.specs.Unarmed.{unarmed, unarmed_entries};

/// There are runs, and there are paths in them: whatever pairs its state marks, the script that calls line b when line a goes off
/// hook has a run of four events whose last world joins the two lines.
pub fn a_run_joins_two_lines()
    ensures { (marks : List Pair) → LeadsToATalk marks }
{}

/// The promise is about something: a script and its entries meet all its premises, no obligation being broken, and in a run of this script
/// with two calls at once media flows. Its last world joins the two lines of the one call and the two lines of the other; so a good world
/// isn't a silent one.
pub fn two_calls_talk_at_once()
    ensures { TwoCallsTalk }
{}

/// The promise is about calls that begin later too: a script and its entries break no obligation, and in a run of it a call begins on the
/// lines of one that has ended, one of them off hook, and joins them.
pub fn a_begun_call_talks()
    ensures { BegunCallTalks }
{}

/// No obligation could be left out: for each there is a script with entries that break it alone, and a run of the script that leaves a
/// world that isn't good. The scripts and the entries are named, so that it can be said of each that it is read, and the first fault is told.
pub fn each_obligation_is_needed()
    ensures opening { IsNeeded (calling []) after_a_restart (whole_fault Obligation.OpeningCovered) }
    ensures steps { IsNeeded (calling []) in_idle (fault_at Obligation.StepsCovered 1 0 (Some (Observe 0 Of))) }
    ensures marks { IsNeeded (calling []) reachable (fault_at Obligation.JoinedMarked 4 0 None) }
    ensures cleared { IsNeeded unarmed unarmed_entries (fault_at Obligation.EndedCleared 1 1 None) }
    ensures unbound { IsNeeded created_twice created_twice_entries (fault_at Obligation.CreatedUnbound 3 0 None) }
    ensures reset { IsNeeded recovering at_rest (whole_fault Obligation.ResetCovered) }
    ensures live { IsNeeded name_kept name_kept_entries (fault_at Obligation.NamesLive 5 0 None) }
{}

/// A call of a script that is accepted, by the reader too (`loaded_examples`), can have two reports: by the same steps it comes to one state where its gateway
/// gives a number again, and to another state where it gives another number. So the law that a plan has one report needs its premise that no obligation is
/// broken.
pub fn reports_can_differ()
    ensures { ReportsCanDiffer name_stays }
{}

/// Runs in which identifiers are left before each event are as long as a plan may be: there is one with 10,000,000 executes, and one request.
pub fn a_run_lasts_to_the_limit()
    ensures { LastsToTheLimit }
{}

/// That a call which waits can be led on (`mg_safety::runs::calls_can_go_on`) needs its premise that each state with commands says where a failure leads: of
/// the example's script without the `fault` of `talk`, which breaks no obligation, a call whose first request is refused can't go on.
pub fn faults_are_needed()
    ensures { FaultsAreNeeded }
{}

/// That a call at rest can be moved (`mg_safety::runs::calls_can_be_moved`) needs its premise of what leads the call on, and digits alone aren't that: of a
/// script that breaks no obligation, a call whose user dialled too little stays where it is, whatever events of it follow.
pub fn digits_are_not_enough()
    ensures { DigitsAreNotEnough }
{}

/// That each call can be brought to its end (`mg_safety::runs::calls_can_be_ended`) needs its premise that no state has more than 16 commands: without it the
/// law is false. Of a script that breaks no obligation, a call waits for ever for the reply to a request of 37 commands: numbers for 36 notes are left, which
/// are enough for two moves as the law counts them, and too few for the gateway to execute the request.
pub fn few_commands_are_needed()
    ensures { FewCommandsAreNeeded }
{}
