//! The laws of a call that two worlds treat alike.
ghost use Rattle.mg_alike.specs.Alone.{CallsAloneNeverRunOut, CallsAreIsolated, CallsAreIsolatedThroughout, CallsOpenAlone, CallsWithHeirsAreIsolated, ClassesGiveEnough};
ghost use Rattle.mg_alike.specs.Laws.{AgentsStepAlike, BeginningsAlike, BeginningsHappenAlike, EventsAlike, EventsHappenAlike, ExecutesAlike, OpeningsTreatAlike, OthersLeaveAlike, RestartsAlike, TreatmentIsMutual};

/// Two agents that are the same but for a renaming of identifiers step alike: by the same reply, but for the renaming, by a pass, a note, the timer
/// and a newer association each takes a step exactly where the other does, to agents that are the same but for the renaming.
pub fn agents_step_alike()
    ensures { AgentsStepAlike }
{}

/// A request of a call that reaches both gateways leaves two worlds that treat the call alike alike again, whatever identifiers they choose: both execute
/// it, or both send its reply once more, or both drop it. In runs, of any calls, in which no obligation is broken and identifiers are left.
pub fn executes_alike()
    ensures { ExecutesAlike }
{}

/// So does each event of a call that is open: of its lines, its requests, replies and notes, its agent and its timer.
pub fn events_alike()
    ensures { EventsAlike }
{}

/// So does a restart of both gateways.
pub fn restarts_alike()
    ensures { RestartsAlike }
{}

/// An event of a call that is open can happen in the one world exactly where it can in the other: a request is executed there too, by other identifiers,
/// and refused at the same place with the same code.
pub fn events_happen_alike()
    ensures { EventsHappenAlike }
{}

/// Two openings treat a call alike that is of both, on the same lines.
pub fn openings_treat_alike()
    ensures { OpeningsTreatAlike }
{}

/// An event of another call leaves two worlds that treat this one alike as alike, but for one that begins on its lines.
pub fn others_leave_alike()
    ensures { OthersLeaveAlike }
{}

/// A call of a run of any calls goes as it would go alone: there is a run of it alone, with exactly its events and the restarts, that treats it at the
/// end as the world of all does. Where no obligation is broken and identifiers are left.
pub fn calls_are_isolated()
    ensures { CallsAreIsolated }
{}

/// A call that is alone, with those that begin on its lines, never runs out of identifiers where its gateway gives as many numbers as it has in use and a
/// request may take.
pub fn calls_alone_never_run_out()
    ensures { CallsAloneNeverRunOut }
{}

/// It does where it gives each number of one class, of at most as many as shards may share.
pub fn classes_give_enough()
    ensures { ClassesGiveEnough }
{}

/// Where one world treats a call as another does, the other treats it as the one does.
pub fn treatment_is_mutual()
    ensures { TreatmentIsMutual }
{}

/// Where two worlds treat alike a call that has ended, they treat alike the one that begins on its lines in both.
pub fn beginnings_alike()
    ensures { BeginningsAlike }
{}

/// It can begin in the one world where it can in the other, if its number is not used there.
pub fn beginnings_happen_alike()
    ensures { BeginningsHappenAlike }
{}

/// For each call of an opening there is an opening of it alone, on a gateway that gives the same numbers.
pub fn calls_open_alone()
    ensures { CallsOpenAlone }
{}

/// A call of a run of any calls, with all that begin on its lines, goes as it would go alone: there is a run of it alone, with exactly their events and the
/// restarts, that treats the last of them at the end as the world of all does. Where no obligation is broken, identifiers are left, and the gateway of the
/// call alone gives enough.
pub fn calls_with_heirs_are_isolated()
    ensures { CallsWithHeirsAreIsolated }
{}

/// So it goes throughout: beside each run there is one run of the call alone, with those that begin on its lines, and at each moment both treat it alike.
pub fn calls_are_isolated_throughout()
    ensures { CallsAreIsolatedThroughout }
{}
