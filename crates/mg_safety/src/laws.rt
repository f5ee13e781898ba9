//! Small laws of worlds, openings and events.
ghost use Rattle.mg_safety.specs.MessageNumbers.{MessagesAreNamedByNumber};
ghost use Rattle.mg_safety.specs.Laws.{OldRequestsDoNothing, RestartsClearLines, EventsKeepOthers, OpeningsAreGood, LinesStayDistinct, CallsStayApart, LostCallsAreNotJoined, CommandsKeepOthers, PathsStayInside, SidesAgree};

/// A request whose number is not above the last one executed of its call changes nothing, but that the kept reply may be
/// sent once more (H.248.1 Annex D.1.1: a transaction is executed at most once).
pub fn old_requests_do_nothing()
    ensures { OldRequestsDoNothing }
{}

/// After a restart every line stands in the null context, Inactive and silent, with an empty Events descriptor, and its
/// hook state is what it was. This profile's own.
pub fn restarts_clear_lines()
    ensures { RestartsClearLines }
{}

/// An event of one call, a restart apart, leaves the agent, the link and the messages of every other call as they were; a call that begins on the
/// lines of one that has ended leaves those of every call but that one.
pub fn events_keep_others()
    ensures { EventsKeepOthers }
{}

/// In every world of every run a message is named by its call and its number: two requests, replies or notes of one call with one number are one.
pub fn messages_are_named_by_number()
    ensures { MessagesAreNamedByNumber }
{}

/// An opening is a good world.
pub fn openings_are_good()
    ensures { OpeningsAreGood }
{}

/// Calls are on lines distinct at each moment: in every world of every run no line is a line of two calls that are open.
pub fn lines_stay_distinct()
    ensures { LinesStayDistinct }
{}

/// In a good world, in which no line is a line of two calls, no line of one call is joined with a line of another.
pub fn calls_stay_apart()
    ensures { CallsStayApart }
{}

/// In a good world, in which no line is a line of two calls, nothing of a lost call is joined: no line of a call whose association is past is joined with
/// any line.
pub fn lost_calls_are_not_joined()
    ensures { LostCallsAreNotJoined }
{}

/// A command leaves the row of every termination, and every cut between two, that it neither names nor creates nor takes out
/// of a context.
pub fn commands_keep_others()
    ensures { CommandsKeepOthers }
{}

/// A path stays among terminations that are closed under standing in one context and under naming each other as Remote.
pub fn paths_stay_inside()
    ensures { PathsStayInside }
{}

/// The gateway's side of the definitions and the checker's, which share no rule, agree on the modes and on the Topology descriptor.
pub fn sides_agree()
    ensures { SidesAgree }
{}
