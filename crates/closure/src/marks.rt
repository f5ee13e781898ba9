//! Whether a state marks each two lines, so that it doesn't matter which of them are joined.
ghost use Rattle.std.specs.Prelude.{◌≡◌, ◌≤◌, ◌∷◌, [], IsTrue, length};
ghost use Rattle.std.specs.List.{list_all};
ghost use Rattle.closure.specs.Tests.{marks_pair, marks_with};
ghost use Rattle.closure.specs.Walk.{AllMayTalk};

use crate::obligations::is_marked;
use entry_table::Entry;
use mg_model::transitions::Pair;
use mg_names::slots::Slot;
use script_table::Script;

/// Whether two lines are marked, if they are two among so many.
pub(crate) fn marks_pair(talk: &[Pair], lines: usize, one: Slot, other: Slot) -> bool
    ensures { result ≡ marks_pair talk.now lines one other }
{
    if one.index() == other.index() {
        return true;
    }
    if one.index() >= lines {
        return true;
    }
    if other.index() >= lines {
        return true;
    }
    is_marked(talk, one, other)
}

/// Whether a line is marked with each other among so many.
fn marks_with(talk: &[Pair], lines: usize, one: Slot) -> bool
    ensures { result ≡ marks_with talk.now lines one }
{
    Slot::all()
        .iter()
        .all(|other| marks_pair(talk, lines, one, *other))
}

/// Whether each two different lines among so many are marked.
fn marks_every_pair(talk: &[Pair], lines: usize) -> bool
    ensures { result ≡ list_all (marks_with talk.now lines) (0 ∷ 1 ∷ 2 ∷ 3 ∷ []) }
{
    Slot::all().iter().all(|one| marks_with(talk, lines, *one))
}

/// Whether an entry's state marks each two lines of the script.
pub(crate) fn may_all_talk(script: &Script, entry: &Entry) -> bool
    ensures { IsTrue result → AllMayTalk script.now entry.now.state }
{
    let lines = script.lines();
    let talk = script.talk_of(entry.state());
    marks_every_pair(talk, lines)
}
