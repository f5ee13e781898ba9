//! Whether joined lines are marked, of the whole hull of a few configurations: two lines that aren't marked have to be such that media may go
//! neither way between them (`hull_hops`).
ghost use Rattle.std.specs.Prelude.{◌<◌, IsTrue, map};
ghost use Rattle.mg_model.specs.Configuration.{Configuration};
ghost use Rattle.mg_model.specs.Paths.{AreJoined};
ghost use Rattle.mg_model.specs.Tables.{is_marked};
ghost use Rattle.configuration.specs.Config.{configuration_of};
ghost use Rattle.closure.specs.Hulls.{AreHullLinesMarked, IsHullMarked, AreOfState, IsInHull};

use crate::hull::Hull;
use crate::hull_hops::HullHops;
use crate::marks::marks_pair;
use configuration::config::Config;
use mg_model::transitions::Pair;
use mg_names::slots::Slot;
use script_table::Script;

/// Whether two lines are marked, if they are two among so many, or media may go neither way between them.
fn is_pair_marked(talk: &[Pair], lines: usize, hops: &HullHops<'_>, one: Slot, other: Slot) -> bool
    ensures { IsTrue result → (c : Configuration) → IsInHull (map configuration_of hops.now) c → one < lines → other < lines → AreJoined c one other
        → IsTrue (is_marked talk.now one other) }
{
    if marks_pair(talk, lines, one, other) {
        return true;
    }
    if hops.may_go(one, other) {
        return false;
    }
    !hops.may_go(other, one)
}

/// The same of a line and each other.
fn is_line_marked(talk: &[Pair], lines: usize, hops: &HullHops<'_>, one: Slot) -> bool
    requires { lines < 5 }
    ensures { IsTrue result → AreHullLinesMarked talk.now lines (map configuration_of hops.now) one }
{
    let [first, second, third, fourth] = Slot::all();
    if !is_pair_marked(talk, lines, hops, one, first) {
        return false;
    }
    if !is_pair_marked(talk, lines, hops, one, second) {
        return false;
    }
    if !is_pair_marked(talk, lines, hops, one, third) {
        return false;
    }
    is_pair_marked(talk, lines, hops, one, fourth)
}

/// Whether joined lines are marked in the whole hull of some configurations of one state.
pub(crate) fn are_joined_marked(script: &Script, hull: &Hull, one: &Config) -> bool
    requires { AreOfState (map configuration_of hull.now) (configuration_of one.now).state }
    ensures { IsTrue result → IsHullMarked script.now (map configuration_of hull.now) }
{
    let lines = script.lines();
    let talk = script.talk_of(one.state());
    let hops = HullHops::of(hull);
    let [first, second, third, fourth] = Slot::all();
    if !is_line_marked(talk, lines, &hops, first) {
        return false;
    }
    if !is_line_marked(talk, lines, &hops, second) {
        return false;
    }
    if !is_line_marked(talk, lines, &hops, third) {
        return false;
    }
    is_line_marked(talk, lines, &hops, fourth)
}
