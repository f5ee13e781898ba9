//! Whether entries have all where steps lead, of the whole hull of a few configurations. It can be told where these are of one state, have one
//! link and the same names bound.
ghost use Rattle.std.specs.Prelude.{◌≡◌, IsTrue, map};
ghost use Rattle.configuration.specs.Config.{configuration_of};
ghost use Rattle.closure.specs.Placing.{AreHullRequestsCovered};
ghost use Rattle.closure.specs.Hulls.{AreAlike, IsHullEntered, IsHullLineCovered, IsHullLinked, AreHullNotesCovered, AreHullRepliesCovered, AreHullRestsCovered, AreHullStepsCovered};

use crate::hull::Hull;
use crate::hull_commands::led_by;
use crate::hull_found::found;
use crate::hull_parts::are_in_entries;
use crate::hull_refusals::is_refused;
use crate::hull_surviving::surviving_contexts;
use crate::looks::Looks;
use crate::requests::bound_in;
use crate::steps::{with_link, with_state};
use built_request::Request;
use configuration::config::Config;
use entry_table::Cert;
use mg_names::kinds::Kind;
use mg_names::phases::LinkPhase;
use mg_names::slots::Slot;
use script_table::Script;

/// A configuration with a state and a link.
fn entered_with(config: &Config, state: u8, link: LinkPhase) -> Config
    ensures { configuration_of result ≡ record (configuration_of config.now) { state = state; link = link } }
{
    let mut with = *config;
    with.set_state(state);
    with.set_link(link);
    with
}

/// Whether entries have all in the hull of some configurations as they enter a state, if there is one.
fn is_entered(
    script: &Script,
    cert: &Cert,
    hull: &Hull,
    one: &Config,
    target: Option<u8>,
    looks: &mut Looks,
) -> bool
    requires { AreAlike (map configuration_of hull.now) (configuration_of one.now) }
    ensures { IsTrue result → IsHullEntered script.now cert.now (map configuration_of hull.now) target }
{
    let Some(state) = target else {
        return true;
    };
    let link = with_state(script, one, state).link();
    let Ok(entered) = hull.map(|config| entered_with(config, state, link)) else {
        return false;
    };
    are_in_entries(cert, &entered, looks)
}

/// Notes of a line and kind.
#[derive(Clone, Copy)]
struct Notes {
    line: Slot,
    kind: Kind,
}

/// Whether entries have all where such notes lead.
fn are_notes_covered(
    script: &Script,
    cert: &Cert,
    hull: &Hull,
    one: &Config,
    notes: Notes,
    looks: &mut Looks,
) -> bool
    requires { AreAlike (map configuration_of hull.now) (configuration_of one.now) }
    ensures { IsTrue result → AreHullNotesCovered script.now cert.now (map configuration_of hull.now) notes.line notes.kind }
{
    if hull.all(|config| !script.raises(config.events(notes.line), notes.kind)) {
        return true;
    }
    let target = script.target_of(one.state(), notes.line, notes.kind);
    is_entered(script, cert, hull, one, target, looks)
}

/// The same of all notes of a line.
fn is_line_covered(
    script: &Script,
    cert: &Cert,
    hull: &Hull,
    one: &Config,
    line: Slot,
    looks: &mut Looks,
) -> bool
    requires { AreAlike (map configuration_of hull.now) (configuration_of one.now) }
    ensures { IsTrue result → IsHullLineCovered script.now cert.now (map configuration_of hull.now) line }
{
    let on = Notes {
        line,
        kind: Kind::On,
    };
    let of = Notes {
        line,
        kind: Kind::Of,
    };
    let flash = Notes {
        line,
        kind: Kind::Fl,
    };
    let full = Notes {
        line,
        kind: Kind::Full,
    };
    let part = Notes {
        line,
        kind: Kind::Part,
    };
    if !are_notes_covered(script, cert, hull, one, on, looks) {
        return false;
    }
    if !are_notes_covered(script, cert, hull, one, of, looks) {
        return false;
    }
    if !are_notes_covered(script, cert, hull, one, flash, looks) {
        return false;
    }
    if !are_notes_covered(script, cert, hull, one, full, looks) {
        return false;
    }
    are_notes_covered(script, cert, hull, one, part, looks)
}

/// The same of all notes of a call at rest, and of its timer.
fn is_rest_covered(
    script: &Script,
    cert: &Cert,
    hull: &Hull,
    one: &Config,
    looks: &mut Looks,
) -> bool
    requires { AreAlike (map configuration_of hull.now) (configuration_of one.now) }
    ensures { IsTrue result → AreHullRestsCovered script.now cert.now (map configuration_of hull.now) }
{
    // Its contract says that there are four lines at most.
    let _lines = script.lines();
    let [first, second, third, fourth] = Slot::all();
    if !is_line_covered(script, cert, hull, one, first, looks) {
        return false;
    }
    if !is_line_covered(script, cert, hull, one, second, looks) {
        return false;
    }
    if !is_line_covered(script, cert, hull, one, third, looks) {
        return false;
    }
    if !is_line_covered(script, cert, hull, one, fourth, looks) {
        return false;
    }
    let timer = script.timer_of(one.state());
    is_entered(script, cert, hull, one, timer, looks)
}

/// Whether entries have all that some configurations are with another link.
fn is_linked(cert: &Cert, hull: &Hull, link: LinkPhase, looks: &mut Looks) -> bool
    ensures { IsTrue result → IsHullLinked cert.now (map configuration_of hull.now) link }
{
    let Ok(linked) = hull.map(|config| with_link(config, link)) else {
        return false;
    };
    are_in_entries(cert, &linked, looks)
}

/// To do a command in a configuration takes so many looks.
const LOOKS_A_COMMAND: u64 = 10;

/// Whether entries have all that refusals and the execution of a request make, of which the first commands are done.
fn is_request_covered(
    script: &Script,
    cert: &Cert,
    hull: &Hull,
    surviving: &[bool; 4],
    request: &mut Request<'_>,
    looks: &mut Looks,
) -> bool
    ensures { IsTrue result → AreHullRequestsCovered script.now cert.now (map configuration_of hull.now) surviving.now request.old }
{
    let Some(command) = request.take_first() else {
        return is_linked(cert, hull, LinkPhase::Answered, looks);
    };
    if !is_linked(cert, hull, LinkPhase::Failed, looks) {
        return false;
    }
    if is_refused(hull, &command) {
        return true;
    }
    if !looks.take(LOOKS_A_COMMAND, hull.as_slice().len()) {
        return false;
    }
    let Ok(there) = hull.map(|config| found(config, &command)) else {
        return false;
    };
    let Some(after) = led_by(script, &there, &command, surviving) else {
        return false;
    };
    is_request_covered(script, cert, &after, surviving, request, looks)
}

/// Whether entries have all where a reply without a failure leads.
fn is_reply_covered(
    script: &Script,
    cert: &Cert,
    hull: &Hull,
    one: &Config,
    looks: &mut Looks,
) -> bool
    requires { AreAlike (map configuration_of hull.now) (configuration_of one.now) }
    ensures { IsTrue result → AreHullRepliesCovered script.now cert.now (map configuration_of hull.now) }
{
    match script.ok_of(one.state()) {
        None => is_linked(cert, hull, LinkPhase::Resting, looks),
        Some(state) => is_entered(script, cert, hull, one, Some(state), looks),
    }
}

/// Whether entries have all where steps lead.
pub(crate) fn are_steps_covered(
    script: &Script,
    cert: &Cert,
    hull: &Hull,
    one: &Config,
    looks: &mut Looks,
) -> bool
    requires { AreAlike (map configuration_of hull.now) (configuration_of one.now) }
    ensures { IsTrue result → AreHullStepsCovered script.now cert.now (map configuration_of hull.now) }
{
    match one.link() {
        LinkPhase::Sent => {
            let mut request = Request::new(script, bound_in(one), one.state());
            let surviving = surviving_contexts(script, hull, one.state());
            is_request_covered(script, cert, hull, &surviving, &mut request, looks)
        }
        LinkPhase::Answered => is_reply_covered(script, cert, hull, one, looks),
        LinkPhase::Failed => {
            let target = script.fault_of(one.state());
            is_entered(script, cert, hull, one, target, looks)
        }
        LinkPhase::Resting => is_rest_covered(script, cert, hull, one, looks),
    }
}
