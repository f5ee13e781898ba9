//! The telephones of the lines where calls rest, and whether one of them is forgotten there.
ghost use Rattle.std.specs.Prelude.{◌≡◌, ◌↔◌, ℕ, IfNone, IfOk, IfSome, IsTrue};
ghost use Rattle.check_facts.specs.Forgotten.{AreTelephones, ComeToManyOfALine, HasForgotten, HasForgottenIn, IsForgottenIn, is_forgotten, is_left_lifted};

use call_ends::resting_telephones::{RestingTelephone, find_resting_telephones};
use entry_table::Cert;
use mg_names::slots::Slot;
use script_table::Script;
use std::alloc::{AllocError, Global};

/// What is so of the telephone at one line where calls rest.
#[derive(Drop)]
pub(crate) struct LineTelephones {
    /// The line.
    pub(crate) line: Slot,
    /// Of each state, in their order.
    pub(crate) states: Vec<RestingTelephone>,
}

/// The telephones at each line of a script, in their order; nothing where calls come to too many configurations with one of them to tell. The only error
/// is running out of memory.
pub(crate) fn find_telephones(
    alloc: Global,
    script: &Script,
    cert: &Cert,
) -> Result<Option<Vec<LineTelephones>>, AllocError>
    ensures some { IfOk result (λ found. IfSome found (λ list. AreTelephones script.now cert.now list.items)) }
    ensures none { IfOk result (λ found. IfNone found (ComeToManyOfALine script.now cert.now)) }
{
    let slots = Slot::all();
    let mut list = Vec::new(alloc);
    for place in 0..script.lines() {
        let Some(states) = find_resting_telephones(alloc, script, cert, slots[place])? else {
            return Ok(None);
        };
        list.push(LineTelephones {
            line: slots[place],
            states,
        })?;
    }
    Ok(Some(list))
}

/// Whether a telephone is left lifted in a state: its receiver may be so where that is an end, or in silence where it is neither that nor the start.
pub(crate) fn is_left_lifted(script: &Script, state: u8, one: &RestingTelephone) -> bool
    ensures { result ≡ is_left_lifted script.now state one.now }
{
    if script.ends_in(state) {
        return one.is_lifted;
    }
    if state == script.start() {
        return false;
    }
    one.is_silent
}

/// Whether a telephone is forgotten in a state: left lifted, or heard while its receiver is down.
fn is_forgotten(script: &Script, state: u8, one: &RestingTelephone) -> bool
    ensures { result ≡ is_forgotten script.now state one.now }
{
    is_left_lifted(script, state, one) || one.is_heard
}

/// Whether that of a state is, of these of each.
fn is_forgotten_in(script: &Script, states: &[RestingTelephone], state: u8) -> bool
    ensures { IsTrue result ↔ IsForgottenIn script.now states.now state }
{
    let Some(one) = states.get(state as usize) else {
        return false;
    };
    is_forgotten(script, state, one)
}

/// Whether that of some state is.
fn has_forgotten_in(script: &Script, states: &[RestingTelephone]) -> bool
    ensures { IsTrue result ↔ ((s : ℕ) × HasForgottenIn script.now states.now s) }
{
    for state in 0..script.states() {
        if is_forgotten_in(script, states, state as u8) {
            return true;
        }
    }
    false
}

/// Whether that at some line is, in some state.
pub(crate) fn has_forgotten(script: &Script, telephones: &[LineTelephones]) -> bool
    ensures { IsTrue result ↔ HasForgotten script.now telephones.now }
{
    for of_line in telephones {
        if has_forgotten_in(script, of_line.states.as_slice()) {
            return true;
        }
    }
    false
}
