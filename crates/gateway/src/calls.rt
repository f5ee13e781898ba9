//! Calls that were opened, by number. A call that was retired keeps its entry, which is empty then, so that no call has its number again.
ghost use Rattle.std.specs.Prelude.{◌≡◌, ℕ, ◌==◌, ◌&&◌, true, Some, None, IfOk, OnOk, OnErr, if◌then◌else◌, option_map, is_some, map, List};
ghost use Rattle.mg_model.specs.Items.{Lists};
ghost use Rattle.gateway.specs.Calls.{call_entry, call_in, is_taken_in, new_call, with_call, without_call, counting, keeping, restarting, WouldKeep};
ghost use Rattle.gateway.specs.Creators.{any_created};
ghost use Rattle.gateway.specs.Execution.{HasNoted, HasCreated};

use crate::call::CallState;
use contexts::Done;
use mg_names::identifiers::{Assoc, CallNo, LineNo};
use requests::Reply;
use std::alloc::{AllocError, Global};
use std::collections::HashMap;

pub(crate) type Calls = HashMap<u32, Option<CallState>>;

/// An open call.
#[tactic(auto, unfolding(crate::specs::Calls::call_entry))]
pub(crate) fn call(calls: &Calls, number: u32) -> Option<&CallState>
    ensures { option_map (λ c. c.now) result ≡ call_in calls.now.entries number }
{
    match calls.get(&number) {
        Some(entry) => entry.as_ref(),
        None => None,
    }
}

/// Whether a call was opened: it is open, or was retired.
#[tactic(auto, unfolding(crate::specs::Calls::call_entry))]
pub(crate) fn is_taken(calls: &Calls, number: u32) -> bool
    ensures { result ≡ is_taken_in calls.now.entries number }
{
    calls.get(&number).is_some()
}

/// The calls that were opened, in rising order.
#[tactic(auto, unfolding(crate::specs::Calls::call_entry))]
fn taken_calls(alloc: Global, calls: &Calls) -> Result<Vec<CallNo>, AllocError>
    ensures { IfOk result (λ found. Lists (is_taken_in calls.now.entries) (map (λ c. c.0) found.items)) }
{
    contexts::names(alloc, calls)
}

/// The open calls, in rising order. It looks at each call that was opened.
pub(crate) fn open_calls(alloc: Global, calls: &Calls) -> Result<Vec<CallNo>, AllocError>
    ensures { IfOk result (λ found. Lists (λ n. is_some (call_in calls.now.entries n)) (map (λ c. c.0) found.items)) }
{
    let mut found = taken_calls(alloc, calls)?;
    found.retain(|number| call(calls, number.0).is_some());
    Ok(found)
}

/// Opens a call on lines.
#[tactic(auto, unfolding(crate::specs::Calls::call_entry))]
pub(crate) fn open(calls: &mut Calls, number: u32, state: CallState) -> Result<(), AllocError>
    ensures ok { OnOk result ((n : ℕ) → call_entry calls.new.entries n ≡ (if n == number then Some (Some state) else call_entry calls.old.entries n)) }
    ensures err { OnErr result (calls.new.entries ≡ calls.old.entries) }
{
    calls.insert(number, Some(state))?;
    Ok(())
}

/// Makes an empty entry for a call.
#[tactic(auto, unfolding(crate::specs::Calls::call_entry))]
pub(crate) fn reserve(calls: &mut Calls, number: u32) -> Result<(), AllocError>
    ensures ok { OnOk result ((n : ℕ) → call_entry calls.new.entries n ≡ (if n == number then Some None else call_entry calls.old.entries n)) }
    ensures err { OnErr result (calls.new.entries ≡ calls.old.entries) }
{
    calls.insert(number, None)?;
    Ok(())
}

/// Retires a call, and hands out what was kept of it, if it was open. This takes no memory.
#[tactic(auto, unfolding(crate::specs::Calls::call_entry))]
pub(crate) fn retire(calls: &mut Calls, number: u32) -> Option<CallState>
    ensures state { result ≡ call_in calls.old.entries number }
    ensures retired { (n : ℕ) → call_entry calls.new.entries n ≡ without_call (call_entry calls.old.entries) number n }
{
    match calls.get_mut(&number) {
        Some(entry) => entry.take(),
        None => None,
    }
}

/// Fills the entry of a call, where there is one. This takes no memory.
#[tactic(auto, unfolding(crate::specs::Calls::call_entry))]
pub(crate) fn fill(calls: &mut Calls, number: u32, state: CallState)
    ensures { (n : ℕ) → call_entry calls.new.entries n ≡ (if (n == number) && is_some (call_entry calls.old.entries n) then Some (Some state) else call_entry calls.old.entries n) }
{
    if let Some(entry) = calls.get_mut(&number) {
        *entry = Some(state);
    }
}

/// Keeps a reply in the entry of a call, where the call is open.
fn keep_in(entry: &mut Option<CallState>, reply: Reply, notes: u32)
    requires { WouldKeep entry.old reply }
    ensures { entry.new ≡ option_map (keeping reply notes) entry.old }
{
    if let Some(call) = entry {
        call.keep(reply, notes);
    }
}

/// Keeps the reply to a request of a call, with the number of the call's last note.
#[tactic(auto, unfolding(crate::specs::Calls::call_entry))]
pub(crate) fn keep(calls: &mut Calls, number: u32, reply: Reply, notes: u32)
    requires { WouldKeep (call_in calls.old.entries number) reply }
    ensures { (n : ℕ) → call_entry calls.new.entries n ≡ with_call (call_entry calls.old.entries) number (keeping reply notes) n }
{
    if let Some(entry) = calls.get_mut(&number) {
        keep_in(entry, reply, notes);
    }
}

/// Sets the number of the last note in the entry of a call, where the call is open.
fn count_in(entry: &mut Option<CallState>, notes: u32)
    ensures { entry.new ≡ option_map (counting notes) entry.old }
{
    if let Some(call) = entry {
        call.count(notes);
    }
}

/// Sets the number of a call's last note.
#[tactic(auto, unfolding(crate::specs::Calls::call_entry))]
pub(crate) fn count(calls: &mut Calls, number: u32, notes: u32)
    ensures { (n : ℕ) → call_entry calls.new.entries n ≡ with_call (call_entry calls.old.entries) number (counting notes) n }
{
    if let Some(entry) = calls.get_mut(&number) {
        count_in(entry, notes);
    }
}

/// Notes in the entry of a call the numbers of the ephemerals that commands created, where the call is open.
fn note_in(entry: &mut Option<CallState>, results: &[Done]) -> Result<(), AllocError>
    ensures { HasNoted entry.old entry.new results.now result }
{
    let Some(call) = entry else {
        return Ok(());
    };
    call.note_created(results)
}

/// Notes of a call the numbers of the ephemerals that commands created. Where memory runs out some may be noted.
#[tactic(auto, unfolding(crate::specs::Calls::call_entry))]
pub(crate) fn note_created(
    calls: &mut Calls,
    number: u32,
    results: &[Done],
) -> Result<(), AllocError>
    ensures noted { HasCreated (call_entry calls.old.entries) (call_entry calls.new.entries) number results.now result }
{
    match calls.get_mut(&number) {
        Some(entry) => note_in(entry, results),
        None => Ok(()),
    }
}

/// A new association begins in the entry of a call, where the call is open.
fn restart_in(entry: &mut Option<CallState>, association: Assoc)
    ensures { entry.new ≡ option_map (restarting association.0) entry.old }
{
    if let Some(call) = entry {
        call.restart(association);
    }
}

/// A new association begins for every call: no reply is kept.
pub(crate) fn restart(calls: &mut Calls, association: Assoc)
    ensures { (n : ℕ) → call_entry calls.new.entries n ≡ option_map (option_map (restarting association.0)) (call_entry calls.old.entries n) }
{
    calls.retain(|_, entry| {
        restart_in(entry, association);
        true
    });
}
