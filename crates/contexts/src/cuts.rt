//! The pairs of terminations between which media is cut, by context.
ghost use Rattle.std.specs.Prelude.{◌≡◌, ℕ, ◌+◌, ◌<◌, ◌≤◌, vec_len, vec_capacity, ◌==◌, Bool, false, not, ◌||◌, IsTrue, Some, None, [], filter, IfOk, OnOk, OnErr, if◌then◌else◌};
ghost use Rattle.mg_model.specs.Board.{same_term};
ghost use Rattle.mg_model.specs.Items.{with_cut};
ghost use Rattle.mg_names.specs.declared.identifiers.TermId.{TermId};
ghost use Rattle.contexts.specs.Groups.{group_at, listed, has_cut, is_between, touches, cut_if, set_between, without_cuts_of};

use crate::same::is_same;
use mg_names::identifiers::TermId;
use std::alloc::{AllocError, Global};
use std::collections::HashMap;

/// Media from the one termination to the other is cut.
#[derive(Clone, Copy)]
pub struct Cut {
    pub source: TermId,
    pub sink: TermId,
}

/// Two terminations, and whether media between them is to be cut.
#[derive(Clone, Copy)]
pub struct CutPair {
    /// The first of them.
    pub first: TermId,
    /// The second of them.
    pub second: TermId,
    /// From the first to the second.
    pub forward: bool,
    /// From the second to the first.
    pub backward: bool,
}

pub type Cuts = HashMap<u32, Vec<Cut>>;

/// Whether media from the one termination to the other is cut in a context.
pub fn is_cut(cuts: &Cuts, context: u32, t: &TermId, u: &TermId) -> bool
    ensures { result ≡ has_cut (group_at cuts.now.entries context) t.now u.now }
{
    match cuts.get(&context) {
        Some(group) => group
            .iter()
            .any(|cut| is_same(&cut.source, t) && is_same(&cut.sink, u)),
        None => false,
    }
}

/// Whether a cut is between two terminations, either way.
fn is_between(cut: &Cut, t: &TermId, u: &TermId) -> bool
    ensures { result ≡ is_between t.now u.now cut.now }
{
    (is_same(&cut.source, t) && is_same(&cut.sink, u))
        || (is_same(&cut.source, u) && is_same(&cut.sink, t))
}

/// Takes the cuts between two terminations out of a list.
fn drop_between(group: &mut Vec<Cut>, t: TermId, u: TermId)
    ensures items { group.new.items ≡ filter (λ cut. not (is_between t u cut)) group.old.items }
    ensures bound { vec_len group.new ≤ vec_len group.old }
    ensures capacity { vec_capacity group.new ≡ vec_capacity group.old }
{
    group.retain(|cut| !is_between(cut, &t, &u));
}

/// Adds a cut to a list, which has room for it, where there is to be one.
fn append_if(group: &mut Vec<Cut>, wanted: bool, source: TermId, sink: TermId)
    requires { IsTrue wanted → vec_len group.old < vec_capacity group.old }
    ensures items { group.new.items ≡ cut_if wanted source sink group.old.items }
    ensures bound { vec_len group.new ≤ vec_len group.old + 1 }
    ensures capacity { vec_capacity group.new ≡ vec_capacity group.old }
{
    if wanted {
        group.push_reserved(Cut { source, sink });
    }
}

/// Makes room in a list for what is to be cut between two terminations.
fn make_room(group: &mut Vec<Cut>, pair: &CutPair) -> Result<(), AllocError>
    ensures items { group.new.items ≡ group.old.items }
    ensures room { OnOk result (IsTrue (pair.now.forward || pair.now.backward) → vec_len group.new + 2 ≤ vec_capacity group.new) }
{
    if pair.forward || pair.backward {
        return group.reserve(2);
    }
    Ok(())
}

/// Sets what is cut between two terminations in a list.
fn set_in(group: &mut Vec<Cut>, pair: &CutPair) -> Result<(), AllocError>
    ensures ok { OnOk result (group.new.items ≡ set_between pair.now.first pair.now.second pair.now.forward pair.now.backward group.old.items) }
    ensures err { OnErr result (group.new.items ≡ group.old.items) }
{
    make_room(group, pair)?;
    drop_between(group, pair.first, pair.second);
    append_if(group, pair.forward, pair.first, pair.second);
    append_if(group, pair.backward, pair.second, pair.first);
    Ok(())
}

/// The list of what is cut between two terminations.
fn set_alone(alloc: Global, pair: &CutPair) -> Result<Vec<Cut>, AllocError>
    ensures { IfOk result (λ group. group.items ≡ set_between pair.now.first pair.now.second pair.now.forward pair.now.backward []) }
{
    let mut group = Vec::new(alloc);
    set_in(&mut group, pair)?;
    Ok(group)
}

/// Sets whether media is cut between two terminations of a context.
pub fn set(cuts: &mut Cuts, alloc: Global, context: u32, pair: CutPair) -> Result<(), AllocError>
    ensures ok { OnOk result ((c : ℕ) → group_at cuts.new.entries c ≡ (if c == context then Some (set_between pair.first pair.second pair.forward pair.backward (listed (group_at cuts.old.entries context))) else group_at cuts.old.entries c)) }
    ensures err { OnErr result ((c : ℕ) → group_at cuts.new.entries c ≡ group_at cuts.old.entries c) }
{
    let Some(group) = cuts.get_mut(&context) else {
        let group = set_alone(alloc, &pair)?;
        cuts.insert(context, group)?;
        return Ok(());
    };
    set_in(group, &pair)
}

/// Takes the cuts of a termination out of a list.
fn drop_cuts(group: &mut Vec<Cut>, t: TermId)
    ensures { group.new.items ≡ filter (λ cut. not (touches t cut)) group.old.items }
{
    group.retain(|cut| !(is_same(&cut.source, &t) || is_same(&cut.sink, &t)));
}

/// Forgets what was set for the pairs of a termination. An empty list is not kept.
pub fn forget(cuts: &mut Cuts, context: u32, t: TermId)
    ensures { (c : ℕ) → group_at cuts.new.entries c ≡ (if c == context then without_cuts_of t (group_at cuts.old.entries context) else group_at cuts.old.entries c) }
{
    let Some(group) = cuts.get_mut(&context) else {
        return;
    };
    drop_cuts(group, t);
    if group.is_empty() {
        cuts.remove(&context);
    }
}

/// Forgets what was set in a context.
pub fn clear(cuts: &mut Cuts, context: u32)
    ensures { (c : ℕ) → group_at cuts.new.entries c ≡ (if c == context then None else group_at cuts.old.entries c) }
{
    cuts.remove(&context);
}

/// An equal value.
pub fn copy(cuts: &Cuts) -> Result<Cuts, AllocError>
    ensures { IfOk result (λ copied. (c : ℕ) → group_at copied.entries c ≡ group_at cuts.now.entries c) }
{
    let copied = cuts.clone()?;
    Ok(copied)
}
