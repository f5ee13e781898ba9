//! The members of each context. A context is kept as long as it has one, under the number that it has.
ghost use Rattle.std.specs.Prelude.{◌≡◌, ℕ, ◌==◌, ◌⊎◌, not, true, None, [], ◌∷◌, ◌++◌, filter, IsTrue, IfOk, OnOk, OnErr, is_some, if◌then◌else◌};
ghost use Rattle.mg_model.specs.Board.{same_term};
ghost use Rattle.mg_model.specs.Items.{given};
ghost use Rattle.identifiers.specs.Stock.{is_held, is_used, IsGiven};
ghost use Rattle.contexts.specs.Groups.{members_at, listed, with_member, without_member};

use crate::same::is_same;
use crate::single;
use identifiers::Identifiers;
use mg_names::identifiers::TermId;
use std::alloc::{AllocError, Global};

pub type Members = Identifiers<Vec<TermId>>;

/// Whether a context has members.
pub fn has_any(members: &Members, context: u32) -> bool
    ensures { result ≡ is_some (members_at members.now context) }
{
    members.get(context).is_some()
}

/// The members of a context.
pub fn of_context(members: &Members, context: u32) -> &[TermId]
    ensures { result.now ≡ listed (members_at members.now context) }
{
    match members.get(context) {
        Some(group) => group.as_slice(),
        None => &[],
    }
}

/// Adds a member to a list.
fn append(group: &mut Vec<TermId>, t: TermId) -> Result<(), AllocError>
    ensures ok { OnOk result (group.new.items ≡ group.old.items ++ t ∷ []) }
    ensures err { OnErr result (group.new.items ≡ group.old.items) }
{
    group.extend_from_slice(&[t])
}

/// Opens the context of the next number, with one member.
fn open(members: &mut Members, alloc: Global, t: TermId) -> Result<u32, AllocError>
    ensures number { IfOk result (IsGiven members.old) }
    ensures members { IfOk result (λ number. (c : ℕ) → members_at members.new c ≡ (if c == number then with_member t (members_at members.old number) else members_at members.old c)) }
    ensures used { IfOk result (λ number. (c : ℕ) → is_used members.new c ≡ given true number (is_used members.old) c) }
    ensures class { members.new.class ≡ members.old.class }
    ensures err { OnErr result (members.new ≡ members.old) }
{
    let group = single::list(alloc, t)?;
    let Ok(number) = members.create(group) else {
        return Err(AllocError);
    };
    Ok(number)
}

/// Adds a member to a context, which is there or has the next number.
pub fn enter(
    members: &mut Members,
    alloc: Global,
    context: u32,
    t: TermId,
) -> Result<(), AllocError>
    requires { IsTrue (is_held members.old context) ⊎ IsGiven members.old context }
    ensures ok { OnOk result ((c : ℕ) → members_at members.new c ≡ (if c == context then with_member t (members_at members.old context) else members_at members.old c)) }
    ensures used { OnOk result ((c : ℕ) → is_used members.new c ≡ given true context (is_used members.old) c) }
    ensures class { members.new.class ≡ members.old.class }
    ensures err { OnErr result ((c : ℕ) → members_at members.new c ≡ members_at members.old c) }
    ensures err_used { OnErr result ((c : ℕ) → is_used members.new c ≡ is_used members.old c) }
{
    let Some(mut group) = members.replace(context, Vec::new(alloc)) else {
        open(members, alloc, t)?;
        return Ok(());
    };
    let appended = append(&mut group, t);
    let _ = members.replace(context, group);
    appended
}

/// Takes a member out of a list.
fn drop_member(group: &mut Vec<TermId>, t: TermId)
    ensures { group.new.items ≡ filter (λ u. not (same_term u t)) group.old.items }
{
    group.retain(|u| !is_same(u, &t));
}

/// Takes a member out of a context, which ends with its last one.
pub fn leave(members: &mut Members, alloc: Global, context: u32, t: TermId)
    ensures members { (c : ℕ) → members_at members.new c ≡ (if c == context then without_member t (members_at members.old context) else members_at members.old c) }
    ensures used { (c : ℕ) → is_used members.new c ≡ is_used members.old c }
    ensures class { members.new.class ≡ members.old.class }
{
    let Some(mut group) = members.replace(context, Vec::new(alloc)) else {
        return;
    };
    drop_member(&mut group, t);
    if group.is_empty() {
        let _ = members.free(context);
        return;
    }
    let _ = members.replace(context, group);
}

/// Takes all members out of a context.
pub fn clear(members: &mut Members, context: u32)
    ensures members { (c : ℕ) → members_at members.new c ≡ (if c == context then None else members_at members.old c) }
    ensures used { (c : ℕ) → is_used members.new c ≡ is_used members.old c }
    ensures class { members.new.class ≡ members.old.class }
{
    let _ = members.free(context);
}

/// The same members in the same contexts.
pub fn copy(members: &Members) -> Result<Members, AllocError>
    ensures members { IfOk result (λ copied. (c : ℕ) → members_at copied c ≡ members_at members.now c) }
    ensures used { IfOk result (λ copied. (c : ℕ) → is_used copied c ≡ is_used members.now c) }
    ensures class { IfOk result (λ copied. copied.class ≡ members.now.class) }
{
    let copied = members.copy()?;
    Ok(copied)
}
