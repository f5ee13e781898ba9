//! Which call created an ephemeral, by its number. An entry says nothing of a number at which no ephemeral exists, so that one may be
//! written before a request is put in place, and none has to be taken away.
ghost use Rattle.std.specs.Prelude.{◌≡◌, ℕ, Some, OnOk, OnErr, if◌then◌else◌};
ghost use Rattle.gateway.specs.Creators.{creator_at, is_created, any_created, IsKeptOrNoted};

use contexts::Done;
use std::alloc::AllocError;
use std::collections::HashMap;

pub(crate) type Creators = HashMap<u32, u32>;

/// The call under a number.
#[tactic(auto, unfolding(crate::specs::Creators::creator_at))]
pub(crate) fn creator(creators: &Creators, number: u32) -> Option<u32>
    ensures { result ≡ creator_at creators.now.entries number }
{
    creators.get(&number).copied()
}

/// Notes the call of the ephemeral that a command created, if it created one.
#[tactic(auto, unfolding(crate::specs::Creators::creator_at))]
fn note_one(creators: &mut Creators, done: &Done, call: u32) -> Result<(), AllocError>
    ensures ok { OnOk result ((k : ℕ) → creator_at creators.new.entries k ≡ (if is_created done.now k then Some call else creator_at creators.old.entries k)) }
    ensures err { OnErr result (creators.new.entries ≡ creators.old.entries) }
{
    if let Some(number) = done.ephemeral() {
        creators.insert(number, call)?;
    }
    Ok(())
}

/// Notes the call of the ephemerals that commands created. Where memory runs out some may be noted.
pub(crate) fn note(creators: &mut Creators, results: &[Done], call: u32) -> Result<(), AllocError>
    ensures ok { OnOk result ((k : ℕ) → creator_at creators.new.entries k ≡ (if any_created results.now k then Some call else creator_at creators.old.entries k)) }
    ensures some { (k : ℕ) → IsKeptOrNoted call results.now creators.old.entries creators.new.entries k }
{
    for done in results {
        note_one(creators, done, call)?;
    }
    Ok(())
}
