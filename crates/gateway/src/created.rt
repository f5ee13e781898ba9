//! The numbers of the ephemerals that a call created, each once.
ghost use Rattle.std.specs.Prelude.{◌≡◌, ◌==◌, ◌||◌, ℕ, true, OnOk, OnErr};
ghost use Rattle.mg_model.specs.Members.{is_among};
ghost use Rattle.gateway.specs.Creators.{is_created, any_created};

use contexts::Done;
use std::alloc::AllocError;
use std::collections::BTreeSet;

/// Adds a number.
#[tactic(auto, using(mg_model::proofs::Members::among_by_order))]
fn add(created: &mut BTreeSet<u32>, number: u32) -> Result<(), AllocError>
    ensures added { OnOk result ((k : ℕ) → is_among created.new.keys k ≡ ((k == number) || is_among created.old.keys k)) }
    ensures unchanged { OnErr result (created.new.keys ≡ created.old.keys) }
{
    created.insert(number)?;
    Ok(())
}

/// Adds the number of the ephemeral that a command created, if it created one.
fn note_one(created: &mut BTreeSet<u32>, done: &Done) -> Result<(), AllocError>
    ensures noted { OnOk result ((k : ℕ) → is_among created.new.keys k ≡ (is_created done.now k || is_among created.old.keys k)) }
    ensures unchanged { OnErr result (created.new.keys ≡ created.old.keys) }
{
    if let Some(number) = done.ephemeral() {
        add(created, number)?;
    }
    Ok(())
}

/// Adds the numbers of the ephemerals that commands created. Where memory runs out some may be added.
pub(crate) fn note(created: &mut BTreeSet<u32>, results: &[Done]) -> Result<(), AllocError>
    ensures kept { (k : ℕ) → is_among created.old.keys k ≡ true → is_among created.new.keys k ≡ true }
    ensures noted { OnOk result ((k : ℕ) → any_created results.now k ≡ true → is_among created.new.keys k ≡ true) }
{
    for done in results {
        note_one(created, done)?;
    }
    Ok(())
}
