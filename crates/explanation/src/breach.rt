//! The things that can break an obligation.
ghost use Rattle.std.specs.Prelude.{◌≡◌, IfOk};
ghost use Rattle.mg_names.specs.declared.obligations.Obligation.TheVariants as Obligation;
ghost use Rattle.explanation.specs.declared.breach.Breach.TheVariants as Breach;
ghost use Rattle.explanation.specs.Breaches.{candidates_of};

use mg_model::transitions::Pair;
use mg_names::obligations::Obligation;
use mg_names::slots::Slot;
use std::alloc::{AllocError, Global};

/// One thing of a configuration that breaks an obligation. This profile's own.
#[derive(Clone, Copy)]
pub enum Breach {
    /// These two lines are joined, and the configuration's state doesn't mark them.
    Joined(Pair),
    /// This line is not in the null context.
    Away(Slot),
    /// This line may still play a signal.
    Playing(Slot),
    /// The events list of this line is not exactly `al/of` with `strict=exact`.
    NotArmed(Slot),
    /// This ephemeral exists.
    Remaining(Slot),
    /// The state creates this context, and its name is bound.
    BoundContext(Slot),
    /// The state creates this ephemeral, which exists.
    BoundEphemeral(Slot),
    /// This context has been deleted, and its name is bound.
    StaleContext(Slot),
    /// The Remote of this ephemeral names one that has been destroyed.
    GoneRemote(Slot),
}

/// The breach of two lines that are joined.
fn joined(first: Slot, second: Slot) -> Breach
    ensures { result ≡ Breach.Joined (record { first = first; second = second }) }
{
    Breach::Joined(Pair { first, second })
}

/// Each pair of lines.
fn pairs(alloc: Global) -> Result<Vec<Breach>, AllocError>
    ensures { IfOk result (λ all. all.items ≡ candidates_of Obligation.JoinedMarked) }
{
    let [a, b, c, d] = Slot::all();
    let mut all = Vec::new(alloc);
    all.extend_from_slice(&[
        joined(a, b),
        joined(a, c),
        joined(a, d),
        joined(b, c),
        joined(b, d),
        joined(c, d),
    ])?;
    Ok(all)
}

/// What a call that has ended may not leave, slot by slot.
fn left(alloc: Global) -> Result<Vec<Breach>, AllocError>
    ensures { IfOk result (λ all. all.items ≡ candidates_of Obligation.EndedCleared) }
{
    let [a, b, c, d] = Slot::all();
    let mut all = Vec::new(alloc);
    all.extend_from_slice(&[
        Breach::Away(a),
        Breach::Playing(a),
        Breach::NotArmed(a),
        Breach::Remaining(a),
        Breach::Away(b),
        Breach::Playing(b),
        Breach::NotArmed(b),
        Breach::Remaining(b),
        Breach::Away(c),
        Breach::Playing(c),
        Breach::NotArmed(c),
        Breach::Remaining(c),
        Breach::Away(d),
        Breach::Playing(d),
        Breach::NotArmed(d),
        Breach::Remaining(d),
    ])?;
    Ok(all)
}

/// The names that a state may create though they are bound.
fn bound(alloc: Global) -> Result<Vec<Breach>, AllocError>
    ensures { IfOk result (λ all. all.items ≡ candidates_of Obligation.CreatedUnbound) }
{
    let [a, b, c, d] = Slot::all();
    let mut all = Vec::new(alloc);
    all.extend_from_slice(&[
        Breach::BoundContext(a),
        Breach::BoundContext(b),
        Breach::BoundContext(c),
        Breach::BoundContext(d),
        Breach::BoundEphemeral(a),
        Breach::BoundEphemeral(b),
        Breach::BoundEphemeral(c),
        Breach::BoundEphemeral(d),
    ])?;
    Ok(all)
}

/// The names that may stand for what has been deleted or destroyed.
fn dead(alloc: Global) -> Result<Vec<Breach>, AllocError>
    ensures { IfOk result (λ all. all.items ≡ candidates_of Obligation.NamesLive) }
{
    let [a, b, c, d] = Slot::all();
    let mut all = Vec::new(alloc);
    all.extend_from_slice(&[
        Breach::StaleContext(a),
        Breach::StaleContext(b),
        Breach::StaleContext(c),
        Breach::StaleContext(d),
        Breach::GoneRemote(a),
        Breach::GoneRemote(b),
        Breach::GoneRemote(c),
        Breach::GoneRemote(d),
    ])?;
    Ok(all)
}

/// All that can break an obligation of a point; nothing for the others.
pub(crate) fn candidates(alloc: Global, obligation: Obligation) -> Result<Vec<Breach>, AllocError>
    ensures { IfOk result (λ all. all.items ≡ candidates_of obligation) }
{
    match obligation {
        Obligation::JoinedMarked => pairs(alloc),
        Obligation::EndedCleared => left(alloc),
        Obligation::CreatedUnbound => bound(alloc),
        Obligation::NamesLive => dead(alloc),
        Obligation::OpeningCovered => Ok(Vec::new(alloc)),
        Obligation::StepsCovered => Ok(Vec::new(alloc)),
        Obligation::ResetCovered => Ok(Vec::new(alloc)),
    }
}
