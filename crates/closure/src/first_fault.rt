//! The first broken obligation of a certificate, or how many points it has: entry by entry.
ghost use Rattle.std.specs.Prelude.{◌≡◌};
ghost use Rattle.closure.specs.Answer.{IsAnswer, IsFinding, IsWholeAnswer};
ghost use Rattle.closure.specs.Findings.{fault_at, whole_fault};
ghost use Rattle.closure.specs.Runs.{IsOfRun};

use crate::broken::Broken;
use crate::cover::covers;
use crate::covering::Covering;
use crate::looks::Looks;
use crate::steps::{opening, reset};
use crate::walk::walk;
use entry_table::Cert;
use mg_model::faults::Fault;
use mg_names::obligations::Obligation;
use script_table::Script;

/// What a certificate comes to.
#[derive(Clone, Copy)]
pub enum Finding {
    /// No obligation is broken, and so many points are there.
    Kept(u128),
    /// The first obligation that is broken.
    Broken(Fault),
}

/// The fault of an obligation of a point.
fn fault_at(place: usize, number: u32, broken: &Broken) -> Fault
    ensures { result ≡ fault_at place number broken.now }
{
    let (obligation, step) = match *broken {
        Broken::JoinedMarked => (Obligation::JoinedMarked, None),
        Broken::EndedCleared => (Obligation::EndedCleared, None),
        Broken::CreatedUnbound => (Obligation::CreatedUnbound, None),
        Broken::NamesLive => (Obligation::NamesLive, None),
        Broken::StepsCovered(step) => (Obligation::StepsCovered, Some(step)),
    };
    Fault {
        obligation,
        entry: Some(place),
        point: Some(number),
        step,
    }
}

/// The fault of an obligation of no point.
fn fault_of(obligation: Obligation) -> Fault
    ensures { result ≡ whole_fault obligation }
{
    Fault {
        obligation,
        entry: None,
        point: None,
        step: None,
    }
}

/// The fault of the configuration that a call opens in, or else of that after a restart, where no entry has it. This profile's own.
pub fn whole_fault(script: &Script, cert: &Cert) -> Option<Fault>
    ensures { IsWholeAnswer script.now cert.now result }
{
    if !covers(cert, &opening(script)) {
        return Some(fault_of(Obligation::OpeningCovered));
    }
    if !covers(cert, &reset(script)) {
        return Some(fault_of(Obligation::ResetCovered));
    }
    None
}

/// Walks over the points of a run of entries, those from a place up to another where the certificate has them, and counts them, or
/// finds the first that breaks an obligation. What may be spent on asking many points at once goes on from run to run. This profile's own.
pub fn check_run(
    script: &Script,
    cert: &Cert,
    first: usize,
    last: usize,
    looks: &mut Looks,
) -> Finding
    ensures { IsOfRun script.now cert.now first last result }
{
    let mut covering = Covering::new(cert, *looks);
    let mut points = 0u128;
    for place in first..last {
        let Some(entry) = cert.entries().get(place) else {
            return Finding::Kept(points);
        };
        match walk(script, entry, &mut covering) {
            Ok(count) => points += u128::from(count),
            Err(found) => return Finding::Broken(fault_at(place, found.number, &found.broken)),
        }
        *looks = covering.looks();
    }
    Finding::Kept(points)
}

/// The first obligation that a certificate breaks, in the order of the obligations: the opening, the restart, then by
/// entry and point, and in a point joined lines, ended calls, created names, then its steps; or the number of its points where
/// none is broken. This profile's own.
pub fn check(script: &Script, cert: &Cert) -> Finding
    ensures { IsFinding script.now cert.now result }
{
    if let Some(fault) = whole_fault(script, cert) {
        return Finding::Broken(fault);
    }
    check_run(script, cert, 0, cert.entries().len(), &mut Looks::first())
}

/// The first obligation that a certificate breaks. `None` where none is broken.
pub fn first_fault(script: &Script, cert: &Cert) -> Option<Fault>
    ensures { IsAnswer script.now cert.now result }
{
    match check(script, cert) {
        Finding::Kept(_) => None,
        Finding::Broken(fault) => Some(fault),
    }
}
