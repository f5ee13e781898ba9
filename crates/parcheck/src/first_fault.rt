//! The first broken obligation of a certificate, or how many points it has, found piece by piece. A piece is left where an earlier one is broken.
ghost use Rattle.std.specs.Prelude.{◌≡◌, IfOk, Option};
ghost use Rattle.mg_model.specs.declared.faults.Fault.{Fault};
ghost use Rattle.closure.specs.Answer.{IsAnswer, IsFinding};
ghost use Rattle.closure.specs.declared.first_fault.Finding.{Finding};
ghost use Rattle.parcheck.specs.Pieces.{IsOfPiece};

use crate::first_broken::FirstBroken;
use crate::in_order::in_order;
use crate::pieces::{Piece, pieces_of};
use crate::walked::{Walked, walk_piece};
use closure::first_fault::{Finding, whole_fault};
use entry_table::Cert;
use mg_model::faults::Fault;
use rayon::prelude::*;
use script_table::Script;
use std::alloc::{AllocError, Global};
use std::thread::Threads;

/// What a certificate comes to, from so many pieces, one job each; none count as one. It is what the check in one finds, whatever the
/// number of pieces: there is one finding of a certificate. The only error is running out of memory. This profile's own.
pub fn check_par(
    rt: &(impl Threads + Sync),
    alloc: Global,
    script: &Script,
    cert: &Cert,
    pieces: usize,
) -> Result<Finding, AllocError>
    ensures finding { IfOk result (λ found. IsFinding script.now cert.now found) }
    ensures same { IfOk result (λ found. (other : Finding) → IsFinding script.now cert.now other → found ≡ other) }
{
    if let Some(fault) = whole_fault(script, cert) {
        return Ok(Finding::Broken(fault));
    }
    let pieces = pieces_of(alloc, cert, pieces)?;
    let broken = FirstBroken::new();
    let walked: Vec<Walked> = pieces
        .as_slice()
        .par_iter()
        .with_min_len(1)
        .map(
            |piece: &Piece| -> Walked
                ensures { IsOfPiece script.entry.now cert.entry.now piece.now result }
            { walk_piece(script, cert, piece, &broken) },
        )
        .collect(rt, alloc)?;
    Ok(in_order(script, cert, walked.as_slice()))
}

/// The first obligation that a certificate breaks, from so many pieces, and `None` where none is broken: what the check in one answers. The
/// only error is running out of memory.
pub fn first_fault_par(
    rt: &(impl Threads + Sync),
    alloc: Global,
    script: &Script,
    cert: &Cert,
    pieces: usize,
) -> Result<Option<Fault>, AllocError>
    ensures answer { IfOk result (λ fault. IsAnswer script.now cert.now fault) }
    ensures same { IfOk result (λ fault. (other : Option Fault) → IsAnswer script.now cert.now other → fault ≡ other) }
{
    match check_par(rt, alloc, script, cert, pieces)? {
        Finding::Kept(_) => Ok(None),
        Finding::Broken(fault) => Ok(Some(fault)),
    }
}
