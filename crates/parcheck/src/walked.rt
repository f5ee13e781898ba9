//! What a job has walked over of its piece: all of it, or less where an earlier piece is broken.
ghost use Rattle.parcheck.specs.Pieces.{IsOfPiece};

use crate::first_broken::FirstBroken;
use crate::in_order::joined;
use crate::pieces::{Piece, lot_end};
use closure::first_fault::{Finding, check_run};
use closure::looks::Looks;
use entry_table::Cert;
use script_table::Script;

/// A run of entries that a job has walked over.
#[derive(Clone, Copy)]
pub struct Walked {
    /// The place of its first entry.
    pub first: usize,
    /// The place past its last entry.
    pub last: usize,
    /// What is found of it.
    pub found: Finding,
}

/// Walks over a piece, lot by lot, up to its end or until it or an earlier one is known to be broken.
pub(crate) fn walk_piece(
    script: &Script,
    cert: &Cert,
    piece: &Piece,
    broken: &FirstBroken,
) -> Walked
    ensures { IsOfPiece script.now cert.now piece.now result }
{
    let mut last = piece.first;
    let mut found = Finding::Kept(0);
    let mut looks = Looks::first();
    while last < piece.last && !broken.is_by(piece.first) {
        let next = lot_end(cert, last, piece.last);
        let more = check_run(script, cert, last, next, &mut looks);
        found = joined(found, more);
        broken.take_up(piece.first, &found);
        last = next;
    }
    Walked {
        first: piece.first,
        last,
        found,
    }
}
