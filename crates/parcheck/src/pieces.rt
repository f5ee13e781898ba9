//! Pieces of a certificate: runs of its entries in file order, cut by the sizes of the entries.
ghost use Rattle.std.specs.Prelude.{◌≡◌, ◌<◌, ◌≤◌, ◌^◌, length, IfOk};
ghost use Rattle.parcheck.specs.Pieces.{AreRuns};

use entry_table::Cert;
use std::alloc::{AllocError, Global};

/// A run of entries: those from a place up to another.
#[derive(Clone, Copy)]
pub struct Piece {
    /// The place of its first entry.
    pub first: usize,
    /// The place past its last entry.
    pub last: usize,
}

/// How many numbers a job walks over, or a few more, until it looks whether its piece still counts: some milliseconds' work, so that a look costs next to
/// nothing, and waiting for it too.
const LOT: u64 = 4096;

/// How many entries there are.
pub(crate) fn entries_of(cert: &Cert) -> usize
    ensures { result ≡ length cert.now }
{
    cert.entries().len()
}

/// How many numbers the entries have together, or the last of 64 bits.
fn numbers_of(cert: &Cert) -> u64 {
    let mut sum: u64 = 0;
    for entry in cert.entries() {
        sum = sum.saturating_add(u64::from(entry.size()));
    }
    sum
}

/// How many numbers the entry at a place has, where there is one.
fn numbers_at(cert: &Cert, place: usize) -> u64 {
    match cert.entries().get(place) {
        Some(entry) => u64::from(entry.size()),
        None => 0,
    }
}

/// The place past a run that begins at a place: the first at which the entries so far have as many numbers as they should, or the last that it may be.
fn end_of(cert: &Cert, first: usize, last: usize, wanted: u64, sum: &mut u64) -> usize
    requires { first ≤ last }
    ensures from { first ≤ result }
    ensures within { result ≤ last }
{
    let mut end = first;
    while end < last && *sum < wanted {
        *sum = sum.saturating_add(numbers_at(cert, end));
        end += 1;
    }
    end
}

/// The place past a lot, which begins at a place and has one entry at least, and none from another place on.
pub(crate) fn lot_end(cert: &Cert, first: usize, last: usize) -> usize
    requires { first < last }
    ensures more { first < result }
    ensures within { result ≤ last }
{
    let mut sum = numbers_at(cert, first);
    end_of(cert, first + 1, last, LOT, &mut sum)
}

/// So many pieces, and the last of them has what is left; at least one.
pub(crate) fn pieces_of(alloc: Global, cert: &Cert, count: usize) -> Result<Vec<Piece>, AllocError>
    ensures { IfOk result (λ pieces. AreRuns 0 pieces.items (length cert.now) × (length cert.now ≤ 2 ^ 64)) }
{
    let share = numbers_of(cert) / (count as u64).max(1);
    let entries = entries_of(cert);
    let mut pieces = Vec::new(alloc);
    let mut first = 0;
    let mut sum = 0;
    for number in 1..count {
        let wanted = share.saturating_mul(number as u64);
        let last = end_of(cert, first, entries, wanted, &mut sum);
        pieces.push(Piece { first, last })?;
        first = last;
    }
    pieces.push(Piece {
        first,
        last: entries,
    })?;
    Ok(pieces)
}
