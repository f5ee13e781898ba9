//! Lines of the gateway that a plan names twice.
ghost use Rattle.std.specs.Prelude.{◌≡◌, ◌==◌, ℕ, true, not, if◌then◌else◌, map, IfOk, OnOk};
ghost use Rattle.std.specs.List.{flat_map};
ghost use Rattle.plans.specs.Tables.{has_twice, names_line_twice};
ghost use Rattle.mg_model.specs.Members.{is_among};

use crate::plan::PlanCall;
use mg_names::identifiers::LineNo;
use std::alloc::{AllocError, Global};
use std::collections::BTreeSet;

/// The lines of all calls, one after the other.
fn all_lines(alloc: Global, calls: &[PlanCall]) -> Result<Vec<LineNo>, AllocError>
    ensures { IfOk result (λ lines. map (λ l. l.0) lines.items ≡ flat_map (λ call. call.lines) calls.now) }
{
    let mut lines = Vec::new(alloc);
    for call in calls {
        lines.extend_from_slice(call.lines())?;
    }
    Ok(lines)
}

/// Adds a number to others, and says whether it is new.
#[tactic(auto, using(mg_model::proofs::Members::among_by_order))]
fn add(numbers: &mut BTreeSet<u32>, number: u32) -> Result<bool, AllocError>
    ensures answer { IfOk result (λ added. added ≡ not (is_among numbers.old.keys number)) }
    ensures added { OnOk result ((n : ℕ) → is_among numbers.new.keys n ≡ (if n == number then true else is_among numbers.old.keys n)) }
{
    Ok(numbers.insert(number)?)
}

/// Whether one of these lines comes twice.
fn repeat(alloc: Global, lines: &[LineNo]) -> Result<bool, AllocError>
    ensures { IfOk result (λ r. r ≡ has_twice (map (λ l. l.0) lines.now)) }
{
    let mut seen = BTreeSet::new(alloc);
    for line in lines {
        if !add(&mut seen, line.0)? {
            return Ok(true);
        }
    }
    Ok(false)
}

/// Whether these calls name a line twice, in one or in two of them.
pub(crate) fn names_line_twice(alloc: Global, calls: &[PlanCall]) -> Result<bool, AllocError>
    ensures { IfOk result (λ r. r ≡ names_line_twice calls.now) }
{
    let lines = all_lines(alloc, calls)?;
    repeat(alloc, lines.as_slice())
}
