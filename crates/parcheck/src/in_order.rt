//! What is found of all entries, from what jobs have walked over: the first that is broken, or how many points they have together.
ghost use Rattle.std.specs.Prelude.{length};
ghost use Rattle.closure.specs.Runs.{IsOfRun};
ghost use Rattle.parcheck.specs.Pieces.{AreWalked, IsFurther, IsOfBoth};

use crate::pieces::entries_of;
use crate::walked::Walked;
use closure::first_fault::{Finding, check_run};
use closure::looks::Looks;
use entry_table::Cert;
use script_table::Script;

/// The finding of two runs, of which the second begins where the first ends.
pub(crate) fn joined(first: Finding, second: Finding) -> Finding
    ensures { IsOfBoth first second result }
{
    match first {
        Finding::Broken(_) => first,
        Finding::Kept(points) => match second {
            Finding::Broken(_) => second,
            Finding::Kept(more) => Finding::Kept(points.saturating_add(more)),
        },
    }
}

/// The finding of a run with the entries after it up to a place, which no job has walked over. Where the run is broken they count for nothing.
fn gone_on(script: &Script, cert: &Cert, found: Finding, reached: usize, last: usize) -> Finding
    ensures { IsFurther script.now cert.now reached last found result }
{
    match found {
        Finding::Broken(_) => found,
        Finding::Kept(_) => {
            let mut looks = Looks::first();
            let more = check_run(script, cert, reached, last, &mut looks);
            joined(found, more)
        }
    }
}

/// The finding of all entries, from the runs that jobs have walked over. A job stops early where an earlier piece is broken, so what it has left
/// counts for nothing; if it did count, it would be walked over here.
pub(crate) fn in_order(script: &Script, cert: &Cert, all: &[Walked]) -> Finding
    requires { AreWalked script.now cert.now 0 all.now (length cert.now) }
    ensures { IsOfRun script.now cert.now 0 (length cert.now) result }
{
    let entries = entries_of(cert);
    let mut found = Finding::Kept(0);
    let mut reached = 0;
    for walked in all {
        let before = gone_on(script, cert, found, reached, walked.first);
        found = joined(before, walked.found);
        reached = walked.last;
    }
    gone_on(script, cert, found, reached, entries)
}
