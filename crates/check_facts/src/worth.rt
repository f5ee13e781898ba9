//! What a yes is worth: the warnings of a script and its certificate, whether calls can be brought to their ends and what is so of their telephones where they
//! rest, and the status that a yes has where these count.
ghost use Rattle.std.specs.Prelude.{◌≡◌, IfOk};
ghost use Rattle.std.specs.List.{list_all};
ghost use Rattle.check_facts.specs.Saying.{ends_well};
ghost use Rattle.check_facts.specs.Worth.{IsWorth, each_ends, yes_status};

use crate::telephones::{LineTelephones, find_telephones, has_forgotten};
use call_ends::ending::{Ending, StateEnding};
use call_ends::find::find_stuck;
use call_ends::states::find_state_endings;
use call_ways::crossings::{Crossing, find_crossings};
use call_ways::find::find_all;
use call_ways::reached::Reached;
use call_ways::{Warning, find_warnings};
use entry_table::Cert;
use program_rim::status::Status;
use script_table::Script;
use std::alloc::{AllocError, Global};

/// What calls come to, and what is warned of.
#[derive(Drop)]
pub(crate) struct Worth {
    /// The configurations that calls come to.
    pub(crate) reached: Reached,
    /// What they tell of each arrow.
    pub(crate) crossings: Vec<Crossing>,
    /// What of the script and the certificate they don't use, lines that none of them hears, and commands that none gets done.
    pub(crate) warnings: Vec<Warning>,
    /// How calls that are in each state can be brought to their ends.
    pub(crate) endings: Vec<StateEnding>,
    /// By how many moves each call can be, or a way to where one can't.
    pub(crate) ending: Ending,
    /// The telephones of each line where calls rest.
    pub(crate) telephones: Vec<LineTelephones>,
    /// Whether one of them is forgotten in some state.
    pub(crate) is_one_forgotten: bool,
}

/// What a yes on a script and a certificate is worth; nothing where calls come to too many configurations to tell. The only error is running out of
/// memory.
pub(crate) fn find_worth(
    alloc: Global,
    script: &Script,
    cert: &Cert,
) -> Result<Option<Worth>, AllocError>
    ensures { IfOk result (IsWorth script.now cert.now) }
{
    let Some(reached) = find_all(alloc, script, cert)? else {
        return Ok(None);
    };
    let Some(endings) = find_state_endings(alloc, script, cert)? else {
        return Ok(None);
    };
    let ending = find_stuck(alloc, script, cert)?;
    let Some(telephones) = find_telephones(alloc, script, cert)? else {
        return Ok(None);
    };
    let is_one_forgotten = has_forgotten(script, telephones.as_slice());
    let crossings = find_crossings(alloc, script, &reached)?;
    let warnings = find_warnings(alloc, script, cert, &reached, crossings.as_slice())?;
    Ok(Some(Worth {
        reached,
        crossings,
        warnings,
        endings,
        ending,
        telephones,
        is_one_forgotten,
    }))
}

/// Whether each call can be moved wherever it rests, and brought to its end.
fn end_well(endings: &[StateEnding]) -> bool
    ensures { result ≡ list_all ends_well endings.now }
{
    endings.iter().all(|one| one.can_end && one.can_be_moved)
}

/// Whether each call can be brought to its end, wherever it has come to.
fn each_ends(ending: &Ending) -> bool
    ensures { result ≡ each_ends ending.now }
{
    match ending {
        Ending::EachCanEnd { .. } => true,
        Ending::Stuck { .. } => false,
        Ending::TooMany => false,
    }
}

/// The status of a yes: that of a no where warnings count and there are some, or a call that can't be moved or brought to its end, or a telephone that is
/// forgotten, or where it can't be told whether there are.
pub(crate) fn yes_status(is_strict: bool, worth: &Option<Worth>) -> Status
    ensures { result ≡ yes_status is_strict worth.now }
{
    if !is_strict {
        return Status::Yes;
    }
    let Some(worth) = worth else {
        return Status::No;
    };
    if !worth.warnings.is_empty() {
        return Status::No;
    }
    if !end_well(worth.endings.as_slice()) {
        return Status::No;
    }
    if worth.is_one_forgotten {
        return Status::No;
    }
    if !each_ends(&worth.ending) {
        return Status::No;
    }
    Status::Yes
}
