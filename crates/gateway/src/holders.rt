//! Which call holds a line. There is an entry for each line, so that holding one takes no memory.
ghost use Rattle.std.specs.Prelude.{◌≡◌, ℕ, ◌==◌, ◌&&◌, Some, None, IfOk, OnOk, is_some, if◌then◌else◌, map};
ghost use Rattle.mg_model.specs.Items.{Lists};
ghost use Rattle.contexts.specs.BoardValue.{names_line};
ghost use Rattle.gateway.specs.Calls.{line_entry, holder_of};

use mg_names::identifiers::LineNo;
use std::alloc::{AllocError, Global};
use std::collections::HashMap;

pub(crate) type Holders = HashMap<u32, Option<u32>>;

/// Adds a line that nobody holds.
#[tactic(auto, unfolding(crate::specs::Calls::line_entry))]
fn add(holders: &mut Holders, line: u32) -> Result<(), AllocError>
    ensures { OnOk result ((l : ℕ) → line_entry holders.new.entries l ≡ (if l == line then Some None else line_entry holders.old.entries l)) }
{
    holders.insert(line, None)?;
    Ok(())
}

/// These lines, which nobody holds.
#[tactic(auto, unfolding(crate::specs::Calls::line_entry))]
pub(crate) fn new(alloc: Global, lines: &[LineNo]) -> Result<Holders, AllocError>
    ensures { IfOk result (λ holders. (l : ℕ) → line_entry holders.entries l ≡ (if names_line lines.now l then Some None else None)) }
{
    let mut holders = HashMap::new(alloc);
    for line in lines {
        add(&mut holders, line.0)?;
    }
    Ok(holders)
}

/// The lines, in rising order.
#[tactic(auto, unfolding(crate::specs::Calls::line_entry))]
pub(crate) fn lines(alloc: Global, holders: &Holders) -> Result<Vec<LineNo>, AllocError>
    ensures { IfOk result (λ found. Lists (λ n. is_some (line_entry holders.now.entries n)) (map (λ l. l.0) found.items)) }
{
    contexts::names(alloc, holders)
}

/// The call that holds a line.
#[tactic(auto, unfolding(crate::specs::Calls::line_entry))]
pub(crate) fn holder(holders: &Holders, line: u32) -> Option<u32>
    ensures { result ≡ holder_of (line_entry holders.now.entries line) }
{
    match holders.get(&line) {
        Some(holder) => *holder,
        None => None,
    }
}

/// A call holds a line from now on, where there is such a line.
#[tactic(auto, unfolding(crate::specs::Calls::line_entry))]
fn hold_one(holders: &mut Holders, line: u32, call: u32)
    ensures { (l : ℕ) → line_entry holders.new.entries l ≡ (if (l == line) && is_some (line_entry holders.old.entries l) then Some (Some call) else line_entry holders.old.entries l) }
{
    if let Some(holder) = holders.get_mut(&line) {
        *holder = Some(call);
    }
}

/// A call holds these lines from now on.
pub(crate) fn hold(holders: &mut Holders, lines: &[LineNo], call: u32)
    ensures { (l : ℕ) → line_entry holders.new.entries l ≡ (if names_line lines.now l && is_some (line_entry holders.old.entries l) then Some (Some call) else line_entry holders.old.entries l) }
{
    for line in lines {
        hold_one(holders, line.0, call);
    }
}
