//! What a No of the check is about, as data: the point that it names with its configuration, what of that configuration breaks the
//! obligation, the step that leads where no entry is with its result, the nearest entry of that result's state, an entry that has it,
//! and the way that media takes between two lines. Nothing is written here, and no format is known.
//!
//! What brought a breach about is the last command of the way to it behind which it is so: the configurations along the way are gone through for the
//! last one that doesn't show what the breach is about (`last`, by `shows`); the step from there executes commands, and among the configurations
//! that these lead through the last one is sought again (`through`, `cause`). What of an entry calls come to is an entry to put in its place (`part`).
//!
//! Each contract says its fact in the words of the definitions that the check's own contracts cite: `specs/` has them, one file for each file
//! here. This profile's own.
#![tactic(auto)]

mod breach;
mod breaches;
mod cause;
mod created;
mod last;
mod located;
mod media;
mod mended;
mod narrowed;
mod nearest;
mod only;
pub mod part;
mod paths;
mod shows;
mod through;
mod uncovered;
mod widened;

pub use breach::Breach;
pub use breaches::find_breaches;
pub use cause::{Cause, find_cause};
pub use located::{Located, locate};
pub use mended::{Mended, alone, mend};
pub use nearest::{Nearest, find_nearest};
pub use paths::{Crossing, find_path};
pub use uncovered::uncovered_step;
pub use widened::widen;
