//! The verdict on the bytes of a script and of a certificate: both readers and the checker of obligations put together.
//! The contract of `check`, and of `check_par`, is the promise in one place, and what a sceptic reads first: a `Yes` comes only with a script
//! whose every run is good. `specs/Verdict.antt` and `specs/Verdicts.antt` say what that means, over the definitions of
//! scripts, certificates, obligations and runs in the crates below; nothing here knows how a verdict is asked for or told.
#![tactic(auto)]

mod verdict;

pub use verdict::{CheckFault, Checked, Refuted, Verdict, check, check_par};
