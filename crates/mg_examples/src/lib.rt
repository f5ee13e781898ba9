//! Examples that show that the promise over runs isn't hollow: there are runs in which two lines are joined, also in two calls at once under
//! a certificate that breaks no obligation, and no obligation could be left out. One more shows that a call can have two reports where one is broken.
//! Each function here is empty: its contract is the example.
#![tactic(auto)]

pub mod runs;
