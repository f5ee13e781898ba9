//! The rim of the program, which knows of no script and no certificate: the words of the command line, devices to read
//! from and write to with their faults counted, those of the machine and those over memory that fail where they are told to, text that is gathered
//! for one, the whole input within its limit, its sections, and the exit statuses.
#![tactic(auto)]

pub mod fused;
pub mod gathered;
pub mod host;
pub mod input;
pub mod sections;
pub mod sink;
pub mod source;
pub mod status;
pub mod words;
