//! The whole program over devices of its own: from the words of the command line and the input to one line, or a report, and an exit
//! status.
//!
//! The way of an input: `program_rim` reads the words, then the input to its end within its limit, and cuts it at its dividers; `check_lines`
//! answers a script and a certificate, and `run_reports` a plan behind them. The contract of `program::engine` says what is written for the words and the
//! input, and with which status; `specs/Engine.antt` and `specs/Output.antt` of `check_lines` are what a reader has to believe. A program that
//! stands on it has only to hand it its words and its devices.
#![tactic(auto)]

pub mod program;
