//! The facts of a run: the report of a plan, with what each step of its calls came to, as one JSON value whose fields are values. Nothing is decided here:
//! the facts are those of `run_steps` and of the scenes of `taken_steps`.
//!
//! The way of a run: a plan is read and run on one worker, or why not is told (`told_run`). Each line of the report is written as `mgcall run` writes it
//! (`line_text`, `quoted_lines`), and behind it the steps of its call (`calls`): each in the words of its plan (`plan_words`), with what it came to (`steps`)
//! and why where it is idle (`idle_reason`), the requests and the replies (`request_facts`), the numbers that the gateway gave (`numbers`), and the notes and
//! what plays (`notes`). Lines have the names of the script (`names`). This profile's own.
#![tactic(auto)]

mod calls;
mod idle_reason;
mod line_text;
mod names;
mod notes;
mod numbers;
mod plan_words;
mod quoted_lines;
mod request_facts;
mod steps;
pub mod told_run;
