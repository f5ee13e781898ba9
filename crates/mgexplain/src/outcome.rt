//! What comes of an input: what is said of a check, or with a plan of a run, where the words that the program was called with go with it.
ghost use Rattle.std.specs.Prelude.{◌≡◌, true};
ghost use Rattle.program_rim.specs.Sections.{pair_of, sections_of, triple_of};
ghost use Rattle.mgexplain.specs.Saying.{AskOfRun, IsAnswered, IsOutcome, IsOutcomeOf, IsOutcomeOn};

use crate::words::Asked;
use check_facts::form::Form;
use check_facts::said::Said;
use check_facts::told::{input_told, too_long_told};
use program_rim::input::Input;
use program_rim::sections::three_sections;
use run_facts::told_run::run_told;
use std::alloc::{AllocError, Global};
use std::sync::Wait;
use std::thread::Threads;

/// What comes of an input.
#[derive(Drop)]
pub(crate) enum Outcome {
    /// This is said.
    Told(Said),
    /// The words don't go with it.
    Usage,
    /// There was no memory to say it.
    NoMemory,
    /// A read failed, and nothing is said.
    ReadFailed,
}

/// What comes of it where something is said, or memory runs out.
fn outcome_of(told: Result<Said, AllocError>) -> Outcome
    ensures { IsOutcomeOf told result }
{
    match told {
        Ok(said) => Outcome::Told(said),
        Err(AllocError) => Outcome::NoMemory,
    }
}

/// What comes of an input that was read to its end.
fn outcome_on<R: Threads + Wait + Sync>(
    rt: &R,
    alloc: Global,
    asked: (Form, Option<u32>),
    is_strict: bool,
    input: &[u8],
) -> Outcome
    ensures { IsOutcomeOn is_strict asked.0 asked.1 (triple_of (sections_of input.now)) (pair_of (sections_of input.now)) result }
{
    let (form, only) = asked;
    match three_sections(input) {
        Some(sections) => {
            if is_strict {
                return Outcome::Usage;
            }
            outcome_of(run_told(rt, alloc, asked, sections))
        }
        None => match only {
            Some(_) => Outcome::Usage,
            None => outcome_of(input_told(alloc, form, is_strict, input)),
        },
    }
}

/// What comes of an input: of a form and of the call of a plan that alone is told, where warnings count or don't.
fn told_of<R: Threads + Wait + Sync>(
    rt: &R,
    alloc: Global,
    asked: (Form, Option<u32>),
    is_strict: bool,
    input: &Input,
) -> Outcome
    ensures { IsOutcome is_strict asked.0 asked.1 input.now result }
{
    match input {
        Input::Whole(bytes) => outcome_on(rt, alloc, asked, is_strict, bytes.as_slice()),
        Input::TooLong => outcome_of(too_long_told(alloc, asked.0)),
        Input::NoMemory => Outcome::NoMemory,
        Input::Failed => Outcome::ReadFailed,
    }
}

/// What comes of an input, as the words ask. Where they ask for help or for the version the input has nothing to do with it.
pub(crate) fn answered<R: Threads + Wait + Sync>(
    rt: &R,
    alloc: Global,
    asked: &Asked,
    input: &Input,
) -> Outcome
    ensures { IsAnswered asked.now input.now result }
{
    match *asked {
        Asked::Saying(form, only) => told_of(rt, alloc, (form, only), false, input),
        Asked::Strictly(form) => told_of(rt, alloc, (form, None), true, input),
        Asked::Help => Outcome::Usage,
        Asked::Version => Outcome::Usage,
    }
}
