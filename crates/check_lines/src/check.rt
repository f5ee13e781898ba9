//! What the program says of a script and a certificate.
ghost use Rattle.std.specs.Prelude.{◌≡◌, IfOk, option_map, string_bytes};
ghost use Rattle.composition.specs.Verdicts.{IsVerdict};
ghost use Rattle.check_lines.specs.Replies.{answer_line};
ghost use Rattle.check_lines.specs.VerdictLines.{Judges, NamesFault, NamesRefusal};
ghost use Rattle.script_table.specs.Words.{words_of};

use crate::answer::{Answer, Broken};
use composition::{CheckFault, Refuted, Verdict, check, check_par};
use mg_model::steps::StepName;
use script_table::Script;
use std::alloc::{AllocError, Global};
use std::thread::Threads;

/// The words of a step, with the names of the script's lines.
fn words_of(
    alloc: Global,
    script: &Script,
    step: &Option<StepName>,
) -> Result<Option<String>, AllocError>
    ensures { IfOk result (λ words. option_map string_bytes words ≡ option_map (words_of script.now.lines) step.now) }
{
    match step {
        Some(step) => Ok(Some(script.step_words(alloc, step)?)),
        None => Ok(None),
    }
}

/// What is said of a certificate that breaks an obligation. A step's words name lines of the script.
pub fn broken(alloc: Global, refuted: &Refuted) -> Answer
    ensures { NamesFault refuted.now.table refuted.now.fault (answer_line result) }
{
    let fault = refuted.fault();
    match words_of(alloc, refuted.script(), &fault.step) {
        Ok(step) => Answer::No(Broken {
            obligation: fault.obligation.number(),
            entry: fault.entry,
            point: fault.point,
            step,
        }),
        Err(_) => Answer::NoMemory,
    }
}

/// What is said where there is no verdict.
pub fn refused(fault: CheckFault) -> Answer
    ensures { NamesRefusal fault (answer_line result) }
{
    match fault {
        CheckFault::Script(fault) => Answer::ScriptFault {
            number: fault.number(),
            name: fault.name(),
        },
        CheckFault::Cert(fault) => Answer::CertificateFault {
            number: fault.number(),
            name: fault.name(),
        },
        CheckFault::NoMemory => Answer::NoMemory,
    }
}

/// The verdict, by threads where there is more than one piece.
fn verdict(
    rt: &(impl Threads + Sync),
    alloc: Global,
    script: &[u8],
    certificate: &[u8],
    pieces: u8,
) -> Result<Verdict, CheckFault>
    ensures { IsVerdict script.now certificate.now result }
{
    if pieces > 1 {
        check_par(rt, alloc, script, certificate, usize::from(pieces))
    } else {
        check(alloc, script, certificate)
    }
}

/// The answer on a script and a certificate, which is checked in so many pieces.
pub fn answer(
    rt: &(impl Threads + Sync),
    alloc: Global,
    script: &[u8],
    certificate: &[u8],
    pieces: u8,
) -> Answer
    ensures { Judges script.now certificate.now (answer_line result) }
{
    match verdict(rt, alloc, script, certificate, pieces) {
        Ok(Verdict::Yes(checked)) => Answer::Yes {
            states: checked.states(),
            entries: checked.entries(),
            points: checked.points(),
        },
        Ok(Verdict::No(refuted)) => broken(alloc, &refuted),
        Err(fault) => refused(fault),
    }
}
