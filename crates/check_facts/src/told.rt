//! What is told of an input without a plan: the line of its check, which is made by the same calls as `mgcall check` makes it, and as JSON what it is about.
ghost use Rattle.std.specs.Prelude.{◌≡◌, IfOk, Some, string_bytes};
ghost use Rattle.check_lines.specs.Output.{too_long};
ghost use Rattle.check_lines.specs.Replies.{line_of};
ghost use Rattle.check_lines.specs.VerdictLines.{Judges, NamesRefusal};
ghost use Rattle.program_rim.specs.Sections.{pair_of, sections_of};
ghost use Rattle.program_rim.specs.Statuses.{code_of};
ghost use Rattle.check_facts.specs.Saying.{Begins, IsSaid, IsTold, IsUnder};
ghost use Rattle.check_facts.specs.Worth.{IsYesStatus};

use crate::arrows::write_arrows;
use crate::documents::Documents;
use crate::endings::write_ending;
use crate::form::Form;
use crate::no_facts::no_facts;
use crate::rests::write_rests;
use crate::said::{Said, said_of, text_of};
use crate::warnings::warning_facts;
use crate::worth::{Worth, find_worth, yes_status};
use check_lines::answer::Answer;
use check_lines::check::{broken, refused};
use check_lines::reply::{InputFault, Reply};
use composition::{CheckFault, Checked, Refuted, Verdict, check};
use program_rim::sections::two_sections;
use program_rim::status::Status;
use std::alloc::{AllocError, Global};

/// A fault for which something isn't read, as a member of a JSON object behind a comma.
fn fault_facts(alloc: Global, of: &str, number: u8, name: &str) -> Result<String, AllocError> {
    format!(in alloc; r#","fault":{{"of":"{of}","fault_number":{number},"fault_name":"{name}"}}"#)
}

/// The fault that a reply names, for which something isn't read; an empty text of any other reply.
fn members_of(alloc: Global, reply: &Reply) -> Result<String, AllocError> {
    match reply {
        Reply::Input(InputFault::Sections) => fault_facts(alloc, "input", 1, "Sections"),
        Reply::Input(InputFault::TooLong) => fault_facts(alloc, "input", 2, "TooLong"),
        Reply::Checked(Answer::ScriptFault { number, name }) => {
            fault_facts(alloc, "script", *number, name)
        }
        Reply::Checked(Answer::CertificateFault { number, name }) => {
            fault_facts(alloc, "certificate", *number, name)
        }
        Reply::PlanFault { number, name } => fault_facts(alloc, "plan", *number, name),
        Reply::RunFault { number, name } => fault_facts(alloc, "run", *number, name),
        _ => Ok(String::new(alloc)),
    }
}

/// What is told where nothing is checked or run, for a fault of what was given. The only error is running out of memory.
pub fn unread(alloc: Global, form: Form, reply: &Reply) -> Result<Said, AllocError>
    ensures { IfOk result (IsUnder form (line_of reply.now)) }
{
    let members = members_of(alloc, reply)?;
    said_of(alloc, form, reply, members.as_str())
}

/// What a yes is worth, and what is so where calls rest, as members of a JSON object, each behind a comma; an empty text where calls come to too many
/// configurations to tell.
fn worth_facts(
    alloc: Global,
    documents: Documents<'_>,
    worth: &Option<Worth>,
) -> Result<String, AllocError> {
    match worth {
        Some(worth) => {
            let mut out = warning_facts(alloc, documents, worth)?;
            write_rests(alloc, &mut out, documents.script, worth)?;
            write_arrows(&mut out, documents.script, worth.crossings.as_slice())?;
            write_ending(alloc, &mut out, documents.script, &worth.ending)?;
            Ok(out)
        }
        None => Ok(String::new(alloc)),
    }
}

/// What is told of a yes as text, where warnings don't count: nothing is sought then.
fn bare_yes(alloc: Global, form: Form, reply: &Reply) -> Result<Said, AllocError>
    ensures begins { IfOk result (λ said. Begins form (line_of reply.now) (code_of said.status) (string_bytes said.text)) }
    ensures status { IfOk result (λ said. code_of said.status ≡ 0) }
{
    let status = Status::Yes;
    let text = text_of(alloc, form, reply, status, "")?;
    Ok(Said { text, status })
}

/// What is told of a yes, where warnings count or don't.
fn yes_told(
    alloc: Global,
    form: Form,
    is_strict: bool,
    reply: &Reply,
    checked: &Checked,
) -> Result<Said, AllocError>
    ensures begins { IfOk result (λ said. Begins form (line_of reply.now) (code_of said.status) (string_bytes said.text)) }
    ensures status { IfOk result (λ said. IsYesStatus is_strict checked.now.table checked.now.entries said.status) }
{
    if let (Form::Text, false) = (form, is_strict) {
        return bare_yes(alloc, form, reply);
    }
    let worth = find_worth(alloc, checked.script(), checked.cert())?;
    let status = yes_status(is_strict, &worth);
    let documents = Documents {
        script: checked.script(),
        cert: checked.cert(),
    };
    let members = worth_facts(alloc, documents, &worth)?;
    let text = text_of(alloc, form, reply, status, members.as_str())?;
    Ok(Said { text, status })
}

/// What a No is about as members of a JSON object, each behind a comma; an empty text where it is told without facts.
fn facts_of(alloc: Global, form: Form, refuted: &Refuted) -> Result<String, AllocError> {
    let documents = Documents {
        script: refuted.script(),
        cert: refuted.cert(),
    };
    match form {
        Form::Text => Ok(String::new(alloc)),
        Form::Json => no_facts(alloc, documents, refuted.fault()),
    }
}

/// What is told of a No. The only error is running out of memory.
pub fn no_told(
    alloc: Global,
    form: Form,
    reply: &Reply,
    refuted: &Refuted,
) -> Result<Said, AllocError>
    ensures { IfOk result (IsUnder form (line_of reply.now)) }
{
    let members = facts_of(alloc, form, refuted)?;
    said_of(alloc, form, reply, members.as_str())
}

/// What is told of a fault of the script or of the certificate. The only error is running out of memory.
pub fn fault_told(alloc: Global, form: Form, fault: CheckFault) -> Result<Said, AllocError>
    ensures { IfOk result (IsSaid (NamesRefusal fault) form) }
{
    if let CheckFault::NoMemory = fault {
        return Err(AllocError);
    }
    let reply = Reply::Checked(refused(fault));
    unread(alloc, form, &reply)
}

/// What is told of a script and a certificate, where warnings count or don't.
fn documents_told(
    alloc: Global,
    form: Form,
    is_strict: bool,
    script: &[u8],
    certificate: &[u8],
) -> Result<Said, AllocError>
    ensures { IfOk result (IsTold is_strict (Some (script.now, certificate.now)) form) }
{
    match check(alloc, script, certificate) {
        Ok(Verdict::Yes(checked)) => {
            let reply = Reply::Checked(Answer::Yes {
                states: checked.states(),
                entries: checked.entries(),
                points: checked.points(),
            });
            yes_told(alloc, form, is_strict, &reply, &checked)
        }
        Ok(Verdict::No(refuted)) => {
            let reply = Reply::Checked(broken(alloc, &refuted));
            no_told(alloc, form, &reply, &refuted)
        }
        Err(fault) => fault_told(alloc, form, fault),
    }
}

/// What is told of an input of another number of sections than three. Where warnings count, a yes of which something is warned of has the status of a no.
/// The only error is running out of memory.
pub fn input_told(
    alloc: Global,
    form: Form,
    is_strict: bool,
    input: &[u8],
) -> Result<Said, AllocError>
    ensures { IfOk result (IsTold is_strict (pair_of (sections_of input.now)) form) }
{
    match two_sections(input) {
        Some((script, certificate)) => documents_told(alloc, form, is_strict, script, certificate),
        None => unread(alloc, form, &Reply::Input(InputFault::Sections)),
    }
}

/// What is told of an input past the limit. The only error is running out of memory.
pub fn too_long_told(alloc: Global, form: Form) -> Result<Said, AllocError>
    ensures { IfOk result (IsUnder form too_long) }
{
    unread(alloc, form, &Reply::Input(InputFault::TooLong))
}
