//! Requests and replies: commands with what becomes of each, and the numbers that the gateway gave.
use crate::numbers::{write_bound, write_results};
use check_facts::command_text::CommandText;
use check_facts::names::state_name;
use gateway::Failure;
use mg_model::commands::Command;
use mg_names::identifiers::LineNo;
use script_table::Script;
use std::alloc::AllocError;
use taken_steps::{Executed, Fate, Sent, TakenReply};

/// What became of the command at a place of a request.
fn mark(fate: Fate, failure: Option<Failure>, place: usize) -> &'static str {
    match (fate, failure) {
        (Fate::Discarded, _) => "dropped",
        (Fate::Repeated, _) => "not done again",
        (_, Some(failure)) => {
            if place < failure.place {
                "done"
            } else if place == failure.place {
                "REFUSED"
            } else {
                "not reached"
            }
        }
        (_, None) => "done",
    }
}

/// Adds the command at a place with what becomes of it, behind a comma where another stands before it.
fn write_command(
    out: &mut String,
    script: &Script,
    place: usize,
    command: &Command,
    mark: &str,
) -> Result<(), AllocError> {
    let gap = if place == 0 { "" } else { "," };
    let command = CommandText { script, command };
    write!(
        out,
        r#"{gap}{{"command_place":{place},"command":"{command}","mark":"{mark}"}}"#
    )
}

/// Adds the command that was refused, where one was.
fn write_refused(out: &mut String, failure: Option<Failure>) -> Result<(), AllocError> {
    let Some(failure) = failure else {
        return Ok(());
    };
    let (place, code, name) = (failure.place, failure.code.number(), failure.code.name());
    write!(
        out,
        r#","refused":{{"command_place":{place},"code":{code},"code_name":"{name}"}}"#
    )
}

/// Adds the commands of a request that a call sends.
fn write_sent_commands(
    out: &mut String,
    script: &Script,
    commands: &[Command],
) -> Result<(), AllocError> {
    for (place, command) in commands.iter().enumerate() {
        write_command(out, script, place, command, "on its way")?;
    }
    Ok(())
}

/// Adds a request that a call sends.
pub(crate) fn write_sent(out: &mut String, script: &Script, sent: &Sent) -> Result<(), AllocError> {
    let (number, state) = (sent.number, state_name(script, sent.state));
    write!(
        out,
        r#","sent":{{"request_number":{number},"state":"{state}","request":["#
    )?;
    write_sent_commands(out, script, sent.commands.as_slice())?;
    out.push_str("]")?;
    write_bound(out, script, &sent.bound)?;
    out.push_str("}")
}

/// The word of what became of a request.
fn fate_word(fate: Fate) -> &'static str {
    match fate {
        Fate::Executed => "executed",
        Fate::Repeated => "repeated",
        Fate::Discarded => "discarded",
    }
}

/// Adds the commands of a request that reached the gateway.
fn write_executed_commands(
    out: &mut String,
    script: &Script,
    executed: &Executed,
) -> Result<(), AllocError> {
    for (place, command) in executed.commands.as_slice().iter().enumerate() {
        let mark = mark(executed.fate, executed.failure, place);
        write_command(out, script, place, command, mark)?;
    }
    Ok(())
}

/// Adds a request that reached the gateway, by the lines of the call.
pub(crate) fn write_executed(
    out: &mut String,
    script: &Script,
    lines: &[LineNo],
    executed: &Executed,
) -> Result<(), AllocError> {
    let (number, fate) = (executed.number, fate_word(executed.fate));
    write!(
        out,
        r#","executed":{{"request_number":{number},"fate":"{fate}","request":["#
    )?;
    write_executed_commands(out, script, executed)?;
    out.push_str("]")?;
    write_bound(out, script, &executed.bound)?;
    write_results(out, script, lines, executed.results.as_slice())?;
    write_refused(out, executed.failure)?;
    out.push_str("}")
}

/// Adds a reply that reached the call.
pub(crate) fn write_reply(out: &mut String, reply: &TakenReply) -> Result<(), AllocError> {
    let number = reply.number;
    write!(out, r#","reply":{{"request_number":{number}"#)?;
    write_refused(out, reply.failure)?;
    out.push_str("}")
}
