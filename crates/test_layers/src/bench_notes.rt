//! Notes that reach a call at rest, numbered from 1, each as far from the one before it as a stride says, and round again.
use agent::{Call, Next, Resting};
use line_events::{EventList, LineSet};
use mg_model::line_events::Hook;
use mg_model::transitions::EventItem;
use mg_names::identifiers::{Assoc, CallNo, LineNo};
use mg_names::strictness::Strict;
use requests::{LineNote, MessageId, SentNote};
use script_table::Script;
use scriptreader::read_script;
use std::alloc::Global;

/// A script of two lines, and a state that nothing leads out of.
pub const SCRIPT: &str = "lines = ['a', 'b']\nstart = 's'\nrestart = 's'\n[[state]]\nname = 's'\n";

const CALL: CallNo = CallNo(1);

/// The line that notes come from.
const LINE: LineNo = LineNo(1);

const OTHER: LineNo = LineNo(2);

/// A line on hook reports from now on each time that it goes off hook.
fn arms(lines: &mut LineSet, list: &EventList) -> bool {
    let is_there = lines.add_line(LINE).is_ok();
    is_there && lines.arm(LINE, list, 5).is_ok()
}

/// The note with a number: the line goes off hook, and on hook again.
fn note(lines: &mut LineSet, number: u32) -> Option<SentNote> {
    let id = MessageId {
        call: CALL,
        association: Assoc(1),
        number,
    };
    match (lines.hook(LINE, Hook::Off), lines.hook(LINE, Hook::On)) {
        (Ok(Some(note)), Ok(_)) => Some(SentNote::new(id, LineNote { line: LINE, note })),
        _ => None,
    }
}

/// The call after a note that leads nowhere.
fn after<'s>(call: Call<'s, Resting>, note: &SentNote) -> Option<Call<'s, Resting>> {
    match call.note(note) {
        Ok(Next::Resting(call)) => Some(call),
        _ => None,
    }
}

/// Whether a call accepts so many notes of a line.
fn accepts(lines: &mut LineSet, call: Call<'_, Resting>, notes: u32, stride: u32) -> Option<usize> {
    let mut call = call;
    let mut last = 0u32;
    for _ in 0..notes {
        let next = u64::from(last).saturating_add(u64::from(stride)) % u64::from(notes);
        last = next as u32;
        call = after(call, &note(lines, last.saturating_add(1))?)?;
    }
    Some(call.transcript().len())
}

/// Whether a call that is opened here accepts so many notes.
fn opened(alloc: Global, script: &Script, list: &EventList, notes: u32, stride: u32) -> bool {
    let mut lines = LineSet::new(alloc);
    if !arms(&mut lines, list) {
        return false;
    }
    match Call::enter(alloc, script, CALL, &[LINE, OTHER]) {
        Ok(Next::Resting(call)) => {
            accepts(&mut lines, call, notes, stride) == Some(notes as usize)
        }
        _ => false,
    }
}

/// Whether so many notes are accepted.
pub(crate) fn measured(alloc: Global, notes: u32, stride: u32) -> bool {
    let item = EventItem::OffHook(Strict::Exact);
    match (
        read_script(alloc, SCRIPT.as_bytes()),
        Vec::from_array(alloc, [item]),
    ) {
        (Ok(script), Ok(items)) => { opened(alloc, &script, &EventList::new(items), notes, stride) }
        _ => false,
    }
}
