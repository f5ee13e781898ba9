//! The layer `agents`: what reaches the agent of a call is written out in each row, and no gateway is there.
use crate::deliveries::{Delivered, NOBODY, Party, read, read_party};
use crate::pages::{Answer, Page};
use crate::scripts::{script, write_sizes};
use crate::sheets::{End, Layer, Sheet};
use crate::told::{Phase, waiting, write_standing};
use crate::words::Words;
use agent::{Delivery, Plain, PlainFault, PreparedStep};
use mg_names::identifiers::CallNo;
use script_table::Script;
use std::alloc::Global;

/// An agent of a call, which another function owns.
#[derive(Drop)]
struct Agents<'r> {
    alloc: Global,
    script: &'r Script,
    plain: Plain,
    party: Party,
}

/// Writes where an agent stands.
fn write_plain(page: &mut Page, script: &Script, plain: &Plain) -> Answer {
    let phase = if !plain.is_resting() {
        waiting(plain.request())
    } else if script.ends_in(plain.state()) {
        Phase::Ended
    } else {
        Phase::Resting
    };
    write_standing(page, script, plain.state(), phase, plain.association())
}

/// Notes of lower numbers than this are told where a call has to leave all as it was; rows name no others.
const NOTES: u32 = 16;

/// Tells which of the first notes of its association an agent hasn't accepted.
fn show_new(page: &mut Page, plain: &Plain) {
    for note in 0..NOTES {
        if plain.is_new(plain.association(), note) {
            page.numbered(" ", u64::from(note));
        }
    }
}

/// A step of an agent.
fn step(plain: &mut Plain, script: &Script, told: &Delivered) -> Result<(), PlainFault> {
    match told {
        Delivered::Reply(reply) => plain.reply(script, reply),
        Delivered::Pass => plain.pass(script),
        Delivered::Note(note) => plain.note(script, note),
        Delivered::Timer => plain.timer(script),
        Delivered::Hear(association) => plain.hear(script, *association),
    }
}

/// A step that is prepared.
fn prepare(
    plain: &mut Plain,
    script: &Script,
    told: &Delivered,
) -> Result<PreparedStep, PlainFault> {
    match told {
        Delivered::Reply(reply) => plain.prepare(script, &Delivery::Reply(reply)),
        Delivered::Pass => plain.prepare(script, &Delivery::Pass),
        Delivered::Note(note) => plain.prepare(script, &Delivery::Note(note)),
        Delivered::Timer => plain.prepare(script, &Delivery::Timer),
        Delivered::Hear(association) => plain.prepare(script, &Delivery::Hear(*association)),
    }
}

/// Writes what a step that is prepared would send.
fn write_ahead(page: &mut Page, ahead: &PreparedStep) {
    match ahead.request() {
        Some(request) => {
            page.numbered(", ahead request ", u64::from(request.number()));
            page.numbered(" of ", request.commands().len() as u64);
            page.say(" commands, ");
        }
        None => page.say(", ahead no request, "),
    }
}

/// The faults of agents.
fn write_faults(page: &mut Page) -> Answer {
    let (refused, memory) = (PlainFault::NotEnabled, PlainFault::NoMemory);
    page.refused(u16::from(refused.number()), refused.name());
    page.say(", ");
    page.refused(u16::from(memory.number()), memory.name())
}

/// The rows of agents of a script.
fn play_agents(alloc: Global, sheet: &mut Sheet, script: &Script, rows: &str) -> End {
    let mut agents = Agents {
        alloc,
        script,
        plain: Plain::enter(alloc, script, NOBODY.call, &NOBODY.lines),
        party: NOBODY,
    };
    sheet.play(&mut agents, rows)
}

/// The rows of agents.
pub(crate) fn play(alloc: Global, sheet: &mut Sheet, rows: &str) -> End {
    match script(alloc, rows) {
        Ok(script) => play_agents(alloc, sheet, &script, rows),
        Err(end) => end,
    }
}

impl Agents<'_> {
    /// Another agent opens.
    fn open(&mut self, page: &mut Page, words: &mut Words<'_>) -> Answer {
        let Some(party) = read_party(words) else {
            return Answer::NoCall;
        };
        self.party = party;
        self.plain = Plain::enter(self.alloc, self.script, party.call, &party.lines);
        write_plain(page, self.script, &self.plain)
    }

    /// Another call begins on the lines of this one.
    fn begin(&mut self, page: &mut Page, new: Option<u32>) -> Answer {
        let Some(new) = new else {
            return Answer::NoCall;
        };
        self.party.call = CallNo(new);
        self.plain.begin(self.script, self.party.call);
        page.numbered("call ", u64::from(self.plain.call().0));
        page.say(", ");
        write_plain(page, self.script, &self.plain)
    }

    /// Writes why something that reaches the agent comes to nothing, and where the agent stands then.
    fn write_fault(&self, page: &mut Page, fault: PlainFault) -> Answer {
        match fault {
            PlainFault::NoMemory => Answer::NoMemory,
            fault => {
                page.refused(u16::from(fault.number()), fault.name());
                page.say(", ");
                write_plain(page, self.script, &self.plain)
            }
        }
    }

    /// Writes of a step whether it was taken, and where the agent stands then.
    fn step(&mut self, page: &mut Page, told: &Delivered) -> Answer {
        match step(&mut self.plain, self.script, told) {
            Ok(()) => write_plain(page, self.script, &self.plain),
            Err(fault) => self.write_fault(page, fault),
        }
    }

    /// Writes of a step that is prepared where the agent stands before it is finished or cancelled, what it would send, and where the agent stands then.
    fn settle(&mut self, page: &mut Page, ahead: PreparedStep, is_finished: bool) -> Answer {
        write_plain(page, self.script, &self.plain);
        write_ahead(page, &ahead);
        if is_finished {
            let _over = self.plain.finish(ahead);
        } else {
            self.plain.cancel(ahead);
        }
        write_plain(page, self.script, &self.plain)
    }

    /// The same of what reaches the agent.
    fn prepare(&mut self, page: &mut Page, told: &Delivered, is_finished: bool) -> Answer {
        match prepare(&mut self.plain, self.script, told) {
            Ok(ahead) => self.settle(page, ahead, is_finished),
            Err(fault) => self.write_fault(page, fault),
        }
    }

    /// Something reaches the agent, or is prepared, and then finished or cancelled.
    fn deliver(&mut self, page: &mut Page, how: &str, words: &mut Words<'_>) -> Answer {
        match read(self.alloc, self.script, &self.party, words) {
            Ok(told) => match how {
                "finish" => self.prepare(page, &told, true),
                "cancel" => self.prepare(page, &told, false),
                _ => self.step(page, &told),
            },
            Err(answer) => answer,
        }
    }
}

impl Layer for Agents<'_> {
    fn show(&self, page: &mut Page) {
        page.numbered("next number ", self.plain.next_number());
        page.say(", new notes");
        show_new(page, &self.plain);
        page.say(", ");
        write_plain(page, self.script, &self.plain);
    }

    fn answer(&mut self, page: &mut Page, words: Words<'_>) -> Answer {
        let mut words = words;
        let mut all = words;
        let verb = words.next();
        match verb {
            "script" => write_sizes(page, self.script),
            "faults" => write_faults(page),
            "open" => self.open(page, &mut words),
            "begin" => self.begin(page, words.number()),
            "finish" | "cancel" => self.deliver(page, verb, &mut words),
            _ => self.deliver(page, verb, &mut all),
        }
    }
}
