//! The layer `gateway`: a gateway with its calls, requests and events that reach it, and restarts.
use crate::names::{self, NO_NAMES, Names, write_all, write_names};
use crate::pages::{Answer, Page};
use crate::sheets::{End, Layer, Sheet};
use crate::words::{Words, number};
use crate::{board_reads, board_seen, commands, events, replies};
use gateway::{Answer as Executed, BeginFault, Gateway, OpenFault, SentNote};
use mg_model::failures::ChosenRefusal;
use mg_model::line_events::LineEvent;
use mg_names::identifiers::{Assoc, CallNo, LineNo};
use requests::{MessageId, Request, RequestCommand};
use std::alloc::Global;

/// A gateway, and the names of what it gave.
#[derive(Drop)]
struct Gateways {
    alloc: Global,
    lines: Vec<LineNo>,
    gateway: Gateway,
    names: Names,
}

/// What reaches a gateway beside the commands of a request: the call that it reaches the gateway for, and the message that it says it is.
#[derive(Clone, Copy)]
struct Head {
    reached: CallNo,
    id: MessageId,
    chosen: Option<ChosenRefusal>,
}

/// The rows of gateways.
pub(crate) fn play(alloc: Global, sheet: &mut Sheet, rows: &str) -> End {
    match Gateway::new(alloc, &[]) {
        Ok(gateway) => {
            let mut gateways = Gateways {
                alloc,
                lines: Vec::new(alloc),
                gateway,
                names: NO_NAMES,
            };
            sheet.play(&mut gateways, rows)
        }
        Err(_) => End::NoMemory,
    }
}

fn write_notes(page: &mut Page, notes: &[SentNote]) {
    for note in notes {
        page.say(" ; ");
        replies::write_note(page, note);
    }
}

/// Writes the answer to a request.
fn write_answer(page: &mut Page, names: &mut Names, id: MessageId, answer: &Executed) -> Answer {
    match answer {
        Executed::Executed { reply, notes } => {
            replies::write_reply(page, names, id, reply);
            write_notes(page, notes.as_slice());
        }
        Executed::Kept(reply) => {
            page.say("kept ");
            replies::write_reply(page, names, id, reply);
        }
        Executed::Discarded => page.say("discarded"),
        Executed::CannotHappen => page.say("cannot happen"),
        Executed::NoMemory => return Answer::NoMemory,
    }
    Answer::Told
}

fn write_call(page: &mut Page, call: Option<CallNo>) -> Answer {
    match call {
        Some(call) => page.numbered("call ", u64::from(call.0)),
        None => page.say("no call"),
    }
    Answer::Told
}

/// Tells each of these lines with the call that holds it.
fn show_lines(page: &mut Page, gateway: &Gateway, lines: &[LineNo]) {
    for line in lines {
        page.numbered("; l/", u64::from(line.0));
        page.say(" of ");
        write_call(page, gateway.holder(*line));
        page.say(", ");
        events::write_line(page, gateway.line(*line));
    }
}

/// Tells which call created each of these ephemerals.
fn show_ephemerals(page: &mut Page, gateway: &Gateway, ephemerals: &[u32]) {
    for ephemeral in ephemerals {
        page.numbered("; e/", u64::from(*ephemeral));
        page.say(" of ");
        write_call(page, gateway.creator(*ephemeral));
    }
}

/// Tells the association, the calls that are open, who holds each line, and who created each ephemeral.
fn show_gateway(page: &mut Page, gateway: &Gateway) {
    page.numbered("; association ", gateway.association().0);
    page.say(", calls");
    match (
        gateway.calls(),
        gateway.lines(),
        gateway.board().ephemerals(),
    ) {
        (Ok(calls), Ok(lines), Ok(ephemerals)) => {
            write_names(page, &NO_NAMES, calls.as_slice());
            show_lines(page, gateway, lines.as_slice());
            show_ephemerals(page, gateway, ephemerals.as_slice());
        }
        _ => page.lack(),
    }
}

impl Gateways {
    /// A gateway with the lines that the words name.
    fn anew(&mut self, page: &mut Page, words: &mut Words<'_>) -> Answer {
        let (first, stride) = words.class();
        if first >= stride {
            return Answer::NoCall;
        }
        if names::read_lines(&mut self.lines, words.rest()) != Answer::Told {
            return Answer::NoMemory;
        }
        match Gateway::with_ids(self.alloc, self.lines.as_slice(), first, stride) {
            Ok(gateway) => {
                self.gateway = gateway;
                self.names = NO_NAMES;
                page.done()
            }
            Err(_) => Answer::NoMemory,
        }
    }

    fn open_call(&mut self, page: &mut Page, words: &mut Words<'_>) -> Answer {
        let Some(call) = words.number() else {
            return Answer::NoCall;
        };
        if names::read_lines(&mut self.lines, words.rest()) != Answer::Told {
            return Answer::NoMemory;
        }
        match self.gateway.open_call(CallNo(call), self.lines.as_slice()) {
            Ok(()) => page.done(),
            Err(OpenFault::NoMemory) => Answer::NoMemory,
            Err(fault) => page.refused(u16::from(fault.number()), fault.name()),
        }
    }

    fn begin(&mut self, page: &mut Page, words: &mut Words<'_>) -> Answer {
        let (Some(old), Some(new)) = (words.number(), words.number()) else {
            return Answer::NoCall;
        };
        match self.gateway.begin(CallNo(old), CallNo(new)) {
            Ok(()) => page.done(),
            Err(BeginFault::NoMemory) => Answer::NoMemory,
            Err(fault) => page.refused(u16::from(fault.number()), fault.name()),
        }
    }

    /// What reaches the gateway beside the commands: `CALL NUMBER of=CALL association=A refuse=PLACE/CODE`, of the call and the association of the gateway
    /// where none is named.
    fn head(&self, words: &mut Words<'_>) -> Option<Head> {
        let (Some(reached), Some(message)) = (words.number(), words.number()) else {
            return None;
        };
        let call = number(words.value_of("of=")).unwrap_or(reached);
        let association = match number(words.value_of("association=")) {
            Some(number) => Assoc(u64::from(number)),
            None => self.gateway.association(),
        };
        Some(Head {
            reached: CallNo(reached),
            id: MessageId {
                call: CallNo(call),
                association,
                number: message,
            },
            chosen: commands::chosen(words),
        })
    }

    /// These commands reach the gateway.
    fn ask(&mut self, page: &mut Page, head: Head, commands: Vec<RequestCommand>) -> Answer {
        let request = Request::new(head.id, commands);
        let answer = self.gateway.execute(head.reached, &request, head.chosen);
        write_answer(page, &mut self.names, head.id, &answer)
    }

    /// A request reaches the gateway for a call, and names that or another one: `execute CALL NUMBER of=CALL : COMMANDS`.
    fn execute(&mut self, page: &mut Page, words: &mut Words<'_>) -> Answer {
        let Some(head) = self.head(words) else {
            return Answer::NoCall;
        };
        let _colon = words.next();
        match commands::read(self.alloc, &self.names, words.rest()) {
            Ok(commands) => self.ask(page, head, commands),
            Err(answer) => answer,
        }
    }

    /// Something happens on a line.
    fn happen(&mut self, page: &mut Page, line: LineNo, event: LineEvent) -> Answer {
        match self.gateway.happen(line, event) {
            Ok(Some(note)) => return replies::write_note(page, &note),
            Ok(None) => page.say("no note"),
            Err(_) => page.say("cannot happen"),
        }
        Answer::Told
    }

    fn restart(&mut self, page: &mut Page) -> Answer {
        match self.gateway.restart() {
            Ok(association) => page.numbered("association ", association.0),
            Err(_) => page.say("cannot happen"),
        }
        Answer::Told
    }

    /// Writes what is read of the gateway, of a line, a call or an ephemeral of it, or of its board.
    fn write_read(&self, page: &mut Page, verb: &str, words: Words<'_>) -> Answer {
        let mut ahead = words;
        let word = ahead.next();
        match (verb, names::line(word), self.names.ephemeral(word)) {
            ("calls", _, _) => write_all(page, &self.names, &self.gateway.calls()),
            ("lines", _, _) => write_all(page, &self.names, &self.gateway.lines()),
            ("holder", Some(line), _) => write_call(page, self.gateway.holder(line)),
            ("line", Some(line), _) => events::write_line(page, self.gateway.line(line)),
            ("creator", _, Some(ephemeral)) => write_call(page, self.gateway.creator(ephemeral)),
            _ => board_reads::write_read(page, &self.names, self.gateway.board(), verb, words),
        }
    }

    /// Something happens on a line, or what is read of the gateway.
    fn happen_or_read(&mut self, page: &mut Page, verb: &str, words: Words<'_>) -> Answer {
        let mut ahead = words;
        let line = names::line(ahead.next());
        match (line, events::event(verb, &mut ahead)) {
            (Some(line), Some(event)) => self.happen(page, line, event),
            _ => self.write_read(page, verb, words),
        }
    }

    /// Writes whether a call is open.
    fn write_is_open(&self, page: &mut Page, call: Option<u32>) -> Answer {
        match call {
            Some(call) => page.yes_or_no(self.gateway.is_open(CallNo(call))),
            None => Answer::NoCall,
        }
    }
}

impl Layer for Gateways {
    fn show(&self, page: &mut Page) {
        self.names.show(page);
        board_seen::show_board(page, self.gateway.board());
        show_gateway(page, &self.gateway);
    }

    fn answer(&mut self, page: &mut Page, words: Words<'_>) -> Answer {
        let mut words = words;
        let verb = words.next();
        match verb {
            "new" => self.anew(page, &mut words),
            "open" => self.open_call(page, &mut words),
            "begin" => self.begin(page, &mut words),
            "execute" => self.execute(page, &mut words),
            "restart" => self.restart(page),
            "open?" => self.write_is_open(page, words.number()),
            "association" => {
                page.number(self.gateway.association().0);
                Answer::Told
            }
            _ => self.happen_or_read(page, verb, words),
        }
    }
}
