//! The layer `requests`: requests that run on a connection model and its lines by themselves, without links and calls.
ghost use Rattle.std.specs.Prelude.{IfOk};
ghost use Rattle.requests.specs.Connected.{HasResults};

use crate::names::{self, NO_NAMES, Names};
use crate::pages::{Answer, Page};
use crate::sheets::{End, Layer, Sheet};
use crate::words::Words;
use crate::{board_reads, board_seen, commands, events, replies};
use mg_model::failures::ChosenRefusal;
use mg_model::line_events::LineEvent;
use mg_names::identifiers::{Assoc, CallNo, LineNo};
use requests::{Connections, LineNote, MessageId, Outcome, Reply, Request, SentNote};
use std::alloc::{AllocError, Global};

/// The message that a row names by its number: of call 1 in association 1.
const fn id(number: u32) -> MessageId {
    MessageId {
        call: CallNo(1),
        association: Assoc(1),
        number,
    }
}

/// Connections, and the names of what they gave.
#[derive(Drop)]
struct Runs {
    alloc: Global,
    lines: Vec<LineNo>,
    connections: Connections,
    names: Names,
}

/// The rows of requests.
pub(crate) fn play(alloc: Global, sheet: &mut Sheet, rows: &str) -> End {
    match Connections::new(alloc, &[]) {
        Ok(connections) => {
            let mut runs = Runs {
                alloc,
                lines: Vec::new(alloc),
                connections,
                names: NO_NAMES,
            };
            sheet.play(&mut runs, rows)
        }
        Err(_) => End::NoMemory,
    }
}

fn write_notes(page: &mut Page, notes: &[LineNote]) {
    for raised in notes {
        page.numbered(" ; note l/", u64::from(raised.line.0));
        page.say(" ");
        events::write_note(page, &raised.note);
    }
}

/// Writes that it is done, where there was memory for it.
fn write_did(page: &mut Page, answer: Result<(), AllocError>) -> Answer {
    match answer {
        Ok(()) => page.done(),
        Err(_) => Answer::NoMemory,
    }
}

/// Tells these lines of connections.
fn show_lines(page: &mut Page, connections: &Connections, lines: &[LineNo]) {
    for line in lines {
        page.numbered("; l/", u64::from(line.0));
        page.say(" ");
        events::write_line(page, connections.line(*line));
    }
}

/// What a request leaves on equal connections and what it came to.
fn ran(
    connections: &Connections,
    request: &Request,
    chosen: Option<ChosenRefusal>,
) -> Result<(Connections, Outcome), AllocError>
    ensures { IfOk result (λ ended. HasResults connections.now request.now chosen ended.1.results.items) }
{
    let equal = connections.copy()?;
    let ended = equal.run(request, chosen)?;
    Ok(ended)
}

/// The same, where what it leaves is what following its results leaves.
fn followed(
    connections: &Connections,
    request: &Request,
    chosen: Option<ChosenRefusal>,
) -> Result<(Connections, Outcome), AllocError> {
    let (_, outcome) = ran(connections, request, chosen)?;
    let equal = connections.copy()?;
    match equal.follow(request, chosen, outcome.results.as_slice()) {
        Some(after) => Ok((after, outcome)),
        None => Err(AllocError),
    }
}

impl Runs {
    /// Connections with the lines that the words name.
    fn anew(&mut self, page: &mut Page, words: &mut Words<'_>) -> Answer {
        let (first, stride) = words.class();
        if first >= stride {
            return Answer::NoCall;
        }
        if names::read_lines(&mut self.lines, words.rest()) != Answer::Told {
            return Answer::NoMemory;
        }
        match Connections::with_ids(self.alloc, self.lines.as_slice(), first, stride) {
            Ok(connections) => {
                self.connections = connections;
                self.names = NO_NAMES;
                page.done()
            }
            Err(_) => Answer::NoMemory,
        }
    }

    /// What a request left stays, and a copy of the reply that says what it came to is written, with its notes.
    fn stay(
        &mut self,
        page: &mut Page,
        id: MessageId,
        after: Connections,
        outcome: Outcome,
    ) -> Answer {
        let Outcome {
            results,
            failure,
            notes,
        } = outcome;
        match Reply::new(id, results, failure).copy() {
            Ok(copied) => {
                self.connections = after;
                replies::write_reply(page, &mut self.names, id, &copied);
                write_notes(page, notes.as_slice());
                Answer::Told
            }
            Err(_) => Answer::NoMemory,
        }
    }

    /// A request runs, or is followed, and what it leaves stays once no more memory is wanted.
    fn run(
        &mut self,
        page: &mut Page,
        verb: &str,
        request: &Request,
        chosen: Option<ChosenRefusal>,
    ) -> Answer {
        let ran = match verb {
            "run" => ran(&self.connections, request, chosen),
            _ => followed(&self.connections, request, chosen),
        };
        match ran {
            Ok((after, outcome)) => self.stay(page, request.id(), after, outcome),
            Err(_) => Answer::NoMemory,
        }
    }

    /// The request of a row runs: `run NUMBER : COMMANDS`.
    fn asked(&mut self, page: &mut Page, verb: &str, words: &mut Words<'_>) -> Answer {
        let number = words.number();
        let chosen = commands::chosen(words);
        let _colon = words.next();
        let Some(number) = number else {
            return Answer::NoCall;
        };
        match commands::read(self.alloc, &self.names, words.rest()) {
            Ok(commands) => self.run(page, verb, &Request::new(id(number), commands), chosen),
            Err(answer) => answer,
        }
    }

    /// Something happens on a line, and its note is number 1 to call 1.
    fn happen(&mut self, page: &mut Page, line: LineNo, event: LineEvent) -> Answer {
        match self.connections.happen(line, event) {
            Ok(Some(note)) => {
                replies::write_note(page, &SentNote::new(id(1), LineNote { line, note }))
            }
            answer => events::write_noted(page, &answer),
        }
    }

    /// Writes whether an event on a line raises a note.
    fn write_raises(&self, page: &mut Page, line: LineNo, words: &mut Words<'_>) -> Answer {
        let verb = words.next();
        match events::event(verb, words) {
            Some(event) => page.yes_or_no(self.connections.raises(line, event)),
            None => Answer::NoCall,
        }
    }

    /// What is done to a line, or read of it.
    fn of_line(&mut self, page: &mut Page, verb: &str, words: &mut Words<'_>) -> Answer {
        let Some(line) = names::line(words.next()) else {
            return Answer::NoCall;
        };
        match verb {
            "open" => write_did(page, self.connections.open_line(line)),
            "deactivate" => write_did(page, self.connections.deactivate(line)),
            "line" => events::write_line(page, self.connections.line(line)),
            "idle" => page.yes_or_no(self.connections.is_idle(line)),
            "there" => page.yes_or_no(self.connections.has_line(line)),
            "raises" => self.write_raises(page, line, words),
            _ => match events::event(verb, words) {
                Some(event) => self.happen(page, line, event),
                None => Answer::NoCall,
            },
        }
    }

    /// What is done to a line, or read of it or of the board.
    fn of_line_or_read(&mut self, page: &mut Page, verb: &str, words: Words<'_>) -> Answer {
        let mut ahead = words;
        match self.of_line(page, verb, &mut ahead) {
            Answer::NoCall => {
                let board = self.connections.board();
                board_reads::write_read(page, &self.names, board, verb, words)
            }
            answer => answer,
        }
    }
}

impl Layer for Runs {
    fn show(&self, page: &mut Page) {
        self.names.show(page);
        board_seen::show_board(page, self.connections.board());
        match self.connections.board().lines() {
            Ok(found) => show_lines(page, &self.connections, found.as_slice()),
            Err(_) => page.lack(),
        }
    }

    fn answer(&mut self, page: &mut Page, words: Words<'_>) -> Answer {
        let mut words = words;
        let verb = words.next();
        match verb {
            "new" => self.anew(page, &mut words),
            "run" | "follow" => self.asked(page, verb, &mut words),
            "restart" => {
                self.connections.restart();
                page.done()
            }
            _ => self.of_line_or_read(page, verb, words),
        }
    }
}
