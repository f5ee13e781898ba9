//! The layer of shards: a gateway with its calls and their history, which takes a call, an event of it, and hands the call back. Calls are named by their
//! places, 0 and 1.
use crate::apart;
use crate::plan_steps::{self, event};
use crate::shard_opening::{checked, opened};
use crate::typed::{self, write_faults, write_next};
use agent::{Next, Refusal};
use composition::{CheckFault, Checked, Verdict};
use mg_model::events::Event;
use mg_model::plans::PlanStep;
use mg_names::identifiers::CallNo;
use script_table::Script;
use shards::{RestartFault, Shard, Stepped};
use std::alloc::Global;
use test_layers::pages::{Answer, Page};
use test_layers::scripts::{document, write_sizes};
use test_layers::sheets::{End, Layer, Sheet};
use test_layers::told::{write_event, write_events, write_state};
use test_layers::words::Words;

/// The number of a call that begins is so much higher than that of the one before it.
const BEGUN: u32 = 100;

/// A shard that is open, and its calls, where they aren't in a step.
#[derive(Drop)]
struct Shards<'s> {
    alloc: Global,
    checked: &'s Checked,
    shard: Option<Shard<'s>>,
    first: Option<Next<'s>>,
    second: Option<Next<'s>>,
}

/// Writes why a step was refused.
fn write_refusal(page: &mut Page, why: Refusal) {
    page.refused(u16::from(why.number()), why.name());
    page.say(", ");
    if let Refusal::Behind { slot_count } = why {
        page.number(slot_count as u64);
        page.say(" events in the shard, ");
    }
}

/// Writes what a step came to, and where the call stands then.
fn write_done(
    page: &mut Page,
    script: &Script,
    next: &Next<'_>,
    event: &Event,
    done: &Result<Stepped, Refusal>,
) -> Answer {
    match done {
        Ok(Stepped::Done) => {
            write_event(page, event);
            page.say(", ");
        }
        Ok(Stepped::Begun { retired }) => {
            page.numbered("call ", u64::from(retired.call.0));
            page.numbered(" retired, call ", u64::from(next.call().0));
            page.say(", ");
        }
        Err(Refusal::NoMemory) => return Answer::NoMemory,
        Err(why) => write_refusal(page, *why),
    }
    write_next(page, script, next)
}

/// An event happens to a call.
fn give<'s>(
    page: &mut Page,
    script: &Script,
    shard: &mut Shard<'s>,
    next: Next<'s>,
    event: Event,
) -> (Next<'s>, Answer) {
    let (next, done) = shard.step(next, event);
    let answer = write_done(page, script, &next, &event, &done);
    (next, answer)
}

/// A step of a plan happens to a call, where it means an event.
fn go<'s>(
    page: &mut Page,
    script: &Script,
    shard: &mut Shard<'s>,
    next: Next<'s>,
    step: &PlanStep,
) -> (Next<'s>, Answer) {
    let call = next.call();
    let new = CallNo(call.0.saturating_add(BEGUN));
    match shard.meaning(call, new, step) {
        Some(event) => give(page, script, shard, next, event),
        None => {
            page.say("means nothing, ");
            let answer = write_next(page, script, &next);
            (next, answer)
        }
    }
}

/// Writes where a call is that is open in a shard.
fn write_standing(page: &mut Page, script: &Script, shard: &Shard<'_>, call: CallNo) -> Answer {
    let Some(found) = shard.standing(call) else {
        page.say("none");
        return Answer::Told;
    };
    write_state(page, script, found.state);
    page.say(if found.is_resting {
        " resting"
    } else {
        " waiting"
    });
    page.numbered(", association ", found.association.0);
    Answer::Told
}

/// A row of a shard alone.
fn of_shard(
    page: &mut Page,
    script: &Script,
    shard: &mut Shard<'_>,
    verb: &str,
    words: &mut Words<'_>,
) -> Answer {
    match (verb, words.number()) {
        ("restart", _) => match shard.restart() {
            Ok(association) => {
                page.numbered("association ", association.0);
                Answer::Told
            }
            Err(RestartFault::NoMemory) => Answer::NoMemory,
            Err(_) => {
                page.say("cannot happen");
                Answer::Told
            }
        },
        ("history", _) => write_events(page, shard.history()),
        ("part", Some(call)) => match shard.part(CallNo(call)) {
            Ok(part) => write_events(page, part.as_slice()),
            Err(_) => Answer::NoMemory,
        },
        ("standing", Some(call)) => write_standing(page, script, shard, CallNo(call)),
        _ => Answer::NoCall,
    }
}

/// The rows of shards of a checked script.
fn play_checked(alloc: Global, sheet: &mut Sheet, checked: &Checked, rows: &str) -> End {
    let mut shards = Shards {
        alloc,
        checked,
        shard: None,
        first: None,
        second: None,
    };
    sheet.play(&mut shards, rows)
}

/// The same of a verdict.
fn play_verdict(
    alloc: Global,
    sheet: &mut Sheet,
    verdict: &Result<Verdict, CheckFault>,
    rows: &str,
) -> End {
    match verdict {
        Ok(Verdict::Yes(checked)) => play_checked(alloc, sheet, checked, rows),
        Err(CheckFault::NoMemory) => End::NoMemory,
        _ => End::Unreadable,
    }
}

/// The rows of shards: a script stands before them, and a certificate behind the row `script`.
pub(crate) fn play(alloc: Global, sheet: &mut Sheet, rows: &str) -> End {
    let Some((lines, rest)) = rows.split_once("\nscript") else {
        return End::Unreadable;
    };
    let Some((others, _)) = rest.split_once("\nopen ") else {
        return End::Unreadable;
    };
    match (document(alloc, lines), document(alloc, others)) {
        (Ok(script), Ok(cert)) => {
            let verdict = checked(alloc, &script, &cert);
            play_verdict(alloc, sheet, &verdict, rows)
        }
        _ => End::NoMemory,
    }
}

impl<'s> Shards<'s> {
    /// Writes what the check said.
    fn write_yes(&self, page: &mut Page) -> Answer {
        page.numbered("yes ", self.checked.states() as u64);
        page.numbered(" ", self.checked.entries() as u64);
        let points = u64::try_from(self.checked.points()).unwrap_or(u64::MAX);
        page.numbered(" ", points);
        Answer::Told
    }

    /// Another shard opens.
    fn open(&mut self, page: &mut Page, text: &str) -> Answer {
        match opened(page, self.alloc, self.checked, text) {
            Ok((shard, mut nexts)) => {
                page.number(nexts.len() as u64);
                page.say(" calls");
                self.shard = Some(shard);
                self.second = nexts.pop();
                self.first = nexts.pop();
                Answer::Told
            }
            Err(answer) => answer,
        }
    }

    fn take(&mut self, place: Option<u32>) -> Option<Next<'s>> {
        match place {
            Some(0) => self.first.take(),
            Some(1) => self.second.take(),
            _ => None,
        }
    }

    fn put(&mut self, place: Option<u32>, next: Next<'s>) {
        match place {
            Some(0) => self.first = Some(next),
            _ => self.second = Some(next),
        }
    }

    /// A row of a call that was taken out of its place, which is handed back.
    fn of_call(
        &mut self,
        page: &mut Page,
        next: Next<'s>,
        verb: &str,
        words: &mut Words<'_>,
    ) -> (Next<'s>, Answer) {
        let script = self.checked.script();
        let Some(shard) = &mut self.shard else {
            return (next, Answer::NoCall);
        };
        match verb {
            "call" => match plan_steps::read(self.alloc, script, words.rest()) {
                Ok(step) => go(page, script, shard, next, &step),
                Err(answer) => (next, answer),
            },
            "apart" => apart::hear(page, script, next, words),
            "log" => apart::log(page, script, next, words),
            "transcript" => {
                let answer = write_events(page, next.transcript());
                (next, answer)
            }
            _ => match event(words) {
                Some(event) => {
                    let call = next.call();
                    give(page, script, shard, next, Event::OfCall { call, event })
                }
                None => (next, Answer::NoCall),
            },
        }
    }

    /// A row that a call takes part in, by the place of the call.
    fn with_call(&mut self, page: &mut Page, verb: &str, words: &mut Words<'_>) -> Answer {
        let place = words.number();
        let Some(next) = self.take(place) else {
            return Answer::NoCall;
        };
        let (next, answer) = self.of_call(page, next, verb, words);
        self.put(place, next);
        answer
    }

    /// A row of the shard alone.
    fn alone(&mut self, page: &mut Page, verb: &str, words: &mut Words<'_>) -> Answer {
        let script = self.checked.script();
        match &mut self.shard {
            Some(shard) => of_shard(page, script, shard, verb, words),
            None => Answer::NoCall,
        }
    }
}

impl Layer for Shards<'_> {
    fn show(&self, page: &mut Page) {
        if let Some(shard) = &self.shard {
            page.numbered("history ", shard.history().len() as u64);
            page.numbered(", association ", shard.association().0);
        }
        if let Some(next) = &self.first {
            typed::show(page, next);
        }
        if let Some(next) = &self.second {
            typed::show(page, next);
        }
    }

    fn answer(&mut self, page: &mut Page, words: Words<'_>) -> Answer {
        let mut words = words;
        let verb = words.next();
        match verb {
            "script" => write_sizes(page, self.checked.script()),
            "certificate" => self.write_yes(page),
            "faults" => write_faults(page),
            "open" => self.open(page, words.rest()),
            "call" | "apart" | "log" | "transcript" | "event" => self.with_call(
                page, verb, &mut words,
            ),
            _ => self.alone(page, verb, &mut words),
        }
    }
}
