//! What a call and its gateway send each other along its events, what plays, and who hears whom: a gateway goes along with the one that the steps are taken on.
use crate::fault::SceneFault;
use crate::names_bound::NamesBound;
use crate::results::{contexts_of, results_of};
use crate::shown::{Executed, Fate, Hearing, NoteSent, Sent, Shown, TakenReply};
use agent::Next;
use gateway::{
    Answer, ChosenRefusal, ContextRef, Gateway, LineEvent, MessageId, Reply, Request, SentNote,
    SignalSet,
};
use mg_model::commands::Command;
use mg_model::events::{CallEvent, Event};
use mg_names::identifiers::{CallNo, LineNo};
use script_table::Script;
use std::alloc::{AllocError, Global};

/// A request that was sent, and the latest reply to it.
#[derive(Drop)]
struct Asked {
    id: MessageId,
    commands: Vec<Command>,
    /// The context that each of them names.
    contexts: Vec<ContextRef>,
    /// What the names were bound to as it was built.
    bound: NamesBound,
    reply: Option<Reply>,
}

/// A gateway that goes along, with what the call that stands was sent. This profile's own.
#[derive(Drop)]
pub struct Scene<'s> {
    alloc: Global,
    script: &'s Script,
    lines: Vec<LineNo>,
    gateway: Gateway,
    bound: NamesBound,
    asked: Vec<Asked>,
    notes: Vec<NoteSent>,
}

/// The request that a call waits for, where it is one of this number.
fn outstanding<'a>(next: &'a Next<'_>, number: u32) -> Option<&'a Request> {
    match next {
        Next::Waiting(call) => match call.request() {
            Some(request) if request.number() == number => Some(request),
            _ => None,
        },
        Next::Resting(_) | Next::Ended(_) => None,
    }
}

impl<'s> Scene<'s> {
    /// A gateway that opens with a call of these lines.
    pub fn open(
        alloc: Global,
        script: &'s Script,
        call: CallNo,
        lines: &[LineNo],
    ) -> Result<Scene<'s>, SceneFault> {
        let mut gateway = Gateway::new(alloc, lines)?;
        let Ok(()) = gateway.open_call(call, lines) else {
            return Err(SceneFault::NoMemory);
        };
        Ok(Scene {
            alloc,
            script,
            lines: lines.to_vec(alloc)?,
            gateway,
            bound: NamesBound::NONE,
            asked: Vec::new(alloc),
            notes: Vec::new(alloc),
        })
    }

    /// The signals of each line.
    fn plays(&self) -> Result<Vec<SignalSet>, AllocError> {
        let mut plays = Vec::new(self.alloc);
        for line in self.lines.as_slice() {
            plays.push(match self.gateway.line(*line) {
                Some(row) => row.playing(),
                None => SignalSet::SILENT,
            })?;
        }
        Ok(plays)
    }

    /// Adds the lines that hear a line.
    fn add_hearers(&self, hears: &mut Vec<Hearing>, from: LineNo) -> Result<(), AllocError> {
        for to in self.lines.as_slice() {
            if self.gateway.board().path(from, *to) {
                hears.push(Hearing { from, to: *to })?;
            }
        }
        Ok(())
    }

    /// Which lines hear which.
    fn hears(&self) -> Result<Vec<Hearing>, AllocError> {
        let mut hears = Vec::new(self.alloc);
        for from in self.lines.as_slice() {
            self.add_hearers(&mut hears, *from)?;
        }
        Ok(hears)
    }

    /// The place of the request with a number among those that were sent.
    fn place(&self, number: u32) -> Option<usize> {
        let asked = self.asked.as_slice();
        asked.iter().position(|one| one.id.number == number)
    }

    /// The place of the request with a number, and which message it is.
    fn found(&self, number: u32) -> Option<(usize, MessageId)> {
        let place = self.place(number)?;
        Some((place, self.asked.get(place)?.id))
    }

    /// The gateway sends a note.
    fn send_note(&mut self, shown: &mut Shown, note: NoteSent) -> Result<(), AllocError> {
        shown.notes.push(note.copy())?;
        self.notes.push(note)?;
        Ok(())
    }
}

impl Scene<'_> {
    /// The gateway sends several notes.
    fn send_notes(&mut self, shown: &mut Shown, notes: &[SentNote]) -> Result<(), AllocError> {
        for note in notes {
            self.send_note(shown, NoteSent::of(note))?;
        }
        Ok(())
    }

    /// An event of a line.
    fn happen(
        &mut self,
        shown: &mut Shown,
        line: LineNo,
        event: LineEvent,
    ) -> Result<(), SceneFault> {
        match self.gateway.happen(line, event) {
            Ok(Some(note)) => Ok(self.send_note(shown, NoteSent::of(&note))?),
            Ok(None) => Ok(()),
            Err(_) => Err(SceneFault::Disagree),
        }
    }

    /// What the gateway answers to a request of the call. One that isn't awaited any more is never executed, so that its commands say nothing.
    fn answer(&mut self, next: &Next<'_>, id: MessageId, chosen: Option<ChosenRefusal>) -> Answer {
        match outstanding(next, id.number) {
            Some(request) => self.gateway.execute(id.call, request, chosen),
            None => {
                let past = Request::new(id, Vec::new(self.alloc));
                self.gateway.execute(id.call, &past, chosen)
            }
        }
    }

    /// Keeps the reply to the request at a place, and shows what became of that request.
    fn keep(
        &mut self,
        shown: &mut Shown,
        place: usize,
        fate: Fate,
        reply: Option<Reply>,
    ) -> Result<(), SceneFault> {
        let Some(asked) = self.asked.get_mut(place) else {
            return Err(SceneFault::Disagree);
        };
        let contexts = asked.contexts.as_slice();
        let (failure, results) = match &reply {
            Some(reply) => (reply.failure(), results_of(self.alloc, contexts, reply)?),
            None => (None, Vec::new(self.alloc)),
        };
        shown.executed = Some(Executed {
            number: asked.id.number,
            fate,
            commands: asked.commands.as_slice().to_vec(self.alloc)?,
            bound: asked.bound,
            results,
            failure,
        });
        if reply.is_some() {
            asked.reply = reply;
        }
        Ok(())
    }

    /// A request of the call reaches the gateway.
    fn execute(
        &mut self,
        shown: &mut Shown,
        next: &Next<'_>,
        number: u32,
        chosen: Option<ChosenRefusal>,
    ) -> Result<(), SceneFault> {
        let Some((place, id)) = self.found(number) else {
            return Err(SceneFault::Disagree);
        };
        let answer = self.answer(next, id, chosen);
        match answer {
            Answer::Executed { reply, notes } => {
                self.send_notes(shown, notes.as_slice())?;
                self.keep(shown, place, Fate::Executed, Some(reply))
            }
            Answer::Kept(reply) => self.keep(shown, place, Fate::Repeated, Some(reply)),
            Answer::Discarded => self.keep(shown, place, Fate::Discarded, None),
            Answer::CannotHappen => Err(SceneFault::Disagree),
            Answer::NoMemory => Err(SceneFault::NoMemory),
        }
    }

    /// A reply reaches the call.
    fn take_reply(&mut self, shown: &mut Shown, number: u32) -> Result<(), SceneFault> {
        let Some(place) = self.place(number) else {
            return Err(SceneFault::Disagree);
        };
        let Some(asked) = self.asked.get(place) else {
            return Err(SceneFault::Disagree);
        };
        let Some(reply) = &asked.reply else {
            return Err(SceneFault::Disagree);
        };
        self.bound.take_reply(asked.commands.as_slice(), reply);
        shown.reply = Some(TakenReply {
            number,
            failure: reply.failure(),
        });
        Ok(())
    }

    /// A note reaches the call.
    fn take_note(&self, shown: &mut Shown, number: u32) -> Result<(), SceneFault> {
        for note in self.notes.as_slice() {
            if note.number == number {
                shown.note = Some(note.copy());
                return Ok(());
            }
        }
        Err(SceneFault::Disagree)
    }

    /// A call begins on the lines of another. Nothing was sent to it or by it.
    fn begin(&mut self, old: CallNo, call: CallNo) -> Result<(), SceneFault> {
        let Ok(()) = self.gateway.begin(old, call) else {
            return Err(SceneFault::Disagree);
        };
        self.bound = NamesBound::NONE;
        self.asked = Vec::new(self.alloc);
        self.notes = Vec::new(self.alloc);
        Ok(())
    }

    /// The request that the call sent, if it is one that wasn't sent before.
    fn send(&mut self, shown: &mut Shown, next: &Next<'_>) -> Result<(), SceneFault> {
        let Next::Waiting(call) = next else {
            return Ok(());
        };
        let Some(request) = call.request() else {
            return Ok(());
        };
        if self.place(request.number()).is_some() {
            return Ok(());
        }
        let commands = self.bound.built(self.alloc, self.script, next.state())?;
        if commands.len() != request.commands().len() {
            return Err(SceneFault::Disagree);
        }
        shown.sent = Some(Sent {
            number: request.number(),
            state: next.state(),
            commands: commands.as_slice().to_vec(self.alloc)?,
            bound: self.bound,
        });
        self.asked.push(Asked {
            id: request.id(),
            commands,
            contexts: contexts_of(self.alloc, request)?,
            bound: self.bound,
            reply: None,
        })?;
        Ok(())
    }

    /// What an event of the call shows; `next` is the call after it.
    fn show_of_call(
        &mut self,
        shown: &mut Shown,
        next: &Next<'_>,
        call: CallNo,
        event: CallEvent,
    ) -> Result<(), SceneFault> {
        match event {
            CallEvent::OnLine { line, event } => self.happen(shown, line, event),
            CallEvent::Execute { number, chosen } => self.execute(shown, next, number, chosen),
            CallEvent::Reply { number } => {
                self.take_reply(shown, number)?;
                self.send(shown, next)
            }
            CallEvent::Note { number } => {
                self.take_note(shown, number)?;
                self.send(shown, next)
            }
            CallEvent::Pass | CallEvent::Timer => self.send(shown, next),
            CallEvent::Hear { .. } => {
                self.bound = NamesBound::NONE;
                self.send(shown, next)
            }
            CallEvent::Begin { old } => self.begin(old, call),
        }
    }

    /// What plays then, and who hears whom.
    fn rest(&self, shown: &mut Shown) -> Result<(), AllocError> {
        shown.plays = self.plays()?;
        shown.hears = self.hears()?;
        Ok(())
    }

    /// The gateway restarts.
    fn restart(&mut self) -> Result<(), SceneFault> {
        let Ok(_) = self.gateway.restart() else {
            return Err(SceneFault::Disagree);
        };
        Ok(())
    }

    /// What an event shows that happened, of the call or a restart; `next` is the call after it. `Disagree` where this gateway went another way. This profile's
    /// own.
    pub fn show_event(&mut self, event: &Event, next: &Next<'_>) -> Result<Shown, SceneFault> {
        let mut shown = Shown::nothing(self.alloc);
        match *event {
            Event::OfCall { call, event } => self.show_of_call(&mut shown, next, call, event)?,
            Event::Restart => self.restart()?,
        }
        self.rest(&mut shown)?;
        Ok(shown)
    }

    /// What is shown where nothing happened: what plays, and who hears whom. This profile's own.
    pub fn show_idle(&self) -> Result<Shown, SceneFault> {
        let mut shown = Shown::nothing(self.alloc);
        self.rest(&mut shown)?;
        Ok(shown)
    }
}
