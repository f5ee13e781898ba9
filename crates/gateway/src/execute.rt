//! A request reaches the gateway.
ghost use Rattle.std.specs.Prelude.{◌≡◌, true, IfOk, OnOk, OnErr};
ghost use Rattle.requests.specs.Connected.{board_in};
ghost use Rattle.gateway.specs.Answers.{IsAnswered, IsSame};
ghost use Rattle.gateway.specs.Execution.{IsJudged, IsNew, IsRun, AreNew, IsNoted};
ghost use Rattle.gateway.specs.GatewayValue.{is_open};

use crate::answer::Answer;
use crate::gateway::Gateway;
use crate::{calls, creators, numbering};
use contexts::Done;
use delivery::Offer;
use mg_model::failures::ChosenRefusal;
use mg_names::identifiers::CallNo;
use requests::{Connections, Outcome, Reply, Request, SentNote};
use std::alloc::AllocError;

/// What is to be done with a request.
#[derive(Drop)]
pub(crate) enum Judged {
    /// It is to be executed. The number is that of the last note of its call.
    New(u32),
    /// Its reply is to be sent once more.
    Again(Reply),
    /// Nothing.
    Nothing,
    /// The numbers of notes could run out.
    Full,
    /// Memory ran out.
    NoMemory,
}

/// Where a request ended: the connections, its reply twice, and its notes with the number of the last one.
#[derive(Drop)]
pub(crate) struct Ended {
    connections: Connections,
    reply: Reply,
    kept: Reply,
    notes: Vec<SentNote>,
    last: u32,
}

impl Gateway {
    /// What is to be done with a request to a call.
    fn judge(&self, call: CallNo, request: &Request) -> Judged
        ensures { IsJudged self.now call.0 request.now result }
    {
        if request.call() != call {
            return Judged::Nothing;
        }
        let Some(state) = calls::call(&self.calls, call.0) else {
            return Judged::Nothing;
        };
        match state.offer(request.association(), request.number()) {
            Offer::Discard => Judged::Nothing,
            Offer::Kept(reply) => match reply.copy() {
                Ok(reply) => Judged::Again(reply),
                Err(_) => Judged::NoMemory,
            },
            Offer::Fresh => {
                let last = state.notes();
                if request.commands().len() > state.room() {
                    Judged::Full
                } else {
                    Judged::New(last)
                }
            }
        }
    }

    /// The run of a request that is new, with all that is to be put in place and sent.
    fn run(
        &mut self,
        request: &Request,
        chosen: Option<ChosenRefusal>,
        last: u32,
    ) -> Result<Ended, AllocError>
        requires { IsNew self.old request.now last }
        ensures runs { IfOk result (λ e. IsRun self.old.connected request.now chosen last e.connections e.reply e.kept e.notes.items e.last) }
        ensures unchanged { self.new ≡ self.old }
    {
        let (connections, outcome) = self.connections.run(request, chosen)?;
        let Outcome {
            results,
            failure,
            notes,
        } = outcome;
        let count = notes.len() as u32;
        let notes = numbering::numbered(self.alloc, request, last, notes)?;
        let reply = Reply::new(request.id(), results, failure);
        let kept = reply.copy()?;
        Ok(Ended {
            connections,
            reply,
            kept,
            notes,
            last: last + count,
        })
    }

    /// Notes of the request's call what it created, and the call as the creator. Nothing shows it before the request is put in place.
    fn note_creators(&mut self, request: &Request, results: &[Done]) -> Result<(), AllocError>
        requires new { AreNew (board_in self.old.connected) results.now }
        requires open { is_open self.old request.now.call ≡ true }
        ensures noted { OnOk result (IsNoted request.now.call results.now self.old self.new) }
        ensures unchanged { IsSame self.old self.new }
    {
        let call = request.call().0;
        calls::note_created(&mut self.calls, call, results)?;
        creators::note(&mut self.creators, results, call)
    }

    /// Where a request ended is put in place, unless memory runs out.
    fn put(
        &mut self,
        request: &Request,
        chosen: Option<ChosenRefusal>,
        last: u32,
        ended: Ended,
    ) -> Answer
        requires new { IsNew self.old request.now last }
        requires runs { IsRun self.old.connected request.now chosen last ended.connections ended.reply ended.kept ended.notes.items ended.last }
        ensures { IsAnswered self.old request.now.call request.now chosen self.new result }
    {
        let Ok(()) = self.note_creators(request, ended.reply.results()) else {
            return Answer::NoMemory;
        };
        let Ended {
            connections,
            reply,
            kept,
            notes,
            last,
        } = ended;
        self.connections
            .change_places(connections, request, chosen, reply.results());
        calls::keep(&mut self.calls, request.call().0, kept, last);
        Answer::Executed { reply, notes }
    }

    /// A request reaches the gateway for a call (H.248.1 Annex D.1.1). `chosen` is a refusal for one of its commands, if there is one.
    pub fn execute(
        &mut self,
        call: CallNo,
        request: &Request,
        chosen: Option<ChosenRefusal>,
    ) -> Answer
        ensures { IsAnswered self.old call.0 request.now chosen self.new result }
    {
        match self.judge(call, request) {
            Judged::Again(reply) => Answer::Kept(reply),
            Judged::Nothing => Answer::Discarded,
            Judged::Full => Answer::CannotHappen,
            Judged::NoMemory => Answer::NoMemory,
            Judged::New(last) => {
                let Ok(ended) = self.run(request, chosen, last) else {
                    return Answer::NoMemory;
                };
                self.put(request, chosen, last, ended)
            }
        }
    }
}
