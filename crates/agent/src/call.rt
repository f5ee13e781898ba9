//! A call whose type says whether it rests, waits or has ended. A step takes the call, and hands it back with its kind or, where it is
//! refused, as it was.
ghost use Rattle.std.specs.Prelude.{◌≡◌, ◌≤◌, [], IfOk, OnOk, OnErr, is_some, length, map, option_map, slice_index_or};
ghost use Rattle.mg_model.specs.Agent as model;
ghost use Rattle.mg_model.specs.Tables.{line_places};
ghost use Rattle.mg_model.specs.World as event;
ghost use Rattle.agent.specs.AgentValue.{agent_of};
ghost use Rattle.agent.specs.Calls.{IsNext, value_of, IsHandedOn, IsTaken, IsLogged, IsBeginning, with_room};
ghost use Rattle.agent.specs.Preparing.{stepped_by};
ghost use Rattle.agent.specs.Steps.{outstanding};

use crate::delivered::Delivery;
use crate::logged::Logged;
use crate::refusal::Refusal;
use crate::retired::Retired;
use mg_model::events::Event;
use mg_names::identifiers::{Assoc, CallNo, LineNo};
use requests::{Reply, Request, SentNote};
use script_table::Script;
use std::alloc::{AllocError, Global};
use std::marker::{Model, PhantomData};

/// A call that rests in a state that isn't an end: a note may reach it, or the timer of its state end.
#[derive(Drop)]
pub struct Resting(());

/// A call that waits for the reply to its request (H.248.1 section 8.2.1), or to be told to go on where the request is empty.
#[derive(Drop)]
pub struct Waiting(());

/// A call that rests in an end state: another may begin on its lines.
#[derive(Drop)]
pub struct Ended(());

/// A call: its agent, the script that it was opened with, and what happened to it so far. `S` says which of the three it is. It can't
/// be copied, so each call goes on along one line: whoever takes a step passes it on by value, which moves a pointer. This profile's own.
#[derive(Drop)]
pub struct Call<'s, S> {
    logged: Box<Logged<'s>>,
    of: PhantomData<S>,
}

impl<'s, S> Model for Call<'s, S> {
    ghost use Rattle.agent.specs.CallValue.{CallValue};

    ghost Value = { CallValue };

    ghost view = { λ c. c.logged.value };
}

/// A call after a step, by what it is then. This profile's own.
#[derive(Drop)]
pub enum Next<'s> {
    /// It rests.
    Resting(Call<'s, Resting>),
    /// It waits.
    Waiting(Call<'s, Waiting>),
    /// It has ended.
    Ended(Call<'s, Ended>),
}

/// A call that didn't take a step: it is as it was, and can take another.
#[derive(Drop)]
pub struct Refused<'s, S> {
    /// The call.
    pub call: Call<'s, S>,
    /// Why it didn't take the step.
    pub why: Refusal,
}

impl<'s, S> Call<'s, S> {
    /// A call, said to be of a kind.
    fn of(logged: Box<Logged<'s>>) -> Call<'s, S>
        ensures { result ≡ logged.entry.value }
    {
        Call {
            logged,
            of: PhantomData,
        }
    }

    /// The call.
    pub fn call(&self) -> CallNo
        ensures { result.0 ≡ (agent_of self.now.agent).call }
    {
        self.logged.agent().call()
    }

    /// The state of the script that the call is in, by its place from 0.
    pub fn state(&self) -> u8
        ensures { result ≡ (agent_of self.now.agent).state }
    {
        self.logged.agent().state()
    }

    /// The association of the call, from 1.
    pub fn association(&self) -> Assoc
        ensures { result.0 ≡ (agent_of self.now.agent).association }
    {
        self.logged.agent().association()
    }

    /// What happened to the call, the latest last.
    pub fn transcript(&self) -> &[Event]
        ensures { result.now ≡ self.now.transcript }
    {
        self.logged.transcript()
    }

    /// Whether its agent can take the step at what reaches it, whichever kind of call it is.
    pub(crate) fn can_step(&self, delivery: &Delivery<'_>) -> bool
        ensures { result ≡ is_some (stepped_by self.now.script (agent_of self.now.agent) delivery.now) }
    {
        self.logged.can_step(delivery)
    }
}

/// A call, by what it is.
#[tactic(auto, unfolding(crate::specs::AgentValue::agent_of))]
fn by_kind<'s>(logged: Box<Logged<'s>>) -> Next<'s>
    ensures kind { IsNext result }
    ensures same { value_of result ≡ logged.entry.value }
{
    if !logged.is_resting() {
        return Next::Waiting(Call::of(logged));
    }
    if logged.is_in_end() {
        return Next::Ended(Call::of(logged));
    }
    Next::Resting(Call::of(logged))
}

/// The answer of a step, with the call in it.
fn answer<'s, S>(
    logged: Box<Logged<'s>>,
    done: Result<(), Refusal>,
) -> Result<Next<'s>, Refused<'s, S>>
    ensures { IsHandedOn logged.entry.value done result }
{
    match done {
        Ok(()) => Ok(by_kind(logged)),
        Err(why) => Err(Refused {
            call: Call::of(logged),
            why,
        }),
    }
}

impl<'s> Call<'s, Resting> {
    /// A call that opens on these lines of the gateway, the first of them for the first line of the script, 4 at most: in the script's
    /// start state and in the first association, each line expected to report with RequestID 0, and nothing happened to it (this
    /// profile's own). `AllocError` where memory ran out.
    pub fn enter(
        alloc: Global,
        script: &'s Script,
        call: CallNo,
        lines: &[LineNo],
    ) -> Result<Next<'s>, AllocError>
        requires { length lines.now ≤ 4 }
        ensures kind { IfOk result (λ next. IsNext next) }
        ensures agent { IfOk result (λ next. agent_of (value_of next).agent ≡ model.opened script.now call.0 (λ i. slice_index_or (map (λ l. l.0) lines.now) i 0)) }
        ensures script { IfOk result (λ next. (value_of next).script ≡ script.now) }
        ensures transcript { IfOk result (λ next. (value_of next).transcript ≡ []) }
    {
        let logged = Box::new(alloc, Logged::enter(alloc, script, call, lines))?;
        Ok(by_kind(logged))
    }
}

impl<'s> Call<'s, Waiting> {
    /// The request whose reply is awaited (H.248.1 section 8.2.1), which is sent again as it is; `None` where the call waits to be told
    /// to go on.
    pub fn request(&self) -> Option<&Request>
        ensures { option_map (λ r. r.now) result ≡ outstanding (agent_of self.now.agent).phase }
    {
        self.logged.agent().request()
    }

    /// Goes on from an empty request, which was not sent and counts as answered without a failure (this profile's own). `NotEnabled`
    /// where the call waits for a reply, or where no number is left for the next request; `NoMemory` where memory ran out for a step
    /// that could be taken.
    pub fn pass(self) -> Result<Next<'s>, Refused<'s, Waiting>>
        ensures { IsTaken (model.passed self.entry.script (agent_of self.entry.agent)) (event.pass self.entry.agent.call) self.entry result }
    {
        let mut logged = self.logged;
        let done = logged.pass();
        answer(logged, done)
    }

    /// The reply to the outstanding request (H.248.1 section 8.2.2): what its commands created is bound, what they subtracted is not,
    /// and the call goes on by whether there was a failure. `NotEnabled` where it is no reply to that request, where it has a failure
    /// and the state has no target for one, or where no number is left for the next request; `NoMemory` where memory ran out for a step
    /// that could be taken.
    pub fn reply(self, reply: &Reply) -> Result<Next<'s>, Refused<'s, Waiting>>
        ensures { IsTaken (model.replied self.entry.script (agent_of self.entry.agent) reply.now) (event.reply self.entry.agent.call reply.now.number) self.entry result }
    {
        let mut logged = self.logged;
        let done = logged.reply(reply);
        answer(logged, done)
    }
}

impl<'s> Call<'s, Resting> {
    /// A note reaches the call (H.248.1 section 7.2.7): it is accepted where it is to this call and new, and leads on where its
    /// RequestID is the one that is expected of its line. `NotEnabled` where it isn't accepted, or where no number is left for the next
    /// request; `NoMemory` where memory ran out for a step that could be taken.
    pub fn note(self, note: &SentNote) -> Result<Next<'s>, Refused<'s, Resting>>
        ensures { IsTaken (model.noted self.entry.script (agent_of self.entry.agent) (line_places self.entry.script) note.now) (event.note self.entry.agent.call note.now.number) self.entry result }
    {
        let mut logged = self.logged;
        let done = logged.note(note);
        answer(logged, done)
    }

    /// The timer of the state ends (this profile's own). `NotEnabled` where it has none, or where no number is left for the next
    /// request; `NoMemory` where memory ran out for a step that could be taken.
    pub fn timer(self) -> Result<Next<'s>, Refused<'s, Resting>>
        ensures { IsTaken (model.timed self.entry.script (agent_of self.entry.agent)) (event.timer self.entry.agent.call) self.entry result }
    {
        let mut logged = self.logged;
        let done = logged.timer();
        answer(logged, done)
    }
}

impl<'s, S> Call<'s, S> {
    /// The call hears of an association (H.248.1 section 11.2 on ServiceChange): of a newer one it enters the script's restart state in
    /// it, and nothing is bound, expected or accepted. `NotEnabled` where it isn't newer, or where no number is left for the next
    /// request; `NoMemory` where memory ran out for a step that could be taken.
    pub fn hear(self, association: Assoc) -> Result<Next<'s>, Refused<'s, S>>
        ensures { IsTaken (model.heard self.entry.script (agent_of self.entry.agent) association.0) (event.hear self.entry.agent.call association.0) self.entry result }
    {
        let mut logged = self.logged;
        let done = logged.hear(association);
        answer(logged, done)
    }

    /// Adds an event to what happened to the call that its agent takes no part in: one of a line of this call, or an execute of its
    /// request (this profile's own). `NotEnabled` where it is any other; `NoMemory` where memory ran out for one of those, but not
    /// where `room` made room.
    pub fn log_event(self, event: Event) -> Result<Next<'s>, Refused<'s, S>>
        ensures { IsLogged event self.entry result }
    {
        let mut logged = self.logged;
        let done = logged.log_event(event);
        answer(logged, done)
    }

    /// Makes room for one event more, a beginning too: the next event takes no memory for the transcript. An event that is added uses
    /// it up. `AllocError` where memory ran out.
    pub fn room(&mut self) -> Result<(), AllocError>
        ensures made { OnOk result (self.new ≡ with_room self.old) }
        ensures unchanged { OnErr result (self.new ≡ self.old) }
    {
        self.logged.room()
    }
}

impl<'s> Call<'s, Ended> {
    /// Another call begins on the lines of this one, which is retired: it is in the start state and in the same association, with the
    /// next number and the RequestIDs that are expected, and its beginning is all that happened to it (this profile's own). `NoMemory`
    /// alone, and not where `room` made room.
    pub fn begin(self, call: CallNo) -> Result<(Next<'s>, Retired), Refused<'s, Ended>>
        ensures { IsBeginning call.0 self.entry result }
    {
        let mut logged = self.logged;
        match logged.begin(call) {
            Ok(retired) => Ok((by_kind(logged), retired)),
            Err(why) => Err(Refused {
                call: Call::of(logged),
                why,
            }),
        }
    }
}
