//! The row of a line.
ghost use Rattle.std.specs.Prelude.{◌≡◌, None, [], IfOk, OnOk, OnErr, option_map};
ghost use Rattle.mg_model.specs.LineEvents.{new_line, armed, hooked, flashed, dialled, paused, signalled, signal_ended, cleared, kind_of, map_in};
ghost use Rattle.line_events.specs.Collecting.{digits_in, IsFollowed};
ghost use Rattle.line_events.specs.Answers.{row_after, answer, noteless};

use crate::fault::LineFault;
use crate::list::EventList;
use crate::note::{self, Note};
use crate::{collecting, signals};
use digits::Collector;
use mg_model::line_events::{Hook, SignalSet};
use mg_names::kinds::Kind;
use mg_names::signals::Signal;
use mg_names::symbols::Symbol;
use std::alloc::{AllocError, Global};
use std::marker::Model;

/// The row of a line: its hook state, its Events descriptor with the RequestID, what is collected for the digit map, and
/// the signals that play.
#[derive(Drop)]
pub struct LineRow {
    hook: Hook,
    list: EventList,
    request: Option<u32>,
    collector: Option<Collector>,
    playing: SignalSet,
}

impl Model for LineRow {
    ghost use Rattle.mg_model.specs.LineEvents as model;
    ghost use Rattle.mg_model.specs.LineEvents.{map_in};
    ghost use Rattle.line_events.specs.Collecting.{digits_in, IsFollowed};

    ghost Value = { model.LineRow };

    ghost view = { λ r. record { hook = r.hook; list = r.list; request = r.request; digits = digits_in r.collector; playing = r.playing } };

    ghost invariant = { λ r. IsFollowed (map_in r.list) r.collector };
}

impl Clone for LineRow {
    ghost use Rattle.std.specs.Prelude.{◌≡◌};

    ghost is_clone = { λ row copied. copied ≡ row };

    fn clone(&self) -> Result<LineRow, AllocError> {
        let list = self.list.copy(self.list.allocator())?;
        Ok(LineRow {
            hook: self.hook,
            list,
            request: self.request,
            collector: collecting::copy(&self.collector),
            playing: self.playing,
        })
    }
}

/// The kind of a hook event.
fn kind_of(hook: Hook) -> Kind
    ensures { result ≡ kind_of hook }
{
    match hook {
        Hook::On => Kind::On,
        Hook::Off => Kind::Of,
    }
}

/// The note of an event that the descriptor lists.
fn detected(request: Option<u32>, kind: Kind) -> Option<Note>
    ensures { result ≡ option_map (λ r. record { kind = kind; request = r; method = None; symbols = [] }) request }
{
    match request {
        Some(request) => Some(Note::plain(kind, request)),
        None => None,
    }
}

impl LineRow {
    /// The row of a new line.
    pub(crate) fn new(alloc: Global) -> LineRow
        ensures { result ≡ new_line }
    {
        LineRow {
            hook: Hook::On,
            list: EventList::empty(alloc),
            request: None,
            collector: None,
            playing: SignalSet::SILENT,
        }
    }

    /// The hook state.
    pub fn hook_state(&self) -> Hook
        ensures { result ≡ self.now.hook }
    {
        self.hook
    }

    /// The list of the Events descriptor.
    pub fn list(&self) -> &EventList
        ensures { result.now ≡ self.now.list }
    {
        &self.list
    }

    /// The RequestID of the Events descriptor.
    pub fn request(&self) -> Option<u32>
        ensures { result ≡ self.now.request }
    {
        self.request
    }

    /// The collector for the digit map of the list.
    pub(crate) fn collector(&self) -> &Option<Collector>
        ensures digits { digits_in result.now ≡ self.now.digits }
        ensures followed { IsFollowed (map_in self.now.list) result.now }
    {
        &self.collector
    }

    /// The signals that play.
    pub fn playing(&self) -> SignalSet
        ensures { result ≡ self.now.playing }
    {
        self.playing
    }

    /// A new Events descriptor, with an equal list; the row stays as it was where memory runs out.
    pub(crate) fn arm(
        &mut self,
        alloc: Global,
        list: &EventList,
        request: u32,
    ) -> Result<Option<Note>, AllocError>
        ensures row { OnOk result (self.new ≡ (armed self.old list.now request).row) }
        ensures note { IfOk result (λ note. note ≡ (armed self.old list.now request).note) }
        ensures unchanged { OnErr result (self.new ≡ self.old) }
    {
        self.list.assign(alloc, list)?;
        self.collector = collecting::start(&self.list);
        self.request = Some(request);
        if !self.list.has_standing(self.hook) {
            return Ok(None);
        }
        self.playing = SignalSet::SILENT;
        Ok(detected(self.request, kind_of(self.hook)))
    }

    /// The hook goes to a state.
    pub(crate) fn hook(&mut self, hook: Hook) -> Result<Option<Note>, LineFault>
        ensures row { self.new ≡ row_after self.old (hooked self.old hook) }
        ensures answer { result ≡ answer (hooked self.old hook) }
    {
        if self.hook == hook {
            return Err(LineFault::CannotHappen);
        }
        self.hook = hook;
        if !self.list.has_hook(hook) {
            return Ok(None);
        }
        self.playing = SignalSet::SILENT;
        Ok(detected(self.request, kind_of(hook)))
    }

    /// The user flashes the hook.
    pub(crate) fn flash(&mut self) -> Result<Option<Note>, LineFault>
        ensures row { self.new ≡ row_after self.old (flashed self.old) }
        ensures answer { result ≡ answer (flashed self.old) }
    {
        if self.hook == Hook::On {
            return Err(LineFault::CannotHappen);
        }
        if !self.list.has_flash() {
            return Ok(None);
        }
        self.playing = SignalSet::SILENT;
        Ok(detected(self.request, Kind::Fl))
    }

    /// The user dials a symbol.
    pub(crate) fn digit(&mut self, symbol: Symbol) -> Result<Option<Note>, LineFault>
        ensures row { self.new ≡ row_after self.old (dialled self.old symbol) }
        ensures answer { result ≡ answer (dialled self.old symbol) }
    {
        if self.hook == Hook::On {
            return Err(LineFault::CannotHappen);
        }
        let Some(step) = collecting::digit(&self.list, &mut self.collector, symbol) else {
            return Ok(None);
        };
        if step.keeps() {
            self.playing = SignalSet::SILENT;
        }
        Ok(note::told(self.request, step))
    }

    /// The timer of the digit map ends.
    pub(crate) fn pause(&mut self) -> Result<Option<Note>, LineFault>
        ensures row { self.new ≡ row_after self.old (paused self.old) }
        ensures answer { result ≡ answer (paused self.old) }
    {
        if !collecting::is_active(&self.collector) {
            return Err(LineFault::CannotHappen);
        }
        let Some(step) = collecting::pause(&self.list, &mut self.collector) else {
            return Err(LineFault::CannotHappen);
        };
        Ok(note::told(self.request, step))
    }

    /// A new Signals descriptor.
    pub(crate) fn signal(&mut self, set: SignalSet)
        ensures { self.new ≡ (signalled self.old set).row }
    {
        self.playing = set;
    }

    /// A signal that plays ends.
    pub(crate) fn signal_end(&mut self, signal: Signal) -> Result<(), LineFault>
        ensures row { self.new ≡ row_after self.old (signal_ended self.old signal) }
        ensures answer { noteless result ≡ answer (signal_ended self.old signal) }
    {
        if !signals::plays(self.playing, signal) {
            return Err(LineFault::CannotHappen);
        }
        self.playing = signals::without(self.playing, signal);
        Ok(())
    }

    /// The line is silent and its descriptor empty; the hook state stays.
    pub(crate) fn clear(&mut self)
        ensures { self.new ≡ cleared self.old }
    {
        self.list.clear();
        self.request = None;
        self.collector = None;
        self.playing = SignalSet::SILENT;
    }
}
