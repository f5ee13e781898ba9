//! A note: what is reported of a line.
ghost use Rattle.std.specs.Prelude.{◌≡◌, Option, None, Some, []};
ghost use Rattle.mg_model.specs.LineEvents.{note_of, kind_by};
ghost use Rattle.digits.specs.Steps.{completion_of};

use digits::{Dialled, Step};
use mg_model::line_events::Method;
use mg_names::kinds::Kind;
use std::marker::Model;

/// What is reported of a line: the event, the RequestID of the Events descriptor, and for a completed digit map how and by
/// which symbols.
#[derive(Drop)]
pub struct Note {
    kind: Kind,
    request: u32,
    method: Option<Method>,
    symbols: Dialled,
}

impl Model for Note {
    ghost use Rattle.mg_model.specs.LineEvents as model;

    ghost Value = { model.Note };

    ghost view = { λ n. record { kind = n.kind; request = n.request; method = n.method; symbols = n.symbols } };
}

impl Note {
    /// The note of an event without parameters.
    pub(crate) fn plain(kind: Kind, request: u32) -> Note
        ensures { result ≡ record { kind = kind; request = request; method = None; symbols = [] } }
    {
        Note {
            kind,
            request,
            method: None,
            symbols: Dialled::new(),
        }
    }

    /// What it reports.
    pub fn kind(&self) -> Kind
        ensures { result ≡ self.now.kind }
    {
        self.kind
    }

    /// The RequestID of the Events descriptor.
    pub fn request(&self) -> u32
        ensures { result ≡ self.now.request }
    {
        self.request
    }

    /// How a digit map was completed.
    pub fn method(&self) -> Option<Method>
        ensures { result ≡ self.now.method }
    {
        self.method
    }

    /// The symbols of a completed digit map.
    pub fn symbols(&self) -> &Dialled
        ensures { result.now ≡ self.now.symbols }
    {
        &self.symbols
    }
}

/// What is told of a completion by this method.
fn kind_by(method: Method) -> Kind
    ensures { result ≡ kind_by method }
{
    match method {
        Method::Unambiguous => Kind::Full,
        Method::Full => Kind::Full,
        Method::Partial => Kind::Part,
    }
}

/// The note of what a step tells, if it tells of a completion.
pub(crate) fn told(request: Option<u32>, step: Step) -> Option<Note>
    ensures { result ≡ note_of request (completion_of step) }
{
    let Some(request) = request else {
        return None;
    };
    match step {
        Step::More => None,
        Step::Closed => None,
        Step::Done {
            method,
            symbols,
            ..
        } => Some(Note {
            kind: kind_by(method),
            request,
            method: Some(method),
            symbols,
        }),
    }
}
