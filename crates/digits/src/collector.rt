//! Collecting the symbols that are dialled, until a map is completed.
ghost use Rattle.std.specs.Prelude.{◌≡◌, []};
ghost use Rattle.mg_model.specs.DigitMaps.{collecting, ended, with_symbol, with_pause};
ghost use Rattle.digits.specs.Progress.{Follows, ShowsRemaining, is_completed};
ghost use Rattle.digits.specs.Steps.{told, ends_by};

use crate::dialled::Dialled;
use crate::map::{DigitMap, LIMIT};
use crate::step::Step;
use mg_model::line_events::Method;
use mg_names::symbols::Symbol;
use std::marker::Model;

/// Collects the symbols that are dialled for one digit map, which each call is handed, until the map is completed
/// (ITU-T H.248.1 v1 / RFC 3525, 7.1.14). It takes no memory.
#[derive(Drop)]
pub struct Collector {
    remaining: [bool; LIMIT],
    dialled: Dialled,
    is_done: bool,
}

impl Model for Collector {
    ghost use Rattle.digits.specs.Progress.{Progress, progress, digits_of};

    ghost Value = { Progress };

    ghost view = { λ c. progress (digits_of c.is_done c.dialled) c.remaining };
}

/// The completion where no further symbol counts.
fn ended(map: &DigitMap, remaining: &[bool; LIMIT], symbols: &Dialled) -> Step
    requires { ShowsRemaining map.now symbols.now remaining.now }
    ensures { ends_by (ended map.now symbols.now) result }
{
    let alternative = map.first_match(remaining, symbols);
    let method = match alternative {
        Some(_) => Method::Full,
        None => Method::Partial,
    };
    Step::Done {
        method,
        alternative,
        symbols: symbols.copy(),
    }
}

impl Collector {
    /// Starts with no symbol.
    pub fn start(map: &DigitMap) -> Collector
        ensures empty { result.digits ≡ collecting [] }
        ensures follows { Follows map.now result }
    {
        let _ = map.alternatives();
        Collector {
            remaining: [true; LIMIT],
            dialled: Dialled::new(),
            is_done: false,
        }
    }

    /// Whether the map was completed.
    pub fn is_done(&self) -> bool
        ensures { result ≡ is_completed self.now.digits }
    {
        self.is_done
    }

    /// An equal one.
    pub fn copy(&self) -> Collector
        ensures { result ≡ self.now }
    {
        Collector {
            remaining: self.remaining,
            dialled: self.dialled.copy(),
            is_done: self.is_done,
        }
    }

    /// A symbol is dialled.
    pub fn digit(&mut self, map: &DigitMap, symbol: Symbol) -> Step
        requires { Follows map.now self.old }
        ensures steps { told self.new.digits result ≡ with_symbol map.now self.old.digits symbol }
        ensures follows { Follows map.now self.new }
    {
        if self.is_done {
            return Step::Closed;
        }
        let remaining = map.narrowed(&self.remaining, &self.dialled, symbol);
        if map.none_remains(&remaining) {
            self.is_done = true;
            return ended(map, &self.remaining, &self.dialled);
        }
        self.remaining = remaining;
        self.dialled.push(symbol);
        let Some(alternative) = map.sole_match(&self.remaining, &self.dialled) else {
            return Step::More;
        };
        self.is_done = true;
        Step::Done {
            method: Method::Unambiguous,
            alternative: Some(alternative),
            symbols: self.dialled.copy(),
        }
    }

    /// The timer between symbols ends.
    pub fn pause(&mut self, map: &DigitMap) -> Step
        requires { Follows map.now self.old }
        ensures steps { told self.new.digits result ≡ with_pause map.now self.old.digits }
        ensures follows { Follows map.now self.new }
    {
        if self.is_done() {
            return Step::Closed;
        }
        self.is_done = true;
        ended(map, &self.remaining, &self.dialled)
    }
}
