//! The symbols that were dialled.
ghost use Rattle.std.specs.Prelude.{◌≡◌, ◌<◌, ◌≤◌, [], ◌∷◌, ◌++◌, length};

use crate::map::LIMIT;
use mg_names::symbols::Symbol;
use std::marker::Model;

/// The symbols that were dialled, in their order: 16 at most.
#[derive(Drop)]
pub struct Dialled {
    symbols: [Symbol; LIMIT],
    count: usize,
}

impl Model for Dialled {
    ghost use Rattle.std.specs.Prelude.{◌≡◌, ◌≤◌, List, length, take};
    ghost use Rattle.mg_names.specs.declared.symbols.Symbol.{Symbol};

    ghost Value = { List Symbol };

    ghost view = { λ d. take d.count d.symbols };

    ghost invariant = { λ d. (d.count ≤ 16) × (length d.symbols ≡ 16) };
}

impl Dialled {
    /// No symbol.
    pub fn new() -> Dialled
        ensures { result ≡ [] }
    {
        Dialled {
            symbols: [Symbol::Zero; LIMIT],
            count: 0,
        }
    }

    /// How many they are.
    pub fn len(&self) -> usize
        ensures value { result ≡ length self.now }
        ensures small { result ≤ 16 }
    {
        self.count
    }

    /// The symbols.
    pub fn as_slice(&self) -> &[Symbol]
        ensures { result.now ≡ self.now }
    {
        &self.symbols[..self.count]
    }

    /// The same symbols again.
    pub fn copy(&self) -> Dialled
        ensures { result ≡ self.now }
    {
        Dialled {
            symbols: self.symbols,
            count: self.count,
        }
    }

    /// Takes one more.
    pub(crate) fn push(&mut self, symbol: Symbol)
        requires { length self.old < 16 }
        ensures { self.new ≡ self.old ++ symbol ∷ [] }
    {
        self.symbols[self.count] = symbol;
        self.count += 1;
    }
}
