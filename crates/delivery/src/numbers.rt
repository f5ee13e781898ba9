//! Numbers that were accepted.
ghost use Rattle.std.specs.Prelude.{◌≡◌, ◌==◌, ℕ, [], true, false, not, if◌then◌else◌, IfOk, OnOk, OnErr};
ghost use Rattle.mg_model.specs.Members.{is_among};

use std::alloc::{AllocError, Global};
use std::marker::Model;

/// Numbers, each once, in rising order. They mostly come in that order, so the next one is put behind all others.
#[derive(Drop)]
pub(crate) struct Numbers {
    rising: Vec<u32>,
}

impl Model for Numbers {
    ghost use Rattle.std.specs.Prelude.{ℕ, List};
    ghost use Rattle.delivery.specs.Rising.{Rises};

    ghost Value = { List ℕ };

    ghost view = { λ n. n.rising.items };

    ghost invariant = { λ n. Rises n.rising.items };
}

impl Numbers {
    /// No number.
    pub(crate) fn new(alloc: Global) -> Numbers
        ensures { result ≡ [] }
    {
        Numbers {
            rising: Vec::new(alloc),
        }
    }

    /// The same numbers once more.
    pub(crate) fn copy(&self) -> Result<Numbers, AllocError>
        ensures { IfOk result (λ copied. copied ≡ self.now) }
    {
        Ok(Numbers {
            rising: self.rising.clone()?,
        })
    }

    /// Whether a number is among these.
    pub(crate) fn has(&self, number: u32) -> bool
        ensures { result ≡ is_among self.now number }
    {
        match self.rising.binary_search(&number) {
            Ok(_) => true,
            Err(_) => false,
        }
    }

    /// Adds a number, and says whether it is new.
    pub(crate) fn add(&mut self, number: u32) -> Result<bool, AllocError>
        ensures answer { IfOk result (λ added. added ≡ not (is_among self.old number)) }
        ensures added { OnOk result ((n : ℕ) → is_among self.new n ≡ (if n == number then true else is_among self.old n)) }
        ensures unchanged { OnErr result (self.new ≡ self.old) }
        ensures only_new { OnErr result (is_among self.old number ≡ false) }
    {
        match self.rising.binary_search(&number) {
            Ok(_) => Ok(false),
            Err(place) => {
                self.rising.insert(place, number)?;
                Ok(true)
            }
        }
    }

    /// Takes a number out, if it is among them. It takes no memory.
    pub(crate) fn remove(&mut self, number: u32)
        ensures { (n : ℕ) → is_among self.new n ≡ (if n == number then false else is_among self.old n) }
    {
        if let Ok(place) = self.rising.binary_search(&number) {
            let _ = self.rising.remove(place);
        }
    }

    /// Takes all of them out. It takes no memory.
    pub(crate) fn clear(&mut self)
        ensures { self.new ≡ [] }
    {
        self.rising.clear();
    }
}
