//! Tables of names.
ghost use Rattle.std.specs.Prelude.{◌≡◌, [], ◌∷◌, ◌++◌, IfOk, OnErr, if◌then◌else◌, not};
ghost use Rattle.typed_values.specs.Names.{is_among};
ghost use Rattle.script_table.specs.Table.{place_of};

use std::alloc::{AllocError, Global};
use std::collections::BTreeMap;
use std::marker::Model;

/// Names in the order in which they came, each once. A look-up takes time that goes up with the logarithm of how many there are, whatever
/// names somebody chose: they are found by their order, and no hash is asked, which names could be chosen to share.
#[derive(Drop)]
pub struct Names<'a> {
    /// The names.
    texts: Vec<&'a str>,
    /// The place of each among them.
    places: BTreeMap<&'a str, usize>,
}

impl<'a> Model for Names<'a> {
    ghost use Rattle.std.specs.Prelude.{List, ℕ, map};
    ghost use Rattle.scriptreader.specs.Places.{ArePlacesIn};

    ghost Value = { List (List ℕ) };

    ghost view = { λ n. map (λ t. t.now) n.texts.items };

    ghost invariant = { λ n. ArePlacesIn (map (λ t. t.now) n.texts.items) n.places };
}

impl<'a> Names<'a> {
    /// No names.
    pub fn new(alloc: Global) -> Names<'a>
        ensures { result ≡ [] }
    {
        Names {
            texts: Vec::new(alloc),
            places: BTreeMap::new(alloc),
        }
    }

    /// Adds a name, and says whether it is new. Where memory is refused the names stay as they were.
    pub fn add(&mut self, name: &'a str) -> Result<bool, AllocError>
        ensures added { IfOk result (λ added. added ≡ not (is_among name.now self.old)) }
        ensures names { IfOk result (λ added. self.new ≡ (if added then self.old ++ name.now ∷ [] else self.old)) }
        ensures err { OnErr result (self.new ≡ self.old) }
    {
        if self.has(name) {
            return Ok(false);
        }
        let place = self.texts.as_slice().len();
        self.texts.reserve(1)?;
        self.places.insert(name, place)?;
        self.texts.push(name)?;
        Ok(true)
    }

    /// Whether a name is among them.
    pub fn has(&self, name: &str) -> bool
        ensures { result ≡ is_among name.now self.now }
    {
        self.places.contains_key(name)
    }

    /// The place of a name.
    pub fn place(&self, name: &str) -> Option<usize>
        ensures { result ≡ place_of name.now self.now }
    {
        self.places.get(name).copied()
    }
}
