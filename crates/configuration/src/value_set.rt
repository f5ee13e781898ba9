//! A set of values for one component of a configuration, asked of the words.
ghost use Rattle.std.specs.Prelude.{◌≡◌, ◌+◌, ◌≤◌, ◌<◌};
ghost use Rattle.std.specs.List.{list_all};
ghost use Rattle.configuration.specs.Packed.{IsPacked};
ghost use Rattle.configuration.specs.Regions.{AreWordsOf, is_in, word_at};

use crate::config::Config;
use crate::fields::field;
use crate::numbers::{
    ContextNumbers, EphemeralSpotNumbers, EventsNumbers, FlagNumbers, LineSpotNumbers, LinkNumbers,
    ModeNumbers, RemoteNumbers, numbers_of,
};
use crate::places::{context_place, ephemeral_place, line_place, pair_place, place_of};
use mg_model::commands::{EventsName, Termination};
use mg_model::components::{Remote, Spot};
use mg_names::context_values::ContextValue;
use mg_names::modes::Mode;
use mg_names::phases::LinkPhase;
use mg_names::slots::Slot;
use std::marker::Model;

/// A set of values for one component of a configuration.
#[derive(Clone, Copy)]
pub struct ValueSet {
    /// The word that has the component: the lines', the ephemerals' or the cuts'.
    word: u8,
    /// The place of the component's field.
    at: u8,
    /// Its size.
    bits: u8,
    /// A bit for each number of a value that is in the set.
    allowed: u64,
}

impl Model for ValueSet {
    ghost use Rattle.std.specs.Prelude.{◌+◌, ◌<◌, ◌≤◌};
    ghost use Rattle.configuration.specs.Regions as regions;

    ghost Value = { regions.ValueSet };

    ghost view = { λ s. record { word = s.word; at = s.at; bits = s.bits; allowed = s.allowed } };

    ghost invariant = { λ s. (s.word < 3) × (s.at < 64) × (s.bits ≤ 5) × (s.at + s.bits ≤ 64) };

    ghost inverse = { λ s. record { word = s.word; at = s.at; bits = s.bits; allowed = s.allowed } };
}

/// A configuration's word with a number: the lines' is 0, the ephemerals' 1, the cuts' any other.
pub fn config_word(config: &Config, number: u8) -> u64
    ensures value { result ≡ word_at config.now number }
    ensures packed { IsPacked config.now }
{
    match number {
        0 => config.lines_word(),
        1 => config.ephemerals_word(),
        _ => config.cuts_word(),
    }
}

/// The words of a configuration, by their numbers: many fields are read of them in turn.
pub fn words_of(config: &Config) -> [u64; 3]
    ensures words { AreWordsOf result config.now }
    ensures packed { IsPacked config.now }
{
    [
        config_word(config, 0),
        config_word(config, 1),
        config_word(config, 2),
    ]
}

/// Whether a configuration has its values in some sets.
pub(crate) fn are_in(sets: &[ValueSet], config: &Config) -> bool
    ensures { result ≡ list_all (λ set. is_in set config.now) sets.now }
{
    let words = words_of(config);
    for set in sets {
        if !set.has_word(&words) {
            return false;
        }
    }
    true
}

/// The parts of a set.
impl ValueSet {
    ghost use Rattle.std.specs.Prelude.{◌^◌, ◌==◌, true, IsTrue, IfSome};
    ghost use Rattle.configuration.specs.Fields.{field_of};
    ghost use Rattle.configuration.specs.Packed.{IsPacked, Words};
    ghost use Rattle.configuration.specs.Regions.{AreWordsOf, is_in, word_at};

    fn of_field(word: u8, at: u32, bits: u8, allowed: u64) -> ValueSet
        requires word { word < 3 }
        requires place { at < 64 }
        requires size { bits ≤ 5 }
        requires within { at + bits ≤ 64 }
        ensures { result ≡ record { word = word; at = at; bits = bits; allowed = allowed } }
    {
        ValueSet {
            word,
            at: at as u8,
            bits,
            allowed,
        }
    }

    /// The number of the word that has the component's field: below 3.
    pub fn word(&self) -> u8
        ensures value { result ≡ self.now.word }
        ensures small { result < 3 }
    {
        self.word
    }

    /// The place of the component's field in its word, in bits from the low end.
    pub fn place(&self) -> u32
        ensures value { result ≡ self.now.at }
        ensures small { result < 64 }
    {
        u32::from(self.at)
    }

    /// The size of the component's field: at most 5 bits.
    pub fn size(&self) -> u32
        ensures value { result ≡ self.now.bits }
        ensures small { result ≤ 5 }
        ensures within { self.now.at + result ≤ 64 }
    {
        u32::from(self.bits)
    }

    /// A bit for each number of a value that is in the set.
    pub fn allowed(&self) -> u64
        ensures { result ≡ self.now.allowed }
    {
        self.allowed
    }

    /// Whether a configuration has its value in the set.
    pub fn has(&self, config: &Config) -> bool
        ensures value { result ≡ is_in self.now config.now }
        ensures packed { IsPacked config.now }
    {
        let word = config_word(config, self.word());
        let number = field(word, self.place(), self.size()) as u32;
        field(self.allowed(), number, 1) != 0
    }

    /// Whether a configuration with these words has its value in the set.
    fn has_word(&self, words: &[u64; 3]) -> bool
        ensures { (w : Words) → AreWordsOf words.now w → result ≡ is_in self.now w }
    {
        let number = field(words[self.word() as usize], self.place(), self.size()) as u32;
        field(self.allowed(), number, 1) != 0
    }

    /// Whether each number that the field can hold is that of a value in the set.
    pub fn is_every(&self) -> bool
        ensures { IsTrue result → (w : Words) → is_in self.now w ≡ true }
    {
        match self.size() {
            1 => self.allowed() == 0b11,
            2 => self.allowed() == 0b1111,
            _ => false,
        }
    }

    /// The number of the value, where there is one alone.
    pub(crate) fn number(&self) -> Option<u64>
        ensures { IfSome result (λ n. (n < 2 ^ self.now.bits)
            × ((w : Words) → is_in self.now w ≡ (field_of (word_at w self.now.word) self.now.at self.now.bits == n))) }
    {
        let low = self.allowed().trailing_zeros();
        if low >> self.size() != 0 {
            return None;
        }
        if self.allowed() != 1 << low {
            return None;
        }
        Some(u64::from(low))
    }
}

impl ValueSet {
    ghost use Rattle.std.specs.Prelude.{◌↔◌, IsTrue, Contains};
    ghost use Rattle.configuration.specs.Packed.{Words, IsPacked};
    ghost use Rattle.configuration.specs.Config.{configuration_of};
    ghost use Rattle.configuration.specs.Regions.{is_in};

    /// These links.
    pub fn links(values: &[LinkPhase]) -> ValueSet
        ensures { (w : Words) → IsPacked w → IsTrue (is_in result w) ↔ Contains values.now (configuration_of w).link }
    {
        let allowed = numbers_of::<_, LinkNumbers>(values);
        ValueSet::of_field(0, 6, 2, allowed)
    }

    /// These places for a termination to stand.
    pub fn spots(termination: Termination, values: &[Spot]) -> ValueSet
        ensures { (w : Words) → IsPacked w → IsTrue (is_in result w) ↔ Contains values.now ((configuration_of w).spot termination) }
    {
        match termination {
            Termination::Line(line) => {
                let allowed = numbers_of::<_, LineSpotNumbers>(values);
                ValueSet::of_field(0, line_place(line), 3, allowed)
            }
            Termination::Ephemeral(ephemeral) => {
                let allowed = numbers_of::<_, EphemeralSpotNumbers>(values);
                ValueSet::of_field(1, ephemeral_place(ephemeral), 3, allowed)
            }
        }
    }

    /// These modes for a termination.
    pub fn modes(termination: Termination, values: &[Mode]) -> ValueSet
        ensures { (w : Words) → IsPacked w → IsTrue (is_in result w) ↔ Contains values.now ((configuration_of w).mode termination) }
    {
        let allowed = numbers_of::<_, ModeNumbers>(values);
        match termination {
            Termination::Line(line) => ValueSet::of_field(0, line_place(line) + 3, 2, allowed),
            Termination::Ephemeral(ephemeral) => {
                ValueSet::of_field(1, ephemeral_place(ephemeral) + 3, 2, allowed)
            }
        }
    }

    /// These events lists for a line.
    pub fn events(line: Slot, values: &[EventsName]) -> ValueSet
        ensures { (w : Words) → IsPacked w → IsTrue (is_in result w) ↔ Contains values.now ((configuration_of w).events line) }
    {
        let allowed = numbers_of::<_, EventsNumbers>(values);
        ValueSet::of_field(0, line_place(line) + 5, 5, allowed)
    }

    /// Whether a line may play a signal, as one of these.
    pub fn plays(line: Slot, values: &[bool]) -> ValueSet
        ensures { (w : Words) → IsPacked w → IsTrue (is_in result w) ↔ Contains values.now ((configuration_of w).plays line) }
    {
        let allowed = numbers_of::<_, FlagNumbers>(values);
        ValueSet::of_field(0, line_place(line) + 10, 1, allowed)
    }

    /// What a context name stands for, as one of these.
    pub fn contexts(context: Slot, values: &[ContextValue]) -> ValueSet
        ensures { (w : Words) → IsPacked w → IsTrue (is_in result w) ↔ Contains values.now ((configuration_of w).context context) }
    {
        let allowed = numbers_of::<_, ContextNumbers>(values);
        ValueSet::of_field(0, context_place(context), 2, allowed)
    }

    /// These Remotes for an ephemeral.
    pub fn remotes(ephemeral: Slot, values: &[Remote]) -> ValueSet
        ensures { (w : Words) → IsPacked w → IsTrue (is_in result w) ↔ Contains values.now ((configuration_of w).remote ephemeral) }
    {
        let allowed = numbers_of::<_, RemoteNumbers>(values);
        ValueSet::of_field(1, ephemeral_place(ephemeral) + 5, 3, allowed)
    }

    /// Whether media from one termination to another is cut, as one of these.
    pub fn cuts(source: Termination, sink: Termination, values: &[bool]) -> ValueSet
        ensures { (w : Words) → IsPacked w → IsTrue (is_in result w) ↔ Contains values.now ((configuration_of w).cut source sink) }
    {
        let allowed = numbers_of::<_, FlagNumbers>(values);
        let place = pair_place(place_of(source), place_of(sink));
        ValueSet::of_field(2, place, 1, allowed)
    }
}
