//! A configuration as three words in the layout of the format.
ghost use Rattle.std.specs.Prelude.{◌≡◌, ◌+◌, ◌*◌, ◌≤◌, ◌==◌, ◌^◌, if◌then◌else◌};
ghost use Rattle.configuration.specs.Fields.{field_of};
ghost use Rattle.configuration.specs.Config.{configuration_of};
ghost use Rattle.configuration.specs.Words.{words_of};

use crate::config::Config;
use crate::fields::field;
use crate::places::line_place;
use mg_names::slots::Slot;

/// What a line that the script has no name for holds in its field.
fn absence(word: u64, line: Slot) -> u64
    ensures value { result ≡ (if field_of word (8 + 11 * line) 3 == 5 then 5 else 0) * 2 ^ (8 + 11 * line) }
    ensures small { result ≤ 5 * 2 ^ 41 }
{
    let place = line_place(line);
    if field(word, place, 3) == 5 {
        5 << place
    } else {
        0
    }
}

/// What the four lines hold in their fields where the script has no name for them.
fn absences(word: u64) -> u64
    ensures value { result ≡
        (if field_of word 8 3 == 5 then 5 else 0) * 2 ^ 8 + (if field_of word 19 3 == 5 then 5 else 0) * 2 ^ 19
        + (if field_of word 30 3 == 5 then 5 else 0) * 2 ^ 30 + (if field_of word 41 3 == 5 then 5 else 0) * 2 ^ 41 }
{
    let slots = Slot::all();
    let low = absence(word, slots[0]) + absence(word, slots[1]);
    low + absence(word, slots[2]) + absence(word, slots[3])
}

impl Config {
    /// The three words of a configuration: from the low bit, the first has the state's low six bits, the link at 6, four
    /// lines of eleven bits from 8 on and four contexts of two bits from 52 on; the second has four ephemerals of eight
    /// bits; the third a bit for each ordered pair of two different ones of the four lines and four ephemerals.
    pub fn words(&self) -> [u64; 3]
        ensures { result ≡ words_of (configuration_of self.now) }
    {
        let lines = self.lines_word();
        [
            field(lines, 0, 60) - absences(lines),
            self.ephemerals_word(),
            field(self.cuts_word(), 0, 56),
        ]
    }
}
