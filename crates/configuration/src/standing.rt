//! The contexts that something stands in, as bits of a word.
ghost use Rattle.std.specs.Prelude.{◌≡◌, ℕ, ◌+◌, ◌*◌, ◌<◌, ◌==◌, ◌||◌};
ghost use Rattle.mg_model.specs.Configuration.{stands_in};
ghost use Rattle.configuration.specs.Fields.{field_of};
ghost use Rattle.configuration.specs.Bits.{has};
ghost use Rattle.configuration.specs.Config.{configuration_of};

use crate::config::Config;
use crate::fields::field;

/// A bit at twice the number of where a termination stands.
fn bit_of(word: u64, place: u32) -> u64
    requires { place < 64 }
    ensures { (n : ℕ) → has result (2 * n) ≡ (field_of word place 3 == n) }
{
    1 << (2 * field(word, place, 3) as u32)
}

/// The bits of the terminations whose fields are at these places of a word.
fn bits_of(word: u64, first: u32, second: u32) -> u64
    requires first { first < 64 }
    requires second { second < 64 }
    ensures { (n : ℕ) → has result (2 * n) ≡ (field_of word first 3 == n || field_of word second 3 == n) }
{
    bit_of(word, first) | bit_of(word, second)
}

/// The contexts that a termination stands in, each at the place of its field's low bit.
pub fn standing(config: &Config) -> u64
    ensures { (j : ℕ) → j < 4 → has result (52 + 2 * j) ≡ stands_in (configuration_of config.now).spot j }
{
    let lines = config.lines_word();
    let ephemerals = config.ephemerals_word();
    let of_lines = bits_of(lines, 8, 19) | bits_of(lines, 30, 41);
    let of_ephemerals = bits_of(ephemerals, 0, 8) | bits_of(ephemerals, 16, 24);
    (of_lines | of_ephemerals) << 50
}
