//! Whether what is cut stands in one context, over the bits that are set.
ghost use Rattle.std.specs.Prelude.{◌≡◌, ℕ, ◌<◌, ◌≤◌, ◌↔◌, IsTrue};
ghost use Rattle.configuration.specs.Tests.{context_number, source_of, sink_of, is_bit_right, AreCutsRight};
ghost use Rattle.configuration.specs.Words.{termination_at};
ghost use Rattle.configuration.specs.Config.{configuration_of};

use crate::config::Config;
use crate::fields::{field, put};

/// The number of the context that one of eight terminations stands in, from 1; 0 where it stands in none.
#[tactic(auto, unfolding(crate::specs::Config::configuration_of))]
pub fn context_number(config: &Config, place: u32) -> u64
    requires { place < 8 }
    ensures value { result ≡ context_number ((configuration_of config.now).spot (termination_at place)) }
    ensures small { result ≤ 4 }
{
    let code = if place < 4 {
        field(config.lines_word(), 8 + 11 * place, 3)
    } else {
        field(config.ephemerals_word(), 8 * (place - 4), 3)
    };
    if code > 4 { 0 } else { code }
}

/// The first termination of a pair, by the place of its bit.
fn source_of(place: u32) -> u32
    requires { place < 64 }
    ensures value { result ≡ source_of place }
    ensures small { result < 8 }
{
    if place < 56 { place / 7 } else { place - 56 }
}

/// The second termination of a pair, by the place of its bit.
fn sink_of(place: u32) -> u32
    requires { place < 64 }
    ensures value { result ≡ sink_of place }
    ensures small { result < 8 }
{
    if place >= 56 {
        return place - 56;
    }
    if place % 7 < place / 7 {
        place % 7
    } else {
        place % 7 + 1
    }
}

/// Whether the two of a pair stand in one context.
fn is_bit_right(config: &Config, place: u32) -> bool
    requires { place < 64 }
    ensures { result ≡ is_bit_right (configuration_of config.now) place }
{
    let here = context_number(config, source_of(place));
    let there = context_number(config, sink_of(place));
    here != 0 && here == there
}

/// Whether whatever is cut stands in one context.
pub fn are_cuts_right(config: &Config) -> bool
    ensures { IsTrue result ↔ AreCutsRight (configuration_of config.now) }
{
    let mut left = config.cuts_word();
    while left != 0 {
        let place = left.trailing_zeros();
        if !is_bit_right(config, place) {
            return false;
        }
        left = put(left, place, 1, 0);
    }
    true
}
