//! Where media goes from each termination of a configuration, a byte of a word for each.
ghost use Rattle.std.specs.Prelude.{false, ◌≡◌, ℕ, ◌+◌, ◌*◌, ◌/◌, ◌%◌, ◌≤◌, ◌<◌, ◌==◌, ◌&&◌};
ghost use Rattle.mg_model.specs.Paths.{hops, crosses, passes_in, passes_out};
ghost use Rattle.mg_model.specs.declared.commands.Termination.TheVariants.{Line};
ghost use Rattle.configuration.specs.Bits.{has};
ghost use Rattle.configuration.specs.Config.{configuration_of};
ghost use Rattle.configuration.specs.Packed.{pair_place};
ghost use Rattle.configuration.specs.Search.{IsSenders, IsLineRows, IsRows, IsCrossings};
ghost use Rattle.configuration.specs.Tests.{context_number};
ghost use Rattle.configuration.specs.Words.{termination_at};

use crate::codes::flag_code;
use crate::config::Config;
use crate::cuts::context_number;
use crate::fields::{field, put};

/// The number of the mode of one of eight terminations.
#[tactic(auto, unfolding(crate::specs::Config::configuration_of))]
fn mode_number(config: &Config, place: u32) -> u64
    requires { place < 8 }
    ensures outward { (result % 2 == 1) ≡ passes_out ((configuration_of config.now).mode (termination_at place)) }
    ensures inward { (result / 2 == 1) ≡ passes_in ((configuration_of config.now).mode (termination_at place)) }
    ensures small { result < 4 }
{
    if place < 4 {
        field(config.lines_word(), 8 + 11 * place + 3, 2)
    } else {
        field(config.ephemerals_word(), 8 * (place - 4) + 3, 2)
    }
}

/// Whether some line lets media into its context.
pub fn lets_media_in(config: &Config) -> bool
    ensures { result ≡ false → (i : ℕ) → i < 4 → passes_in ((configuration_of config.now).mode (Line i)) ≡ false }
{
    let low = mode_number(config, 0) | mode_number(config, 1);
    low | (mode_number(config, 2) | mode_number(config, 3)) >= 2
}

/// The bit of one of eight terminations among those that let media out, which stand by their contexts.
fn sender(config: &Config, place: u32) -> u64
    requires { place < 8 }
    ensures { (n u : ℕ) → n < 5 → u < 8 → has result (8 * n + u) ≡ (u == place
        && (context_number ((configuration_of config.now).spot (termination_at place)) == n
        && passes_out ((configuration_of config.now).mode (termination_at place)))) }
{
    let number = context_number(config, place);
    if mode_number(config, place) % 2 == 1 {
        1 << (8 * number as u32 + place)
    } else {
        0
    }
}

/// Those that let media out, a byte for each context by its number.
pub fn senders(config: &Config) -> u64
    ensures { IsSenders (configuration_of config.now) result }
{
    let lines = sender(config, 0) | sender(config, 1) | (sender(config, 2) | sender(config, 3));
    let ephemerals = sender(config, 4)
        | sender(config, 5)
        | (sender(config, 6) | sender(config, 7));
    lines | ephemerals
}

/// What is cut from one of eight terminations, a bit for each of the others.
fn cut_row(cuts: u64, source: u32) -> u64
    requires { source < 8 }
    ensures { (u : ℕ) → u < 8 → (u ≡ source → ⊥) → has result u ≡ has cuts (pair_place source u) }
{
    let low = field(cuts, 7 * source, source);
    let high = field(cuts, 8 * source, 7 - source);
    low | high << (source + 1)
}

/// Those that media goes to from one of eight terminations.
fn row(config: &Config, senders: u64, source: u32) -> u64
    requires source { source < 8 }
    requires senders { IsSenders (configuration_of config.now) senders }
    ensures value { (u : ℕ) → u < 8 → has result u ≡ hops (configuration_of config.now) (termination_at source) (termination_at u) }
    ensures small { result < 256 }
{
    let number = context_number(config, source);
    if number == 0 {
        return 0;
    }
    if mode_number(config, source) < 2 {
        return 0;
    }
    let barred = cut_row(config.cuts_word(), source) | 1 << source;
    field(senders, 8 * number as u32, 8) & !barred
}

/// Where media goes from each line.
pub fn line_rows(config: &Config, senders: u64) -> u64
    requires senders { IsSenders (configuration_of config.now) senders }
    ensures { IsLineRows (configuration_of config.now) result }
{
    let mut rows = 0;
    for source in 0..4 {
        rows = put(rows, 8 * source, 8, row(config, senders, source));
    }
    rows
}

/// Where media goes from each of the eight, of which these are the lines.
pub fn rows(config: &Config, senders: u64, lines: u64) -> u64
    requires senders { IsSenders (configuration_of config.now) senders }
    requires lines { IsLineRows (configuration_of config.now) lines }
    ensures { IsRows (configuration_of config.now) result }
{
    let mut rows = lines;
    for source in 4..8 {
        rows = put(rows, 8 * source, 8, row(config, senders, source));
    }
    rows
}

/// Whether media crosses between two ephemerals.
fn is_crossing(config: &Config, one: u32, other: u32) -> bool
    requires one { one < 4 }
    requires other { other < 4 }
    ensures { result ≡ crosses (configuration_of config.now) one other }
{
    let word = config.ephemerals_word();
    let exist = (field(word, 8 * one, 3) != 0) & (field(word, 8 * other, 3) != 0);
    let named = field(word, 8 * one + 5, 3) == u64::from(other) + 2;
    let naming = field(word, 8 * other + 5, 3) == u64::from(one) + 2;
    (one != other) & exist & named & naming
}

/// Those that media crosses to from an ephemeral: at most the one that it names.
fn crossing(config: &Config, source: u32) -> u64
    requires { source < 4 }
    ensures value { (i : ℕ) → i < 4 → has result i ≡ crosses (configuration_of config.now) source i }
    ensures small { result < 256 }
{
    let first = flag_code(is_crossing(config, source, 0)) << 0;
    let second = flag_code(is_crossing(config, source, 1)) << 1;
    let third = flag_code(is_crossing(config, source, 2)) << 2;
    let fourth = flag_code(is_crossing(config, source, 3)) << 3;
    first | second | (third | fourth)
}

/// Where media crosses to from each ephemeral.
pub fn crossings(config: &Config) -> u64
    ensures { IsCrossings (configuration_of config.now) result }
{
    let mut all = 0;
    for source in 0..4 {
        all = put(all, 8 * source, 8, crossing(config, source));
    }
    all
}
