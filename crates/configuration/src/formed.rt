//! A configuration that is well formed, and those that are so because they differ from it in nothing that matters.
ghost use Rattle.std.specs.Prelude.{◌≡◌, ◌↔◌, IsTrue};
ghost use Rattle.mg_model.specs.Configuration.{IsWellFormed};
ghost use Rattle.configuration.specs.Tests.{ArePlacedAlike};
ghost use Rattle.configuration.specs.Config.{configuration_of};

use crate::config::Config;
use crate::well_formed::is_well_formed;
use mg_model::commands::EventsName;
use mg_names::phases::LinkPhase;
use std::marker::Model;

/// A configuration that is well formed.
#[derive(Drop)]
pub struct Formed {
    config: Config,
}

impl Model for Formed {
    ghost use Rattle.mg_model.specs.Configuration.{IsWellFormed};
    ghost use Rattle.configuration.specs.Packed.{Words};
    ghost use Rattle.configuration.specs.Config.{configuration_of};

    ghost Value = { Words };

    ghost view = { λ f. f.config };

    ghost invariant = { λ f. IsWellFormed (configuration_of f.config) };
}

/// Whether lines stand in the same places, and context names stand for the same, by two words.
fn are_placed_alike(one: u64, other: u64) -> bool
    ensures { IsTrue result → ArePlacedAlike one other }
{
    (one ^ other) & 0x0FF0_0E01_C038_0700 == 0
}

/// Whether two words are one.
fn is_same(one: u64, other: u64) -> bool
    ensures { IsTrue result → one ≡ other }
{
    one == other
}

/// Whether one configuration differs from another in states, links, modes, events lists and signals of lines alone.
fn is_like(one: &Config, other: &Config) -> bool
    ensures { IsTrue result → IsWellFormed (configuration_of one.now) → IsWellFormed (configuration_of other.now) }
{
    let was = one.lines_word();
    let lines = other.lines_word();
    if !are_placed_alike(was, lines) {
        return false;
    }
    if !is_same(one.ephemerals_word(), other.ephemerals_word()) {
        return false;
    }
    is_same(one.cuts_word(), other.cuts_word())
}

impl Formed {
    /// The configuration in which nothing is.
    pub fn first() -> Formed {
        Formed {
            config: Config::unused(0, 0, LinkPhase::Sent, EventsName::Empty),
        }
    }

    /// Whether another configuration is well formed, by this one where it is like it; if so, it takes the place of this one.
    pub fn take_up(&mut self, config: &Config) -> bool
        ensures { IsTrue result ↔ IsWellFormed (configuration_of config.now) }
    {
        if is_like(&self.config, config) {
            return true;
        }
        if !is_well_formed(config) {
            return false;
        }
        self.config = *config;
        true
    }
}
