//! Whether a configuration is one that a call can have.
ghost use Rattle.std.specs.Prelude.{◌≡◌, ℕ, ◌-◌, ◌*◌, ◌≤◌, ◌==◌, ◌↔◌, ◌∷◌, [], ◌||◌, not, nat_lt, IsTrue};
ghost use Rattle.std.specs.List.{list_all};
ghost use Rattle.mg_model.specs.Configuration.{terminations, stands_in, IsWellFormed};
ghost use Rattle.configuration.specs.Fields.{field_of};
ghost use Rattle.configuration.specs.Tests.{AreContextsRight, is_ephemeral_right};
ghost use Rattle.configuration.specs.Config.{configuration_of};

use crate::codes::flag_at;
use crate::config::Config;
use crate::cuts::are_cuts_right;
use crate::fields::field;
use crate::places::{context_place, ephemeral_place};
use crate::standing::standing;
use mg_model::commands::Termination;
use mg_names::phases::LinkPhase;
use mg_names::slots::Slot;

/// All terminations that a script can name: four lines, then four ephemerals.
pub fn all_terminations() -> [Termination; 8]
    ensures { result ≡ terminations }
{
    let [first, second, third, fourth] = Slot::all();
    [
        Termination::Line(first),
        Termination::Line(second),
        Termination::Line(third),
        Termination::Line(fourth),
        Termination::Ephemeral(first),
        Termination::Ephemeral(second),
        Termination::Ephemeral(third),
        Termination::Ephemeral(fourth),
    ]
}

/// Whether a termination stands in the context.
#[tactic(auto, unfolding(crate::specs::Bits::has))]
pub fn stands_in(config: &Config, context: Slot) -> bool
    ensures { result ≡ stands_in (configuration_of config.now).spot context }
{
    flag_at(field(standing(config), context_place(context), 1))
}

/// Whether a context is live exactly where something stands in it.
fn are_contexts_right(config: &Config) -> bool
    ensures { IsTrue result ↔ AreContextsRight (configuration_of config.now) }
{
    (config.lines_word() ^ standing(config)) & 0x0550_0000_0000_0000 == 0
}

/// Whether the number of a Remote that is a name is that of an ephemeral that exists.
fn names_present(ephemerals: u64, remote: u64) -> bool
    requires { remote ≤ 5 }
    ensures { result ≡ (nat_lt remote 2 || not (field_of ephemerals (8 * (remote - 2)) 3 == 0)) }
{
    remote < 2 || field(ephemerals, 8 * (remote as u32 - 2), 3) != 0
}

/// Whether an ephemeral that doesn't exist is Inactive with no Remote, and a Remote that is a name names one that
/// exists.
fn is_ephemeral_right(config: &Config, ephemeral: Slot) -> bool
    ensures { result ≡ is_ephemeral_right (configuration_of config.now) ephemeral }
{
    let word = config.ephemerals_word();
    let place = ephemeral_place(ephemeral);
    let exists = field(word, place, 3) != 0;
    let names = names_present(word, field(word, place + 5, 3));
    field(word, place, 8) == 0 || (exists && names)
}

/// Whether all four are so.
fn are_ephemerals_right(config: &Config) -> bool
    ensures { result ≡ list_all (is_ephemeral_right (configuration_of config.now)) (0 ∷ 1 ∷ 2 ∷ 3 ∷ []) }
{
    let slots = Slot::all();
    let first = is_ephemeral_right(config, slots[0]);
    let second = is_ephemeral_right(config, slots[1]);
    let third = is_ephemeral_right(config, slots[2]);
    let fourth = is_ephemeral_right(config, slots[3]);
    first && second && third && fourth
}

/// Whether a configuration is one that a call can have: a context is live exactly where a termination stands in it, an
/// ephemeral that doesn't exist is Inactive with no Remote, a Remote that is a name names an ephemeral that exists, and
/// a pair that is cut stands in one context. This profile's own.
pub fn is_well_formed(config: &Config) -> bool
    ensures { IsTrue result ↔ IsWellFormed (configuration_of config.now) }
{
    if !are_contexts_right(config) {
        return false;
    }
    if !are_ephemerals_right(config) {
        return false;
    }
    are_cuts_right(config)
}

/// Whether the call rests: its request's reply was taken.
pub fn at_rest(config: &Config) -> bool
    ensures { IsTrue result ↔ ((configuration_of config.now).link ≡ LinkPhase.Resting) }
{
    match config.link() {
        LinkPhase::Resting => true,
        _ => false,
    }
}
