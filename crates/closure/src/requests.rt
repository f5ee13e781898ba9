//! What a configuration says of the names of a request: which of them are bound as it is built, and whether those that
//! it creates are.
ghost use Rattle.std.specs.Prelude.{◌≡◌, ℕ, ◌≤◌, not, IsTrue};
ghost use Rattle.mg_model.specs.Configuration.{is_free, is_present};
ghost use Rattle.mg_model.specs.Tables.{is_empty};
ghost use Rattle.mg_model.specs.Steps.{bound_names, request_in, creates_unbound, names_unbound};
ghost use Rattle.built_request.specs.Known.{names_of};
ghost use Rattle.configuration.specs.Config.{configuration_of};

use built_request::{Names, Request};
use configuration::config::Config;
use configuration::spots;
use mg_model::commands::{Command, Termination};
use mg_names::context_values::ContextValue;
use mg_names::slots::Slot;
use script_table::Script;

/// Whether a context name is bound.
pub(crate) fn is_bound(config: &Config, context: Slot) -> bool
    ensures value { result ≡ not (is_free ((configuration_of config.now).context context)) }
    ensures slots { (j : ℕ) → 4 ≤ j → (configuration_of config.now).context j ≡ ContextValue.Free }
{
    !spots::is_free(config.context(context))
}

/// Whether an ephemeral exists, so that its name is bound.
pub(crate) fn exists(config: &Config, ephemeral: Slot) -> bool
    ensures { result ≡ is_present ((configuration_of config.now).spot (Termination.Ephemeral ephemeral)) }
{
    spots::is_present(config.spot(Termination::Ephemeral(ephemeral)))
}

/// The names that are bound in a configuration.
pub fn bound_in(config: &Config) -> Names
    ensures { names_of result ≡ bound_names (configuration_of config.now) }
{
    let slots = Slot::all();
    Names::new(
        [
            is_bound(config, slots[0]),
            is_bound(config, slots[1]),
            is_bound(config, slots[2]),
            is_bound(config, slots[3]),
        ],
        [
            exists(config, slots[0]),
            exists(config, slots[1]),
            exists(config, slots[2]),
            exists(config, slots[3]),
        ],
    )
}

/// Whether a context name is bound in both of two configurations, or in neither, and so an ephemeral's.
fn is_slot_alike(one: &Config, other: &Config, slot: Slot) -> bool
    ensures context { IsTrue result → not (is_free ((configuration_of one.now).context slot)) ≡ not (is_free ((configuration_of other.now).context slot)) }
    ensures ephemeral { IsTrue result
        → is_present ((configuration_of one.now).spot (Termination.Ephemeral slot)) ≡ is_present ((configuration_of other.now).spot (Termination.Ephemeral slot)) }
    ensures past { (j : ℕ) → 4 ≤ j → not (is_free ((configuration_of one.now).context j)) ≡ not (is_free ((configuration_of other.now).context j)) }
{
    is_bound(one, slot) == is_bound(other, slot) && exists(one, slot) == exists(other, slot)
}

/// Whether the same names are bound in two configurations.
pub(crate) fn have_same_names(one: &Config, other: &Config) -> bool
    ensures { IsTrue result → bound_names (configuration_of one.now) ≡ bound_names (configuration_of other.now) }
{
    let [first, second, third, fourth] = Slot::all();
    if !is_slot_alike(one, other, first) {
        return false;
    }
    if !is_slot_alike(one, other, second) {
        return false;
    }
    if !is_slot_alike(one, other, third) {
        return false;
    }
    is_slot_alike(one, other, fourth)
}

/// Whether the request that a state builds in a configuration is empty.
pub fn is_request_empty(script: &Script, config: &Config, state: u8) -> bool
    ensures { result ≡ is_empty (request_in script.now (configuration_of config.now) state) }
{
    let request = Request::new(script, bound_in(config), state);
    request.is_empty()
}

/// Whether a command's created names are not bound.
fn creates_unbound(config: &Config, command: &Command) -> bool
    ensures { result ≡ creates_unbound (configuration_of config.now) command.now }
{
    match *command {
        Command::AddLine {
            create,
            context,
            line: _,
            options: _,
        } => { !create || spots::is_free(config.context(context)) }
        Command::AddEphemeral {
            create,
            context,
            ephemeral,
            options: _,
        } => {
            let context_unbound = !create || spots::is_free(config.context(context));
            let absent = !spots::is_present(config.spot(Termination::Ephemeral(ephemeral)));
            context_unbound && absent
        }
        _ => true,
    }
}

/// Whether each name that a command of the configuration's state creates, kept or not, is not bound.
pub fn are_names_unbound(script: &Script, config: &Config) -> bool
    ensures { result ≡ names_unbound script.now (configuration_of config.now) }
{
    script
        .commands_of(config.state())
        .iter()
        .all(|command| creates_unbound(config, command))
}
