//! What becomes of each command of a state as a call enters it.
ghost use Rattle.std.specs.Prelude.{◌≡◌, ◌↔◌, ◌∷◌, ◌++◌, [], IfOk, IsTrue, OnOk, Some};
ghost use Rattle.mg_model.specs.Effects.{is_legal};
ghost use Rattle.configuration.specs.Config.{configuration_of};
ghost use Rattle.call_ways.specs.Fates.{fates_in};
ghost use Rattle.call_ways.specs.Sending.{IsNextAfter, config_after, fate_of, reached_after};

use built_request::Request;
use closure::effects::{effect, is_legal};
use closure::requests::bound_in;
use configuration::config::Config;
use mg_model::commands::Command;
use script_table::Script;
use std::alloc::{AllocError, Global};

/// What becomes of a command of a state. This profile's own.
#[derive(Clone, Copy)]
pub enum Fate {
    /// It uses a name that is neither bound nor created before: the request goes without it.
    LeftOut,
    /// It is sent, and an earlier one of the request is refused.
    NotReached,
    /// It is sent, and the gateway refuses it.
    Refused,
    /// It is sent, and the gateway has no ground of its own to refuse it. By 500 or 510 it may refuse any.
    Done,
}

/// Whether the next command of a request is this one.
fn is_next(next: &Option<Command>, command: &Command) -> bool
    ensures { IsTrue result ↔ (next.now ≡ Some command.now) }
{
    match next {
        Some(kept) => kept == command,
        None => false,
    }
}

/// What becomes of a command: whether the request has it, whether the gateway comes to it, and in which configuration.
fn fate_of(is_kept: bool, is_reached: bool, config: &Config, command: &Command) -> Fate
    ensures { result ≡ fate_of is_kept is_reached (is_legal (configuration_of config.now) command.now) }
{
    if !is_kept {
        return Fate::LeftOut;
    }
    if !is_reached {
        return Fate::NotReached;
    }
    if !is_legal(config, command) {
        return Fate::Refused;
    }
    Fate::Done
}

/// The next command of a request, when one has had its fate.
fn next_after(request: &mut Request<'_>, next: Option<Command>, it: Fate) -> Option<Command>
    ensures { IsNextAfter next request.old it result request.new }
{
    match it {
        Fate::LeftOut => next,
        Fate::NotReached => request.take_first(),
        Fate::Refused => request.take_first(),
        Fate::Done => request.take_first(),
    }
}

/// The configuration when a command has had its fate.
fn config_after(script: &Script, config: &Config, command: &Command, it: Fate) -> Config
    ensures { configuration_of result ≡ config_after script.now (configuration_of config.now) command.now it }
{
    match it {
        Fate::Done => effect(script, config, command),
        Fate::LeftOut => *config,
        Fate::NotReached => *config,
        Fate::Refused => *config,
    }
}

/// Whether the gateway comes to the next command of the request, when one has had its fate.
fn is_reached_after(is_reached: bool, it: Fate) -> bool
    ensures { result ≡ reached_after is_reached it }
{
    match it {
        Fate::LeftOut => is_reached,
        Fate::Done => true,
        Fate::NotReached => false,
        Fate::Refused => false,
    }
}

/// Adds a fate.
fn push(list: &mut Vec<Fate>, it: Fate) -> Result<(), AllocError>
    ensures { OnOk result (list.new.items ≡ list.old.items ++ it ∷ []) }
{
    list.extend_from_slice(&[it])
}

/// What becomes of each command of the state that a configuration was entered in, in their order. The only error is running out of memory.
pub(crate) fn fates_in(
    alloc: Global,
    script: &Script,
    config: &Config,
) -> Result<Vec<Fate>, AllocError>
    ensures { IfOk result (λ fates. fates.items ≡ fates_in script.now (configuration_of config.now)) }
{
    let state = config.state();
    let mut request = Request::new(script, bound_in(config), state);
    let mut next = request.take_first();
    let mut current = *config;
    let mut is_reached = true;
    let mut fates = Vec::new(alloc);
    let commands = script.commands_of(state);
    for command in commands {
        let is_kept = is_next(&next, command);
        let it = fate_of(is_kept, is_reached, &current, command);
        next = next_after(&mut request, next, it);
        current = config_after(script, &current, command, it);
        is_reached = is_reached_after(is_reached, it);
        push(&mut fates, it)?;
    }
    Ok(fates)
}
