//! A command of a request as a command on the connection model: names stand for what the earlier commands created.
ghost use Rattle.std.specs.Prelude.{◌≡◌, option_map};
ghost use Rattle.mg_model.specs.declared.items.Item.TheVariants as item;
ghost use Rattle.mg_model.specs.RequestRun.{context_at, ephemeral_at, termination_at, remote_at, settings_at, item_at};
ghost use Rattle.requests.specs.Views.{settings_alone, add_of, termination_of, command_of};

use crate::command::{Newcomer, RequestCommand, Target};
use contexts::Done;
use mg_model::items::{Added, Item, RemoteSetting, Settings};
use mg_model::references::{ContextRef, EphemeralRef, RemoteRef, SettingsRef, TerminationRef};
use mg_names::identifiers::{ContextId, TermId};
use mg_names::topologies::Topology;

/// The number of a context; ALL, which is no context, where none was created at the place.
pub(crate) fn context_at(results: &[Done], context: ContextRef) -> ContextId
    ensures { result.0 ≡ context_at results.now context }
{
    match context {
        ContextRef::Number(context) => context,
        ContextRef::MadeAt(place) => match results.get(place) {
            Some(done) => done.context().unwrap_or(ContextId::ALL),
            None => ContextId::ALL,
        },
    }
}

/// The number of an ephemeral; 0, which no ephemeral has, where none was created at the place.
pub(crate) fn ephemeral_at(results: &[Done], ephemeral: EphemeralRef) -> u32
    ensures { result ≡ ephemeral_at results.now ephemeral }
{
    match ephemeral {
        EphemeralRef::Number(number) => number,
        EphemeralRef::MadeAt(place) => match results.get(place) {
            Some(done) => done.ephemeral().unwrap_or(0),
            None => 0,
        },
    }
}

/// The termination.
fn termination_at(results: &[Done], termination: TerminationRef) -> TermId
    ensures { result ≡ termination_at results.now termination }
{
    match termination {
        TerminationRef::Line(line) => TermId::Line(line),
        TerminationRef::Ephemeral(ephemeral) => TermId::Eph(ephemeral_at(results, ephemeral)),
    }
}

/// The Remote.
fn remote_at(results: &[Done], remote: RemoteRef) -> RemoteSetting
    ensures { result ≡ remote_at results.now remote }
{
    match remote {
        RemoteRef::Nothing => RemoteSetting::Nothing,
        RemoteRef::To(ephemeral) => RemoteSetting::Ephemeral(ephemeral_at(results, ephemeral)),
    }
}

/// The termination of a Modify or a Move.
fn target_at(results: &[Done], target: &Target) -> TermId
    ensures { result ≡ termination_at results.now (termination_of target.now) }
{
    match target {
        Target::Line { line, .. } => TermId::Line(*line),
        Target::Ephemeral(ephemeral) => TermId::Eph(ephemeral_at(results, *ephemeral)),
    }
}

/// What is set on the connection model.
fn settings_at(results: &[Done], settings: SettingsRef) -> Settings
    ensures { result ≡ settings_at results.now (settings_alone settings) }
{
    let remote = match settings.remote {
        Some(remote) => Some(remote_at(results, remote)),
        None => None,
    };
    Settings {
        mode: settings.mode,
        remote,
    }
}

/// Add on the connection model.
fn added_at(results: &[Done], context: ContextRef, added: &Newcomer, settings: SettingsRef) -> Item
    ensures { result ≡ item_at results.now (add_of context added.now settings) }
{
    let added = match added {
        Newcomer::Line { line, .. } => Added::Line(*line),
        Newcomer::NewEphemeral => Added::NewEphemeral,
    };
    Item::Add {
        context: context_at(results, context),
        added,
        settings: settings_at(results, settings),
    }
}

/// Modify on the connection model.
fn modified_at(
    results: &[Done],
    context: ContextRef,
    target: &Target,
    settings: SettingsRef,
) -> Item
    ensures { result ≡ item.Modify (record { 0 = context_at results.now context }) (termination_at results.now (termination_of target.now)) (settings_at results.now (settings_alone settings)) }
{
    Item::Modify {
        context: context_at(results, context),
        termination: target_at(results, target),
        settings: settings_at(results, settings),
    }
}

/// Move on the connection model.
fn moved_at(results: &[Done], context: ContextRef, target: &Target, settings: SettingsRef) -> Item
    ensures { result ≡ item.Move (record { 0 = context_at results.now context }) (termination_at results.now (termination_of target.now)) (settings_at results.now (settings_alone settings)) }
{
    Item::Move {
        context: context_at(results, context),
        termination: target_at(results, target),
        settings: settings_at(results, settings),
    }
}

/// Topology on the connection model.
fn topology_at(
    results: &[Done],
    context: ContextRef,
    first: TerminationRef,
    second: TerminationRef,
    topology: Topology,
) -> Item
    ensures { result ≡ item.SetTopology (record { 0 = context_at results.now context }) (termination_at results.now first) (termination_at results.now second) topology }
{
    Item::SetTopology {
        context: context_at(results, context),
        first: termination_at(results, first),
        second: termination_at(results, second),
        topology,
    }
}

/// The command on the connection model.
pub(crate) fn item_at(results: &[Done], command: &RequestCommand) -> Item
    ensures { result ≡ item_at results.now (command_of command.now) }
{
    match command {
        RequestCommand::Add {
            context,
            added,
            settings,
        } => added_at(results, *context, added, *settings),
        RequestCommand::Modify {
            context,
            target,
            settings,
        } => modified_at(results, *context, target, *settings),
        RequestCommand::Move {
            context,
            target,
            settings,
        } => moved_at(results, *context, target, *settings),
        RequestCommand::Subtract {
            context,
            termination,
        } => Item::Subtract {
            context: context_at(results, *context),
            termination: termination_at(results, *termination),
        },
        RequestCommand::SubtractAll { context } => Item::SubtractAll {
            context: context_at(results, *context),
        },
        RequestCommand::SetTopology {
            context,
            first,
            second,
            topology,
        } => topology_at(results, *context, *first, *second, *topology),
    }
}
