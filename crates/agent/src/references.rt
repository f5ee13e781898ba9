//! How a command of a request names what it is about: what an earlier command of the request created by that command's place, and all
//! else by its number.
ghost use Rattle.std.specs.Prelude.{◌≡◌, option_map};
ghost use Rattle.mg_model.specs.Agent as model;
ghost use Rattle.agent.specs.Parts.{agent_in, made_of};

use crate::bindings::Bindings;
use crate::created_at::CreatedAt;
use mg_model::commands::{EphemeralOptions, Place, RemoteOption, Termination};
use mg_model::references::{ContextRef, EphemeralRef, RemoteRef, SettingsRef, TerminationRef};
use mg_names::identifiers::ContextId;
use mg_names::slots::Slot;

/// A context. One that is not bound is named as ALL, which is no context.
pub(crate) fn context(bindings: &Bindings, created: &CreatedAt, context: Slot) -> ContextRef
    ensures { result ≡ model.context_ref (agent_in bindings.now) (made_of created.now) context }
{
    match created.context(context) {
        Some(place) => ContextRef::MadeAt(place),
        None => match bindings.context(context) {
            Some(number) => ContextRef::Number(ContextId(number)),
            None => ContextRef::Number(ContextId::ALL),
        },
    }
}

/// An ephemeral. One that is not bound is named as 0, which no ephemeral has.
pub(crate) fn ephemeral(bindings: &Bindings, created: &CreatedAt, ephemeral: Slot) -> EphemeralRef
    ensures { result ≡ model.ephemeral_ref (agent_in bindings.now) (made_of created.now) ephemeral }
{
    match created.ephemeral(ephemeral) {
        Some(place) => EphemeralRef::MadeAt(place),
        None => EphemeralRef::Number(bindings.ephemeral(ephemeral).unwrap_or(0)),
    }
}

/// The context of an Add: CHOOSE where it is created.
pub(crate) fn added_to(
    bindings: &Bindings,
    created: &CreatedAt,
    create: bool,
    name: Slot,
) -> ContextRef
    ensures { result ≡ model.added_to (agent_in bindings.now) (made_of created.now) create name }
{
    if create {
        ContextRef::Number(ContextId::CHOOSE)
    } else {
        context(bindings, created, name)
    }
}

/// The context of a Modify: the null context, or one of the script's.
pub(crate) fn place(bindings: &Bindings, created: &CreatedAt, place: &Place) -> ContextRef
    ensures { result ≡ model.place_ref (agent_in bindings.now) (made_of created.now) place.now }
{
    match *place {
        Place::NullContext => ContextRef::Number(ContextId::NULL),
        Place::Context(name) => context(bindings, created, name),
    }
}

/// A termination.
pub(crate) fn termination(
    bindings: &Bindings,
    created: &CreatedAt,
    termination: &Termination,
) -> TerminationRef
    ensures { result ≡ model.termination_ref (agent_in bindings.now) (made_of created.now) termination.now }
{
    match *termination {
        Termination::Line(line) => TerminationRef::Line(bindings.line(line)),
        Termination::Ephemeral(name) => TerminationRef::Ephemeral(ephemeral(
            bindings, created, name,
        )),
    }
}

/// The Remote that a command sets, where it sets one.
fn remote(
    bindings: &Bindings,
    created: &CreatedAt,
    option: &Option<RemoteOption>,
) -> Option<RemoteRef>
    ensures { result ≡ option_map (model.remote_ref (agent_in bindings.now) (made_of created.now)) option.now }
{
    match *option {
        None => None,
        Some(RemoteOption::NoneGiven) => Some(RemoteRef::Nothing),
        Some(RemoteOption::Peer(name)) => Some(RemoteRef::To(ephemeral(bindings, created, name))),
    }
}

/// What a command sets on an ephemeral; what it leaves out stays.
pub(crate) fn ephemeral_settings(
    bindings: &Bindings,
    created: &CreatedAt,
    options: &EphemeralOptions,
) -> SettingsRef
    ensures { result ≡ record { mode = options.now.mode; remote = option_map (model.remote_ref (agent_in bindings.now) (made_of created.now)) options.now.remote } }
{
    SettingsRef {
        mode: options.mode,
        remote: remote(bindings, created, &options.remote),
    }
}
