//! What a termination may be in the whole hull of a few configurations, as far as media asks for it: whatever one of these has, alone.
ghost use Rattle.std.specs.Prelude.{◌≡◌};
ghost use Rattle.mg_model.specs.Paths.{passes_in, passes_out};
ghost use Rattle.closure.specs.Hops.{contexts_of, may_come_in, may_go_out, may_name, may_pass, may_stand, names_of, seen_of};

use crate::hull::Hull;
use configuration::spots;
use mg_model::commands::Termination;
use mg_names::modes::Mode;
use mg_names::slots::Slot;

/// Whether media comes into a context by a mode.
fn passes_in(mode: Mode) -> bool
    ensures { result ≡ passes_in mode }
{
    match mode {
        Mode::Inactive | Mode::SendOnly => false,
        Mode::ReceiveOnly | Mode::SendReceive => true,
    }
}

/// Whether media goes out of a context by a mode.
fn passes_out(mode: Mode) -> bool
    ensures { result ≡ passes_out mode }
{
    match mode {
        Mode::Inactive | Mode::ReceiveOnly => false,
        Mode::SendOnly | Mode::SendReceive => true,
    }
}

/// Whether a termination stands in a context in one of some configurations.
#[tactic(auto, unfolding(crate::specs::Hops::may_stand))]
fn may_stand(hull: &Hull, termination: &Termination, context: Slot) -> bool
    ensures { result ≡ may_stand hull.now termination.now context }
{
    hull.as_slice()
        .iter()
        .any(|config| spots::is_in(config.spot(*termination), context))
}

/// Whether media comes in by a termination in one of them.
#[tactic(auto, unfolding(crate::specs::Hops::may_come_in))]
fn may_come_in(hull: &Hull, termination: &Termination) -> bool
    ensures { result ≡ may_come_in hull.now termination.now }
{
    hull.as_slice()
        .iter()
        .any(|config| passes_in(config.mode(*termination)))
}

/// Whether media goes out by a termination in one of them.
#[tactic(auto, unfolding(crate::specs::Hops::may_go_out))]
fn may_go_out(hull: &Hull, termination: &Termination) -> bool
    ensures { result ≡ may_go_out hull.now termination.now }
{
    hull.as_slice()
        .iter()
        .any(|config| passes_out(config.mode(*termination)))
}

/// Whether the Remote of an ephemeral names another in one of them.
#[tactic(auto, unfolding(crate::specs::Hops::may_name))]
fn may_name(hull: &Hull, ephemeral: Slot, other: Slot) -> bool
    ensures { result ≡ may_name hull.now ephemeral other }
{
    hull.as_slice()
        .iter()
        .any(|config| spots::is_to(config.remote(ephemeral), other))
}

/// Whether media from one termination to another isn't cut in one of them.
#[tactic(auto, unfolding(crate::specs::Hops::may_pass))]
pub(crate) fn may_pass(hull: &Hull, source: &Termination, sink: &Termination) -> bool
    ensures { result ≡ may_pass hull.now source.now sink.now }
{
    hull.as_slice()
        .iter()
        .any(|config| !config.cut(*source, *sink))
}

/// What a termination may be.
#[derive(Clone, Copy)]
pub(crate) struct Seen {
    /// Of each context, whether it may stand there.
    pub(crate) contexts: [bool; 4],
    pub(crate) comes_in: bool,
    pub(crate) goes_out: bool,
}

/// Of each context, whether a termination may stand there.
#[tactic(auto, unfolding(crate::specs::Hops::contexts_of))]
fn contexts_of(hull: &Hull, termination: &Termination) -> [bool; 4]
    ensures { result ≡ contexts_of hull.now termination.now }
{
    let [first, second, third, fourth] = Slot::all();
    [
        may_stand(hull, termination, first),
        may_stand(hull, termination, second),
        may_stand(hull, termination, third),
        may_stand(hull, termination, fourth),
    ]
}

/// What a termination may be in the hull of some configurations.
#[tactic(auto, unfolding(crate::specs::Hops::seen_of))]
pub(crate) fn seen_of(hull: &Hull, termination: &Termination) -> Seen
    ensures { result ≡ seen_of hull.now termination.now }
{
    Seen {
        contexts: contexts_of(hull, termination),
        comes_in: may_come_in(hull, termination),
        goes_out: may_go_out(hull, termination),
    }
}

/// Of each ephemeral, whether the Remote of one may name it.
#[tactic(auto, unfolding(crate::specs::Hops::names_of))]
pub(crate) fn names_of(hull: &Hull, ephemeral: Slot) -> [bool; 4]
    ensures { result ≡ names_of hull.now ephemeral }
{
    let [first, second, third, fourth] = Slot::all();
    [
        may_name(hull, ephemeral, first),
        may_name(hull, ephemeral, second),
        may_name(hull, ephemeral, third),
        may_name(hull, ephemeral, fourth),
    ]
}
