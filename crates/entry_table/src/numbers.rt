//! Which component a set of values is for, as a number in the order of the format's table.
ghost use Rattle.std.specs.Prelude.{◌≡◌, ◌<◌};
ghost use Rattle.entry_table.specs.Numbers.{number_of, termination_number};
ghost use Rattle.entry_table.specs.Shown.{shown};

use crate::component::Component;
use mg_model::commands::Termination;

fn termination_number(termination: Termination) -> usize
    ensures value { result ≡ termination_number termination }
    ensures small { result < 8 }
{
    match termination {
        Termination::Line(line) => line.index(),
        Termination::Ephemeral(ephemeral) => 4 + ephemeral.index(),
    }
}

/// Which component a set of values is for: two sets for one component have one number.
pub(crate) fn number_of(component: &Component) -> usize
    ensures value { result ≡ number_of (shown component.now) }
    ensures small { result < 97 }
{
    match component {
        Component::Links(_) => 0,
        Component::Spots(Termination::Line(line), _) => 1 + 4 * line.index(),
        Component::Modes(Termination::Line(line), _) => 2 + 4 * line.index(),
        Component::Events(line, _) => 3 + 4 * line.index(),
        Component::Plays(line, _) => 4 + 4 * line.index(),
        Component::Contexts(context, _) => 17 + context.index(),
        Component::Spots(Termination::Ephemeral(ephemeral), _) => 21 + 3 * ephemeral.index(),
        Component::Modes(Termination::Ephemeral(ephemeral), _) => 22 + 3 * ephemeral.index(),
        Component::Remotes(ephemeral, _) => 23 + 3 * ephemeral.index(),
        Component::Cuts(source, sink, _) => {
            33 + 8 * termination_number(*source) + termination_number(*sink)
        }
    }
}
