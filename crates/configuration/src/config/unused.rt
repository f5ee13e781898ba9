//! The configuration that no call has used.
use crate::config::Config;
use crate::places::{unused_events, unused_spot};
use mg_model::commands::{EventsName, Termination};
use mg_names::phases::LinkPhase;
use mg_names::slots::Slot;

impl Config {
    ghost use Rattle.std.specs.Prelude.{◌≡◌, ◌≤◌};
    ghost use Rattle.mg_names.specs.declared.phases.LinkPhase.TheVariants.{Sent};
    ghost use Rattle.mg_model.specs.declared.commands.EventsName.TheVariants.{Empty};
    ghost use Rattle.mg_model.specs.Steps.{unused};
    ghost use Rattle.configuration.specs.Config.{configuration_of};
    ghost use Rattle.configuration.specs.Unused.{with_unused_line};

    /// The configuration whose fields are all zero.
    fn blank() -> Config
        ensures { configuration_of result ≡ unused 4 0 Sent Empty }
    {
        Config {
            lines: 0,
            ephemerals: 0,
            cuts: 0,
        }
    }

    /// Sets a line as a call that has not used it has it.
    fn set_unused_line(&mut self, line: Slot, lines: usize, events: &EventsName)
        ensures { configuration_of self.new ≡ with_unused_line lines events.now line (configuration_of self.old) }
    {
        self.set_spot(Termination::Line(line), unused_spot(line.index(), lines));
        self.set_events(line, unused_events(line.index(), lines, *events));
    }

    /// The configuration in which so many lines stand in the null context, Inactive and silent, and nothing else is.
    pub fn unused(lines: usize, state: u8, link: LinkPhase, events: EventsName) -> Config
        requires { lines ≤ 4 }
        ensures { configuration_of result ≡ unused lines state link events }
    {
        let mut config = Config::blank();
        config.set_state(state);
        config.set_link(link);
        let slots = Slot::all();
        config.set_unused_line(slots[0], lines, &events);
        config.set_unused_line(slots[1], lines, &events);
        config.set_unused_line(slots[2], lines, &events);
        config.set_unused_line(slots[3], lines, &events);
        config
    }
}
