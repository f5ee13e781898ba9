//! The setters of a configuration for lines and for ephemerals, which have their fields in different words.
use crate::codes;
use crate::config::Config;
use crate::fields::put;
use crate::places::{ephemeral_place, line_place};
use mg_model::components::Spot;
use mg_names::modes::Mode;
use mg_names::slots::Slot;

impl Config {
    ghost use Rattle.std.specs.Prelude.{◌≡◌};
    ghost use Rattle.mg_model.specs.Configuration.{with_of};
    ghost use Rattle.mg_model.specs.declared.commands.Termination.TheVariants.{Line, Ephemeral};
    ghost use Rattle.configuration.specs.Config.{configuration_of};

    /// Sets where a line stands.
    pub(crate) fn set_line_spot(&mut self, line: Slot, spot: Spot)
        ensures { configuration_of self.new ≡ record (configuration_of self.old) {
          spot = with_of (configuration_of self.old).spot (Line line) spot;
        } }
    {
        let word = put(
            self.lines_word(),
            line_place(line),
            3,
            codes::line_spot_code(spot),
        );
        self.set_lines_word(word);
    }

    /// Sets where an ephemeral stands.
    pub(crate) fn set_ephemeral_spot(&mut self, ephemeral: Slot, spot: Spot)
        ensures { configuration_of self.new ≡ record (configuration_of self.old) {
          spot = with_of (configuration_of self.old).spot (Ephemeral ephemeral) spot;
        } }
    {
        let place = ephemeral_place(ephemeral);
        let word = put(
            self.ephemerals_word(),
            place,
            3,
            codes::ephemeral_spot_code(spot),
        );
        self.set_ephemerals_word(word);
    }

    /// Sets the mode of a line.
    pub(crate) fn set_line_mode(&mut self, line: Slot, mode: Mode)
        ensures { configuration_of self.new ≡ record (configuration_of self.old) {
          mode = with_of (configuration_of self.old).mode (Line line) mode;
        } }
    {
        let word = put(
            self.lines_word(),
            line_place(line) + 3,
            2,
            codes::mode_code(mode),
        );
        self.set_lines_word(word);
    }

    /// Sets the mode of an ephemeral.
    pub(crate) fn set_ephemeral_mode(&mut self, ephemeral: Slot, mode: Mode)
        ensures { configuration_of self.new ≡ record (configuration_of self.old) {
          mode = with_of (configuration_of self.old).mode (Ephemeral ephemeral) mode;
        } }
    {
        let place = ephemeral_place(ephemeral) + 3;
        let word = put(self.ephemerals_word(), place, 2, codes::mode_code(mode));
        self.set_ephemerals_word(word);
    }
}
