//! A configuration as data, with a reader and a setter for each component.
pub mod paths;
mod terminations;
mod unused;
mod words;

use crate::codes;
use crate::fields::{field, put};
use crate::places::{context_place, ephemeral_place, line_place, pair_place, place_of};
use mg_model::commands::{EventsName, Termination};
use mg_model::components::{Remote, Spot};
use mg_names::context_values::ContextValue;
use mg_names::modes::Mode;
use mg_names::phases::LinkPhase;
use mg_names::slots::Slot;
use std::marker::Model;

/// A configuration of one call, packed into three words. Slots that the script has no name for are absent, free, and not
/// cut.
#[derive(Clone, Copy)]
pub struct Config {
    /// State and link, the four lines, and the four contexts.
    lines: u64,
    /// The four ephemerals.
    ephemerals: u64,
    /// A bit for each pair of terminations.
    cuts: u64,
}

impl Model for Config {
    ghost use Rattle.configuration.specs.Packed.{Words, IsPacked};

    ghost Value = { Words };

    ghost view = { λ c. record { lines = c.lines; ephemerals = c.ephemerals; cuts = c.cuts } };

    ghost invariant = { λ c. IsPacked (record { lines = c.lines; ephemerals = c.ephemerals; cuts = c.cuts }) };

    ghost inverse = { λ w. record { lines = w.lines; ephemerals = w.ephemerals; cuts = w.cuts } };
}

/// The words themselves, read and written whole.
impl Config {
    ghost use Rattle.std.specs.Prelude.{◌≡◌};
    ghost use Rattle.configuration.specs.Packed.{IsPacked, IsPackedLines, IsPackedEphemerals};

    pub(crate) fn lines_word(&self) -> u64
        ensures value { result ≡ self.now.lines }
        ensures packed { IsPacked self.now }
    {
        self.lines
    }

    pub(crate) fn ephemerals_word(&self) -> u64
        ensures value { result ≡ self.now.ephemerals }
        ensures packed { IsPacked self.now }
    {
        self.ephemerals
    }

    pub(crate) fn cuts_word(&self) -> u64
        ensures value { result ≡ self.now.cuts }
        ensures packed { IsPacked self.now }
    {
        self.cuts
    }

    fn set_lines_word(&mut self, word: u64)
        requires { IsPackedLines word }
        ensures { self.new ≡ record self.old { lines = word } }
    {
        self.lines = word;
    }

    fn set_ephemerals_word(&mut self, word: u64)
        requires { IsPackedEphemerals word }
        ensures { self.new ≡ record self.old { ephemerals = word } }
    {
        self.ephemerals = word;
    }

    fn set_cuts_word(&mut self, word: u64)
        ensures { self.new ≡ record self.old { cuts = word } }
    {
        self.cuts = word;
    }
}

#[tactic(auto, unfolding(crate::specs::Config::configuration_of))]
impl Config {
    ghost use Rattle.std.specs.Prelude.{◌≡◌, ℕ, ◌≤◌};
    ghost use Rattle.mg_model.specs.Configuration.{with_of};
    ghost use Rattle.mg_model.specs.Updates.{with_at};
    ghost use Rattle.mg_model.specs.Effects.{with_pair};
    ghost use Rattle.mg_model.specs.declared.commands.Termination.TheVariants.{Ephemeral};
    ghost use Rattle.configuration.specs.Config.{configuration_of};

    /// The state, by its place in the script.
    pub fn state(&self) -> u8
        ensures { result ≡ (configuration_of self.now).state }
    {
        let word = self.lines_word();
        (field(word, 0, 6) + 64 * field(word, 60, 2)) as u8
    }

    /// How far the state's request has come.
    pub fn link(&self) -> LinkPhase
        ensures { result ≡ (configuration_of self.now).link }
    {
        codes::link_at(field(self.lines_word(), 6, 2))
    }

    /// Where a termination stands.
    pub fn spot(&self, termination: Termination) -> Spot
        ensures { result ≡ (configuration_of self.now).spot termination }
    {
        match termination {
            Termination::Line(line) => {
                codes::line_spot_at(field(self.lines_word(), line_place(line), 3))
            }
            Termination::Ephemeral(ephemeral) => {
                codes::ephemeral_spot_at(field(
                    self.ephemerals_word(),
                    ephemeral_place(ephemeral),
                    3,
                ))
            }
        }
    }

    /// The mode of a termination.
    pub fn mode(&self, termination: Termination) -> Mode
        ensures value { result ≡ (configuration_of self.now).mode termination }
        ensures slots { (k : ℕ) → 4 ≤ k → (configuration_of self.now).mode (Ephemeral k) ≡ Mode.Inactive }
    {
        match termination {
            Termination::Line(line) => {
                codes::mode_at(field(self.lines_word(), line_place(line) + 3, 2))
            }
            Termination::Ephemeral(ephemeral) => {
                codes::mode_at(field(self.ephemerals_word(), ephemeral_place(ephemeral) + 3, 2))
            }
        }
    }

    /// The events list of a line.
    pub fn events(&self, line: Slot) -> EventsName
        ensures { result ≡ (configuration_of self.now).events line }
    {
        codes::events_at(field(self.lines_word(), line_place(line) + 5, 5))
    }

    /// Whether a line may play a signal.
    pub fn plays(&self, line: Slot) -> bool
        ensures { result ≡ (configuration_of self.now).plays line }
    {
        codes::flag_at(field(self.lines_word(), line_place(line) + 10, 1))
    }

    /// What a context name stands for.
    pub fn context(&self, context: Slot) -> ContextValue
        ensures value { result ≡ (configuration_of self.now).context context }
        ensures slots { (j : ℕ) → 4 ≤ j → (configuration_of self.now).context j ≡ ContextValue.Free }
    {
        codes::context_at(field(self.lines_word(), context_place(context), 2))
    }

    /// The Remote of an ephemeral.
    pub fn remote(&self, ephemeral: Slot) -> Remote
        ensures value { result ≡ (configuration_of self.now).remote ephemeral }
        ensures slots { (k : ℕ) → 4 ≤ k → (configuration_of self.now).remote k ≡ Remote.Unset }
    {
        codes::remote_at(field(self.ephemerals_word(), ephemeral_place(ephemeral) + 5, 3))
    }

    /// Whether media from one termination to another is cut.
    pub fn cut(&self, source: Termination, sink: Termination) -> bool
        ensures { result ≡ (configuration_of self.now).cut source sink }
    {
        let place = pair_place(place_of(source), place_of(sink));
        codes::flag_at(field(self.cuts_word(), place, 1))
    }

    /// Sets the state.
    pub fn set_state(&mut self, state: u8)
        ensures { configuration_of self.new ≡ record (configuration_of self.old) { state = state } }
    {
        let low = put(self.lines_word(), 0, 6, u64::from(state) % 64);
        let word = put(low, 60, 2, u64::from(state) / 64);
        self.set_lines_word(word);
    }

    /// Sets the link.
    pub fn set_link(&mut self, link: LinkPhase)
        ensures { configuration_of self.new ≡ record (configuration_of self.old) { link = link } }
    {
        let word = put(self.lines_word(), 6, 2, codes::link_code(link));
        self.set_lines_word(word);
    }

    /// Sets where a termination stands.
    #[tactic(auto)]
    pub fn set_spot(&mut self, termination: Termination, spot: Spot)
        ensures { configuration_of self.new ≡ record (configuration_of self.old) {
          spot = with_of (configuration_of self.old).spot termination spot;
        } }
    {
        match termination {
            Termination::Line(line) => self.set_line_spot(line, spot),
            Termination::Ephemeral(ephemeral) => self.set_ephemeral_spot(ephemeral, spot),
        }
    }

    /// Sets the mode of a termination.
    #[tactic(auto)]
    pub fn set_mode(&mut self, termination: Termination, mode: Mode)
        ensures { configuration_of self.new ≡ record (configuration_of self.old) {
          mode = with_of (configuration_of self.old).mode termination mode;
        } }
    {
        match termination {
            Termination::Line(line) => self.set_line_mode(line, mode),
            Termination::Ephemeral(ephemeral) => self.set_ephemeral_mode(ephemeral, mode),
        }
    }

    /// Sets the events list of a line.
    pub fn set_events(&mut self, line: Slot, events: EventsName)
        ensures { configuration_of self.new ≡ record (configuration_of self.old) {
          events = with_at (configuration_of self.old).events line events;
        } }
    {
        let word = put(
            self.lines_word(),
            line_place(line) + 5,
            5,
            codes::events_code(events),
        );
        self.set_lines_word(word);
    }

    /// Sets whether a line may play a signal.
    pub fn set_plays(&mut self, line: Slot, plays: bool)
        ensures { configuration_of self.new ≡ record (configuration_of self.old) {
          plays = with_at (configuration_of self.old).plays line plays;
        } }
    {
        let word = put(
            self.lines_word(),
            line_place(line) + 10,
            1,
            codes::flag_code(plays),
        );
        self.set_lines_word(word);
    }

    /// Sets what a context name stands for.
    pub fn set_context(&mut self, context: Slot, value: ContextValue)
        ensures { configuration_of self.new ≡ record (configuration_of self.old) {
          context = with_at (configuration_of self.old).context context value;
        } }
    {
        let word = put(
            self.lines_word(),
            context_place(context),
            2,
            codes::context_code(value),
        );
        self.set_lines_word(word);
    }

    /// Sets the Remote of an ephemeral.
    pub fn set_remote(&mut self, ephemeral: Slot, remote: Remote)
        ensures { configuration_of self.new ≡ record (configuration_of self.old) {
          remote = with_at (configuration_of self.old).remote ephemeral remote;
        } }
    {
        let place = ephemeral_place(ephemeral) + 5;
        let word = put(self.ephemerals_word(), place, 3, codes::remote_code(remote));
        self.set_ephemerals_word(word);
    }

    /// Sets whether media from one termination to another is cut.
    pub fn set_cut(&mut self, source: Termination, sink: Termination, cut: bool)
        ensures { configuration_of self.new ≡ record (configuration_of self.old) {
          cut = with_pair (configuration_of self.old).cut source sink cut;
        } }
    {
        let place = pair_place(place_of(source), place_of(sink));
        let word = put(self.cuts_word(), place, 1, codes::flag_code(cut));
        self.set_cuts_word(word);
    }
}
