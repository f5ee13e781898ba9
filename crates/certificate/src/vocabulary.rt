//! The words of each component, and the names of a script.
ghost use Rattle.std.specs.Prelude.{◌≡◌, ℕ, List, Option, []};
ghost use Rattle.typed_values.specs.Shape.{Gives};
ghost use Rattle.certificate.specs.Ranks.{set_with};

use crate::ranked::{Ranked, insert};
use entry_table::Values;
use mg_model::commands::EventsName;
use mg_model::components::{Remote, Spot};
use mg_names::context_values::ContextValue;
use mg_names::modes::Mode;
use mg_names::phases::LinkPhase;
use mg_names::slots::Slot;
use script_table::Script;
use std::alloc::Global;
use typed_values::{Missing, Word};

/// Words that name values.
pub trait Vocabulary<T> {
    ghost named: { Self → List ℕ → Option T };

    /// The value of a word.
    fn named(&self, word: &str) -> Option<T>
        ensures { result ≡ named self.now word.now };
}

/// The set that some words name.
pub fn read_set<T: Ranked + Drop, V: Vocabulary<T>>(
    alloc: Global,
    vocabulary: &V,
    words: &[Word],
) -> Result<Values<T>, Missing>
    ensures { Gives (λ set. set) result (set_with T.place (V.named vocabulary.now) [] words.now) }
{
    let mut set = Vec::new(alloc);
    for word in words {
        let Some(value) = vocabulary.named(word.as_str()) else {
            return Err(Missing::Nothing);
        };
        insert(&mut set, value)?;
    }
    Ok(Values::new(set))
}

/// The links.
#[derive(Clone, Copy)]
pub struct Links;

impl Vocabulary<LinkPhase> for Links {
    ghost use Rattle.mg_names.specs.Words.{link_named};

    ghost named = { λ _. link_named };

    fn named(&self, word: &str) -> Option<LinkPhase> {
        LinkPhase::read(word)
    }
}

/// Where a line may stand.
#[derive(Clone, Copy)]
pub struct LineSpots<'a>(pub &'a Script);

impl Vocabulary<Spot> for LineSpots<'_> {
    ghost use Rattle.certificate.specs.Naming.{line_spot_named};

    ghost named = { λ v. line_spot_named v.0.now };

    fn named(&self, word: &str) -> Option<Spot> {
        if word == "-" {
            return Some(Spot::Null);
        }
        let context = self.0.context(word)?;
        Some(Spot::In(context))
    }
}

/// Where an ephemeral may stand.
#[derive(Clone, Copy)]
pub struct EphemeralSpots<'a>(pub &'a Script);

impl Vocabulary<Spot> for EphemeralSpots<'_> {
    ghost use Rattle.certificate.specs.Naming.{ephemeral_spot_named};

    ghost named = { λ v. ephemeral_spot_named v.0.now };

    fn named(&self, word: &str) -> Option<Spot> {
        if word == "absent" {
            return Some(Spot::Absent);
        }
        let context = self.0.context(word)?;
        Some(Spot::In(context))
    }
}

/// The modes.
#[derive(Clone, Copy)]
pub struct Modes;

impl Vocabulary<Mode> for Modes {
    ghost use Rattle.mg_names.specs.Words.{mode_named};

    ghost named = { λ _. mode_named };

    fn named(&self, word: &str) -> Option<Mode> {
        Mode::read(word)
    }
}

/// The events lists of a script.
#[derive(Clone, Copy)]
pub struct Lists<'a>(pub &'a Script);

impl Vocabulary<EventsName> for Lists<'_> {
    ghost use Rattle.script_table.specs.Table.{list_named};

    ghost named = { λ v word. list_named word v.0.now.lists };

    fn named(&self, word: &str) -> Option<EventsName> {
        self.0.list_named(word)
    }
}

/// Whether a line may play a signal.
#[derive(Clone, Copy)]
pub struct Plays;

impl Vocabulary<bool> for Plays {
    ghost use Rattle.certificate.specs.Naming.{plays_named};

    ghost named = { λ _. plays_named };

    fn named(&self, word: &str) -> Option<bool> {
        match word {
            "no" => Some(false),
            "may" => Some(true),
            _ => None,
        }
    }
}

/// What a context name stands for.
#[derive(Clone, Copy)]
pub struct ContextValues;

impl Vocabulary<ContextValue> for ContextValues {
    ghost use Rattle.mg_names.specs.Words.{context_value_named};

    ghost named = { λ _. context_value_named };

    fn named(&self, word: &str) -> Option<ContextValue> {
        ContextValue::read(word)
    }
}

/// What an ephemeral's Remote may be.
#[derive(Clone, Copy)]
pub struct Remotes<'a>(pub &'a Script);

impl Vocabulary<Remote> for Remotes<'_> {
    ghost use Rattle.certificate.specs.Naming.{remote_named};

    ghost named = { λ v. remote_named v.0.now };

    fn named(&self, word: &str) -> Option<Remote> {
        match word {
            "none" => Some(Remote::Unset),
            "gone" => Some(Remote::Gone),
            _ => {
                let ephemeral = self.0.ephemeral(word)?;
                Some(Remote::To(ephemeral))
            }
        }
    }
}

/// Whether media is cut.
#[derive(Clone, Copy)]
pub struct Cuts;

impl Vocabulary<bool> for Cuts {
    ghost use Rattle.certificate.specs.Naming.{cut_named};

    ghost named = { λ _. cut_named };

    fn named(&self, word: &str) -> Option<bool> {
        match word {
            "no" => Some(false),
            "yes" => Some(true),
            _ => None,
        }
    }
}

/// The names of a script's lines.
#[derive(Clone, Copy)]
pub struct LineNames<'a>(pub &'a Script);

impl Vocabulary<Slot> for LineNames<'_> {
    ghost use Rattle.script_table.specs.Table.{place_of};

    ghost named = { λ v name. place_of name v.0.now.lines };

    fn named(&self, word: &str) -> Option<Slot> {
        self.0.line(word)
    }
}

/// The names of a script's contexts.
#[derive(Clone, Copy)]
pub struct ContextNames<'a>(pub &'a Script);

impl Vocabulary<Slot> for ContextNames<'_> {
    ghost use Rattle.script_table.specs.Table.{place_of};

    ghost named = { λ v name. place_of name v.0.now.contexts };

    fn named(&self, word: &str) -> Option<Slot> {
        self.0.context(word)
    }
}

/// The names of a script's ephemerals.
#[derive(Clone, Copy)]
pub struct EphemeralNames<'a>(pub &'a Script);

impl Vocabulary<Slot> for EphemeralNames<'_> {
    ghost use Rattle.script_table.specs.Table.{place_of};

    ghost named = { λ v name. place_of name v.0.now.ephemerals };

    fn named(&self, word: &str) -> Option<Slot> {
        self.0.ephemeral(word)
    }
}
