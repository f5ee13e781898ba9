//! Whether each step leads to a configuration that some entry has.
ghost use Rattle.std.specs.Prelude.{◌≡◌, ◌<◌, ◌↔◌, IsTrue};
ghost use Rattle.mg_model.specs.Configuration.{IsWellFormed};
ghost use Rattle.configuration.specs.Config.{configuration_of};

use crate::looks::Looks;
use crate::lookup::Lookup;
use crate::visitor::Visitor;
use configuration::config::Config;
use entry_table::Cert;
use mg_model::steps::StepName;
use mg_names::kinds::Kind;

/// Looks at the results of steps, up to the first that is in no entry.
#[derive(Drop)]
pub(crate) struct Covering<'c> {
    entries: Lookup<'c>,
    /// What may be spent on asking many points at once.
    looks: Looks,
}

/// The number of a kind of notes.
fn kind_number(kind: Kind) -> usize
    ensures { result < 5 }
{
    match kind {
        Kind::On => 0,
        Kind::Of => 1,
        Kind::Fl => 2,
        Kind::Full => 3,
        Kind::Part => 4,
    }
}

/// The number of a step among all that a configuration may have.
fn number_of(name: &StepName) -> usize
    ensures { result < 64 }
{
    match *name {
        StepName::Refuse(place) => place % 32,
        StepName::Execute => 32,
        StepName::Reply => 33,
        StepName::Timer => 34,
        StepName::Observe { line, kind } => 40 + 5 * line.index() + kind_number(kind),
    }
}

impl<'c> Covering<'c> {
    /// Nobody was told of a step, and so much may be spent.
    pub(crate) fn new(cert: &'c Cert, looks: Looks) -> Covering<'c>
        ensures { result.entries ≡ cert.now }
    {
        Covering {
            entries: Lookup::new(cert),
            looks,
        }
    }
}

impl Covering<'_> {
    /// The certificate.
    pub(crate) fn cert(&self) -> &Cert
        ensures { result.now ≡ self.now.entries }
    {
        self.entries.cert()
    }

    /// Whether a configuration is well formed.
    pub(crate) fn is_formed(&mut self, config: &Config) -> bool
        ensures formed { IsTrue result ↔ IsWellFormed (configuration_of config.now) }
        ensures same { self.new.entries ≡ self.old.entries }
    {
        self.entries.is_formed(config)
    }

    /// What may be spent on asking many points at once.
    pub(crate) fn looks(&self) -> Looks {
        self.looks
    }

    /// Puts what may be spent on that.
    pub(crate) fn set_looks(&mut self, looks: Looks)
        ensures { self.new.entries ≡ self.old.entries }
    {
        self.looks = looks;
    }
}

impl Visitor for Covering<'_> {
    ghost use Rattle.std.specs.Prelude.{List};
    ghost use Rattle.mg_model.specs.Entries.{Entry};
    ghost use Rattle.std.specs.Prelude.{◌≡◌};
    ghost use Rattle.closure.specs.Findings.{AreCovered, IsFirstUncovered};

    type Stop = StepName;

    ghost By = { List Entry };

    ghost told = { λ c entries steps. (c.entries ≡ entries) × AreCovered entries steps };

    ghost stopped = { λ entries name steps. IsFirstUncovered entries steps name };

    fn visit(&mut self, name: StepName, leads_to: &Config) -> Result<(), StepName> {
        self.looks.earn();
        if self.entries.has(number_of(&name), leads_to) {
            Ok(())
        } else {
            Err(name)
        }
    }
}
