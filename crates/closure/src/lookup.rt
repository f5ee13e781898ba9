//! Looking up configurations in a certificate, one after the other: points that are looked at one after the other differ in little, and so do their results.
ghost use Rattle.std.specs.Prelude.{◌≡◌, IsTrue};

use configuration::config::Config;
use configuration::formed::Formed;
use configuration::value_set::config_word;
use entry_table::Cert;
use std::marker::Model;

/// Where configurations are looked up.
#[derive(Drop)]
pub(crate) struct Lookup<'c> {
    cert: &'c Cert,
    /// For each number of a step the place of the entry that had its last result: mostly it has the next one too.
    kept: [usize; 64],
    /// The last configuration that was well formed.
    formed: Formed,
    /// The last one that an entry had: often another step leads there too.
    last: Option<Config>,
}

impl<'c> Model for Lookup<'c> {
    ghost use Rattle.std.specs.Prelude.{List, IfSome};
    ghost use Rattle.mg_model.specs.Entries.{Entry, IsCovered};
    ghost use Rattle.configuration.specs.Config.{configuration_of};

    ghost Value = { List Entry };

    ghost view = { λ l. l.cert.now };

    ghost invariant = { λ l. IfSome l.last (λ config. IsCovered l.cert.now (configuration_of config)) };
}

/// Whether two configurations are one.
pub(crate) fn is_same(one: &Config, other: &Config) -> bool
    ensures { IsTrue result → one.now ≡ other.now }
{
    config_word(one, 0) == config_word(other, 0)
        && config_word(one, 1) == config_word(other, 1)
        && config_word(one, 2) == config_word(other, 2)
}

impl<'c> Lookup<'c> {
    ghost use Rattle.std.specs.Prelude.{◌≡◌};

    /// Nothing was looked up yet.
    pub(crate) fn new(cert: &'c Cert) -> Lookup<'c>
        ensures { result ≡ cert.now }
    {
        Lookup {
            cert,
            kept: [0; 64],
            formed: Formed::first(),
            last: None,
        }
    }
}

impl Lookup<'_> {
    ghost use Rattle.std.specs.Prelude.{◌≡◌, ◌<◌, ◌↔◌, IsTrue};
    ghost use Rattle.mg_model.specs.Configuration.{IsWellFormed};
    ghost use Rattle.mg_model.specs.Entries.{IsCovered};
    ghost use Rattle.configuration.specs.Config.{configuration_of};

    /// The certificate.
    pub(crate) fn cert(&self) -> &Cert
        ensures { result.now ≡ self.now }
    {
        self.cert
    }

    /// Whether a configuration is well formed.
    pub(crate) fn is_formed(&mut self, config: &Config) -> bool
        ensures formed { IsTrue result ↔ IsWellFormed (configuration_of config.now) }
        ensures same { self.new ≡ self.old }
    {
        self.formed.take_up(config)
    }

    /// Whether a configuration is the last one that an entry had.
    fn is_last(&self, config: &Config) -> bool
        ensures { IsTrue result → IsCovered self.now (configuration_of config.now) }
    {
        match self.last {
            Some(last) => is_same(&last, config),
            None => false,
        }
    }

    /// Whether some entry has a configuration that is well formed: first the one is asked that had the last result of the step with this number, then all of the
    /// configuration's state at once.
    fn finds(&mut self, number: usize, config: &Config) -> bool
        requires number { number < 64 }
        requires formed { IsWellFormed (configuration_of config.now) }
        ensures covered { IsTrue result ↔ IsCovered self.old (configuration_of config.now) }
        ensures same { self.new ≡ self.old }
    {
        if self.cert.has_at(self.kept[number], config) {
            return true;
        }
        match self.cert.place_of(config) {
            Some(place) => {
                self.kept[number] = place;
                true
            }
            None => false,
        }
    }

    /// Whether some entry has a configuration, the result of the step with this number.
    pub(crate) fn has(&mut self, number: usize, config: &Config) -> bool
        requires { number < 64 }
        ensures covered { IsTrue result ↔ IsCovered self.old (configuration_of config.now) }
        ensures same { self.new ≡ self.old }
    {
        if self.is_last(config) {
            return true;
        }
        if !self.formed.take_up(config) {
            return false;
        }
        if !self.finds(number, config) {
            return false;
        }
        self.last = Some(*config);
        true
    }
}
