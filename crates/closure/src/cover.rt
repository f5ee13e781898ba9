//! Whether some entry of a certificate has a configuration.
ghost use Rattle.std.specs.Prelude.{◌↔◌, IsTrue};
ghost use Rattle.mg_model.specs.Entries.{IsCovered};
ghost use Rattle.configuration.specs.Config.{configuration_of};

use configuration::config::Config;
use configuration::well_formed::is_well_formed;
use entry_table::Cert;

/// Whether some entry has a configuration. Only those of its state are asked.
pub fn covers(cert: &Cert, config: &Config) -> bool
    ensures { IsTrue result ↔ IsCovered cert.now (configuration_of config.now) }
{
    if !is_well_formed(config) {
        return false;
    }
    cert.place_of(config).is_some()
}
