//! The point that a fault names, with its configuration.
ghost use Rattle.std.specs.Prelude.{ℕ, IfSome, IfNone};
ghost use Rattle.mg_model.specs.Configuration.{Configuration};
ghost use Rattle.configuration.specs.Config.{configuration_of};
ghost use Rattle.explanation.specs.Located.{IsLocated};

use configuration::config::Config;
use entry_table::Cert;
use mg_model::faults::Fault;

/// A point of a certificate. This profile's own.
#[derive(Clone, Copy)]
pub struct Located {
    /// The place of its entry in the certificate, from 0.
    pub place: usize,
    /// Its number in the entry, from 0.
    pub number: u32,
    /// Its configuration.
    pub config: Config,
}

/// The point that a fault names. `None` where it names none that the certificate has, as where the opening or the restart is in no entry.
pub fn locate(cert: &Cert, fault: &Fault) -> Option<Located>
    ensures some { IfSome result (λ point. IsLocated cert.now fault.now point.place point.number (configuration_of point.config)) }
    ensures none { IfNone result ((place number : ℕ) (c : Configuration) → IsLocated cert.now fault.now place number c → ⊥) }
{
    let place = fault.entry?;
    let number = fault.point?;
    let entry = cert.entries().get(place)?;
    let config = entry.point(number)?;
    Some(Located {
        place,
        number,
        config,
    })
}
