//! The entry that comes nearest to having a configuration.
ghost use Rattle.std.specs.Prelude.{◌≡◌, ℕ, IfSome, IfNone, Some, slice_get};
ghost use Rattle.mg_model.specs.Entries.{Entry as Listed};
ghost use Rattle.configuration.specs.Config.{configuration_of};
ghost use Rattle.explanation.specs.Nearest.{Lack, HasNone, IsNearest, nearer_of};

use configuration::config::Config;
use entry_table::{Cert, Entry};

/// An entry of a configuration's state, and how many of its components don't have the configuration's value. This profile's own.
#[derive(Clone, Copy)]
pub struct Nearest {
    /// Its place in the certificate, from 0.
    pub place: usize,
    /// How many of its components don't have the configuration's value.
    pub missing: usize,
}

/// How many components of an entry don't have a configuration's value.
pub fn lacking(entry: &Entry, config: &Config) -> usize
    ensures { Lack (configuration_of config.now) entry.now.components result }
{
    let mut missing = 0;
    for component in entry.components() {
        if !component.allows(config) {
            missing += 1;
        }
    }
    missing
}

/// The nearer one of an entry and what was found before it.
fn nearer(found: Option<Nearest>, other: Nearest) -> Nearest
    ensures { result ≡ nearer_of found other }
{
    match found {
        Some(nearest) if nearest.missing <= other.missing => nearest,
        _ => other,
    }
}

/// The entry of a configuration's state of which the fewest components don't have its value, and of those the first; `None` where the
/// certificate has no entry of that state.
pub fn find_nearest(cert: &Cert, config: &Config) -> Option<Nearest>
    ensures some { IfSome result (λ found. IsNearest cert.now (configuration_of config.now) found.place found.missing) }
    ensures none { IfNone result (HasNone cert.now (configuration_of config.now).state) }
{
    let mut found = None;
    for (place, entry) in cert.entries().iter().enumerate() {
        if entry.state() == config.state() {
            let missing = lacking(entry, config);
            found = Some(nearer(found, Nearest { place, missing }));
        }
    }
    found
}
