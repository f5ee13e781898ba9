//! Why a document is no certificate.
ghost use Rattle.std.specs.Prelude.{◌≡◌};
ghost use Rattle.certificate.specs.FaultNames.{number_of, name_of};

use thiserror::Error;

/// Why a document is no certificate. Where several apply, the one that comes first here is given.
#[derive(Clone, Copy, Debug, PartialEq, Eq, Error)]
pub enum CertFault {
    /// The bytes are no JSON.
    #[error("no JSON")]
    NotJson,
    /// A key that is unknown or missing, or a value of the wrong kind.
    #[error("a bad key or value")]
    BadKey,
    /// A name or a word that is unknown where it stands.
    #[error("an unknown name")]
    Unknown,
    /// A component with no values.
    #[error("an empty set")]
    EmptySet,
    /// More than 256 entries for one state.
    #[error("too many entries for a state")]
    TooManyEntries,
    /// An entry with a product of more than 65,536.
    #[error("too many points in an entry")]
    TooManyPoints,
    /// A document of version 1, whose entries were made for identifiers that are never given again.
    #[error("an old version")]
    OldVersion,
}

impl CertFault {
    /// The fault's number, 1 to 7, in the order of precedence.
    pub fn number(&self) -> u8
        ensures { result ≡ number_of self.now }
    {
        match self {
            CertFault::NotJson => 1,
            CertFault::BadKey => 2,
            CertFault::Unknown => 3,
            CertFault::EmptySet => 4,
            CertFault::TooManyEntries => 5,
            CertFault::TooManyPoints => 6,
            CertFault::OldVersion => 7,
        }
    }

    /// The fault's name, as the program's output writes it.
    pub fn name(&self) -> &'static str
        ensures { result.now ≡ name_of self.now }
    {
        match self {
            CertFault::NotJson => "NotJson",
            CertFault::BadKey => "BadKey",
            CertFault::Unknown => "Unknown",
            CertFault::EmptySet => "EmptySet",
            CertFault::TooManyEntries => "TooManyEntries",
            CertFault::TooManyPoints => "TooManyPoints",
            CertFault::OldVersion => "OldVersion",
        }
    }
}
