//! Why a document is no script.
ghost use Rattle.std.specs.Prelude.{◌≡◌};
ghost use Rattle.scriptreader.specs.FaultNames.{number_of, name_of};

use thiserror::Error;

/// Why a document is no script. Where several apply, the one that comes first here is given.
#[derive(Clone, Copy, Debug, PartialEq, Eq, Error)]
pub enum ScriptFault {
    /// The bytes are no TOML.
    #[error("no TOML")]
    NotToml,
    /// A key that is unknown or missing, a value of the wrong kind, or a text that is not of the grammar.
    #[error("a bad key or value")]
    BadKey,
    /// A declared name that can't be a name.
    #[error("a bad name")]
    BadName,
    /// Something that is declared, listed or created twice.
    #[error("a duplicate")]
    Duplicate,
    /// A name that isn't declared as what its place asks for.
    #[error("an unknown name")]
    Unknown,
    /// A digit map's text that can't be read.
    #[error("a bad digit map")]
    BadMap,
    /// No start state.
    #[error("no start state")]
    NoStart,
    /// No restart state.
    #[error("no restart state")]
    NoRestart,
    /// A state with commands that doesn't say where a fault leads.
    #[error("a state with commands and no fault target")]
    NoFault,
    /// A state without commands that says where their outcome leads.
    #[error("a state without commands that has an outcome")]
    OkWithoutActions,
    /// An end state with commands or a target.
    #[error("an end state that goes on")]
    EndWithTransitions,
    /// A state that creates what it subtracts.
    #[error("a state that creates what it subtracts")]
    MadeAndSubtracted,
    /// More than a script may have.
    #[error("too many")]
    TooMany,
}

impl ScriptFault {
    /// The fault's number, 1 to 13, in the order of precedence.
    pub fn number(&self) -> u8
        ensures { result ≡ number_of self.now }
    {
        match self {
            ScriptFault::NotToml => 1,
            ScriptFault::BadKey => 2,
            ScriptFault::BadName => 3,
            ScriptFault::Duplicate => 4,
            ScriptFault::Unknown => 5,
            ScriptFault::BadMap => 6,
            ScriptFault::NoStart => 7,
            ScriptFault::NoRestart => 8,
            ScriptFault::NoFault => 9,
            ScriptFault::OkWithoutActions => 10,
            ScriptFault::EndWithTransitions => 11,
            ScriptFault::MadeAndSubtracted => 12,
            ScriptFault::TooMany => 13,
        }
    }

    /// The variant's name.
    pub fn name(&self) -> &'static str
        ensures { result.now ≡ name_of self.now }
    {
        match self {
            ScriptFault::NotToml => "NotToml",
            ScriptFault::BadKey => "BadKey",
            ScriptFault::BadName => "BadName",
            ScriptFault::Duplicate => "Duplicate",
            ScriptFault::Unknown => "Unknown",
            ScriptFault::BadMap => "BadMap",
            ScriptFault::NoStart => "NoStart",
            ScriptFault::NoRestart => "NoRestart",
            ScriptFault::NoFault => "NoFault",
            ScriptFault::OkWithoutActions => "OkWithoutActions",
            ScriptFault::EndWithTransitions => "EndWithTransitions",
            ScriptFault::MadeAndSubtracted => "MadeAndSubtracted",
            ScriptFault::TooMany => "TooMany",
        }
    }
}
