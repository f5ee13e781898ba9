ghost use Rattle.std.specs.Prelude.{◌≡◌, Some, IfSome};
ghost use Rattle.mg_names.specs.Words.{mode_text, mode_named};

/// The mode of a termination, seen from the exterior of its context (H.248.1 section 7.1.7, the mode property of LocalControl).
#[derive(Clone, Copy, PartialEq, Eq)]
pub enum Mode {
    /// Passes no media either way; the default of a new termination.
    Inactive,
    /// Passes media out of the context and none into it.
    SendOnly,
    /// Passes media into the context and none out of it.
    ReceiveOnly,
    /// Passes media both ways.
    SendReceive,
}

impl Mode {
    /// The word as scripts, certificates and output write it.
    pub fn text(self) -> &'static str
        ensures word { result.now ≡ mode_text self }
        ensures read_back { mode_named result.now ≡ Some self }
    {
        match self {
            Mode::Inactive => "Inactive",
            Mode::SendOnly => "SendOnly",
            Mode::ReceiveOnly => "ReceiveOnly",
            Mode::SendReceive => "SendReceive",
        }
    }

    /// The mode that a word names; `None` for every other text.
    pub fn read(word: &str) -> Option<Mode>
        ensures named { result ≡ mode_named word.now }
        ensures no_other { IfSome result (λ found. mode_text found ≡ word.now) }
    {
        match word {
            "Inactive" => Some(Mode::Inactive),
            "SendOnly" => Some(Mode::SendOnly),
            "ReceiveOnly" => Some(Mode::ReceiveOnly),
            "SendReceive" => Some(Mode::SendReceive),
            _ => None,
        }
    }
}
