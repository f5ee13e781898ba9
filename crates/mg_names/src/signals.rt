ghost use Rattle.std.specs.Prelude.{◌≡◌, Some, IfSome};
ghost use Rattle.mg_names.specs.Words.{signal_text, signal_named};

/// A signal that a line may play (H.248.1 Annex E.7 package al, Annex E.6 package cg).
#[derive(Clone, Copy, PartialEq, Eq)]
pub enum Signal {
    /// The ringing of the telephone.
    Ring,
    /// Dial tone.
    DialTone,
    /// Ringing tone.
    RingingTone,
    /// Busy tone.
    BusyTone,
    /// Congestion tone.
    CongestionTone,
}

impl Signal {
    /// The word as scripts, certificates and output write it.
    pub fn text(self) -> &'static str
        ensures word { result.now ≡ signal_text self }
        ensures read_back { signal_named result.now ≡ Some self }
    {
        match self {
            Signal::Ring => "al/ri",
            Signal::DialTone => "cg/dt",
            Signal::RingingTone => "cg/rt",
            Signal::BusyTone => "cg/bt",
            Signal::CongestionTone => "cg/ct",
        }
    }

    /// The signal that a word names; `None` for every other text.
    pub fn read(word: &str) -> Option<Signal>
        ensures named { result ≡ signal_named word.now }
        ensures no_other { IfSome result (λ found. signal_text found ≡ word.now) }
    {
        match word {
            "al/ri" => Some(Signal::Ring),
            "cg/dt" => Some(Signal::DialTone),
            "cg/rt" => Some(Signal::RingingTone),
            "cg/bt" => Some(Signal::BusyTone),
            "cg/ct" => Some(Signal::CongestionTone),
            _ => None,
        }
    }
}
