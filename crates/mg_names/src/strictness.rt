ghost use Rattle.std.specs.Prelude.{◌≡◌, Some, IfSome};
ghost use Rattle.mg_names.specs.Words.{strict_text, strict_named};

/// How the hook events of package al are recognised (H.248.1 Annex E.9, the parameter strict).
#[derive(Clone, Copy)]
pub enum Strict {
    /// A transition of the hook alone.
    Exact,
    /// A transition, and a hook state that stands when the descriptor is processed.
    State,
}

impl Strict {
    /// The word as scripts, certificates and output write it.
    pub fn text(self) -> &'static str
        ensures word { result.now ≡ strict_text self }
        ensures read_back { strict_named result.now ≡ Some self }
    {
        match self {
            Strict::Exact => "exact",
            Strict::State => "state",
        }
    }

    /// The strict that a word names; `None` for every other text.
    pub fn read(word: &str) -> Option<Strict>
        ensures named { result ≡ strict_named word.now }
        ensures no_other { IfSome result (λ found. strict_text found ≡ word.now) }
    {
        match word {
            "exact" => Some(Strict::Exact),
            "state" => Some(Strict::State),
            _ => None,
        }
    }
}
