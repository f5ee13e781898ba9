ghost use Rattle.std.specs.Prelude.{◌≡◌, Some, IfSome};
ghost use Rattle.mg_names.specs.Words.{kind_text, kind_named};

/// What a note reports: a hook event, a flash, or how a digit map completed. The words are this profile's own.
#[derive(Clone, Copy, PartialEq, Eq)]
pub enum Kind {
    /// The line went on hook.
    On,
    /// The line went off hook.
    Of,
    /// The hook was flashed.
    Fl,
    /// A digit map completed with an unambiguous or a full match (Meth UM or FM).
    Full,
    /// A digit map completed with a partial match (Meth PM).
    Part,
}

impl Kind {
    /// The word as scripts, certificates and output write it.
    pub fn text(self) -> &'static str
        ensures word { result.now ≡ kind_text self }
        ensures read_back { kind_named result.now ≡ Some self }
    {
        match self {
            Kind::On => "on",
            Kind::Of => "of",
            Kind::Fl => "fl",
            Kind::Full => "full",
            Kind::Part => "part",
        }
    }

    /// The kind that a word names; `None` for every other text.
    pub fn read(word: &str) -> Option<Kind>
        ensures named { result ≡ kind_named word.now }
        ensures no_other { IfSome result (λ found. kind_text found ≡ word.now) }
    {
        match word {
            "on" => Some(Kind::On),
            "of" => Some(Kind::Of),
            "fl" => Some(Kind::Fl),
            "full" => Some(Kind::Full),
            "part" => Some(Kind::Part),
            _ => None,
        }
    }
}
