ghost use Rattle.std.specs.Prelude.{◌≡◌, Some, IfSome};
ghost use Rattle.mg_names.specs.Words.{context_value_text, context_value_named};

/// What a context name of a script stands for. This profile's own.
#[derive(Clone, Copy)]
pub enum ContextValue {
    /// The name is not bound.
    Free,
    /// The name is bound to a context that exists.
    Live,
    /// The name is bound, and its context was deleted.
    Stale,
}

impl ContextValue {
    /// The word as scripts, certificates and output write it.
    pub fn text(self) -> &'static str
        ensures word { result.now ≡ context_value_text self }
        ensures read_back { context_value_named result.now ≡ Some self }
    {
        match self {
            ContextValue::Free => "free",
            ContextValue::Live => "live",
            ContextValue::Stale => "stale",
        }
    }

    /// The context value that a word names; `None` for every other text.
    pub fn read(word: &str) -> Option<ContextValue>
        ensures named { result ≡ context_value_named word.now }
        ensures no_other { IfSome result (λ found. context_value_text found ≡ word.now) }
    {
        match word {
            "free" => Some(ContextValue::Free),
            "live" => Some(ContextValue::Live),
            "stale" => Some(ContextValue::Stale),
            _ => None,
        }
    }
}
