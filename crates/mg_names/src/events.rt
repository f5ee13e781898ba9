ghost use Rattle.std.specs.Prelude.{◌≡◌, Some, IfSome};
ghost use Rattle.mg_names.specs.Words.{event_name_text, event_name_named};

/// An event that an Events descriptor may name (H.248.1 Annex E.9 package al, Annex E.6 package dd).
#[derive(Clone, Copy)]
pub enum EventName {
    /// The telephone is put on hook.
    OnHook,
    /// The telephone is taken off hook.
    OffHook,
    /// The hook is flashed.
    Flash,
    /// A digit map completes.
    DigitMapCompletion,
}

impl EventName {
    /// The word as scripts, certificates and output write it.
    pub fn text(self) -> &'static str
        ensures word { result.now ≡ event_name_text self }
        ensures read_back { event_name_named result.now ≡ Some self }
    {
        match self {
            EventName::OnHook => "al/on",
            EventName::OffHook => "al/of",
            EventName::Flash => "al/fl",
            EventName::DigitMapCompletion => "dd/ce",
        }
    }

    /// The event name that a word names; `None` for every other text.
    pub fn read(word: &str) -> Option<EventName>
        ensures named { result ≡ event_name_named word.now }
        ensures no_other { IfSome result (λ found. event_name_text found ≡ word.now) }
    {
        match word {
            "al/on" => Some(EventName::OnHook),
            "al/of" => Some(EventName::OffHook),
            "al/fl" => Some(EventName::Flash),
            "dd/ce" => Some(EventName::DigitMapCompletion),
            _ => None,
        }
    }
}
