ghost use Rattle.std.specs.Prelude.{◌≡◌, Some, IfSome};
ghost use Rattle.mg_names.specs.Words.{link_text, link_named};

/// How far the request of a call's state has come, as the checker sees it. This profile's own.
#[derive(Clone, Copy, PartialEq, Eq)]
pub enum LinkPhase {
    /// The request is sent, and the gateway has not executed it.
    Sent,
    /// It was executed whole, or was empty; the reply has not been taken.
    Answered,
    /// It stopped at a failing command; the reply has not been taken.
    Failed,
    /// The reply was taken, and the call rests in its state.
    Resting,
}

impl LinkPhase {
    /// The word as scripts, certificates and output write it.
    pub fn text(self) -> &'static str
        ensures word { result.now ≡ link_text self }
        ensures read_back { link_named result.now ≡ Some self }
    {
        match self {
            LinkPhase::Sent => "sent",
            LinkPhase::Answered => "ok",
            LinkPhase::Failed => "fault",
            LinkPhase::Resting => "rest",
        }
    }

    /// The link that a word names; `None` for every other text.
    pub fn read(word: &str) -> Option<LinkPhase>
        ensures named { result ≡ link_named word.now }
        ensures no_other { IfSome result (λ found. link_text found ≡ word.now) }
    {
        match word {
            "sent" => Some(LinkPhase::Sent),
            "ok" => Some(LinkPhase::Answered),
            "fault" => Some(LinkPhase::Failed),
            "rest" => Some(LinkPhase::Resting),
            _ => None,
        }
    }
}
