//! What a symbol or a pause makes of the symbols so far.
ghost use Rattle.std.specs.Prelude.{◌≡◌};
ghost use Rattle.digits.specs.Steps.{keeps};

use crate::dialled::Dialled;
use mg_model::line_events::Method;

/// What a symbol or a pause makes of a collector.
#[derive(Drop)]
pub enum Step {
    /// The symbol is kept, and collecting goes on.
    More,
    /// The map is completed: how, by which alternative, and by which symbols.
    Done {
        method: Method,
        alternative: Option<u8>,
        symbols: Dialled,
    },
    /// The map was completed before; nothing changes.
    Closed,
}

impl Step {
    /// Whether the symbol was kept.
    pub fn keeps(&self) -> bool
        ensures { result ≡ keeps self.now }
    {
        matches!(
            self,
            Step::More
                | Step::Done {
                    method: Method::Unambiguous,
                    ..
                }
        )
    }
}
