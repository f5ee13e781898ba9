//! The search for a path of media by the ephemerals that it finds, each noted once.
ghost use Rattle.std.specs.Prelude.{◌≡◌, None, IsTrue, ◌↔◌, IfSome, []};
ghost use Rattle.contexts.specs.Paths.{arrival, Leads};
ghost use Rattle.contexts.specs.Found.{noted_if, IsFullFor, IsSpread, IsOverfull, ArrivesAtMore};
ghost use Rattle.contexts.specs.TiedBoard.{board_of};

use crate::found::{FOUND_MOST, Found};
use crate::members;
use crate::trail::Trail;
use crate::wiring::Wiring;
use mg_names::identifiers::TermId;

impl Wiring<'_> {
    /// Notes where media arrives next by way of a termination; `None` where one more doesn't fit.
    fn spread_by(&self, from: &TermId, t: &TermId, found: &mut Found) -> Option<()>
        ensures noted { IfSome result (λ _. found.new ≡ noted_if (arrival (board_of self.now) [] from.now t.now) found.old) }
        ensures full { result ≡ None → IsFullFor FOUND_MOST (arrival (board_of self.now) [] from.now t.now) found.old }
    {
        if let Some(next) = self.arrival(from, t, &Trail::Start) {
            found.note(next)?;
        }
        Some(())
    }

    /// Notes each ephemeral at which media arrives next from a termination; `None` where one more doesn't fit.
    fn spread(&self, from: &TermId, found: &mut Found) -> Option<()>
        ensures spread { IfSome result (λ _. IsSpread (board_of self.now) from.now found.old found.new) }
        ensures full { result ≡ None → IsOverfull (board_of self.now) FOUND_MOST from.now found.old }
    {
        for t in members::of_context(self.members, self.place_of(*from)) {
            self.spread_by(from, t, found)?;
        }
        Some(())
    }

    /// Whether media goes from the one termination to the other; `None` where it arrives at more ephemerals than can be noted.
    /// The search goes on from each ephemeral found once.
    pub(crate) fn reaches(&self, from: &TermId, to: &TermId) -> Option<bool>
        ensures answer { IfSome result (λ answer. IsTrue answer ↔ Leads (board_of self.now) [] from.now to.now) }
        ensures full { result ≡ None → ArrivesAtMore (board_of self.now) FOUND_MOST from.now }
    {
        if self.hops(from, to) {
            return Some(true);
        }
        let mut found = Found::new();
        self.spread(from, &mut found)?;
        while let Some(number) = found.take_next() {
            let here = TermId::Eph(number);
            if self.hops(&here, to) {
                return Some(true);
            }
            self.spread(&here, &mut found)?;
        }
        Some(false)
    }
}
