//! Uses of typed calls, as a runner makes them. `tools/gate/refused_uses` puts a line into a copy of this file, and the compiler has to refuse it.
#![tactic(auto)]

use agent::{Call, Next, Refused, Resting, Waiting};
use requests::SentNote;

/// A call that waits goes on from an empty request.
pub fn goes_on<'s>(call: Call<'s, Waiting>) -> Result<Next<'s>, Refused<'s, Waiting>> {
    call.pass()
}

/// A note reaches a call that rests.
pub fn is_told<'s>(
    call: Call<'s, Resting>,
    note: &SentNote,
) -> Result<Next<'s>, Refused<'s, Resting>> {
    call.note(note)
}
