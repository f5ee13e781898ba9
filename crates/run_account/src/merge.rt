//! One history of several, each of which is cut at its restarts.
ghost use Rattle.std.specs.Prelude.{◌≡◌, drop, length, map, IfOk, OnOk};
ghost use Rattle.run_account.specs.Merging.{ArePartsPushed, IsPartPushed, left_from, one_history};

use mg_model::events::Event;
use std::alloc::{AllocError, Global};

/// Pushes what a history has from a place up to its next restart, and answers the place past that restart, or the end where there is none.
fn push_part(events: &mut Vec<Event>, history: &[Event], place: usize) -> Result<usize, AllocError>
    ensures { IfOk result (λ next. IsPartPushed events.old.items (drop place history.now) events.new.items (drop next history.now)) }
{
    let mut next = place;
    while next < history.len() {
        let event = history[next];
        next += 1;
        if let Event::Restart = event {
            break;
        }
        events.push(event)?;
    }
    Ok(next)
}

/// Pushes one association of each history from its place on, one history after the other, and moves the places past it.
fn push_association(
    events: &mut Vec<Event>,
    histories: &[Vec<Event>],
    places: &mut [usize],
) -> Result<(), AllocError>
    requires { length places.old ≡ length histories.now }
    ensures { let whole = map (λ h. h.items) histories.now in OnOk result (ArePartsPushed events.old.items (left_from places.old whole) events.new.items (left_from places.new whole)) }
{
    for (index, history) in histories.iter().enumerate() {
        places[index] = push_part(events, history.as_slice(), places[index])?;
    }
    Ok(())
}

/// How many events some histories have together, or the greatest number where they have more.
fn events_in(histories: &[Vec<Event>]) -> usize {
    let mut events = 0usize;
    for history in histories {
        events = events.saturating_add(history.len());
    }
    events
}

/// One history of several: association by association, in each one history after the other, and one restart between two. `AllocError` where memory ran out.
/// Room is made for all of it once, so that it never doubles.
pub(crate) fn merge(
    alloc: Global,
    histories: &[Vec<Event>],
    restarts: usize,
) -> Result<Vec<Event>, AllocError>
    ensures { IfOk result (λ history. history.items ≡ one_history (map (λ h. h.items) histories.now) restarts) }
{
    let mut events = Vec::with_capacity(alloc, events_in(histories))?;
    let mut places = vec![in alloc; 0usize; histories.len()]?;
    for _ in 0..restarts {
        push_association(&mut events, histories, places.as_mut_slice())?;
        events.push(Event::Restart)?;
    }
    push_association(&mut events, histories, places.as_mut_slice())?;
    Ok(events)
}
