//! The order of values within a component, and sets in that order.
ghost use Rattle.std.specs.Prelude.{◌≡◌, ℕ, ◌+◌, ◌≤◌, ◌∷◌, ◌++◌, length, take, drop, OnOk};
ghost use Rattle.certificate.specs.Ranks.{inserted};

use mg_model::commands::EventsName;
use mg_model::components::{Remote, Spot};
use mg_names::context_values::ContextValue;
use mg_names::modes::Mode;
use mg_names::phases::LinkPhase;
use std::alloc::AllocError;

/// A type of values that have places in the format's table.
pub trait Ranked: Copy {
    ghost place: { Self → ℕ };

    /// The value's place.
    fn rank(self) -> u16
        ensures { result ≡ place self };
}

impl Ranked for LinkPhase {
    ghost use Rattle.certificate.specs.Ranks.{link_rank};

    ghost place = { link_rank };

    fn rank(self) -> u16 {
        match self {
            LinkPhase::Sent => 0,
            LinkPhase::Answered => 1,
            LinkPhase::Failed => 2,
            LinkPhase::Resting => 3,
        }
    }
}

impl Ranked for Spot {
    ghost use Rattle.certificate.specs.Ranks.{spot_rank};

    ghost place = { spot_rank };

    fn rank(self) -> u16 {
        match self {
            Spot::Absent => 0,
            Spot::Null => 1,
            Spot::In(context) => 2 + context.index() as u16,
        }
    }
}

impl Ranked for Mode {
    ghost use Rattle.certificate.specs.Ranks.{mode_rank};

    ghost place = { mode_rank };

    fn rank(self) -> u16 {
        match self {
            Mode::Inactive => 0,
            Mode::SendOnly => 1,
            Mode::ReceiveOnly => 2,
            Mode::SendReceive => 3,
        }
    }
}

impl Ranked for EventsName {
    ghost use Rattle.certificate.specs.Ranks.{events_rank};

    ghost place = { events_rank };

    fn rank(self) -> u16 {
        match self {
            EventsName::Empty => 0,
            EventsName::Armed => 1,
            EventsName::Own(list) => 2 + list.index() as u16,
        }
    }
}

impl Ranked for bool {
    ghost use Rattle.certificate.specs.Ranks.{switch_rank};

    ghost place = { switch_rank };

    fn rank(self) -> u16 {
        if self { 1 } else { 0 }
    }
}

impl Ranked for ContextValue {
    ghost use Rattle.certificate.specs.Ranks.{context_rank};

    ghost place = { context_rank };

    fn rank(self) -> u16 {
        match self {
            ContextValue::Free => 0,
            ContextValue::Live => 1,
            ContextValue::Stale => 2,
        }
    }
}

impl Ranked for Remote {
    ghost use Rattle.certificate.specs.Ranks.{remote_rank};

    ghost place = { remote_rank };

    fn rank(self) -> u16 {
        match self {
            Remote::Unset => 0,
            Remote::Gone => 1,
            Remote::To(ephemeral) => 2 + ephemeral.index() as u16,
        }
    }
}

/// How many values stand before another, which are below it.
fn place_of<T: Ranked>(values: &[T], value: T) -> usize
    ensures within { result ≤ length values.now }
    ensures passes { inserted T.place value values.now
        ≡ take result values.now ++ inserted T.place value (drop result values.now) }
    ensures stops { (x : T) → drop result values.now ≡ x ∷ drop (result + 1) values.now → T.place value ≤ T.place x }
{
    for (place, other) in values.iter().enumerate() {
        if other.rank() >= value.rank() {
            return place;
        }
    }
    values.len()
}

/// Puts a value into a set that is kept in rising order.
pub fn insert<T: Ranked + Drop>(values: &mut Vec<T>, value: T) -> Result<(), AllocError>
    ensures { OnOk result (values.new.items ≡ inserted T.place value values.old.items) }
{
    let place = place_of(values.as_slice(), value);
    if place < values.len() && values[place].rank() == value.rank() {
        return Ok(());
    }
    values.insert(place, value)?;
    Ok(())
}
