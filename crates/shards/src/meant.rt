//! What a step of a plan means for a call, with where the call is and how many events are counted of it: all by one look for its record.
ghost use Rattle.std.specs.Prelude.{◌≡◌, IfSome, Some, option_map};
ghost use Rattle.shards.specs.CallRecords.{IsSameRecord, IsTied};
ghost use Rattle.shards.specs.CallTable.{OthersStay, record_in};
ghost use Rattle.shards.specs.Meaning.{HasNumberedNotes, IsCountedAs, IsMeant, IsSameEntry, IsTiedEntry, IsToldOf, event_told};
ghost use Rattle.shards.specs.Messages.{AreNumberedFrom, note_numbers};
ghost use Rattle.shards.specs.Shards.{IsUnchanged};
ghost use Rattle.shards.specs.Standings.{TellsStanding};

use crate::call_record::CallRecord;
use crate::call_table::CallTable;
use crate::meaning::{event, settle};
use crate::shard::Shard;
use crate::standing::{Standing, standing_of};
use mg_model::events::Event;
use mg_model::plans::PlanStep;
use mg_names::identifiers::{Assoc, CallNo};

/// What a step of a plan means for a call that is open in a shard. This profile's own.
#[derive(Clone, Copy)]
pub struct Meant {
    /// Where the call is.
    pub standing: Standing,
    /// How many events the shard counts of it.
    pub events: usize,
    /// The event that the step means; nothing where it means none.
    pub event: Option<Event>,
}

/// What a step means for the call of a record, whose notes are settled as far as they are.
fn meant_by(
    call_record: &mut CallRecord,
    association: Assoc,
    next: CallNo,
    step: &PlanStep,
) -> Meant
    requires { IsTied call_record.old }
    ensures told { IsToldOf (Some call_record.old) association.0 next.0 step.now (Some result) }
    ensures numbered { AreNumberedFrom 1 (note_numbers call_record.old.messages.sent.notes) }
    ensures same { IsSameRecord call_record.old call_record.new }
{
    let standing = standing_of(call_record);
    let events = call_record.events;
    settle(call_record);
    Meant {
        standing,
        events,
        event: event(call_record, association, next, step),
    }
}

/// What a step means for a call; nothing where it has no record.
#[tactic(auto, unfolding(crate::specs::CallTable::record_in))]
fn meant_of(
    call_table: &mut CallTable,
    call: CallNo,
    association: Assoc,
    next: CallNo,
    step: &PlanStep,
) -> Option<Meant>
    requires { IsTiedEntry (record_in call_table.old.entries call.0) }
    ensures told { IsToldOf (record_in call_table.old.entries call.0) association.0 next.0 step.now result }
    ensures numbered { HasNumberedNotes (record_in call_table.old.entries call.0) }
    ensures same { IsSameEntry (record_in call_table.old.entries call.0) (record_in call_table.new.entries call.0) }
    ensures others { OthersStay call_table.old.entries call.0 call_table.new.entries }
{
    match call_table.get_mut(&call.0) {
        Some(call_record) => Some(meant_by(call_record, association, next, step)),
        None => None,
    }
}

impl<'s> Shard<'s> {
    /// What `standing` and `meaning` tell, and how many events are counted of the call, by one look for its record. `None` where the call isn't open.
    pub fn meant(&mut self, call: CallNo, next: CallNo, step: &PlanStep) -> Option<Meant>
        ensures standing { TellsStanding self.old call.0 (option_map (λ told. told.standing) result) }
        ensures meant { IsMeant self.old call.0 next.0 step.now (event_told result) }
        ensures counted { IfSome result (λ told. IsCountedAs self.new call.0 told.events) }
        ensures unchanged { IsUnchanged self.old self.new }
    {
        let association = self.gateway.association();
        meant_of(&mut self.call_table, call, association, next, step)
    }
}
