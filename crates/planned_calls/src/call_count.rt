//! What is counted of a call of the plan, with all that begin within it, step after step.
ghost use Rattle.std.specs.Prelude.{◌≡◌, ◌+◌, ◌≤◌, ◌⊎◌, IfErr, OnOk};
ghost use Rattle.mg_model.specs.Script.{Script};
ghost use Rattle.mg_reports.specs.Logs.{count_step, none_counted};
ghost use Rattle.planned_calls.specs.Counts.{IsRenewed, counts_of};
ghost use Rattle.planned_calls.specs.Disagreements.{IsBecause, last_count};

use crate::fault::RunFault;
use crate::planned_call::TakenStep;
use mg_model::plans::PlanStep;
use std::alloc::Global;

/// A call that is retired, as far as the report tells of it.
#[derive(Clone, Copy)]
pub struct RetiredCall {
    /// Its state.
    pub state: u8,
    /// How many events happened to it.
    pub events: usize,
    /// How many of its steps were idle.
    pub idle: usize,
}

/// What is counted of a call of the plan, with all that begin within it. This profile's own.
#[derive(Drop)]
pub struct CallCount {
    /// Those that stood before the one that stands, the first one first.
    pub gone: Vec<RetiredCall>,
    /// How many events happened to the one that stands.
    pub events: usize,
    /// How many of its steps were idle.
    pub idle: usize,
}

impl CallCount {
    /// Nothing is counted yet.
    pub fn new(alloc: Global) -> CallCount
        ensures { (script : Script) → counts_of script result ≡ none_counted }
    {
        CallCount {
            gone: Vec::new(alloc),
            events: 0,
            idle: 0,
        }
    }

    /// One event more. `Disagree` where the count ends.
    fn count_event(&mut self) -> Result<(), RunFault>
        ensures events { OnOk result (self.new.events ≡ self.old.events + 1) }
        ensures gone { self.new.gone ≡ self.old.gone }
        ensures idle { self.new.idle ≡ self.old.idle }
        ensures ends { IfErr result (IsBecause (last_count ≤ self.old.events)) }
    {
        let Some(events) = self.events.checked_add(1) else {
            return Err(RunFault::Disagree);
        };
        self.events = events;
        Ok(())
    }

    /// One idle step more. `Disagree` where the count ends.
    fn count_idle(&mut self) -> Result<(), RunFault>
        ensures idle { OnOk result (self.new.idle ≡ self.old.idle + 1) }
        ensures gone { self.new.gone ≡ self.old.gone }
        ensures events { self.new.events ≡ self.old.events }
        ensures ends { IfErr result (IsBecause (last_count ≤ self.old.idle)) }
    {
        let Some(idle) = self.idle.checked_add(1) else {
            return Err(RunFault::Disagree);
        };
        self.idle = idle;
        Ok(())
    }

    /// Another call begins, with one event; the one that stood is retired in this state.
    fn count_begun(&mut self, state: u8) -> Result<(), RunFault>
        ensures counted { OnOk result (IsRenewed self.old state self.new) }
        ensures no_memory { IfErr result (IsBecause ⊥) }
    {
        let last = RetiredCall {
            state,
            events: self.events,
            idle: self.idle,
        };
        self.gone.push(last)?;
        self.events = 1;
        self.idle = 0;
        Ok(())
    }

    /// Counts a step that came to this. `Disagree` where a count ends, and `NoMemory` where memory ran out.
    pub fn count(&mut self, step: &PlanStep, told: &TakenStep) -> Result<(), RunFault>
        ensures counted { OnOk result ((script : Script) → counts_of script self.new ≡ count_step script step.now told.now.state told.now.event (counts_of script self.old)) }
        ensures ends { IfErr result (IsBecause ((last_count ≤ self.old.events) ⊎ (last_count ≤ self.old.idle))) }
    {
        match (told.event, step) {
            (None, _) => self.count_idle(),
            (Some(_), PlanStep::Begins) => self.count_begun(told.state),
            (Some(_), _) => self.count_event(),
        }
    }
}
