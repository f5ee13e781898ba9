//! What is told of a call of a plan: its steps, one after the other, taken with the call alone on a gateway of its own.
ghost use Rattle.std.specs.Prelude.{◌≡◌, ◌∷◌, [], IfOk, OnOk, slice_index_or};
ghost use Rattle.mg_model.specs.Plans as plans;
ghost use Rattle.mg_model.specs.declared.plans.PlanStep.TheVariants.{Restarts};
ghost use Rattle.run_steps.specs.Telling.{IsOfRestart, IsToldLast, TellsOn, ending, own_step};

use crate::showing::show;
use crate::told_step::ToldStep;
use agent::Next;
use mg_model::plans::PlanStep;
use mg_names::identifiers::{Assoc, CallNo};
use plans::Epoch;
use run_account::{RunFault, is_restart};
use taken_steps::{Came, Position, Scene, Shard, Taken, position_of, take};

/// How far a call of the plan is told.
#[derive(Drop)]
pub(crate) struct Telling<'s> {
    /// The gateway of its own.
    pub(crate) shard: Shard<'s>,
    /// The call that stands.
    pub(crate) next: Next<'s>,
    /// Its number.
    pub(crate) number: CallNo,
    /// What shows what is sent and what plays.
    pub(crate) scene: Scene<'s>,
    /// What is told.
    pub(crate) steps: Vec<ToldStep>,
}

/// The steps of an epoch; none where there is no such epoch.
fn steps_in(epochs: &[Epoch], epoch: usize) -> &[PlanStep]
    ensures { result.now ≡ slice_index_or epochs.now epoch [] }
{
    match epochs.get(epoch) {
        Some(epoch) => epoch.steps(),
        None => &[],
    }
}

impl<'s> Telling<'s> {
    /// Tells a step of the call that stands: what it came to, where the call was before it and where it is, and what it shows. `Disagree` where the scene went
    /// another way.
    fn tell(&mut self, step: PlanStep, came: Came, before: Position) -> Result<(), RunFault>
        ensures { OnOk result (IsToldLast step came before self.old self.new) }
    {
        let after = position_of(&self.shard, &self.next);
        let shown = show(&mut self.scene, &came, &self.next)?;
        self.steps.push(ToldStep {
            call: self.number,
            step,
            came,
            before,
            after,
            shown,
        })?;
        Ok(())
    }

    /// A step of the plan other than a restart, as `taking` says.
    fn step(self, step: &PlanStep) -> Result<Telling<'s>, RunFault>
        requires { step.now ≡ Restarts → ⊥ }
        ensures { IfOk result (λ after. TellsOn (step.now ∷ []) self.entry after) }
    {
        let Telling {
            mut shard,
            next,
            number,
            scene,
            steps,
        } = self;
        let before = position_of(&shard, &next);
        let Taken { next, number, came } = take(&mut shard, next, number, step)?;
        let mut telling = Telling {
            shard,
            next,
            number,
            scene,
            steps,
        };
        telling.tell(*step, came, before)?;
        Ok(telling)
    }

    /// The gateway restarts, for one reason or the other. `Disagree` in the last association.
    fn restart(self, came: Came) -> Result<Telling<'s>, RunFault>
        requires { IsOfRestart came }
        ensures { IfOk result (λ after. TellsOn (own_step Restarts came) self.entry after) }
    {
        let mut telling = self;
        let before = position_of(&telling.shard, &telling.next);
        telling.shard.restart()?;
        telling.tell(PlanStep::Restarts, came, before)?;
        Ok(telling)
    }

    /// The gateway restarts for other calls until it is in an association. `Disagree` where it is past it.
    pub(crate) fn wait_for(self, association: Assoc) -> Result<Telling<'s>, RunFault>
        ensures { IfOk result (λ after. TellsOn [] self.entry after) }
    {
        let mut telling = self;
        for _ in telling.shard.association().0..association.0 {
            telling = telling.restart(Came::OtherRestarted)?;
        }
        if telling.shard.association() != association {
            return Err(RunFault::Disagree);
        }
        Ok(telling)
    }

    /// A step of the call behind the restarts of others that came before it in the run, where its shard was in this association then; a restart led to it.
    /// `Disagree` where it is past.
    fn take(self, step: &PlanStep, mark: Assoc) -> Result<Telling<'s>, RunFault>
        ensures { IfOk result (λ after. TellsOn (step.now ∷ []) self.entry after) }
    {
        if !is_restart(step) {
            return self.wait_for(mark)?.step(step);
        }
        let Some(before) = mark.0.checked_sub(1) else {
            return Err(RunFault::Disagree);
        };
        self.wait_for(Assoc(before))?.restart(Came::Restarted)
    }

    /// The steps of an epoch, from a place of the call's marks on.
    fn take_all(
        self,
        steps: &[PlanStep],
        marks: &[Assoc],
        from: usize,
    ) -> Result<Telling<'s>, RunFault>
        ensures { IfOk result (λ after. TellsOn steps.now self.entry after) }
    {
        let mut telling = self;
        let mut place = from;
        for step in steps {
            let Some(mark) = marks.get(place) else {
                return Err(RunFault::Disagree);
            };
            telling = telling.take(step, *mark)?;
            place = place.saturating_add(1);
        }
        Ok(telling)
    }

    /// All steps of a call in so many epochs, of which it has these, where its shard was in these associations at its steps.
    pub(crate) fn take_epochs(
        self,
        count: usize,
        epochs: &[Epoch],
        marks: &[Assoc],
    ) -> Result<Telling<'s>, RunFault>
        ensures { IfOk result (λ after. TellsOn (plans.steps_in count epochs.now) self.entry after) }
    {
        let mut telling = self;
        let mut place = 0usize;
        for epoch in 0..count {
            telling = telling.begin_epoch(epoch)?;
            let steps = steps_in(epochs, epoch);
            telling = telling.take_all(steps, marks, place)?;
            place = place.saturating_add(steps.len());
        }
        Ok(telling)
    }

    /// The epoch before one ends.
    fn begin_epoch(self, epoch: usize) -> Result<Telling<'s>, RunFault>
        ensures { IfOk result (λ after. TellsOn (ending epoch) self.entry after) }
    {
        if epoch == 0 {
            return Ok(self);
        }
        self.restart(Came::EpochEnded)
    }
}
