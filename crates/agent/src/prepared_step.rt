//! A step of an agent that is prepared.
ghost use Rattle.std.specs.Prelude.{◌≡◌, option_map};
ghost use Rattle.mg_model.specs.Agent.{Agent};
ghost use Rattle.agent.specs.PreparedValue.{finished, in_newer};
ghost use Rattle.agent.specs.Entering.{having};
ghost use Rattle.agent.specs.Parts.{agent_in, bound_as};
ghost use Rattle.agent.specs.Steps.{outstanding};

use crate::bindings::Bindings;
use crate::entering::Entered;
use crate::phase::Phase;
use mg_names::identifiers::Assoc;
use requests::Request;
use std::marker::Model;

/// A step of an agent that is prepared: all its memory is there, and nothing can refuse it any more. `Plain::finish` puts it in place, and
/// `Plain::cancel` takes it back. It is of the agent that prepared it, which is to take no other step before. This profile's own.
#[derive(Drop)]
pub struct PreparedStep {
    pub(crate) bindings: Bindings,
    pub(crate) entered: Entered,
    /// The newer association that the call heard of.
    pub(crate) association: Option<Assoc>,
    /// The number of the note that the step accepts.
    pub(crate) note: Option<u32>,
}

impl Model for PreparedStep {
    ghost use Rattle.std.specs.Prelude.{option_map};
    ghost use Rattle.agent.specs.AgentValue.{phase_of};
    ghost use Rattle.agent.specs.PreparedValue.{PreparedValue};

    ghost Value = { PreparedValue };

    ghost view = { λ a. record { state = a.entered.state; phase = phase_of a.entered.phase; next = a.entered.next; lines = a.bindings.lines; contexts = a.bindings.contexts; ephemerals = a.bindings.ephemerals; expected = a.bindings.expected; association = option_map (λ n. n.0) a.association; note = a.note } };
}

impl PreparedStep {
    /// The step that leads to what was entered with these bindings, in a newer association where there is one, and that accepts a note
    /// where there is one.
    #[tactic(auto, unfolding(crate::specs::PreparedValue::finished, crate::specs::Parts::agent_in))]
    pub(crate) fn new(
        bindings: Bindings,
        entered: Entered,
        association: Option<Assoc>,
        note: Option<u32>,
    ) -> PreparedStep
        ensures finished { (a : Agent) → finished a result ≡ having (bound_as (in_newer a (option_map (λ n. n.0) association)) (agent_in bindings)) entered }
        ensures note { result.note ≡ note }
    {
        PreparedStep {
            bindings,
            entered,
            association,
            note,
        }
    }

    /// The request that the step sends (H.248.1 section 8.2.1); `None` where it sends none.
    pub fn request(&self) -> Option<&Request>
        ensures { option_map (λ r. r.now) result ≡ outstanding self.now.phase }
    {
        match &self.entered.phase {
            Phase::AwaitsReply(request) => Some(request),
            Phase::AwaitsPass => None,
            Phase::Resting => None,
        }
    }
}
