//! Who is told of the steps of a configuration, one after the other, and may stop.
ghost use Rattle.std.specs.Prelude.{◌∷◌, [], List};
ghost use Rattle.mg_model.specs.Steps.{Step as ModelStep};
ghost use Rattle.configuration.specs.Config.{configuration_of};
ghost use Rattle.closure.specs.Visits.{Tells};

use configuration::config::Config;
use mg_model::steps::StepName;

/// Who is told of steps, in their order.
pub(crate) trait Visitor {
    /// Why it stops.
    type Stop: Drop;

    /// What it goes by.
    ghost By: { Type 0 };

    /// Going by this it was told of these steps, and goes on.
    ghost told: { Self → By → List ModelStep → Type 0 };

    /// Going by this it stopped at one of these steps.
    ghost stopped: { By → Self.Stop → List ModelStep → Type 0 };

    /// A step, with the configuration that it leads to.
    fn visit(&mut self, name: StepName, leads_to: &Config) -> Result<(), Self::Stop>
        ensures { Tells told stopped self.old self.new ((name, configuration_of leads_to.now) ∷ []) result };
}
