//! What all shards of a run agree on, for the prover alone: the values under their locks are of one script and one plan.
use std::marker::Brand;

/// A run: its script, its calls, and its number of shards. This profile's own.
pub trait Running {
    ghost use Rattle.std.specs.Prelude.{ℕ, List};
    ghost use Rattle.mg_model.specs.Script.{Script};
    ghost use Rattle.mg_model.specs.Plans.{PlanCall};

    ghost script: { Script };

    ghost calls: { List PlanCall };

    ghost count: { ℕ };
}

impl Running for Brand {
    ghost use Rattle.std.specs.Prelude.{[]};

    ghost script = { record { lines = []; contexts = []; ephemerals = []; lists = []; signals = []; maps = []; states = []; start = 0; restart = 0 } };

    ghost calls = { [] };

    ghost count = { 0 };
}
