//! The hull of some configurations: all that have each component's value from one of them. A few stand for many more than can be looked at one after the
//! other: as few as the components have values together.
use configuration::config::Config;
use mg_model::commands::EventsName;
use mg_names::phases::LinkPhase;
use std::marker::Model;

/// The most that a hull is given by: components of several values have no more values together where the numbers of an entry are 65,536 at most.
const MOST: usize = 96;

/// There are more than have room.
#[derive(Drop)]
pub(crate) struct TooMany;

/// A hull, by the configurations that it is the hull of.
#[derive(Drop)]
pub(crate) struct Hull {
    configs: [Config; 96],
    count: usize,
}

impl Model for Hull {
    ghost use Rattle.std.specs.Prelude.{◌≤◌, List, take};
    ghost use Rattle.configuration.specs.Packed.{Words};

    ghost Value = { List Words };

    ghost view = { λ m. take m.count m.configs };

    ghost invariant = { λ m. m.count ≤ 96 };
}

impl Hull {
    ghost use Rattle.std.specs.Fn.{FnReturnsAt};
    ghost use Rattle.std.specs.List.{All, AllZip};
    ghost use Rattle.std.specs.Prelude.{◌≡◌, ◌++◌, ◌∷◌, [], true, false, IsTrue, IfNone, IfOk, IfSome, OnOk, Contains};

    /// None yet.
    pub(crate) fn new() -> Hull
        ensures { result ≡ [] }
    {
        let nothing = Config::unused(0, 0, LinkPhase::Sent, EventsName::Empty);
        Hull {
            configs: [nothing; 96],
            count: 0,
        }
    }

    /// Adds one behind the others, if there is room.
    pub(crate) fn push(&mut self, config: &Config) -> Result<(), TooMany>
        ensures { OnOk result (self.new ≡ self.old ++ config.now ∷ []) }
    {
        if self.count >= MOST {
            return Err(TooMany);
        }
        self.configs[self.count] = *config;
        self.count += 1;
        Ok(())
    }

    /// All of them.
    pub(crate) fn as_slice(&self) -> &[Config]
        ensures { result.now ≡ self.now }
    {
        &self.configs[..self.count]
    }

    /// What a function gives of each of them, in their order.
    pub(crate) fn map<F: Fn(&Config) -> Config>(&self, given: F) -> Result<Hull, TooMany>
        requires { F.IsAlwaysCallable given }
        ensures { IfOk result (λ m. AllZip (FnReturnsAt F.Fn given) self.now m) }
    {
        let mut made = Hull::new();
        for config in self.as_slice() {
            made.push(&given(config))?;
        }
        Ok(made)
    }

    /// Whether a test holds of each of them.
    pub(crate) fn all<F: Fn(&Config) -> bool>(&self, test: F) -> bool
        requires { F.IsAlwaysCallable test }
        ensures { IsTrue result → All (λ config. FnReturnsAt F.Fn test config true) self.now }
    {
        for config in self.as_slice() {
            if !test(config) {
                return false;
            }
        }
        true
    }

    /// The first of which a test holds.
    pub(crate) fn find<F: Fn(&Config) -> bool>(&self, test: F) -> Option<Config>
        requires { F.IsAlwaysCallable test }
        ensures some { IfSome result (λ config. Contains self.now config × FnReturnsAt F.Fn test config true) }
        ensures none { IfNone result (All (λ config. FnReturnsAt F.Fn test config false) self.now) }
    {
        for config in self.as_slice() {
            if test(config) {
                return Some(*config);
            }
        }
        None
    }
}
