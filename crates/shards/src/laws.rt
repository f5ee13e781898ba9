//! Laws of shards: what holds of one, whatever was done with it. Their functions do nothing: a contract is the law, which a crate above has by calling it.
ghost use Rattle.shards.specs.Lasting.{IdentifiersAreLeft, IdentifiersLasted, WorldsAreGood};
ghost use Rattle.shards.specs.Shards.{IsShard};

use crate::shard::Shard;
use mg_merge::laws;

impl<'s> Shard<'s> {
    /// What the type keeps: the shard's history is a run from an opening of its calls to a world that it shows, on a gateway of its class, each record counts the
    /// events of its call, and every run of its script is good.
    pub fn keeps_its_run(&self)
        ensures { IsShard self.now }
    {
        // What the type keeps is at hand where a field is read.
        let _script = self.script;
    }

    /// The world that the shard shows is good: an audio path joins two lines only inside one call whose current state marks that pair as talking, and a call
    /// that has ended owns no ephemeral and has each line silent in the null context, armed for off-hook.
    pub fn stays_good(&self)
        ensures { WorldsAreGood self.now }
    {
        // What the type keeps is at hand where a field is read.
        let _script = self.script;
    }

    /// Identifiers last in the shard: after no more executes than 10,000,000, each of which has at most 16 commands, no class of a sixteenth of the numbers
    /// has run out before any event of the history.
    pub fn identifiers_lasted(&self)
        ensures { IdentifiersLasted self.now }
    {
        laws::identifiers_last();
        // What the type keeps is at hand where a field is read.
        let _script = self.script;
    }
    /// And they are left now: as many as any request that was sent has commands.
    pub fn identifiers_are_left(&self)
        ensures { IdentifiersAreLeft self.now }
    {
        laws::identifiers_are_left();
        // What the type keeps is at hand where a field is read.
        let _script = self.script;
    }
}
