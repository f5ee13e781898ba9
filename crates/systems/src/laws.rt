//! The law over what a gateway and calls show.
ghost use Rattle.systems.specs.Laws.{SystemsAreGood, SystemsAreRuns};

/// Whatever is made, by their public calls, of a new gateway and of calls of a script that were opened on it: what they show, with all that was ever
/// sent, is a world of a run. What is sent may arrive at any time, again, or never. This profile's own.
pub fn systems_are_runs()
    ensures { SystemsAreRuns }
{}

/// The same where every run of the script is good, as the verdict `Yes` says of a checked one: at each moment an audio path joins two lines on the gateway
/// only inside one call whose current state marks that pair as talking, and a call that has ended is released.
pub fn systems_are_good()
    ensures { SystemsAreGood }
{}
