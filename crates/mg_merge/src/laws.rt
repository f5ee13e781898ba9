//! The laws of the merge, and of the identifiers that it needs.
ghost use Rattle.mg_merge.specs.Laws.{MergesAreRuns};
ghost use Rattle.mg_merge.specs.Identifiers.{IdentifiersAreLeft, IdentifiersLast};

/// Where the history of each shard is a run from an opening of its calls, no call, line or identifier is of two shards, all shards were
/// restarted equally often, and identifiers were left before each event, the merge of their histories (association by association, in each
/// shard after shard, one restart between two) is a run of all their calls, and leaves each call the agent that its shard leaves it.
/// This profile's own.
pub fn merges_are_runs()
    ensures { MergesAreRuns }
{}

/// Where no state of the script has more than 16 commands and the gateway gives each number of one class, one of at
/// most 16, each run from an opening that has at most 10,000,000 executes is a run in which identifiers are left before each event.
/// This profile's own.
pub fn identifiers_last()
    ensures { IdentifiersLast }
{}

/// Identifiers are left at the end of such a run as well: for each request that was sent there are as many as it has commands. This profile's own.
pub fn identifiers_are_left()
    ensures { IdentifiersAreLeft }
{}
