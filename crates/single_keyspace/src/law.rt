//! The law of a cluster.
ghost use Rattle.world_run.specs.Law.{SingleKeyspace};

/// In each run of a cluster in which clients keep to the asking rule up to the first unplanned promotion, the replies of the commands
/// that were executed up to there are those of one keyspace that executes them in their order, whatever orders move slots, whatever
/// masters hand their slots over, and however messages are late, repeated or lost.
pub fn replies_are_those_of_one_keyspace()
    ensures { SingleKeyspace }
{}
