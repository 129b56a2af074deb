//! The law of elections.
ghost use Rattle.world_run.specs.Law.{OneMasterAnEpoch};

/// In each run of a cluster, however messages are late, repeated or lost: no voter votes for two nodes in one epoch, no epoch elects two
/// nodes, each promoted node was elected in its epoch, and no two promotions are of one epoch.
pub fn no_epoch_has_two_masters()
    ensures { OneMasterAnEpoch }
{}
