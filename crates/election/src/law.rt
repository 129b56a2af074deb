//! Laws of what nodes hold of each other, of votes, and of elections.
ghost use Rattle.election.specs.Ballots.{VotesOnceAnEpoch};
ghost use Rattle.election.specs.History.{FailsByMostVoters, SuspectsTheSilent};
ghost use Rattle.election.specs.Majorities.{ElectsTheFirstMajority};
ghost use Rattle.election.specs.Waiting.{BeginsAfterItsWait};

/// A node votes at most once an epoch, whatever requests come, and however often.
pub fn votes_once_an_epoch()
    ensures { VotesOnceAnEpoch }
{}

/// A node suspects another one exactly where it has heard nothing of it for as many of its ticks as a node may be silent.
pub fn the_silent_are_suspected()
    ensures { SuspectsTheSilent }
{}

/// A node is held failed exactly where more than half of the voters suspect it, as far as the last report of each of them tells, and
/// no message of the node came since.
pub fn failures_are_held_by_most_voters()
    ensures { FailsByMostVoters }
{}

/// An election is to begin exactly where the own master has been held failed for more ticks than replicas of it have smaller numbers,
/// and no election has begun since, or the last one two times as many ticks ago as a node may be silent.
pub fn an_election_begins_after_its_wait()
    ensures { BeginsAfterItsWait }
{}

/// From the start of an election on, a vote elects exactly where only with it more than half of the voters have voted in its epoch,
/// whatever other votes come, and however often.
pub fn the_first_majority_elects()
    ensures { ElectsTheFirstMajority }
{}
