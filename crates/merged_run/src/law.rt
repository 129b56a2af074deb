//! Laws of merged journals, and of runs in which no slot moves.
ghost use Rattle.merged_run.specs.Merged.{MergedJournalsAreARun};
ghost use Rattle.merged_run.specs.Settled.{SettledRunsAreOfOneKeyspace, SettledRunsNeedNoAsking};

use single_keyspace::replies_are_those_of_one_keyspace;

/// Where each node's part is a journal of it, and each message that arrives was sent before, the entries are a run.
pub fn merged_journals_are_a_run()
    ensures { MergedJournalsAreARun }
{}

/// In a run in which no node obeys an order to import a slot, clients keep to the asking rule, whatever they ask.
pub fn settled_runs_need_no_asking()
    ensures { SettledRunsNeedNoAsking }
{}

/// So the replies of a run are those of one keyspace up to its first unplanned promotion, whoever asked, if no such order is obeyed up
/// to there.
pub fn settled_runs_are_of_one_keyspace()
    ensures { SettledRunsAreOfOneKeyspace }
{
    replies_are_those_of_one_keyspace();
    settled_runs_need_no_asking();
}
