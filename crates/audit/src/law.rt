//! The law of journals.
ghost use Rattle.audit.specs.Law.{JournalsAreARun};

/// Journals of all nodes, in which each number below the number of tickets stands once and all that was taken was sent, are a run of
/// the cluster, merged by their tickets.
pub fn journals_are_a_run()
    ensures { JournalsAreARun }
{}
