//! Laws of commands on a keyspace, and on one that is cut in two parts.
ghost use Rattle.keyspace.specs.Locality.{CommandsAreLocal};
ghost use Rattle.keyspace.specs.Parts.{CommandsExecuteInAPart, PartsMakeTheKeyspace};

/// The reply to a command, and what it leaves at its keys, depends on the values there alone. No other key changes.
pub fn commands_are_local()
    ensures { CommandsAreLocal }
{}

/// A command whose keys are all in one part of the keyspace has the reply there that it has in the whole, leaves there what
/// it leaves in the whole, and no key of the other part changes.
pub fn commands_execute_in_a_part()
    ensures { CommandsExecuteInAPart }
{}

/// Two keyspaces with the same two parts are one.
pub fn parts_make_the_keyspace()
    ensures { PartsMakeTheKeyspace }
{}
