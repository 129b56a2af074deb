//! Laws of the replay of requests: which of them leave the keyspace, and which make one anew.
ghost use Rattle.keyspace.specs.Replay.{WritesLeaveAll, RequestsExecuteCommands, RequestsOfKeysLeaveThem};

/// A request that is no write changes nothing: so requests leave the keyspace that their writes alone leave.
pub fn writes_leave_the_keyspace()
    ensures { WritesLeaveAll }
{}

/// The requests of commands have the replies of the commands, and leave the keyspace that those leave.
pub fn requests_execute_their_commands()
    ensures { RequestsExecuteCommands }
{}

/// The requests that `rebuild` makes of all keys of a keyspace, executed from no keys on, leave this keyspace.
pub fn rebuilding_makes_the_keyspace()
    ensures { RequestsOfKeysLeaveThem }
{}
