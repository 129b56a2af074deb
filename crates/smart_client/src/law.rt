//! Laws of a client's calls.
ghost use Rattle.smart_client.specs.Calls.{ConnectionsLead, RepliesAreRead, SendsOnce};
ghost use Rattle.smart_client.specs.Causes.{FaultsHaveCauses};

/// Once the command of a call was sent, the call ends with the next event, or that is a reply by which the node refused
/// the command: MOVED, ASK or TRYAGAIN. So a command that may have been executed is never sent again.
pub fn a_command_is_sent_again_only_after_a_refusal()
    ensures { SendsOnce }
{}

/// Where both ends of each connection reach the node at its address, they do so after each call. So a client that began
/// with no connection sends a command to the node at the address that is wanted, and reads the reply from there.
pub fn connections_lead_to_their_addresses()
    ensures { ConnectionsLead }
{}

/// The reply that a call gives was read last, on the connection in use, behind the words that were sent there.
pub fn replies_are_read_from_the_connection_in_use()
    ensures { RepliesAreRead }
{}

/// Each fault that a call gives has its cause. With `Lost` the command was sent last: a byte of it went out, and then the
/// writer failed, or the reader failed or was at its end; or memory was refused. With `NotConnected` a node was not reached,
/// or the connection failed or ended before a byte of the command went out. Each earlier sending of the command was answered
/// by MOVED, ASK or TRYAGAIN, and with `Memory` the last one too: none is unanswered then.
pub fn faults_have_causes()
    ensures { FaultsHaveCauses }
{}
