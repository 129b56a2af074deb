//! The laws of streams and promotions.
ghost use Rattle.promoted_prefix.specs.Law.{NodesFollowStreams, PromotedPrefix};

/// In each run of a cluster, however messages are late, repeated or lost, each promoted node begins with the prefix of the stream that it
/// followed which its offset names: the offset ends a whole request there, the keyspace is what the requests up to it leave, and the
/// bytes that are kept stand there.
pub fn promoted_nodes_go_on()
    ensures { PromotedPrefix }
{}

/// In each moment of a run each node has the beginning of the stream that it names, and the keyspace that the requests up to its offset
/// leave; a master has all of it; and each piece and each snapshot that was sent is true of its stream.
pub fn nodes_follow_their_streams()
    ensures { NodesFollowStreams }
{}
