//! Laws of the spellings: bytes are read in one way.
ghost use Rattle.resp2.specs.Law.{NoReplyBeginsAnother, RepliesAreReadInOneWay, BytesHaveOneReplyFront, NoSpellingBeginsAnother, NoUnfinishedIsWhole, StreamIsReadInOneWay, BytesHaveOneFront};

/// No request's bytes begin another's, so what stands in front of a stream is one request at most.
pub fn no_spelling_begins_another()
    ensures { NoSpellingBeginsAnother }
{}

/// Bytes that are the beginning of a request don't have a whole one in front.
pub fn no_unfinished_is_whole()
    ensures { NoUnfinishedIsWhole }
{}

/// Bytes are one list of requests and one rest, whoever reads them and in whichever pieces.
pub fn a_stream_is_read_in_one_way()
    ensures { StreamIsReadInOneWay }
{}

/// Any bytes have exactly one of four things in front: a whole request, the beginning of one, a byte
/// that breaks the protocol, or one that makes a count, a length or a whole request pass its limit.
pub fn bytes_have_one_front()
    ensures { BytesHaveOneFront }
{}

/// No reply's bytes begin another's, so what stands in front of a stream is one reply at most.
pub fn no_reply_begins_another()
    ensures { NoReplyBeginsAnother }
{}

/// Bytes are one list of replies and one rest, whoever reads them and in whichever pieces.
pub fn replies_are_read_in_one_way()
    ensures { RepliesAreReadInOneWay }
{}

/// Any bytes have exactly one of three things in front: a whole reply, the beginning of one, or a byte
/// that no reply can have there.
pub fn bytes_have_one_reply_front()
    ensures { BytesHaveOneReplyFront }
{}
