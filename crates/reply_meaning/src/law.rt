//! Laws of the replies of a node.
ghost use Rattle.reply_meaning.specs.Law.{AsksAreOfMoves, CallsGoOnAfterRefusals, ClientsAreAnswered, ClientsNeedOffsetsAlone, ClusterWordsAreNotExecuted, ErrorsHaveReasons, PreparationsAreWelcome, RepliesTellExecution};

/// A command on keys was executed exactly where its reply is no refusal. This is said of all words whose name is not CLUSTER,
/// MIGRATE or ASKING, also of words that are no command.
pub fn replies_tell_whether_the_command_was_executed()
    ensures { RepliesTellExecution }
{}

/// What makes a client ask again, or another node, is a refusal, and so are OOM and EXHAUSTED.
pub fn a_call_goes_on_only_after_a_refusal()
    ensures { CallsGoOnAfterRefusals }
{}

/// An error that answers a command on keys, or words that are no command, has its reason: CROSSSLOT that the keys are in two slots,
/// CLUSTERDOWN that nobody serves their slot, and the lines of faults that fault of the words. A step answers neither OOM nor
/// EXHAUSTED.
pub fn errors_have_reasons()
    ensures { ErrorsHaveReasons }
{}

/// Words whose name is CLUSTER, MIGRATE or ASKING are never executed as a command on keys, whatever the reply.
pub fn requests_about_the_cluster_are_not_executed()
    ensures { ClusterWordsAreNotExecuted }
{}

/// `CLUSTER NUMBERED`, and `ASKING` with a number that a move can have, are answered `+OK`.
pub fn preparations_are_welcome()
    ensures { PreparationsAreWelcome }
{}

/// An ASK that names a move was decided for that move: its slot leaves for the node at that place, under that number. This
/// is said of all words, and of any state of the node.
pub fn an_ask_is_that_of_a_move()
    ensures { AsksAreOfMoves }
{}

/// What a client sends is answered by the very step that takes it, on an open connection that waits for no reply.
pub fn clients_are_answered()
    ensures { ClientsAreAnswered }
{}

/// What a client sends finds no number only where the stream of the node has no offset for what its command writes; else a node
/// makes a step for it. What is sent in front of a command writes nothing and always finds its numbers.
pub fn clients_need_offsets_alone()
    ensures { ClientsNeedOffsetsAlone }
{}
