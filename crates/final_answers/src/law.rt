//! The laws of the answers of clients.
ghost use Rattle.final_answers.specs.Law.{AnswersHaveReasons, AreFinalIn, FinalAnswers};

use world::World;

/// Whatever is done to a cluster and its clients, and however messages, requests and replies are late or lost: each command that
/// is executed is that of one call of a client, each call has one execution at most, and the answer that the client gets in the
/// end says what became of its command.
pub fn answers_tell_what_became_of_commands()
    ensures { FinalAnswers }
{}

/// Each answer has its reason. A reply is the node's answer to the command, and where it is an error, it is given for what it
/// says. EXHAUSTED comes only where the node's stream had no offset left for what the command writes as it came there, and then
/// the node made no step for it. A reply is lost only where the connection was cut, or the node at its other end stopped, once the command was sent. There
/// is no connection only there, or before the command was sent, or where the node isn't up or has no number left for one. A call
/// is sent on too often only at the seventeenth time, and put off too often only above the limit. Memory is refused only while
/// nothing that was sent is unanswered. No client gets a reply that no node gives, nor a redirection that it can't follow.
pub fn answers_have_reasons()
    ensures { AnswersHaveReasons }
{}

/// So it is in each world, whatever was done to it, as long as memory wasn't refused.
pub fn answers_in_a_world_are_final(world: &World)
    ensures { AreFinalIn world.now }
{
    let _config = world.config();
    answers_tell_what_became_of_commands();
}
