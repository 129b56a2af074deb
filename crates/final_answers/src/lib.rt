//! What a client of a world is told in the end says what became of its command.
#![tactic(auto)]

mod law;

pub use law::{
    answers_have_reasons, answers_in_a_world_are_final, answers_tell_what_became_of_commands,
};
