//! What the replies of a node tell a client.
#![tactic(auto)]

mod law;

pub use law::{
    a_call_goes_on_only_after_a_refusal, an_ask_is_that_of_a_move, clients_are_answered,
    clients_need_offsets_alone, errors_have_reasons, preparations_are_welcome,
    replies_tell_whether_the_command_was_executed, requests_about_the_cluster_are_not_executed,
};
