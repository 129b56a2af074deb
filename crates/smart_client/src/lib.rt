//! A client of a cluster, which finds the node for each command itself.
#![tactic(auto)]

mod action;
mod begin;
mod call;
mod client;
mod client_core;
mod connect;
mod connection;
mod connection_pool;
mod connections;
mod ended;
mod error_kind;
mod fault;
mod go_on;
mod law;
mod network;
mod peers;
mod requests;

pub use action::{Action, Event};
pub use client::Client;
pub use client_core::{ClientCore, MOST_ADDRESSES, MOST_REDIRECTIONS};
pub use connect::{Connect, ConnectFault, Reaches};
pub use connections::Connections;
pub use fault::ClientFault;
pub use law::{
    a_command_is_sent_again_only_after_a_refusal, connections_lead_to_their_addresses,
    faults_have_causes, replies_are_read_from_the_connection_in_use,
};
pub use network::Network;
