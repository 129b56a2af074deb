//! One slot over all nodes: what holds of it, and that whatever a node does keeps it.
#![tactic(auto)]
