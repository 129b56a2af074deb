//! Planned handovers over all nodes: what holds of them, and that whatever a node does keeps it.
#![tactic(auto)]
