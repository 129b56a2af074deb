//! What a run of a cluster is, which commands were executed in it, and what a client has to keep to.
#![tactic(auto)]
