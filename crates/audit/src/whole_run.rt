//! What the nodes of a cluster did, as one run.
ghost use Rattle.std.specs.Prelude.{◌≡◌, ◌≤◌, IfNone, IfSome, length, map};
ghost use Rattle.audit.specs.Law.{HasOneKeyspace, KeepsAskingRule};
ghost use Rattle.audit.specs.Merge.{AreJournals, merged, placed};
ghost use Rattle.merged_run.specs.Merged.{entries_of};
ghost use Rattle.merged_run.specs.Settled.{AreSettled};
ghost use Rattle.promoted_prefix.specs.Law.{PromotionsGoOn};
ghost use Rattle.world_run.specs.Law.{HasOneMasterAnEpoch};
ghost use Rattle.world_run.specs.Promotions.{until_promotion};
ghost use Rattle.world_run.specs.Run.{IsRun};

use crate::journal::NodeJournal;
use cluster_config::Config;
use merged_run::settled_runs_are_of_one_keyspace;
use node_cell::Entry;
use one_master::no_epoch_has_two_masters;
use promoted_prefix::promoted_nodes_go_on;
use single_keyspace::replies_are_those_of_one_keyspace;
use slot_table::NodeNo;
use std::marker::Model;

/// What all nodes of a cluster did, from its start until they were finished: a run of the cluster, in which each ticket that was drawn
/// has its entry, in order.
///
/// The entries stay where they are, in the journals of the nodes.
pub struct WorldRun {
    config: Config,
    journals: Vec<NodeJournal>,
    tickets: u64,
}

impl Drop for WorldRun {
    fn drop(self) {
        let WorldRun {
            config: _,
            journals: _,
            tickets: _,
        } = self;
    }
}

impl Model for WorldRun {
    ghost use Rattle.audit.specs.Law.{RunView};
    ghost use Rattle.audit.specs.Merge.{AreJournals, merged};

    ghost Value = { RunView };

    ghost view = { λ run.
        record { config = run.config; entries = merged run.tickets run.journals.items } };

    ghost invariant = { λ run. AreJournals run.config run.tickets run.journals.items };
}

impl WorldRun {
    // The run of these journals.
    pub(crate) fn new(config: Config, journals: Vec<NodeJournal>, tickets: u64) -> WorldRun
        requires { AreJournals config tickets journals.items }
        ensures { result ≡ record { config = config; entries = merged tickets journals.items } }
    {
        WorldRun {
            config,
            journals,
            tickets,
        }
    }

    /// What the node with that number did, by rising ticket: its part of the run.
    pub fn journal(&self, node: NodeNo) -> Option<&[Entry]>
        ensures some { IfSome result
            (λ own. entries_of node self.now.entries ≡ map (placed node) own.now) }
        ensures none { IfNone result (length self.now.config.nodes ≤ node) }
    {
        Some(self.journals.get(node.index())?.entries())
    }

    /// How many entries it has: as many as tickets were drawn.
    ///
    /// They are a run of the cluster. So the replies of the commands that its nodes executed up to the first unplanned promotion are
    /// those of one keyspace, if its clients kept to the asking rule up to there, and always if no slot began to come to a node up to
    /// there. No epoch has two masters, and each promoted node begins with the prefix of its master's stream that its offset names.
    pub fn steps(&self) -> u64
        ensures count { result ≡ length self.now.entries }
        ensures run { IsRun self.now.config self.now.entries }
        ensures one_keyspace { KeepsAskingRule self.now.entries → HasOneKeyspace self.now.entries }
        ensures settled { AreSettled (until_promotion self.now.entries) → HasOneKeyspace self.now.entries }
        ensures one_master { HasOneMasterAnEpoch self.now.config.voters self.now.entries }
        ensures promoted_prefix { PromotionsGoOn self.now.config self.now.entries }
    {
        replies_are_those_of_one_keyspace();
        settled_runs_are_of_one_keyspace();
        no_epoch_has_two_masters();
        promoted_nodes_go_on();
        let _of_a_cluster = self.config.nodes();
        self.tickets
    }
}
