//! Who votes, and who copies whom.
ghost use Rattle.std.specs.Prelude.{◌≡◌, ◌*◌, nat_lt, length, count_by, take, None, slice_index_or};
ghost use Rattle.election.specs.Members.{follows, is_that, is_voter, own_master, place_behind};

use slot_table::NodeNo;
use std::marker::Model;

/// The nodes of a cluster as one of them knows them: its own number, how long a node may be silent, who votes, and who copies whom.
#[derive(Debug, Drop)]
pub struct Members<'a> {
    me: NodeNo,
    node_timeout: u32,
    voters: &'a [NodeNo],
    masters: &'a [Option<NodeNo>],
}

impl<'a> Model for Members<'a> {
    ghost use Rattle.election.specs.Members.{Members};

    ghost Value = { Members };

    ghost view = { λ members. record {
      me = members.me;
      node_timeout = members.node_timeout;
      voters = members.voters.now;
      masters = members.masters.now;
    } };
}

impl<'a> Members<'a> {
    /// Those that the node of number `me` knows.
    ///
    /// A node may be silent for fewer than `node_timeout` of its ticks, which is 1 to 1,000,000. `voters` are the nodes that vote, each
    /// of them once. `masters` has a place for each node, with the number of its master where the node is a replica.
    pub fn new(
        me: NodeNo,
        node_timeout: u32,
        voters: &'a [NodeNo],
        masters: &'a [Option<NodeNo>],
    ) -> Members<'a>
        ensures { result ≡ record {
          me = me;
          node_timeout = node_timeout;
          voters = voters.now;
          masters = masters.now;
        } }
    {
        Members {
            me,
            node_timeout,
            voters,
            masters,
        }
    }

    // The own number.
    pub(crate) fn me(&self) -> NodeNo
        ensures { result ≡ self.now.me }
    {
        self.me
    }

    // How many ticks a node may be silent.
    pub(crate) fn node_timeout(&self) -> u32
        ensures { result ≡ self.now.node_timeout }
    {
        self.node_timeout
    }

    // The nodes that vote.
    pub(crate) fn voters(&self) -> &[NodeNo]
        ensures { result.now ≡ self.now.voters }
    {
        self.voters
    }

    // How many nodes there are.
    pub(crate) fn count(&self) -> usize
        ensures { result ≡ length self.now.masters }
    {
        self.masters.len()
    }

    // Whether the node votes.
    pub(crate) fn is_voter(&self, node: NodeNo) -> bool
        ensures { result ≡ is_voter self.now node }
    {
        self.voters.iter().any(|voter| *voter == node)
    }

    // Whether so many are more than half of the voters.
    pub(crate) fn are_most(&self, count: usize) -> bool
        ensures { result ≡ nat_lt (length self.now.voters) (2 * count) }
    {
        count > self.voters.len() / 2
    }

    // Whether the node is a replica of that master.
    pub(crate) fn follows(&self, node: NodeNo, master: NodeNo) -> bool
        ensures { result ≡ follows self.now node master }
    {
        is_that(master_in(self.masters, node), master)
    }

    // The own master, if this node is a replica.
    pub(crate) fn own_master(&self) -> Option<NodeNo>
        ensures { result ≡ own_master self.now }
    {
        master_in(self.masters, self.me)
    }

    // How many replicas of the master come before this node.
    pub(crate) fn place_behind(&self, master: NodeNo) -> usize
        ensures { result ≡ place_behind self.now master }
    {
        replicas_before(self.masters, self.me.index(), master)
    }
}

// The master of the node.
fn master_in(masters: &[Option<NodeNo>], node: NodeNo) -> Option<NodeNo>
    ensures { result ≡ slice_index_or masters.now node None }
{
    *masters.get(node.index())?
}

fn is_that(of: Option<NodeNo>, master: NodeNo) -> bool
    ensures { result ≡ is_that of master }
{
    of == Some(master)
}

// How many of the first nodes are replicas of the master.
fn replicas_before(masters: &[Option<NodeNo>], node: usize, master: NodeNo) -> usize
    ensures { result ≡ count_by (λ of. is_that of master) (take node masters.now) }
{
    masters
        .iter()
        .take(node)
        .filter(|of| is_that(**of, master))
        .count()
}
