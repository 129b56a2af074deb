//! What a node holds of the others.
ghost use Rattle.std.specs.Prelude.{◌≡◌, ◌<◌, ◌&&◌, count_by, length, nat_lt};
ghost use Rattle.election.specs.Failing.{accuses, has_failed, heard, names, reported, suspected, suspects, ticked};
ghost use Rattle.election.specs.Health.{first_health};

use crate::members::Members;
use crate::report::Report;
use crate::rows::{all_older, all_reports_older, all_without, any_names};
use slot_table::NodeNo;
use std::marker::Model;

/// What a node heard of the others, and when: for each node the ticks since its last message, and its last report.
///
/// Whether a node is held suspected or failed is stored nowhere: it follows from this. No call takes memory.
#[derive(Clone, Copy, Debug)]
pub struct Health {
    // The ticks since a message of the node came.
    silent: [u32; 16],
    // The last report of the node.
    reports: [Option<Report>; 16],
}

impl Model for Health {
    ghost use Rattle.election.specs.Health.{Health};

    ghost Value = { Health };

    ghost view = { λ health. record { silent = health.silent; reports = health.reports } };

    ghost inverse = { λ health. record { silent = health.silent; reports = health.reports } };
}

impl Health {
    /// Nothing was heard yet, and nobody is suspected.
    pub fn new() -> Health
        ensures { result ≡ first_health }
    {
        Health {
            silent: [0; 16],
            reports: [None; 16],
        }
    }

    /// A tick of the node passes.
    ///
    /// Ages stop rising once they are past each time that is waited for.
    pub fn tick(&mut self)
        ensures { self.new ≡ ticked self.old }
    {
        self.silent = all_older(self.silent);
        self.reports = all_reports_older(self.reports);
    }

    /// A message of that node came, whatever it says: no report that came before names the node any longer.
    pub fn on_message(&mut self, from: NodeNo)
        ensures { self.new ≡ heard self.old from }
    {
        self.silent[from.index()] = 0;
        if any_names(&self.reports, from) {
            self.reports = all_without(self.reports, from);
        }
    }

    /// A report of that node came, with `true` for each node that it suspects. It is a message of the node too.
    ///
    /// It takes the place of the node's report before, and counts as new, also where it comes once more.
    pub fn on_report(&mut self, from: NodeNo, suspects: [bool; 16])
        ensures { self.new ≡ reported self.old from suspects }
    {
        self.on_message(from);
        self.reports[from.index()] = Some(Report::new(suspects));
    }

    /// Whether this node suspects that one: it was silent for as many ticks as a node may be. No node suspects itself.
    pub fn suspects(&self, members: &Members, node: NodeNo) -> bool
        ensures { result ≡ suspects self.now members.now node }
    {
        node != members.me() && self.silent[node.index()] >= members.node_timeout()
    }

    /// The report that this node sends: `true` for each node of the cluster that it suspects.
    pub fn suspected(&self, members: &Members) -> [bool; 16]
        ensures { result ≡ suspected self.now members.now }
    {
        let mut row = [false; 16];
        for number in 0..16 {
            row[number] = self.reports_of(members, number);
        }
        row
    }

    // Whether there is a node of that number, and it is suspected.
    fn reports_of(&self, members: &Members, number: usize) -> bool
        requires { number < 16 }
        ensures { result ≡ (nat_lt number (length members.now.masters) && suspects self.now members.now number) }
    {
        let node = NodeNo::new(number as u8).unwrap();
        number < members.count() && self.suspects(members, node)
    }

    /// Whether the node is held failed: more than half of the voters suspect it.
    ///
    /// Of each voter the last report counts, for twice the ticks that a node may be silent; this node, if it votes, counts by
    /// what it suspects itself. No node holds itself failed.
    pub fn has_failed(&self, members: &Members, node: NodeNo) -> bool
        ensures { result ≡ has_failed self.now members.now node }
    {
        node != members.me() && members.are_most(self.accusers(members, node))
    }

    // How many voters suspect the node.
    fn accusers(&self, members: &Members, node: NodeNo) -> usize
        ensures { result ≡ count_by (accuses self.now members.now node) members.now.voters }
    {
        members
            .voters()
            .iter()
            .filter(|voter| self.accuses(members, node, **voter))
            .count()
    }

    // Whether the voter suspects the node.
    fn accuses(&self, members: &Members, node: NodeNo, voter: NodeNo) -> bool
        ensures { result ≡ accuses self.now members.now node voter }
    {
        if voter == members.me() {
            return self.suspects(members, node);
        }
        names(self.reports[voter.index()], members.node_timeout(), node)
    }
}

// Whether the report names the node, and is not too old.
fn names(report: Option<Report>, timeout: u32, node: NodeNo) -> bool
    ensures { result ≡ names report timeout node }
{
    match report {
        None => false,
        Some(report) => report.names(timeout, node),
    }
}
