//! The journals of all nodes, gathered.
ghost use Rattle.std.specs.Prelude.{◌≡◌, List, length, IfOk};
ghost use Rattle.audit.specs.Gathered.{HasStranger, HasStrangerIn, IfStranger, IsAllOf, IsGathered, IsGatheredFrom, parts_of};
ghost use Rattle.audit.specs.Merge.{PartView};
ghost use Rattle.tickets.specs.Tickets.{id_of};

use crate::order::{Taken, take_apart};
use crate::part::Part;
use crate::sound::are_sound;
use crate::whole_run::WorldRun;
use audit_fault::AuditFault;
use cluster_config::Config;
use node_cell::{Deployment, Journal, NodeCell};
use std::alloc::{AllocError, Global};
use tickets::{Table, close};

/// The run that the nodes of the cluster `K` made, by the journals of their cells, which may come in any order. Nobody serves the
/// nodes any more, and there were as many seats as there are nodes.
///
/// It takes memory for three lists of the nodes and a copy of the configuration. Each message that a node took is looked for in the
/// journal of its sender.
pub fn gather<K: Deployment>(
    alloc: Global,
    table: &Table,
    cells: Vec<NodeCell<K, Journal>>,
) -> Result<WorldRun, AuditFault>
    requires table { id_of table.now ≡ K.table }
    requires seats { K.seats ≡ length K.config.nodes }
    ensures run { IfOk result (λ run. IsGathered K.config (parts_of cells.items) run) }
    ensures stranger { IfStranger result (HasStranger K.config (parts_of cells.items)) }
{
    if cells.is_empty() {
        return Err(AuditFault::Stranger);
    }
    let config = cells[0].config().clone()?;
    let count = config.nodes().len();
    let parts = finish_all(alloc, cells)?;
    match take_apart(alloc, count, parts)? {
        Some(taken) => merge::<K>(table, config, taken),
        None => Err(AuditFault::Stranger),
    }
}

// The run of journals by the numbers of their nodes, unless a node took a message that nobody sent.
fn merge<K: Deployment>(table: &Table, config: Config, taken: Taken) -> Result<WorldRun, AuditFault>
    requires table { id_of table.now ≡ K.table }
    requires seats { K.seats ≡ length K.config.nodes }
    requires config { config ≡ K.config }
    requires taken { (parts : List PartView) × IsAllOf K.config K.table K.seats taken parts }
    ensures run { IfOk result (IsGatheredFrom K.config K.table K.seats taken) }
    ensures stranger { IfStranger result (HasStrangerIn K.config K.table K.seats taken) }
{
    let _at_least_one = config.nodes();
    let Taken { journals, seats } = taken;
    match close(table, seats) {
        Some(tickets) => {
            if are_sound(journals.as_slice()) {
                Ok(WorldRun::new(config, journals, tickets))
            } else {
                Err(AuditFault::Stranger)
            }
        }
        None => Err(AuditFault::Stranger),
    }
}

// What is left of each cell.
fn finish_all<K: Deployment>(
    alloc: Global,
    cells: Vec<NodeCell<K, Journal>>,
) -> Result<Vec<Part<K>>, AllocError>
    ensures { IfOk result (λ parts. parts.items ≡ parts_of cells.items) }
{
    let mut parts = Vec::with_capacity(alloc, cells.len())?;
    for cell in cells {
        parts.push(Part::of(cell)).map_err(AllocError::from)?;
    }
    Ok(parts)
}
