//! Slots that are on the move, as their masters report it: a master that has one hands nothing over.

use crate::questions::Questions;
use crate::slot_map::{SlotMap, SlotRun};
use crate::slot_report::SlotReport;
use byte_string::ByteString;
use redirection::Address;
use smart_client::Network;
use std::alloc::{AllocError, Global};
use tool_io::{HandoverFault, Shown, ToolFailure, ToolFault};

/// Fails where a slot is on the move from or to the master of the replica at the address.
///
/// Each master is asked about each of its slots. No node tells whose replica it is, and where no slot is on the move nobody has to know. Else
/// it is the master of which the replica has keys, and where it has none of them, any slot that is on the move is in the way.
pub(crate) fn look_for_moves<N: Network + Drop>(
    alloc: Global,
    nodes: &mut Questions<N>,
    slots: &SlotMap,
    replica: &Address,
) -> Result<(), ToolFailure> {
    let mut reports = Reports::new(alloc);
    for run in slots.runs() {
        if let Err(failure) = reports.read(nodes, run) {
            // A master that is gone hands nothing over.
            if !failure.is_unreached() {
                return Err(failure);
            }
        }
    }
    reports.look(alloc, nodes, replica)
}

// A slot that is on the move, and the ids of its two masters.
struct MovingSlot {
    slot: u16,
    from: ByteString,
    to: ByteString,
}

impl Drop for MovingSlot {
    fn drop(self) {
        let MovingSlot {
            slot: _,
            from: _,
            to: _,
        } = self;
    }
}

impl MovingSlot {
    // Whether it is in the way of a handover by that master, or by one that isn't known.
    fn concerns(&self, master: &Option<ByteString>) -> bool {
        match master {
            Some(id) => self.from == *id || self.to == *id,
            None => true,
        }
    }

    fn failure(&self, alloc: Global) -> ToolFailure {
        let text = format!(in alloc;
            "slot {} is on the move from node {} to node {}, and a master hands over only while none of its slots is",
            self.slot,
            Shown(self.from.as_slice()),
            Shown(self.to.as_slice())
        );
        ToolFailure::new(ToolFault::Handover(HandoverFault::SlotMoves), text)
    }
}

// A slot that isn't on the move and has keys, and the id of its master.
struct KeptSlot {
    slot: u16,
    master: ByteString,
}

impl Drop for KeptSlot {
    fn drop(self) {
        let KeptSlot { slot: _, master: _ } = self;
    }
}

// What masters report of their slots.
struct Reports {
    // One slot for each two masters between which some are on the move.
    moving: Vec<MovingSlot>,
    // One slot for each master that has such a slot.
    kept: Vec<KeptSlot>,
}

impl Drop for Reports {
    fn drop(self) {
        let Reports { moving: _, kept: _ } = self;
    }
}

impl Reports {
    // None yet.
    fn new(alloc: Global) -> Reports {
        Reports {
            moving: Vec::new(alloc),
            kept: Vec::new(alloc),
        }
    }

    // Asks the master of the run about each slot of it.
    fn read<N: Network + Drop>(
        &mut self,
        nodes: &mut Questions<N>,
        run: &SlotRun,
    ) -> Result<(), ToolFailure> {
        for slot in run.slots.first.get()..=run.slots.last.get() {
            let report = nodes.report(&run.address, slot)?;
            self.add(&run.master, slot, report)?;
        }
        Ok(())
    }

    fn add(
        &mut self,
        master: &ByteString,
        slot: u16,
        report: SlotReport,
    ) -> Result<(), AllocError> {
        let SlotReport {
            leaves_for,
            has_keys,
        } = report;
        match leaves_for {
            Some(to) => self.add_moving(master, slot, to),
            None if has_keys => self.add_kept(master, slot),
            None => Ok(()),
        }
    }

    fn add_moving(
        &mut self,
        from: &ByteString,
        slot: u16,
        to: ByteString,
    ) -> Result<(), AllocError> {
        if self.has_move(from, &to) {
            return Ok(());
        }
        let from = from.clone()?;
        let moving = MovingSlot { slot, from, to };
        self.moving.push(moving).map_err(AllocError::from)?;
        Ok(())
    }

    fn has_move(&self, from: &ByteString, to: &ByteString) -> bool {
        self.moving
            .iter()
            .any(|moving| moving.from == *from && moving.to == *to)
    }

    fn add_kept(&mut self, master: &ByteString, slot: u16) -> Result<(), AllocError> {
        if self.kept.iter().any(|kept| kept.master == *master) {
            return Ok(());
        }
        let master = master.clone()?;
        let kept = KeptSlot { slot, master };
        self.kept.push(kept).map_err(AllocError::from)?;
        Ok(())
    }

    // Fails where a slot is in the way of the replica at the address.
    fn look<N: Network + Drop>(
        &self,
        alloc: Global,
        nodes: &mut Questions<N>,
        replica: &Address,
    ) -> Result<(), ToolFailure> {
        if self.moving.is_empty() {
            return Ok(());
        }
        let master = self.master_of(nodes, replica)?;
        for moving in self.moving.iter() {
            if moving.concerns(&master) {
                return Err(moving.failure(alloc));
            }
        }
        Ok(())
    }

    // The id of the master of which the replica at the address has keys, if it has any.
    fn master_of<N: Network + Drop>(
        &self,
        nodes: &mut Questions<N>,
        replica: &Address,
    ) -> Result<Option<ByteString>, ToolFailure> {
        for kept in self.kept.iter() {
            if nodes.has_keys(replica, kept.slot)? {
                return Ok(Some(kept.master.clone()?));
            }
        }
        Ok(None)
    }
}
