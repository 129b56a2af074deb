//! The moves of slots at a node.
ghost use Rattle.std.specs.Prelude.{◌≡◌, ◌<◌, ◌==◌, ◌^◌, ℕ, length, None, IfOk, OnOk, OnErr};
ghost use Rattle.std.specs.Borrow.{sem};
ghost use Rattle.std.specs.FinMap as map;
ghost use Rattle.std.specs.Map.Iter.{ShowsInOrder, deref_pair};
ghost use Rattle.std.specs.Option.{option_copied, option_copied_mut};
ghost use Rattle.slot_state.specs.Lending.{LendsMove};
ghost use Rattle.slot_state.specs.Moves.{no_moves, move_of, last_move_of, running_moves, by_slot, begun, ended};
ghost use Rattle.slot_state.specs.State.{state_of, seen};
ghost use Rattle.slot_state.specs.Importing.{import_in, after_import};
ghost use Rattle.slot_state.specs.Migrating.{migration_in, after_migrate};
ghost use Rattle.slot_state.specs.Ending.{node_verdict, after_node};

use crate::ending::{NodeVerdict, node_verdict};
use crate::importing::{ImportVerdict, import_verdict};
use crate::migrating::{MigrateVerdict, migrate_verdict};
use crate::order::{Order, Standing};
use crate::running::Move;
use crate::state::SlotState;
use key_slot::{MoveNo, Slot};
use slot_table::NodeNo;
use std::alloc::{AllocError, Global};
use std::collections::BTreeMap;
use std::collections::btree_map::Iter;
use std::marker::Model;

/// The moves that a node takes part in, and the greatest number of a move of each slot. A call that fails changes nothing.
#[derive(Debug, Drop)]
pub struct SlotMoves {
    // A move that is under way, by its slot.
    running: BTreeMap<Slot, Move>,
    // The greatest number of a move of the slot; a slot that never moved isn't there.
    last: BTreeMap<Slot, MoveNo>,
}

impl Model for SlotMoves {
    ghost use Rattle.std.specs.Coded.{Coded, codes, coded_ℕ};
    ghost use Rattle.std.specs.Ordering.{nat_cmp};
    ghost use Rattle.std.specs.FinMap as map;
    ghost use Rattle.slot_state.specs.declared.running.Move.{Move};
    ghost use Rattle.slot_state.specs.Moves.{Moves, by_slot};

    ghost Value = { Moves };

    ghost coded = { Prim.hlevel (codes, let move : Coded Move = Prim.hlevel codes in map.code {R = nat_cmp} coded_ℕ move, map.code {R = nat_cmp} coded_ℕ coded_ℕ) };

    ghost view = { λ moves. record { running = by_slot moves.running.entries; last = by_slot moves.last.entries } };
}

impl SlotMoves {
    /// No moves. It takes no memory.
    pub fn new(alloc: Global) -> SlotMoves
        ensures { result ≡ no_moves }
    {
        SlotMoves {
            running: BTreeMap::new(alloc),
            last: BTreeMap::new(alloc),
        }
    }

    /// The move of the slot that is under way. It takes no memory.
    pub fn get(&self, slot: Slot) -> Option<&Move>
        ensures { option_copied result ≡ move_of self.now slot }
    {
        self.running.get(&slot)
    }

    /// The move of the slot that is under way, to be changed in place. It takes no memory.
    pub fn get_mut(&mut self, slot: Slot) -> Option<&mut Move>
        ensures* lends { sem 𝓛 (LendsMove self.entry slot result) }
        ensures value { option_copied_mut result ≡ move_of self.old slot }
    {
        self.running.get_mut(&slot)
    }

    /// The moves that are under way, each with its slot, by rising slot. It takes no memory.
    pub fn iter(&self) -> Iter<'_, Slot, Move>
        ensures moves { result ≡ running_moves self.now }
        ensures runs { ShowsInOrder (deref_pair {K = ℕ} {X = Move}) }
        ensures fits { length (running_moves self.now) < 2 ^ 63 }
    {
        self.running.iter()
    }

    /// Whether the node takes part in no move. It takes no memory.
    pub fn are_none(&self) -> bool
        ensures { result ≡ (map.len self.now.running == 0) }
    {
        self.running.len() == 0
    }

    /// The greatest number of a move of the slot that the node took part in; 0 before the first. It takes no memory.
    pub fn last_move(&self, slot: Slot) -> MoveNo
        ensures { result ≡ last_move_of self.now slot }
    {
        self.last.get(&slot).copied().unwrap_or(MoveNo::ZERO)
    }

    /// What this node does with the slot, by its owner in the table. It takes no memory.
    pub fn state(&self, slot: Slot, owner: Option<NodeNo>, node: NodeNo) -> SlotState<&Move>
        ensures { seen result ≡ state_of owner (move_of self.now slot) node }
    {
        match self.get(slot) {
            Some(running) => SlotState::Moving(running),
            None if owner == Some(node) => SlotState::Owned,
            None => SlotState::Foreign,
        }
    }

    /// What becomes of CLUSTER SETSLOT slot IMPORTING node. It changes nothing and takes no memory.
    pub fn import_verdict(&self, at: Standing, order: Order) -> ImportVerdict
        ensures { result ≡ import_in at self.now order }
    {
        let slot = order.slot;
        import_verdict(at, self.get(slot), self.last_move(slot), order)
    }

    /// What becomes of CLUSTER SETSLOT slot MIGRATING node. It changes nothing and takes no memory.
    pub fn migrate_verdict(&self, at: Standing, order: Order) -> MigrateVerdict
        ensures { result ≡ migration_in at self.now order }
    {
        let slot = order.slot;
        migrate_verdict(at, self.get(slot), self.last_move(slot), order)
    }

    /// What becomes of CLUSTER SETSLOT slot NODE node. It changes nothing and takes no memory.
    pub fn node_verdict(&self, at: Standing, order: Order) -> NodeVerdict
        ensures { result ≡ node_verdict at (move_of self.now order.slot) order.node order.number }
    {
        node_verdict(at, self.get(order.slot), order)
    }

    /// Obeys CLUSTER SETSLOT slot IMPORTING node, if nothing stands against it.
    pub fn set_importing(&mut self, at: Standing, order: Order) -> Result<ImportVerdict, AllocError>
        ensures verdict { IfOk result (λ verdict. verdict ≡ import_in at self.old order) }
        ensures ok { IfOk result (λ verdict. self.new ≡ after_import self.old order.slot verdict) }
        ensures err { OnErr result (self.new ≡ self.old) }
    {
        let slot = order.slot;
        let verdict = self.import_verdict(at, order);
        if let ImportVerdict::Begins { from, number } = verdict {
            self.begin_import(slot, from, number)?;
        }
        Ok(verdict)
    }

    /// The slot, which has no move, comes from that node under that number.
    pub fn begin_import(
        &mut self,
        slot: Slot,
        from: NodeNo,
        number: MoveNo,
    ) -> Result<(), AllocError>
        requires { move_of self.old slot ≡ None }
        ensures ok { OnOk result (self.new ≡ begun self.old slot number (Move.Comes from number 0 None)) }
        ensures err { OnErr result (self.new ≡ self.old) }
    {
        let comes = Move::Comes {
            from,
            number,
            last: 0,
            drained: None,
        };
        self.begin(slot, number, comes)
    }

    /// Obeys CLUSTER SETSLOT slot MIGRATING node, if nothing stands against it.
    pub fn set_migrating(
        &mut self,
        at: Standing,
        order: Order,
    ) -> Result<MigrateVerdict, AllocError>
        ensures verdict { IfOk result (λ verdict. verdict ≡ migration_in at self.old order) }
        ensures ok { IfOk result (λ verdict. self.new ≡ after_migrate self.old order.slot verdict) }
        ensures err { OnErr result (self.new ≡ self.old) }
    {
        let slot = order.slot;
        let verdict = self.migrate_verdict(at, order);
        if let MigrateVerdict::Begins { to, number } = verdict {
            self.begin_migration(slot, to, number)?;
        }
        Ok(verdict)
    }

    /// The slot, which has no move, leaves to that node under that number.
    pub fn begin_migration(
        &mut self,
        slot: Slot,
        to: NodeNo,
        number: MoveNo,
    ) -> Result<(), AllocError>
        requires { move_of self.old slot ≡ None }
        ensures ok { OnOk result (self.new ≡ begun self.old slot number (Move.Leaves to number 0 None)) }
        ensures err { OnErr result (self.new ≡ self.old) }
    {
        let leaves = Move::Leaves {
            to,
            number,
            copies: 0,
            frozen: None,
        };
        self.begin(slot, number, leaves)
    }

    /// Obeys CLUSTER SETSLOT slot NODE node as far as moves are concerned, and takes no memory.
    ///
    /// Where an import ends, the new epoch and the entry in the table are left to the caller.
    pub fn set_node(&mut self, at: Standing, order: Order) -> NodeVerdict
        ensures verdict { result ≡ node_verdict at (move_of self.old order.slot) order.node order.number }
        ensures moves { self.new ≡ after_node self.old order.slot result }
    {
        let slot = order.slot;
        let verdict = self.node_verdict(at, order);
        if let NodeVerdict::Ends { .. } = verdict {
            self.end(slot);
        }
        verdict
    }

    // A move of a slot that has none.
    fn begin(&mut self, slot: Slot, number: MoveNo, new: Move) -> Result<(), AllocError>
        requires { move_of self.old slot ≡ None }
        ensures ok { OnOk result (self.new ≡ begun self.old slot number new) }
        ensures err { OnErr result (self.new ≡ self.old) }
    {
        put_in(&mut self.running, slot, new)?;
        if let Err(refused) = put_in(&mut self.last, slot, number) {
            self.end(slot);
            return Err(refused);
        }
        Ok(())
    }

    /// Ends the move of the slot, and keeps its number. It takes no memory.
    pub fn end(&mut self, slot: Slot)
        ensures { self.new ≡ ended self.old slot }
    {
        take_out(&mut self.running, slot);
    }
}

fn put_in<V: Drop>(entries: &mut BTreeMap<Slot, V>, slot: Slot, value: V) -> Result<(), AllocError>
    ensures ok { OnOk result (by_slot entries.new.entries ≡ map.insert (by_slot entries.old.entries) slot value) }
    ensures err { OnErr result (by_slot entries.new.entries ≡ by_slot entries.old.entries) }
{
    let _old = entries.insert(slot, value)?;
    Ok(())
}

fn take_out<V: Drop>(entries: &mut BTreeMap<Slot, V>, slot: Slot)
    ensures { by_slot entries.new.entries ≡ map.remove (by_slot entries.old.entries) slot }
{
    let _old = entries.remove(&slot);
}
