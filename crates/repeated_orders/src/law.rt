//! Laws of orders that a node is given twice.
ghost use Rattle.repeated_orders.specs.Law.{CopiesAreSentAgain, OrdersMayBeRepeated, RepliesAreRepeated};

/// `CLUSTER SETSLOT`, given again, changes nothing of the node but its connections, and sends nothing to other nodes.
pub fn orders_may_be_repeated()
    ensures { OrdersMayBeRepeated }
{}

/// `CLUSTER SETSLOT`, given again, has the reply that it had before, at a node whose table has the slot.
pub fn repeated_orders_have_the_same_reply()
    ensures { RepliesAreRepeated }
{}

/// `MIGRATE`, given again, changes nothing of the node but its connections, and sends what it sent before: the same copy,
/// under the same number.
pub fn a_repeated_copy_takes_no_new_number()
    ensures { CopiesAreSentAgain }
{}
