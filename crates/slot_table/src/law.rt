//! Laws of tables that merge claims.
ghost use Rattle.slot_table.specs.Claims.{MergingAgainChangesNothing, OrderOfClaimsIsFree};

/// A claim that is merged a second time changes nothing.
pub fn merging_again_changes_nothing()
    ensures { MergingAgainChangesNothing }
{}

/// Two claims leave the same table in either order.
pub fn order_of_claims_is_free()
    ensures { OrderOfClaimsIsFree }
{}
