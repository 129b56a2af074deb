//! A way from one node to another, and back.
ghost use Rattle.std.specs.Prelude.{◌≡◌, ◌++◌, ◌∷◌, [], IfErr, IfNone, IfSome, OnErr, OnOk};

/// A node's end of the link between it and another node, or itself: what it sends there comes out at the other end, and what is
/// sent there comes out here.
///
/// Clauses see all that was sent and all that was received at this end, in order. Nothing is promised of how long it takes, and
/// between its two ends a link may lose, repeat and reorder what it carries.
pub trait Link {
    ghost use Rattle.std.specs.Prelude.{List};

    /// What the link carries: messages, or what stands for them.
    type Carried;

    ghost sent: { Self → List Self.Carried };

    ghost received: { Self → List Self.Carried };

    /// Why the link may hand back what is sent now.
    ghost may_hand_back: { Self → Type 0 };

    /// Why there may be nothing to receive now.
    ghost may_give_none: { Self → Type 0 };

    /// Sends this, or hands it back where the link is full, or where memory is refused.
    fn send(&mut self, carried: Self::Carried) -> Result<(), Self::Carried>
        ensures sent { OnOk result (sent self.new ≡ sent self.old ++ carried ∷ []) }
        ensures back { IfErr result (λ back. back ≡ carried) }
        ensures unsent { OnErr result (sent self.new ≡ sent self.old) }
        ensures full { OnErr result (may_hand_back self.old) }
        ensures received { received self.new ≡ received self.old };

    /// What comes next, if anything has come.
    fn try_receive(&mut self) -> Option<Self::Carried>
        ensures received { IfSome result (λ carried. received self.new ≡ received self.old ++ carried ∷ []) }
        ensures none { IfNone result (received self.new ≡ received self.old) }
        ensures empty { IfNone result (may_give_none self.old) }
        ensures sent { sent self.new ≡ sent self.old };
}
