//! What can be given more than once.
ghost use Rattle.std.specs.Prelude.{◌≡◌, IfOk};

use std::alloc::AllocError;

/// What can be given more than once.
pub trait Repeated: Drop {
    /// Another one, which is equal.
    fn again(&self) -> Result<Self, AllocError>
        ensures { IfOk result (λ other. other ≡ self.now) };
}
