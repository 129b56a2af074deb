//! Lists that are empty in nearly all steps.
ghost use Rattle.std.specs.Prelude.{◌≡◌, [], IfOk};

use std::alloc::{AllocError, Global};
use std::marker::Model;

/// A list that is empty in nearly all steps. Then it takes no memory, and it has one word beside that: so outputs are small,
/// and quickly moved.
#[derive(Debug, Drop)]
pub(crate) struct Few<T> {
    // None where there is no item.
    pub(crate) items: Option<Box<Vec<T>>>,
}

impl<T> Model for Few<T> {
    ghost use Rattle.std.specs.Prelude.{List};
    ghost use Rattle.node_step.specs.Few.{listed};

    ghost Value = { List T };

    ghost view = { λ few. listed few.items };
}

impl<T: Drop> Few<T> {
    /// No item. It takes no memory.
    pub(crate) fn none() -> Few<T>
        ensures { result ≡ [] }
    {
        Few { items: None }
    }

    /// These items.
    pub(crate) fn of(alloc: Global, items: Vec<T>) -> Result<Few<T>, AllocError>
        ensures { IfOk result (λ few. few ≡ items.items) }
    {
        let items = Some(Box::new(alloc, items)?);
        Ok(Few { items })
    }

    /// The items in order.
    pub(crate) fn as_slice(&self) -> &[T]
        ensures { result.now ≡ self.now }
    {
        match &self.items {
            Some(items) => items.as_slice(),
            None => &[],
        }
    }
}
