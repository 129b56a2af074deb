//! A hash.
ghost use Rattle.std.specs.Prelude.{◌≡◌, ◌==◌, ◌<◌, ◌≤◌, ◌^◌, ℕ, List, [], length, is_some, if◌then◌else◌, IsOk, IfOk, OnOk, OnErr};
ghost use Rattle.std.specs.Map.Iter.{GivesInOrder, ShowsValuesInOrder};
ghost use Rattle.hash.specs.Form.{pairs_of_form};
ghost use Rattle.hash.specs.Pairs.{value_of, fields_changed, HasDistinctFields};
ghost use Rattle.hash.specs.Size.{size_of};
ghost use Rattle.hash.specs.Sized.{IsSized};

use crate::extent::{Extent, extent_after};
use crate::iter::Iter;
use crate::large::Large;
use crate::packed::Packed;
use crate::unpacking::unpacked;
use crate::word::Word;
use byte_string::ByteString;
use std::alloc::{AllocError, Global};
use std::fmt;
use std::marker::Model;
use std::mem::size_of;
use std::sync::Arc;

#[derive(Drop)]
enum Form {
    // Few short fields with short values, in one block.
    Packed(Packed),
    // Any fields and values, in blocks that copies share. A hash that became large stays so.
    Large(Arc<Large>),
}

/// Fields with their values, in the order in which the fields came. No field stands twice.
///
/// Small ones lie in one block of memory, which a copy copies. Copies of a large one share it, until one of them is changed.
pub struct Hash {
    form: Form,
}

// It takes no more room than a string does.
const _: () = prove!(size_of::<Hash>() <= size_of::<ByteString>());

impl Model for Hash {
    ghost use Rattle.hash.specs.Pairs.{Pairs};
    ghost use Rattle.hash.specs.Form.{pairs_of_form};

    ghost Value = { Pairs };

    ghost view = { λ hash. pairs_of_form hash.form };
}

impl Drop for Hash {
    fn drop(self) {
        let Hash { form: _ } = self;
    }
}

impl Hash {
    /// A hash with no fields. It takes no memory before its first field.
    pub fn new(alloc: Global) -> Hash
        ensures { result ≡ [] }
    {
        Hash {
            form: Form::Packed(Packed::new(alloc)),
        }
    }

    /// The number of fields.
    pub fn len(&self) -> usize
        ensures len { result ≡ length self.now }
        ensures small { result < 2 ^ 63 }
        ensures distinct { HasDistinctFields self.now }
    {
        match &self.form {
            Form::Packed(packed) => packed.len(),
            Form::Large(large) => large.len(),
        }
    }

    /// Whether the hash has no fields.
    pub fn is_empty(&self) -> bool
        ensures { result ≡ (length self.now == 0) }
    {
        self.len() == 0
    }

    /// The value of the field, if the hash has it.
    pub fn get(&self, field: &ByteString) -> Option<Word<'_>>
        ensures { result ≡ value_of self.now field.now }
    {
        match &self.form {
            Form::Packed(packed) => packed.get(field),
            Form::Large(large) => match large.get(field) {
                Some(value) => Some(Word::string(value)),
                None => None,
            },
        }
    }

    /// Whether the hash has the field.
    pub fn contains(&self, field: &ByteString) -> bool
        ensures { result ≡ is_some (value_of self.now field.now) }
    {
        self.get(field).is_some()
    }

    /// The fields with their values, in order.
    pub fn iter(&self) -> Iter<'_>
        ensures pairs { result ≡ self.now }
        ensures runs { GivesInOrder (List ℕ × List ℕ) }
        ensures values_run { ShowsValuesInOrder (λ (pair : List ℕ × List ℕ). pair) }
        ensures distinct { HasDistinctFields self.now }
        ensures fits { length self.now < 2 ^ 63 }
    {
        prove!(self.len() < 1 << 63);
        self.pairs()
    }

    fn pairs(&self) -> Iter<'_>
        ensures { result ≡ self.now }
    {
        match &self.form {
            Form::Packed(packed) => Iter::over_packed(packed),
            Form::Large(large) => large.iter(),
        }
    }

    /// The number of bytes that all fields and values take as bulk strings.
    pub fn size(&self) -> u128
        ensures { result ≡ size_of self.now }
    {
        self.request_size()
    }

    // They are kept, and not counted anew.
    pub(crate) fn request_size(&self) -> u128
        ensures { IsSized self.now result }
    {
        match &self.form {
            Form::Packed(packed) => packed.size(),
            Form::Large(large) => large.size(),
        }
    }

    /// What the hash would take after these changes, which aren't made.
    ///
    /// Each change is looked at once. A single one asks for no memory.
    pub fn extent_after(
        &self,
        alloc: Global,
        changes: &[(ByteString, Option<ByteString>)],
    ) -> Result<Extent, AllocError>
        ensures len { IfOk result (λ extent.
            extent.len ≡ length (fields_changed self.now changes.now)) }
        ensures size { IfOk result (λ extent.
            extent.size ≡ size_of (fields_changed self.now changes.now)) }
        ensures single { length changes.now ≤ 1 → IsOk result }
    {
        extent_after(alloc, self, changes)
    }

    /// Makes the changes one after another: a field with a value is set, and one without is removed.
    ///
    /// All are made, or none where memory is refused. A small hash is copied once, with its changes; a single value that
    /// keeps its length is written over the old one, and where fields are only removed, they are removed in place. In a large
    /// hash a field that is set costs one search, and one that is removed a few. Of many fields, a walk over all closes their
    /// gaps once more are removed than are left. A field that is set again after its removal comes last, and may move all that
    /// stood behind it. A large hash that is shared is copied first, field by field; the copies keep what they had.
    pub fn change(
        &mut self,
        changes: Vec<(ByteString, Option<ByteString>)>,
    ) -> Result<(), AllocError>
        ensures ok { OnOk result (self.new ≡ fields_changed self.old changes.items) }
        ensures err { OnErr result (self.new ≡ self.old) }
    {
        let form = match &mut self.form {
            Form::Large(large) => return change_large(large, changes),
            Form::Packed(packed) => {
                if packed.change(changes.as_slice())? {
                    return Ok(());
                }
                large_after(packed, changes)?
            }
        };
        self.form = form;
        Ok(())
    }
}

fn change_large(
    large: &mut Arc<Large>,
    changes: Vec<(ByteString, Option<ByteString>)>,
) -> Result<(), AllocError>
    ensures ok { OnOk result (large.new.value ≡ fields_changed large.old.value changes.items) }
    ensures err { OnErr result (large.new.value ≡ large.old.value) }
{
    Arc::make_mut(large)?.change(changes)
}

// The pairs after the changes, which are too many or too long to be packed.
fn large_after(
    packed: &Packed,
    changes: Vec<(ByteString, Option<ByteString>)>,
) -> Result<Form, AllocError>
    ensures { IfOk result (λ form. pairs_of_form form ≡ fields_changed packed.now changes.items) }
{
    let mut large = unpacked(packed)?;
    large.change(changes)?;
    Ok(Form::Large(Arc::new(packed.allocator(), large)?))
}

impl Clone for Hash {
    ghost is_clone = { λ hash copy. copy ≡ hash };

    fn clone(&self) -> Result<Hash, AllocError> {
        Ok(Hash {
            form: match &self.form {
                Form::Packed(packed) => Form::Packed(packed.clone()?),
                Form::Large(large) => Form::Large(large.clone()?),
            },
        })
    }
}

impl fmt::Debug for Hash {
    fn fmt<W: fmt::Write>(&self, f: &mut fmt::Formatter<W>) -> fmt::Result {
        f.debug_map().entries(self.iter()).finish()
    }
}
