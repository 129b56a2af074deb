//! The pairs of a hash as words of a request.
ghost use Rattle.std.specs.Prelude.{◌≡◌, ◌++◌, OnOk};
ghost use Rattle.hash.specs.Size.{words_of};

use crate::hash::Hash;
use byte_string::ByteString;
use std::alloc::AllocError;

impl Hash {
    /// Puts each field, followed by its value, behind these words, as HGETALL lists them. They share the bytes of very
    /// long strings.
    ///
    /// Where memory is refused, the words of some pairs may be missing.
    pub fn append_words(&self, words: &mut Vec<ByteString>) -> Result<(), AllocError>
        ensures { OnOk result (words.new.items ≡ words.old.items ++ words_of self.now) }
    {
        let alloc = *words.allocator();
        for (field, value) in self.iter() {
            words.push(field.to_byte_string(alloc)?)?;
            words.push(value.to_byte_string(alloc)?)?;
        }
        Ok(())
    }
}
