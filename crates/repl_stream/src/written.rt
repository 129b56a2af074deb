//! What is put behind a stream.
ghost use Rattle.std.specs.Prelude.{◌≡◌, ◌==◌, false, true, length, IfNone, IfOk, IfSome};
ghost use Rattle.resp_values.specs.Request.{request_spelling};
ghost use Rattle.repl_stream.specs.Written.{no_writes};

use crate::lengths::spelled_len;
use byte_string::{ByteString, LEAST_SHARED};
use resp_values::Words;
use std::alloc::{AllocError, Global};
use std::marker::Model;
use std::snapshot::Snapshot;

/// The bytes of writes that are put behind a stream, or only their number, where nobody reads them.
#[derive(Drop)]
pub struct Written {
    form: Form,
}

#[derive(Drop)]
enum Form {
    Spelled(Vec<u8>),
    // Many bytes, which the pieces for replicas share.
    Shared(ByteString),
    // The bytes of this request are so many.
    Counted(usize, Snapshot<Words>),
}

impl Model for Written {
    ghost use Rattle.repl_stream.specs.Written.{WrittenView, IsCount, bytes_of, is_counted};

    ghost Value = { WrittenView };

    ghost view = { λ written. record { bytes = bytes_of written.form; is_counted = is_counted written.form } };

    ghost invariant = { λ written. IsCount written.form };
}

impl Written {
    /// No bytes.
    pub fn nothing(alloc: Global) -> Written
        ensures { result ≡ no_writes }
    {
        Written {
            form: Form::Spelled(Vec::new(alloc)),
        }
    }

    /// These bytes, which copies share if they are many.
    pub fn spelled(bytes: Vec<u8>) -> Result<Written, AllocError>
        ensures { IfOk result (λ written. written ≡ record { bytes = bytes.items; is_counted = false }) }
    {
        let form = if bytes.len() < LEAST_SHARED {
            Form::Spelled(bytes)
        } else {
            Form::Shared(ByteString::from_vec(bytes)?)
        };
        Ok(Written { form })
    }

    /// The bytes of the request, counted and not spelled.
    pub fn counted(request: &Words) -> Written
        ensures { result ≡ record { bytes = request_spelling request.now; is_counted = true } }
    {
        Written {
            form: Form::Counted(spelled_len(request), Snapshot::of(request)),
        }
    }

    /// How many bytes they are.
    pub fn len(&self) -> usize
        ensures { result ≡ length self.now.bytes }
    {
        match &self.form {
            Form::Spelled(bytes) => bytes.len(),
            Form::Shared(bytes) => bytes.len(),
            Form::Counted(count, _) => *count,
        }
    }

    /// Whether they are none.
    pub fn is_empty(&self) -> bool
        ensures { result ≡ (length self.now.bytes == 0) }
    {
        self.len() == 0
    }

    /// The bytes, or None where they are only counted.
    pub fn as_slice(&self) -> Option<&[u8]>
        ensures some { IfSome result (λ bytes. bytes.now ≡ self.now.bytes) }
        ensures none { IfNone result (self.now.is_counted ≡ true) }
    {
        match &self.form {
            Form::Spelled(bytes) => Some(bytes.as_slice()),
            Form::Shared(bytes) => Some(bytes.as_slice()),
            Form::Counted(_, _) => None,
        }
    }

    /// The bytes once more, which this one and its copies share if they are many.
    pub fn to_byte_string(&self, alloc: Global) -> Result<ByteString, AllocError>
        requires { self.now.is_counted ≡ false }
        ensures { IfOk result (λ string. string ≡ self.now.bytes) }
    {
        match &self.form {
            Form::Spelled(bytes) => ByteString::copy_from_slice(alloc, bytes.as_slice()),
            Form::Shared(bytes) => bytes.clone(),
            Form::Counted(_, _) => unreachable!(),
        }
    }
}
