//! A part of a stream.
ghost use Rattle.std.specs.Prelude.{◌≡◌, ◌+◌, ◌<◌, ◌^◌, length, SomeIff};
ghost use Rattle.bus.specs.Piece.{PieceView, piece_end};

use crate::stream_id::{Base, StreamId};
use byte_string::ByteString;
use std::alloc::AllocError;
use std::marker::Model;

/// A part of a stream, as a master sends it to its replicas: some bytes, and the offset of the first of them.
///
/// A copy of it shares the bytes from 249 on. They end below 2 ^ 64.
#[derive(Debug)]
pub struct Piece {
    stream: StreamId,
    from: u64,
    bytes: ByteString,
    base: Option<Base>,
}

impl Model for Piece {
    ghost use Rattle.std.specs.Prelude.{◌+◌, ◌<◌, ◌^◌, length};
    ghost use Rattle.bus.specs.Piece.{PieceView};

    ghost Value = { PieceView };

    ghost view = { λ piece. record {
      stream = piece.stream;
      from = piece.from;
      bytes = piece.bytes;
      base = piece.base;
    } };

    ghost invariant = { λ piece. piece.from + length piece.bytes < 2 ^ 64 };
}

impl Drop for Piece {
    fn drop(self) {
        let Piece {
            stream: _,
            from: _,
            bytes: _,
            base: _,
        } = self;
    }
}

impl Piece {
    /// The piece of these bytes, or None where they would end past the greatest offset.
    pub fn new(stream: StreamId, from: u64, bytes: ByteString, base: Option<Base>) -> Option<Piece>
        ensures { SomeIff result (from + length bytes < 2 ^ 64)
            (record { stream = stream; from = from; bytes = bytes; base = base }) }
    {
        if bytes.len() as u64 > u64::MAX - from {
            return None;
        }
        Some(Piece {
            stream,
            from,
            bytes,
            base,
        })
    }

    /// The stream that the bytes are of.
    pub fn stream(&self) -> StreamId
        ensures { result ≡ self.now.stream }
    {
        self.stream
    }

    /// The offset of the first byte.
    pub fn from(&self) -> u64
        ensures { result ≡ self.now.from }
    {
        self.from
    }

    /// The bytes.
    pub fn bytes(&self) -> &ByteString
        ensures bytes { result.now ≡ self.now.bytes }
        ensures end { piece_end self.now < 2 ^ 64 }
    {
        &self.bytes
    }

    /// The stream that this one goes on from, if it is one that a promotion began.
    pub fn base(&self) -> Option<Base>
        ensures { result ≡ self.now.base }
    {
        self.base
    }
}

impl Clone for Piece {
    ghost is_clone = { λ piece copy. copy ≡ piece };

    fn clone(&self) -> Result<Piece, AllocError> {
        Ok(Piece {
            stream: self.stream,
            from: self.from,
            bytes: self.bytes.clone()?,
            base: self.base,
        })
    }
}
