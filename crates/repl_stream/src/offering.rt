//! What a replica takes of its master's stream.
ghost use Rattle.std.specs.Prelude.{◌≡◌, ◌+◌, ◌<◌, ◌≤◌, ◌^◌, length, IfOk, IfErr, IfSome, OnOk, OnErr};
ghost use Rattle.bus.specs.Piece.{common_end, end_by_base, news_in, verdict_on};
ghost use Rattle.bus.specs.Piece.PieceVerdict.{Takes};
ghost use Rattle.repl_stream.specs.Faults.{IsRefusedFor};
ghost use Rattle.repl_stream.specs.Replica.{IsWithin, IsWithinBoth, StaysIn, TakesFrom, TakesIn};

use crate::fault::OfferFault;
use crate::node_stream::NodeStream;
use crate::parts::front;
use crate::received::read;
use crate::stream::Stream;
use bus::{Base, Piece};
use keyspace::{Store, commit};
use std::alloc::{AllocError, Global};

impl<T: Stream> NodeStream<T> {
    /// Takes what is new of the piece, and executes the requests that are whole now, or changes nothing.
    pub fn offer<S: Store>(
        &mut self,
        alloc: Global,
        store: &mut S,
        piece: &Piece,
    ) -> Result<(), OfferFault>
        ensures taken { OnOk result
            (TakesIn S.contents self.old store.old piece.now self.new store.new) }
        ensures refused { IfErr result
            (λ fault. IsRefusedFor fault (verdict_on self.old.stream piece.now)) }
        ensures unchanged { OnErr result
            (StaysIn S.contents self.old store.old self.new store.new) }
        ensures keeps { self.new.keeps ≡ self.old.keeps }
    {
        let place = self.judge(piece)?;
        self.take(alloc, store, piece, place)?;
        Ok(())
    }

    // Up to where what was received is of the piece's stream, if that isn't before the piece.
    fn judge(&self, piece: &Piece) -> Result<u64, OfferFault>
        ensures takes { IfOk result (λ place. verdict_on self.now.stream piece.now ≡ Takes place) }
        ensures within { IfOk result (λ place. IsWithinBoth self.now.stream piece.now place) }
        ensures refused { IfErr result
            (λ fault. IsRefusedFor fault (verdict_on self.now.stream piece.now)) }
    {
        let Some(place) = self.common_end(piece) else {
            return Err(OfferFault::OtherStream);
        };
        if place < piece.from() {
            return Err(OfferFault::Gap);
        }
        Ok(place)
    }

    fn common_end(&self, piece: &Piece) -> Option<u64>
        ensures end { result ≡ common_end self.now.stream piece.now }
        ensures within { IfSome result (λ place. IsWithin self.now.stream place) }
    {
        if piece.stream() == self.id() {
            return Some(self.received());
        }
        self.end_by_base(piece.base())
    }

    fn end_by_base(&self, base: Option<Base>) -> Option<u64>
        ensures end { result ≡ end_by_base self.now.stream base }
        ensures within { IfSome result (λ place. IsWithin self.now.stream place) }
    {
        let base = base?;
        if base.stream != self.id() || base.end < self.offset {
            return None;
        }
        Some(self.received().min(base.end))
    }

    // Takes what is new of the piece behind that place.
    fn take<S: Store>(
        &mut self,
        alloc: Global,
        store: &mut S,
        piece: &Piece,
        place: u64,
    ) -> Result<(), AllocError>
        requires behind { piece.now.from ≤ place }
        requires within { IsWithin self.old.stream place }
        ensures taken { OnOk result
            (TakesFrom S.contents place self.old store.old piece.now self.new store.new) }
        ensures err { OnErr result (StaysIn S.contents self.old store.old self.new store.new) }
        ensures keeps { self.new.keeps ≡ self.old.keeps }
    {
        let stayed = front(self.partial.as_slice(), place - self.offset);
        let news = news_of(piece, place);
        let received = read(alloc, &*store, stayed, news)?;
        self.stream.reserve(news.len())?;
        commit(alloc, store, received.plan)?;
        self.stream.cut_at(place, piece.stream());
        self.stream.append(news);
        self.offset = self.stream.end() - received.rest.len() as u64;
        self.partial = received.rest;
        Ok(())
    }
}

// The bytes of the piece from that offset on.
fn news_of(piece: &Piece, place: u64) -> &[u8]
    requires { piece.now.from ≤ place }
    ensures news { result.now ≡ news_in piece.now place }
    ensures fits { place + length result.now < 2 ^ 64 }
{
    let bytes = piece.bytes().as_slice();
    let before = place - piece.from();
    if before >= bytes.len() as u64 {
        return &[];
    }
    &bytes[before as usize..]
}
