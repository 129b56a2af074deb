//! What a message says.

use crate::quoted::Quoted;
use bus::{
    Body, Candidacy, ElectionBody, Handing, Piece, Replaced, SlotsBody, Snapshot, StreamBody,
    StreamId, Suspects, Sync,
};
use keyspace::Pairs;
use slot_state::CopyId;
use slot_table::Claim;
use std::alloc::AllocError;
use std::fmt;
use std::fmt::Write;

/// Puts what a message says behind the text.
pub(crate) fn write_body(text: &mut String, body: &Body) -> Result<(), AllocError> {
    match body {
        Body::Slots(body) => write_of_slots(text, body),
        Body::Stream(body) => write_of_stream(text, body),
        Body::Election(body) => write_of_election(text, body),
        Body::Report(suspects) => write_report(text, suspects),
    }
}

fn write_of_slots(text: &mut String, body: &SlotsBody) -> Result<(), AllocError> {
    match body {
        SlotsBody::Copy { id, pairs } => write_copy(text, *id, pairs),
        SlotsBody::Ack(id) => write!(text, "Ack {}", NamedCopy(*id)),
        SlotsBody::Drained {
            slot,
            number,
            epoch,
        } => write!(
            text,
            "Drained slot {} move {} epoch {}",
            slot.get(),
            number.get(),
            epoch.get()
        ),
        SlotsBody::Claim(claim, replaced) => write_claim(text, claim, *replaced),
    }
}

fn write_of_stream(text: &mut String, body: &StreamBody) -> Result<(), AllocError> {
    match body {
        StreamBody::Sync(sync) => write_sync(text, *sync),
        StreamBody::Piece(piece) => write_piece(text, piece),
        StreamBody::Snapshot(snapshot) => write_snapshot(text, snapshot),
    }
}

fn write_of_election(text: &mut String, body: &ElectionBody) -> Result<(), AllocError> {
    match body {
        ElectionBody::Candidacy(candidacy) => write_candidacy(text, *candidacy),
        ElectionBody::Grant(epoch) => write!(text, "Grant epoch {}", epoch.get()),
        ElectionBody::Pause(stream) => write!(text, "Pause {}", NamedStream(*stream)),
        ElectionBody::Paused(handing) => write_handing(text, handing),
    }
}

fn write_copy(text: &mut String, id: CopyId, pairs: &Pairs) -> Result<(), AllocError> {
    write!(text, "Copy {} keys", NamedCopy(id))?;
    for pair in pairs.as_slice() {
        write!(text, " {}", Quoted(pair.key().as_slice()))?;
    }
    Ok(())
}

fn write_claim(
    text: &mut String,
    claim: &Claim,
    replaced: Option<Replaced>,
) -> Result<(), AllocError> {
    write!(text, "Claim")?;
    write_runs(text, claim)?;
    if let Some(replaced) = replaced {
        write!(
            text,
            " in the place of {}, {} from {}",
            replaced.master.get(),
            NamedStream(replaced.stream),
            replaced.offset
        )?;
    }
    Ok(())
}

// The slots, and behind each run of them its epoch.
fn write_runs(text: &mut String, claim: &Claim) -> Result<(), AllocError> {
    write!(text, " slots")?;
    for run in claim.runs() {
        write!(
            text,
            " {}-{}@{}",
            run.slots.first.get(),
            run.slots.last.get(),
            run.value.get()
        )?;
    }
    Ok(())
}

fn write_report(text: &mut String, suspects: &Suspects) -> Result<(), AllocError> {
    write!(text, "Report suspects")?;
    for (number, is_suspected) in suspects.as_slice().iter().enumerate() {
        if *is_suspected {
            write!(text, " {number}")?;
        }
    }
    Ok(())
}

fn write_candidacy(text: &mut String, candidacy: Candidacy) -> Result<(), AllocError> {
    let how = if candidacy.planned { " as planned" } else { "" };
    write!(
        text,
        "Request epoch {} in the place of {}{how}",
        candidacy.epoch.get(),
        candidacy.master.get()
    )
}

fn write_sync(text: &mut String, sync: Sync) -> Result<(), AllocError> {
    write!(
        text,
        "Sync {} received {}",
        NamedStream(sync.stream),
        sync.received
    )
}

fn write_piece(text: &mut String, piece: &Piece) -> Result<(), AllocError> {
    write!(
        text,
        "Piece {} from {} bytes {}",
        NamedStream(piece.stream()),
        piece.from(),
        piece.bytes().len()
    )
}

fn write_snapshot(text: &mut String, snapshot: &Snapshot) -> Result<(), AllocError> {
    write!(
        text,
        "Snapshot {} at {} keys {}",
        NamedStream(snapshot.stream),
        snapshot.offset,
        snapshot.pairs.len()
    )
}

fn write_handing(text: &mut String, handing: &Handing) -> Result<(), AllocError> {
    write!(
        text,
        "Paused {} at {}",
        NamedStream(handing.stream),
        handing.offset
    )?;
    write_runs(text, &handing.slots)
}

// A copy, by its slot, its move and its number in this move.
#[derive(Clone, Copy)]
struct NamedCopy(CopyId);

impl fmt::Display for NamedCopy {
    fn fmt<W: fmt::Write>(&self, f: &mut fmt::Formatter<W>) -> fmt::Result {
        let CopyId { slot, number, copy } = self.0;
        write!(f, "slot {} move {} copy {copy}", slot.get(), number.get())
    }
}

// A stream, by the node that writes it and the epoch in which it began.
#[derive(Clone, Copy)]
struct NamedStream(StreamId);

impl fmt::Display for NamedStream {
    fn fmt<W: fmt::Write>(&self, f: &mut fmt::Formatter<W>) -> fmt::Result {
        write!(f, "stream {}/{}", self.0.node.get(), self.0.epoch.get())
    }
}
