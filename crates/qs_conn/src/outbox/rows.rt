//! Packets in a row mostly carried bytes in a row of one stream, and an ACK mostly names such packets: these bytes are acknowledged as one
//! chunk.
ghost use Rattle.std.specs.Prelude.{◌≡◌, ℕ, ◌+◌, ◌-◌, ◌<◌, ◌≤◌, IfSome, OnOk, OnErr};
ghost use Rattle.qs_send.specs.declared.parts.Chunk.{Chunk};
ghost use Rattle.qs_send.specs.declared.piece.Piece.TheVariants as pieces;
ghost use Rattle.qs_send.specs.Lane.{acked_lane};
ghost use Rattle.qs_machine.specs.Outgoing.{IsIdle, on_lane};
ghost use Rattle.qs_conn.specs.Rows.{AcksRow, IsAlone, IsRowAt, IsRowFrom, Meets, MayRunOutAt, joined, without_row};

use super::Outbox;
use super::acks::chunk_acked;
use qs_ranges::NoMemory;
use qs_send::{Chunk, Piece, Records};
use qs_wire::StreamId;

/// The bytes of a stream that packets in a row carried, of which `first` is the lowest number.
#[derive(Clone, Copy)]
pub(crate) struct Row {
    pub stream: StreamId,
    pub chunk: Chunk,
    pub first: u64,
}

impl Outbox {
    /// From a number down to `low` at most. `None` if that packet carried anything but bytes, or none below it is outstanding.
    #[inline(always)]
    #[tactic(auto, using(crate::proofs::Outboxes::idle_out))]
    pub(crate) fn row(&self, number: u64, low: u64) -> Option<Row>
        requires { IsIdle self.now }
        ensures { IfSome result (λ r. IsRowFrom self.now.outstanding r.stream number low r.first r.chunk) }
    {
        // Mostly no packet below is outstanding.
        if number <= low.max(self.records.base()) {
            return None;
        }
        row_of(&self.records, number, low)
    }

    pub(crate) fn ack_row(&mut self, number: u64, row: &Row) -> Result<(), NoMemory>
        requires idle { IsIdle self.old }
        requires row { IsRowAt self.old.outstanding row.now.stream number row.now.first row.now.chunk }
        ensures ok { OnOk result (AcksRow row.now.stream number row.now.first self.old self.new) }
        ensures sends { OnOk result (self.new.sends ≡ (on_lane row.now.stream (λ l. acked_lane l row.now.chunk) self.old).sends) }
        ensures err { OnErr result (self.new ≡ self.old) }
        ensures asks { OnErr result (MayRunOutAt number row.now.stream self.old) }
        ensures idle { IsIdle self.new }
    {
        let _next = self.next;
        chunk_acked(&mut self.types, row.stream, row.chunk)?;
        drop_row(&mut self.records, row.first, number);
        Ok(())
    }
}

#[tactic(auto, using(crate::proofs::Outboxes::row_longer, crate::proofs::Outboxes::row_one))]
fn row_of(records: &Records, number: u64, low: u64) -> Option<Row>
    ensures { IfSome result (λ r. IsRowFrom records.now.pieces r.stream number low r.first r.chunk) }
{
    let Some(top) = some_bytes_of(records, number) else {
        return None;
    };
    let stream = top.stream;
    let mut chunk = top.chunk;
    let mut first = number;
    while first > low {
        match with_below(records, first, stream, chunk) {
            Some(longer) => chunk = longer,
            None => break,
        }
        first -= 1;
    }
    Some(Row {
        stream,
        chunk,
        first,
    })
}

#[inline(always)]
fn some_bytes_of(records: &Records, number: u64) -> Option<Row>
    ensures alone { IfSome result (λ r. IsAlone records.now.pieces number r.stream r.chunk) }
    ensures some { IfSome result (λ r. 0 < r.chunk.len) }
{
    let Some(top) = bytes_of(records, number) else {
        return None;
    };
    if top.chunk.len == 0 {
        return None;
    }
    Some(top)
}

#[inline(always)]
fn with_below(records: &Records, first: u64, stream: StreamId, chunk: Chunk) -> Option<Chunk>
    requires { 0 < first }
    ensures { IfSome result (λ c. (low : Chunk) × IsAlone records.now.pieces (first - 1) stream low × Meets low chunk × (c ≡ joined low chunk)) }
{
    let Some(below) = bytes_of(records, first - 1) else {
        return None;
    };
    let low = below.chunk;
    if below.stream != stream || low.fin || chunk.offset < low.offset {
        return None;
    }
    if chunk.offset - low.offset != low.len as u64 {
        return None;
    }
    let len = low.len.checked_add(chunk.len)?;
    Some(Chunk {
        offset: low.offset,
        len,
        fin: chunk.fin,
    })
}

#[inline(always)]
fn bytes_of(records: &Records, number: u64) -> Option<Row>
    ensures { IfSome result (λ r. IsAlone records.now.pieces number r.stream r.chunk) }
{
    let Some(piece) = records.only(number) else {
        return None;
    };
    bytes_in(&piece, number)
}

fn bytes_in(piece: &Piece, first: u64) -> Option<Row>
    ensures { IfSome result (λ r. piece.now ≡ pieces.Data r.stream r.chunk) }
{
    match *piece {
        Piece::Data { stream, chunk } => Some(Row {
            stream,
            chunk,
            first,
        }),
        Piece::Told(_) => None,
    }
}

#[tactic(auto, using(crate::proofs::Outboxes::row_less))]
fn drop_row(records: &mut Records, first: u64, number: u64)
    requires { first ≤ number }
    ensures pieces { records.new.pieces ≡ without_row first (number - first) records.old.pieces }
    ensures room { records.new.room ≡ records.old.room }
{
    let mut last = number;
    while last > first {
        records.drop_first(last);
        last -= 1;
    }
    records.drop_first(first);
}
