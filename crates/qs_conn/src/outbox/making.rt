ghost use Rattle.std.specs.Prelude.{◌≡◌, ◌⊎◌, ◌+◌, ◌-◌, ◌≤◌, ◌<◌, ◌↔◌, ◌++◌, ◌∷◌, [], None, vec_len, vec_capacity, IsTrue, length, is_some, true, false, OnOk, OnErr};
ghost use Rattle.std.specs.FinMap as fmap;
ghost use Rattle.qs_ranges.specs.Numbers.{MAX_VARINT};
ghost use Rattle.qs_send.specs.declared.piece.Item.{Item};
ghost use Rattle.qs_send.specs.declared.piece.Piece.TheVariants as pieces;
ghost use Rattle.qs_send.specs.Lane.{Sending, sent_lane, bytes_of, after_sent};
ghost use Rattle.qs_send.specs.Chunks.{IsDueChunk, IsHeldByRoom, HasBytes};
ghost use Rattle.qs_conn.specs.Filling.{last_data, pieces_at};
ghost use Rattle.qs_conn.specs.Tasks.{IsDoneAfter, IsFree, IsQuiet, IsShort};
ghost use Rattle.qs_conn.specs.declared.send_marks.Task.TheVariants as tasks;
ghost use Rattle.qs_machine.specs.Tables.{lookup, updated};
ghost use Rattle.qs_machine.specs.Sums.{or_none, or_no_sending, tables_of};
ghost use Rattle.qs_machine.specs.Outgoing.{on_lane, sent_sum, chunk_put, item_put_out, HasSending, ChunkFound, MayTell, IsCarried, IsIdle, AreBelow, halves_told, with_pending};

use super::halves::half_of;
use super::{Outbox, halves};
use crate::piece_room::PieceRoom;
use crate::send_lanes::{SendLanes, Setting};
use crate::send_marks::{Moves, Task};
use qs_ranges::NoMemory;
use qs_send::{Chunk, Item, Piece, Records};
use qs_wire::StreamId;

#[derive(Clone, Copy, Drop)]
pub(crate) struct Sent {
    pub(crate) moved: u64,
    pub(crate) is_done: bool,
    /// Then the chunk brought it to no limit, so it needn't be looked at for STREAM_DATA_BLOCKED.
    pub(crate) is_free: bool,
}

impl Outbox {
    /// Before the packet is filled, so that a refusal changes nothing.
    #[inline(always)]
    pub(crate) fn begin(&mut self, count: usize) -> Result<(), NoMemory>
        ensures ok { OnOk result (self.new ≡ record self.old { spare = count }) }
        ensures err { OnErr result (self.new ≡ self.old) }
    {
        self.records.make_room(self.next)?;
        self.pending.reserve(count)?;
        self.room.prepare()?;
        self.spare = count;
        Ok(())
    }

    pub(crate) fn next_chunk(&self, stream: StreamId, room: usize, fresh: u64) -> Option<Chunk>
        requires { is_some (lookup self.now.sends stream) ≡ true }
        ensures { (s : Sending) × HasSending self.now stream s × ChunkFound s room fresh result }
    {
        let _next = self.next;
        let half = half_of(&self.types, stream);
        half.learn_lawful();
        half.next_chunk(room, fresh)
    }

    #[tactic(auto, using(crate::proofs::Outboxes::half_there))]
    pub(crate) fn is_held_by_room(&self, stream: StreamId, room: usize, fresh: u64) -> bool
        requires { is_some (lookup self.now.sends stream) ≡ true }
        ensures { (s : Sending) × HasSending self.now stream s × (IsTrue result ↔ IsHeldByRoom s room fresh) }
    {
        let _next = self.next;
        let half = half_of(&self.types, stream);
        half.learn_lawful();
        half.is_held_by_room(room, fresh)
    }

    pub(crate) fn bytes(&self, stream: StreamId, chunk: Chunk) -> (&[u8], &[u8])
        requires open { is_some (lookup self.now.sends stream) ≡ true }
        requires kept { HasBytes (or_none (lookup self.now.sends stream)) chunk }
        ensures bytes { result.0.now ++ result.1.now ≡ bytes_of (or_none (lookup self.now.sends stream)) chunk }
        ensures len { length (result.0.now ++ result.1.now) ≡ chunk.len }
    {
        half_of(&self.types, stream).bytes(chunk)
    }

    #[tactic(auto, using(crate::proofs::Outboxes::half_there, crate::proofs::Outboxes::known, crate::proofs::Flows::open_half, crate::proofs::Flows::due_half, crate::proofs::Flows::made_chunk_sum, crate::proofs::Flows::sum_now))]
    pub(crate) fn put_chunk(&mut self, stream: StreamId, chunk: Chunk) -> Sent
        requires spare { 0 < self.old.spare }
        requires due { (s : Sending) × HasSending self.old stream s × IsDueChunk s chunk }
        requires small { sent_sum (on_lane stream (λ l. sent_lane l chunk) self.old).sends ≤ MAX_VARINT }
        ensures put { self.new ≡ chunk_put stream chunk self.old }
        ensures done { result.is_done ≡ true → IsDoneAfter self.old stream chunk }
        ensures free { result.is_free ≡ true → IsFree self.old stream chunk }
        ensures held { result.is_free ≡ false → IsShort self.old stream }
    {
        halves::learn_lawful(&self.types, stream);
        let sent = send(&mut self.types, stream, chunk);
        self.sent += sent.moved;
        hold(&mut self.pending, Piece::Data { stream, chunk });
        self.spare -= 1;
        sent
    }

    /// No outstanding packet has it with this value, so it is new.
    pub(crate) fn put_item(&mut self, item: Item)
        requires spare { 0 < self.old.spare }
        requires may { MayTell self.old.sends item }
        requires new { IsCarried self.old.outstanding (pieces.Told item) → ⊥ }
        ensures { self.new ≡ item_put_out item self.old }
    {
        let _next = self.next;
        note_told(&mut self.types, &item);
        hold(&mut self.pending, Piece::Told(item));
        self.spare -= 1;
    }

    #[tactic(auto, using(crate::proofs::MadePackets::pieces_there, crate::proofs::MadePackets::last_at))]
    pub(crate) fn last_stream(&self) -> Option<StreamId>
        ensures { result ≡ last_data None (pieces_at self.now.outstanding self.now.next) }
    {
        // Mostly the last piece, as control frames go in first.
        if let Some(Piece::Data { stream, .. }) = self.pending.last() {
            return Some(*stream);
        }
        last_looked_for(&self.pending)
    }

    #[tactic(auto, using(crate::proofs::Flows::piece_there))]
    pub(crate) fn has_piece(&self) -> bool
        ensures { result ≡ is_some (fmap.get self.now.outstanding self.now.next) }
    {
        self.pending.len() > 0
    }

    pub(crate) fn commit(&mut self)
        requires { self.old.next ≤ MAX_VARINT }
        ensures after { self.new ≡ record self.old { next = self.old.next + 1; spare = 0 } }
        ensures idle { IsIdle self.new }
    {
        put_pieces(
            &mut self.records,
            self.next,
            &mut self.pending,
            &mut self.room,
        );
        self.next += 1;
        self.spare = 0;
    }
}

// One that is over has no chunk that is due.
#[tactic(auto, using(crate::proofs::LaneEdits::over_sent))]
#[inline]
fn send(types: &mut [SendLanes; 4], stream: StreamId, chunk: Chunk) -> Sent
    requires open { is_some (lookup (tables_of types.old) stream) ≡ true }
    requires due { IsDueChunk (or_no_sending (lookup (tables_of types.old) stream)) chunk }
    ensures len { length types.new ≡ 4 }
    ensures after { tables_of types.new ≡ updated (tables_of types.old) stream (λ s. after_sent s chunk) (lookup (tables_of types.old) stream) }
    ensures moved { let half = or_no_sending (lookup (tables_of types.old) stream) in half.lane.sent_end + result.moved ≡ (after_sent half chunk).lane.sent_end }
    ensures done { result.is_done ≡ true → IsQuiet tasks.Bytes (after_sent (or_no_sending (lookup (tables_of types.old) stream)) chunk) }
    ensures free { let half = or_no_sending (lookup (tables_of types.old) stream) in result.is_free ≡ true → (half.lane.written ≤ half.lane.limit) ⊎ ((after_sent half chunk).lane.sent_end ≡ half.lane.sent_end) }
    ensures held { let half = or_no_sending (lookup (tables_of types.old) stream) in result.is_free ≡ false → half.lane.sent_end < half.lane.limit }
{
    let (moved, is_free) = halves::edit(types, stream, (0, false), Moves::Sent, |half| {
        let before = half.sent_end();
        half.sent(chunk);
        (half.sent_end() - before, half.written() <= half.limit())
    });
    Sent {
        moved,
        is_done: !halves::has(types, stream, Task::Bytes),
        is_free: is_free || moved == 0,
    }
}

// The half's state depends on it (RFC 9000, section 3.1).
fn note_told(types: &mut [SendLanes; 4], item: &Item)
    ensures len { length types.new ≡ 4 }
    ensures after { tables_of types.new ≡ halves_told item.now (tables_of types.old) }
{
    if let Item::StreamDataBlocked { stream, .. } = *item {
        halves::set(types, stream, Setting::Blocked);
    }
}

#[inline(always)]
fn put_pieces(records: &mut Records, number: u64, pending: &mut Vec<Piece>, room: &mut PieceRoom)
    requires ready { 0 < length pending.old.items → number < records.old.room }
    requires above { AreBelow records.old.pieces number }
    ensures kept { records.new.pieces ≡ with_pending records.old.pieces number pending.old.items }
    ensures left { pending.new.items ≡ [] }
{
    if pending.len() > 1 {
        records.put(number, room.hand_over(pending));
        return;
    }
    if let Some(piece) = pending.pop() {
        records.put_one(number, piece);
    }
}

#[inline(never)]
fn last_looked_for(pieces: &[Piece]) -> Option<StreamId>
    ensures { result ≡ last_data None pieces.now }
{
    let mut last = None;
    for piece in pieces {
        if let Piece::Data { stream, .. } = *piece {
            last = Some(stream);
        }
    }
    last
}

#[inline(always)]
fn hold(pending: &mut Vec<Piece>, piece: Piece)
    requires { vec_len pending.old < vec_capacity pending.old }
    ensures items { pending.new.items ≡ pending.old.items ++ piece ∷ [] }
    ensures room { vec_capacity pending.old - vec_len pending.old ≤ vec_capacity pending.new - vec_len pending.new + 1 }
{
    let _ = match piece {
        Piece::Data { stream, chunk } => pending.push(Piece::Data { stream, chunk }),
        Piece::Told(item) => pending.push(Piece::Told(item)),
    };
}
