//! What goes into a packet: frames into a slice, behind the bytes that are there.
ghost use Rattle.std.specs.Prelude.{Bool, ◌≡◌, ◌+◌, ◌-◌, ◌≤◌, ◌<◌, ◌++◌, ◌^◌, true, false, None, is_some, length, take, drop, IfSome, IfNone};
ghost use Rattle.std.specs.FinSet as set;
ghost use Rattle.qs_ranges.specs.Numbers.{MAX_VARINT, run_starts};
ghost use Rattle.qs_send.specs.declared.piece.Piece.{Piece};
ghost use Rattle.qs_send.specs.declared.piece.Piece.TheVariants as pieces;
ghost use Rattle.qs_machine.specs.Credit.{all_sent};
ghost use Rattle.qs_send.specs.Lane.{sent_lane, bytes_of};
ghost use Rattle.qs_send.specs.Chunks.{frame_len};
ghost use Rattle.qs_wire.specs.Layout.{view, stream};
ghost use Rattle.qs_wire.specs.Grammar.{Fits, canonical};
ghost use Rattle.qs_machine.specs.Tables.{lookup};
ghost use Rattle.qs_machine.specs.Ends.{End};
ghost use Rattle.qs_machine.specs.Outgoing.{IsCarried, MayTell, sent_sum, on_lane, chunk_put};
ghost use Rattle.qs_machine.specs.Sums.{or_none};
ghost use Rattle.qs_conn.specs.Filling.{frame_of_item, HasSpare, HasOneSpare, LeavesRest, PutsItem, no_slot, InPacket, Begun, IsAckLeft, IsAckText, IsPassed, MayGo, stream_frame};
ghost use Rattle.qs_conn.specs.Tasks.{IsDoneAfter, IsFree, IsShort};

use crate::outbox::Outbox;
use qs_calls::Fill;
use qs_ranges::RangeSet;
use qs_send::{Chunk, Item};
use qs_wire::{Frame, StreamId, put, put_delayed_ack, put_stream};

/// Below it a search for data can stop: no STREAM frame with a length is shorter, with a byte each for type, stream and length (RFC 9000,
/// section 19.8).
pub(crate) const LEAST_STREAM_FRAME: usize = 3;

#[derive(Clone, Copy, Drop)]
pub(crate) struct Packet {
    pub len: usize,
    /// Something didn't fit. Then nothing more goes in, so that what is left keeps its order.
    pub is_full: bool,
}

/// How far a packet is while data goes in.
#[derive(Clone, Copy, Drop)]
pub(crate) struct Course {
    pub len: usize,
    pub quota: usize,
    /// Nothing more goes in: something didn't fit, or the cap of bytes held some back.
    pub is_full: bool,
}

/// What a packet is to hold: what is asked for of what is due, and whether an ACK, with its delay.
#[derive(Clone, Copy, Drop)]
pub(crate) struct Wish {
    pub want: Fill,
    pub delay: u64,
    pub ack_due: bool,
}

/// `None` if it doesn't fit; then nothing is written, so the packet stays a text.
#[tactic(auto, using(crate::proofs::Stages::behind_text))]
fn put_frame(frame: &Frame<'_>, out: &mut [u8], len: usize) -> Option<usize>
    requires fits { Fits (view frame.now) }
    requires within { len ≤ length out.old }
    ensures text { IfSome result (λ end. take end out.new ≡ take len out.old ++ canonical (view frame.now)) }
    ensures end { IfSome result (λ end. end ≡ len + length (canonical (view frame.now))) }
    ensures inside { IfSome result (λ end. end ≤ length out.old) }
    ensures rest { IfSome result (λ end. drop end out.new ≡ drop end out.old) }
    ensures full { IfNone result (length out.old - len < length (canonical (view frame.now))) }
    ensures unchanged { IfNone result (out.new ≡ out.old) }
    ensures room { length out.new ≡ length out.old }
{
    match put(frame, &mut out[len..]) {
        Ok(more) => Some(len + more),
        Err(_full) => None,
    }
}

/// The bytes of a ring come in two pieces, and aren't joined first.
#[inline(always)]
#[tactic(auto, using(crate::proofs::Stages::behind_text))]
fn put_data(
    id: StreamId,
    chunk: Chunk,
    front: &[u8],
    back: &[u8],
    out: &mut [u8],
    len: usize,
) -> Option<usize>
    requires fits { Fits (stream id chunk.offset chunk.fin (front.now ++ back.now)) }
    requires within { len ≤ length out.old }
    ensures text { IfSome result (λ end. take end out.new ≡ take len out.old ++ canonical (stream id chunk.offset chunk.fin (front.now ++ back.now))) }
    ensures end { IfSome result (λ end. end ≡ len + length (canonical (stream id chunk.offset chunk.fin (front.now ++ back.now)))) }
    ensures inside { IfSome result (λ end. end ≤ length out.old) }
    ensures rest { IfSome result (λ end. drop end out.new ≡ drop end out.old) }
    ensures full { IfNone result (length out.old - len < length (canonical (stream id chunk.offset chunk.fin (front.now ++ back.now)))) }
    ensures room { length out.new ≡ length out.old }
{
    match put_stream(id, chunk.offset, chunk.fin, front, back, &mut out[len..]) {
        Ok(more) => Some(len + more),
        Err(_full) => None,
    }
}

fn frame_of(item: &Item) -> Frame<'static>
    ensures { view result ≡ frame_of_item item.now }
{
    match *item {
        Item::MaxData { maximum } => Frame::MaxData { maximum },
        Item::MaxStreamData { stream, maximum } => Frame::MaxStreamData { stream, maximum },
        Item::MaxStreams { dir, count } => Frame::MaxStreams { dir, count },
        Item::ResetStream {
            stream,
            code,
            final_size,
        } => Frame::ResetStream {
            stream,
            code,
            final_size,
        },
        Item::StopSending { stream, code } => Frame::StopSending { stream, code },
        Item::DataBlocked { limit } => Frame::DataBlocked { limit },
        Item::StreamDataBlocked { stream, limit } => Frame::StreamDataBlocked { stream, limit },
        Item::StreamsBlocked { dir, count } => Frame::StreamsBlocked { dir, count },
    }
}

#[tactic(auto, using(crate::proofs::MadePackets::item_some))]
pub(crate) fn put_item(outbox: &mut Outbox, item: &Item, out: &mut [u8], packet: Packet) -> Packet
    requires within { packet.len ≤ length out.old }
    requires spare { HasOneSpare (length out.old) packet.len outbox.old.spare }
    requires may { MayTell outbox.old.sends item.now }
    requires new { IsCarried outbox.old.outstanding (pieces.Told item.now) → ⊥ }
    requires fits { Fits (frame_of_item item.now) }
    ensures puts { PutsItem item.now out.old packet.len outbox.old out.new result.len outbox.new result.is_full }
    ensures within { result.len ≤ length out.new }
    ensures spare { HasSpare (length out.old) packet.len outbox.old.spare → HasSpare (length out.new) result.len outbox.new.spare }
    ensures rest { LeavesRest packet.len out.old result.len out.new }
    ensures room { length out.new ≡ length out.old }
{
    match put_frame(&frame_of(item), out, packet.len) {
        Some(len) => {
            outbox.put_item(*item);
            Packet {
                len,
                is_full: false,
            }
        }
        None => Packet {
            len: packet.len,
            is_full: true,
        },
    }
}

pub(crate) fn full_at(len: usize, quota: usize) -> Course
    ensures { result ≡ record { len = len; quota = quota; is_full = true } }
{
    Course {
        len,
        quota,
        is_full: true,
    }
}

pub(crate) fn cut_to(chunk: Chunk, bytes: usize) -> Chunk
    ensures { result ≡ record { offset = chunk.offset; len = bytes; fin = false } }
{
    Chunk {
        offset: chunk.offset,
        len: bytes,
        fin: false,
    }
}

#[derive(Clone, Copy, Drop)]
pub(crate) struct Put {
    pub len: usize,
    pub is_done: bool,
    /// Then the chunk didn't bring the stream to its limit with more written.
    pub is_free: bool,
}

/// It is known to fit, since a half measured it.
pub(crate) fn put_chunk(
    outbox: &mut Outbox,
    stream: StreamId,
    chunk: Chunk,
    out: &mut [u8],
    len: usize,
) -> Put
    requires within { len ≤ length out.old }
    requires spare { HasOneSpare (length out.old) len outbox.old.spare }
    requires open { is_some (lookup outbox.old.sends stream) ≡ true }
    requires may { MayGo outbox.old stream chunk (length out.old - len) }
    requires small { sent_sum (on_lane stream (λ l. sent_lane l chunk) outbox.old).sends ≤ MAX_VARINT }
    ensures outbox { outbox.new ≡ chunk_put stream chunk outbox.old }
    ensures done { result.is_done ≡ true → IsDoneAfter outbox.old stream chunk }
    ensures free { result.is_free ≡ true → IsFree outbox.old stream chunk }
    ensures held { result.is_free ≡ false → IsShort outbox.old stream }
    ensures text { take result.len out.new ≡ take len out.old ++ canonical (stream_frame outbox.old stream chunk) }
    ensures count { length (bytes_of (or_none (lookup outbox.old.sends stream)) chunk) ≡ chunk.len }
    ensures end { result.len ≡ len + frame_len stream chunk.offset chunk.len }
    ensures within { result.len ≤ length out.new }
    ensures spare { HasSpare (length out.old) len outbox.old.spare → HasSpare (length out.new) result.len outbox.new.spare }
    ensures rest { LeavesRest len out.old result.len out.new }
    ensures room { length out.new ≡ length out.old }
{
    let (front, back) = outbox.bytes(stream, chunk);
    match put_data(stream, chunk, front, back, out, len) {
        Some(end) => {
            let sent = outbox.put_chunk(stream, chunk);
            Put {
                len: end,
                is_done: sent.is_done,
                is_free: sent.is_free,
            }
        }
        None => Put {
            len,
            is_done: false,
            is_free: false,
        },
    }
}

/// The highest ranges first and as many as fit: those left out were in earlier ACKs, or stand in later ones.
pub(crate) fn put_kept(done: &RangeSet, delay: u64, out: &mut [u8]) -> usize
    requires delay { delay < 2 ^ 62 }
    requires some { 0 < set.len (run_starts done.now) }
    requires few { set.len (run_starts done.now) ≤ 32 }
    requires space { 26 ≤ length out.old }
    ensures alone { (old : End) → old.done ≡ done.now → old.ack_due ≡ true → IsAckText delay (length out.old) old (take result out.new) }
    ensures within { result ≤ length out.new }
    ensures rest { drop result out.new ≡ drop result out.old }
    ensures room { length out.new ≡ length out.old }
{
    let mut pairs = [(0, 0); 32];
    let count = done.copy_pairs(&mut pairs);
    let highest = &mut pairs[..count];
    highest.reverse();
    match put_delayed_ack(highest, delay, out) {
        Ok((_count, len)) => len,
        Err(_full) => 0,
    }
}

pub(crate) fn put_ack_if(done: &RangeSet, wish: &Wish, out: &mut [u8]) -> usize
    requires delay { wish.now.delay < 2 ^ 62 }
    requires acks { wish.now.ack_due ≡ true → 0 < set.len (run_starts done.now) }
    requires few { set.len (run_starts done.now) ≤ 32 }
    requires space { wish.now.ack_due ≡ true → 26 ≤ length out.old }
    ensures begun { (old : End) (left : Bool) → wish.now.want.items ≡ true → old.done ≡ done.now → IsAckLeft wish.now.ack_due old.ack_due left → all_sent old ≤ old.known_data → ((x : Piece) → InPacket old x → ⊥)
        → Begun wish.now (length out.old) old (take result out.new) (record old { ack_due = left }) (IsPassed no_slot) }
    ensures none { wish.now.ack_due ≡ false → result ≡ 0 }
    ensures within { result ≤ length out.new }
    ensures rest { drop result out.new ≡ drop result out.old }
    ensures room { length out.new ≡ length out.old }
{
    if wish.ack_due {
        return put_kept(done, wish.delay, out);
    }
    0
}
