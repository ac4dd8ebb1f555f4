ghost use Rattle.std.specs.Prelude.{◌≡◌, ◌<◌, ◌≤◌, ℕ, length, is_some, true, None, Some, false, IfSome, IfNone, OnOk, OnErr};
ghost use Rattle.std.specs.FinMap as fmap;
ghost use Rattle.qs_send.specs.declared.piece.Item.{Item};
ghost use Rattle.qs_send.specs.declared.piece.Piece.TheVariants as pieces;
ghost use Rattle.qs_send.specs.AckPass.{Falls, IsNextNamed};
ghost use Rattle.qs_send.specs.Chunks.{WasSent};
ghost use Rattle.qs_send.specs.Lane.{Sending, after_reset_acked, after_acked, after_lost};
ghost use Rattle.qs_machine.specs.Acked.{with_item};
ghost use Rattle.qs_machine.specs.Tables.{lookup, updated};
ghost use Rattle.qs_machine.specs.Asking.{IsNextOutstanding};
ghost use Rattle.qs_machine.specs.Memory.{ChunkMayRunOut, NoteMayRunOut, PieceMayRunOut};
ghost use Rattle.qs_machine.specs.Sums.{or_no_sending, tables_of};
ghost use Rattle.qs_machine.specs.Outgoing.{lanes_of, first_piece, first_acked_out, first_lost_out, acked_at, IsIdle, IsSentPiece, NoneEmpty, halves_acked, items_acked, halves_lost};
ghost use Rattle.qs_conn.specs.Runs.{held_out};

use super::halves::half_of;
use super::{Outbox, halves};
use crate::send_lanes::SendLanes;
use crate::send_marks::Moves;
use crate::told::ToldItems;
use qs_ranges::NoMemory;
use qs_send::{AckPass, Chunk, Item, Piece, Records, SendState};
use qs_streams::{index_of, type_of};
use qs_wire::StreamId;

/// Of the outstanding ones, or of the lost ones, for which an ACK comes late.
#[derive(Clone, Copy)]
pub(crate) struct KeptPacket {
    pub late: bool,
    pub number: u64,
}

impl Outbox {
    /// Each outstanding packet has a piece. It does nothing: a caller learns the clause.
    #[tactic(auto, using(crate::proofs::Outboxes::idle_out))]
    pub(crate) fn learn_none_empty(&self)
        requires { IsIdle self.now }
        ensures { NoneEmpty self.now.outstanding }
    {
        let _next = self.next;
        self.records.learn_none_empty();
    }

    #[tactic(auto, using(crate::proofs::Outboxes::idle_out))]
    pub(crate) fn next_outstanding(&self, from: u64) -> Option<u64>
        requires { IsIdle self.now }
        ensures { IsNextOutstanding self.now.outstanding from result }
    {
        let _next = self.next;
        next_held(&self.records, from)
    }

    #[inline(always)]
    pub(crate) fn next_named(&self, late: bool, pass: &mut AckPass<'_>) -> Option<u64>
        requires { IsIdle self.now }
        ensures answer { Falls pass.old → IsNextNamed (held_out late self.now) pass.old result pass.new }
        ensures falls { Falls pass.old → Falls pass.new }
        ensures below { IfSome result (λ k. (pass.new.below ≡ k) × (k < pass.old.below)) }
    {
        let _next = self.next;
        if late {
            return pass.next_lost(&self.lost);
        }
        // Below the first record there is none, however many ranges follow: a peer's long ACK costs no more.
        if pass.below() <= self.records.base() {
            return None;
        }
        pass.next(&self.records)
    }

    pub(crate) fn keeps_lost(&self) -> bool
        ensures { result ≡ false → (n : ℕ) → fmap.get self.now.lost.pieces n ≡ None }
    {
        let _next = self.next;
        self.lost.learn_in_order();
        self.lost.len() > 0
    }

    /// No clause sees it: what is kept of empty slots is how records are kept.
    pub(crate) fn trim(&mut self)
        ensures { self.new ≡ self.old }
    {
        self.records.trim();
    }

    #[tactic(auto, using(crate::proofs::Outboxes::idle_out))]
    pub(crate) fn first(&self, number: u64) -> Option<Piece>
        requires { IsIdle self.now }
        ensures { result ≡ first_piece (fmap.get self.now.outstanding number) }
    {
        let _next = self.next;
        self.records.first(number)
    }

    #[inline(always)]
    pub(crate) fn first_kept(&self, packet: KeptPacket) -> Option<Piece>
        requires { IsIdle self.now }
        ensures { result ≡ first_piece (fmap.get (held_out packet.late self.now) packet.number) }
    {
        let _next = self.next;
        if packet.late {
            return self.lost.first(packet.number);
        }
        self.first(packet.number)
    }

    #[inline(always)]
    pub(crate) fn ack_kept(&mut self, packet: KeptPacket, piece: Piece) -> Result<(), NoMemory>
        requires idle { IsIdle self.old }
        requires first { first_piece (fmap.get (held_out packet.late self.old) packet.number) ≡ Some piece }
        ensures ok { OnOk result (self.new ≡ first_acked_out (acked_at packet.late packet.number piece) self.old) }
        ensures err { OnErr result (self.new ≡ self.old) }
        ensures asks { OnErr result (PieceMayRunOut self.old.sends self.old.acked piece) }
        ensures idle { IsIdle self.new }
    {
        let _next = self.next;
        piece_acked(&mut self.types, &mut self.told, &piece)?;
        if packet.late {
            self.lost.drop_first(packet.number);
            return Ok(());
        }
        self.records.drop_first(packet.number);
        Ok(())
    }

    pub(crate) fn lose_first(&mut self, number: u64, piece: Piece) -> Result<(), NoMemory>
        requires idle { IsIdle self.old }
        requires first { first_piece (fmap.get self.old.outstanding number) ≡ Some piece }
        ensures ok { OnOk result (self.new ≡ first_lost_out number piece self.old) }
        ensures err { OnErr result (self.new ≡ self.old) }
        ensures idle { IsIdle self.new }
    {
        let _next = self.next;
        self.lost.make_room(number)?;
        piece_lost(&mut self.types, &piece)?;
        self.lost.add(number, piece);
        self.records.drop_first(number);
        Ok(())
    }
}

// Steps that double lead past numbers that aren't held, and halves back to the least. Each look is a search downwards, at one word for
// 4,096 numbers of which none is held.
#[tactic(auto, using(crate::proofs::Asked::next_none, crate::proofs::Asked::next_start, crate::proofs::Asked::next_found, crate::proofs::Asked::next_above, crate::proofs::Asked::next_end))]
fn next_held(records: &Records, from: u64) -> Option<u64>
    ensures { IsNextOutstanding records.now.pieces from result }
{
    let mut top = records.greatest()?;
    let mut low = from.max(records.base());
    if top < low {
        return None;
    }
    let mut step = 1;
    while low < top {
        let end = low + step.min(top - low);
        match last_held(records, low, end) {
            Some(number) => {
                top = number;
                step = (number - low).div_ceil(2).max(1);
            }
            None => {
                step = (end - low).saturating_mul(2);
                low = end;
            }
        }
    }
    Some(top)
}

fn last_held(records: &Records, low: u64, end: u64) -> Option<u64>
    ensures found { IfSome result (λ n. (low ≤ n) × (n < end) × (fmap.contains_key records.now.pieces n ≡ true)) }
    ensures none { IfNone result ((k : ℕ) → low ≤ k → k < end → fmap.contains_key records.now.pieces k ≡ false) }
{
    let number = records.below(end)?;
    if number < low {
        return None;
    }
    Some(number)
}

fn piece_acked(
    types: &mut [SendLanes; 4],
    told: &mut ToldItems,
    piece: &Piece,
) -> Result<(), NoMemory>
    requires { IsSentPiece (tables_of types.old) piece.now }
    ensures len { length types.new ≡ 4 }
    ensures halves { OnOk result (tables_of types.new ≡ halves_acked piece.now (tables_of types.old)) }
    ensures items { OnOk result (told.new ≡ items_acked piece.now told.old) }
    ensures err { OnErr result (tables_of types.new ≡ tables_of types.old) }
    ensures same { OnErr result (told.new ≡ told.old) }
    ensures asks { OnErr result (PieceMayRunOut (lanes_of (tables_of types.old)) told.old piece.now) }
{
    match *piece {
        Piece::Data { stream, chunk } => chunk_acked(types, stream, chunk),
        Piece::Told(item) => item_acked(types, told, item),
    }
}

#[tactic(auto, using(crate::proofs::LaneEdits::over_acked))]
pub(super) fn chunk_acked(
    types: &mut [SendLanes; 4],
    stream: StreamId,
    chunk: Chunk,
) -> Result<(), NoMemory>
    requires there { is_some (lookup (tables_of types.old) stream) ≡ true }
    requires sent { WasSent (or_no_sending (lookup (tables_of types.old) stream)).lane chunk }
    ensures len { length types.new ≡ 4 }
    ensures ok { OnOk result (tables_of types.new ≡ updated (tables_of types.old) stream (λ s. after_acked s chunk) (lookup (tables_of types.old) stream)) }
    ensures err { OnErr result (tables_of types.new ≡ tables_of types.old) }
    ensures asks { OnErr result (ChunkMayRunOut (or_no_sending (lookup (tables_of types.old) stream)).lane chunk) }
{
    let (answer, ends) = halves::edit(types, stream, (Ok(()), false), Moves::Room, |half| {
        let answer = half.acked(chunk);
        (answer, half.end_acked())
    });
    if ends {
        let lanes = &mut types[type_of(stream)];
        lanes.settle(index_of(stream));
    }
    answer
}

// A RESET_STREAM is marked in its half, once: the half's state follows from it.
fn item_acked(types: &mut [SendLanes; 4], told: &mut ToldItems, item: Item) -> Result<(), NoMemory>
    requires { IsSentPiece (tables_of types.old) (pieces.Told item) }
    ensures len { length types.new ≡ 4 }
    ensures halves { OnOk result (tables_of types.new ≡ halves_acked (pieces.Told item) (tables_of types.old)) }
    ensures items { OnOk result (told.new ≡ with_item item told.old) }
    ensures err { OnErr result (tables_of types.new ≡ tables_of types.old) }
    ensures same { OnErr result (told.new ≡ told.old) }
    ensures asks { OnErr result (NoteMayRunOut told.old item) }
{
    if let Item::ResetStream { stream, .. } = item {
        reset_acked(types, stream);
        return Ok(());
    }
    told.note(item)
}

fn reset_acked(types: &mut [SendLanes; 4], stream: StreamId)
    requires { (s : Sending) × (lookup (tables_of types.old) stream ≡ Some s) × (is_some s.lane.was_reset ≡ true) }
    ensures len { length types.new ≡ 4 }
    ensures after { tables_of types.new ≡ updated (tables_of types.old) stream after_reset_acked (lookup (tables_of types.old) stream) }
{
    if matches!(half_of(types, stream).state(), SendState::ResetSent) {
        halves::edit(types, stream, (), Moves::All, |half| half.reset_acked());
    }
}

fn piece_lost(types: &mut [SendLanes; 4], piece: &Piece) -> Result<(), NoMemory>
    requires { IsSentPiece (tables_of types.old) piece.now }
    ensures len { length types.new ≡ 4 }
    ensures ok { OnOk result (tables_of types.new ≡ halves_lost piece.now (tables_of types.old)) }
    ensures err { OnErr result (tables_of types.new ≡ tables_of types.old) }
{
    match *piece {
        Piece::Data { stream, chunk } => chunk_lost(types, stream, chunk),
        Piece::Told(_) => Ok(()),
    }
}

#[tactic(auto, using(crate::proofs::LaneEdits::over_lost))]
fn chunk_lost(types: &mut [SendLanes; 4], stream: StreamId, chunk: Chunk) -> Result<(), NoMemory>
    requires there { is_some (lookup (tables_of types.old) stream) ≡ true }
    requires sent { WasSent (or_no_sending (lookup (tables_of types.old) stream)).lane chunk }
    ensures len { length types.new ≡ 4 }
    ensures ok { OnOk result (tables_of types.new ≡ updated (tables_of types.old) stream (λ s. after_lost s chunk) (lookup (tables_of types.old) stream)) }
    ensures err { OnErr result (tables_of types.new ≡ tables_of types.old) }
{
    halves::edit(types, stream, Ok(()), Moves::All, |half| half.lost(chunk))
}
