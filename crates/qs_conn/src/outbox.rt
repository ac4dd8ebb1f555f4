ghost use Rattle.std.specs.Prelude.{◌≡◌, ◌-◌, ◌≤◌, ◌^◌, ◌<◌, length, min, take, is_some, unwrap_or, true, OnOk, OnErr, IfOk, IfErr, IfSome, IfNone};
ghost use Rattle.qs_ranges.specs.Numbers.{MAX_VARINT};
ghost use Rattle.qs_send.specs.Lane.{Sending, new_lane, accepted, refusal, reset_refusal, answer_of, write_lane, finish_lane, reset_lane, stop_taken, allow_lane, buffer_lane};
ghost use Rattle.qs_send.specs.Sound.{IsLawful};
ghost use Rattle.qs_machine.specs.Tables.{table, with_table, lookup, open_to, total, type_of};
ghost use Rattle.qs_machine.specs.Asking.{kept_on};
ghost use Rattle.qs_machine.specs.Sums.{or_none};
ghost use Rattle.qs_conn.specs.Ended.{send_over};
ghost use Rattle.qs_conn.specs.Rooms.{IsBuffer, IsSumOf, lists};
ghost use Rattle.qs_conn.specs.Promised.{promised_on};
ghost use Rattle.qs_machine.specs.Credit.{unsent_on};
ghost use Rattle.qs_machine.specs.Outgoing.{AreApartIn, no_packets, with_sends, on_lane, sent_sum, HasSending, AreOfOpen};

use crate::held::sum_held;
use crate::piece_room::PieceRoom;
use crate::send_lanes::{SendLanes, Setting};
use crate::send_marks::{Moves, Task};
use crate::told::ToldItems;
use halves::{half_of, is_open};
use qs_ranges::NoMemory;
use qs_send::{LostRecords, Piece, Records, SendFault, SendState, SendView};
use qs_streams::{index_of, type_of};
use qs_wire::StreamId;
use std::alloc::Global;
use std::marker::Model;

mod acks;
mod halves;
mod making;
mod rows;
mod telling;

pub(crate) use acks::KeptPacket;
pub(crate) use rows::Row;

/// The sending halves, what packets carried, and what was acknowledged of them. Apart from the receiving halves: a packet in the making
/// changes these and reads those, a frame with data the other way round, and each borrows what it needs of the two.
#[derive(Drop)]
pub(crate) struct Outbox {
    // In the order of the two lowest bits of a stream's number.
    types: [SendLanes; 4],
    sent: u64,
    records: Records,
    // For late ACKs.
    lost: LostRecords,
    pending: Vec<Piece>,
    room: PieceRoom,
    // Taken before the packet is filled, so that a refusal changes nothing.
    spare: usize,
    next: u64,
    told: ToldItems,
}

// Clauses see the lanes. What of them is due stays inside: what was written and is neither acknowledged nor outstanding.
impl Model for Outbox {
    ghost use Rattle.std.specs.Prelude.{◌≡◌, ◌-◌, length, nat_lt, vec_len, vec_capacity};
    ghost use Rattle.qs_machine.specs.Outgoing.{Outgoing, IsOutbox, AreSent, lanes_of, with_pending};
    ghost use Rattle.qs_machine.specs.EndCodes.{outgoing_code};
    ghost use Rattle.qs_machine.specs.Sums.{tables_of};

    ghost Value = { Outgoing };

    ghost coded = { outgoing_code };

    ghost view = { λ o. record {
      sends = lanes_of (tables_of o.types);
      next = o.next;
      outstanding = with_pending o.records.pieces o.next o.pending.items;
      lost = record { pieces = o.lost.pieces; order = o.lost.order };
      acked = o.told;
      spare = o.spare;
    } };

    ghost invariant = { λ o. IsOutbox (tables_of o.types) o.records.pieces (nat_lt o.next o.records.room) o.pending.items o.next o.sent o.spare (vec_capacity o.pending - vec_len o.pending) × AreSent (tables_of o.types) o.lost.pieces × (length o.types ≡ 4) };
}

impl Outbox {
    pub(crate) fn new(alloc: Global) -> Self
        ensures { result ≡ no_packets }
    {
        Outbox {
            types: [
                SendLanes::new(alloc, 0),
                SendLanes::new(alloc, 1),
                SendLanes::new(alloc, 2),
                SendLanes::new(alloc, 3),
            ],
            sent: 0,
            records: Records::new(alloc),
            lost: LostRecords::new(alloc),
            pending: Vec::new(alloc),
            spare: 0,
            next: 0,
            told: ToldItems::new(alloc),
            room: PieceRoom::new(alloc),
        }
    }

    /// Each outstanding piece is of an open stream, and each lost one. It does nothing: a caller learns the clauses.
    pub(crate) fn learn_of_open(&self)
        ensures outstanding { AreOfOpen self.now.sends self.now.outstanding }
        ensures lost { AreOfOpen self.now.sends self.now.lost.pieces }
    {
        let _next = self.next;
    }

    /// Any two outstanding pieces are apart. It does nothing: a caller learns the clause.
    pub(crate) fn learn_apart(&self)
        ensures { AreApartIn self.now.outstanding }
    {
        let _next = self.next;
    }

    /// What holds of an open stream's half. It does nothing: a caller learns the clause.
    pub(crate) fn learn_sending(&self, stream: StreamId)
        requires { is_some (lookup self.now.sends stream) ≡ true }
        ensures { (s : Sending) × HasSending self.now stream s }
    {
        let _next = self.next;
        halves::learn_lawful(&self.types, stream);
    }

    #[tactic(auto, using(crate::proofs::Outboxes::open_now))]
    pub(crate) fn is_open(&self, stream: StreamId) -> bool
        ensures { result ≡ is_some (lookup self.now.sends stream) }
    {
        is_open(&self.types, stream)
    }

    /// A stream's sending half, where it is open.
    #[inline(always)]
    pub(crate) fn half(&self, stream: StreamId) -> Option<SendView<'_>>
        ensures found { IfSome result (λ s. lookup self.now.sends stream ≡ Some s.lane) }
        ensures lawful { IfSome result IsLawful }
        ensures sending { IfSome result (HasSending self.now stream) }
        ensures none { IfNone result (lookup self.now.sends stream ≡ None) }
    {
        if !is_open(&self.types, stream) {
            return None;
        }
        let half = half_of(&self.types, stream);
        half.learn_lawful();
        Some(half)
    }

    #[tactic(auto, using(qs_machine::proofs::TableEdits::table_at, crate::proofs::Outboxes::count_lanes))]
    pub(crate) fn count_of(&self, stream_type: usize) -> usize
        requires { stream_type < 4 }
        ensures value { result ≡ length (table self.now.sends stream_type) }
        ensures small { result ≤ 2 ^ 60 }
    {
        let lanes = &self.types[stream_type];
        lanes.len()
    }

    /// Whether a stream's sending half is in Data Recvd or Reset Recvd (RFC 9000, section 3.1).
    pub(crate) fn has_ended(&self, stream: StreamId) -> bool
        ensures { result ≡ send_over (lookup self.now.sends stream) }
    {
        let Some(half) = self.half(stream) else {
            return false;
        };
        matches!(half.state(), SendState::DataRecvd | SendState::ResetRecvd)
    }

    /// The number of the next packet.
    pub(crate) fn next(&self) -> u64
        ensures { result ≡ self.now.next }
    {
        self.next
    }

    #[inline(always)]
    pub(crate) fn sent_sum(&self) -> u64
        ensures value { result ≡ sent_sum self.now.sends }
        ensures small { result ≤ MAX_VARINT }
    {
        self.sent
    }

    pub(crate) fn unsent_sum(&self) -> u64
        ensures { result ≡ min (total unsent_on self.now.sends) (2 ^ 64 - 1) }
    {
        let bidi = self.types[0].promised() + self.types[1].promised();
        let uni = self.types[2].promised() + self.types[3].promised();
        let unsent = bidi + uni - self.sent as u128;
        if unsent > u64::MAX as u128 {
            return u64::MAX;
        }
        unsent as u64
    }

    pub(crate) fn kept_sum(&self) -> u64
        ensures { result ≡ min (total kept_on self.now.sends) (2 ^ 64 - 1) }
    {
        let bidi = self.types[0].kept() + self.types[1].kept();
        let uni = self.types[2].kept() + self.types[3].kept();
        let kept = bidi + uni;
        if kept > u64::MAX as u128 {
            return u64::MAX;
        }
        kept as u64
    }

    #[tactic(auto, using(crate::proofs::Tasks::of_lanes))]
    pub(crate) fn held(&self) -> u64
        ensures { IsSumOf (IsSumOf IsBuffer) (lists self.now.sends) result }
    {
        sum_held(&self.types)
    }

    pub(crate) fn open_to(
        &mut self,
        limit: u64,
        buffer: u32,
        stream: StreamId,
    ) -> Result<(), NoMemory>
        requires { limit ≤ MAX_VARINT }
        ensures ok { OnOk result (self.new ≡ with_sends (open_to self.old.sends stream (λ m. new_lane m limit buffer)) self.old) }
        ensures err { OnErr result (self.new ≡ self.old) }
    {
        let lanes = &mut self.types[type_of(stream)];
        lanes.open_to(type_of(stream) as u64, limit, buffer, index_of(stream) + 1)
    }

    /// An opening is undone: nothing of these streams was sent or is to be sent, and they keep nothing.
    pub(crate) fn close_to(&mut self, stream: StreamId, count: usize)
        requires none { AreOfOpen (with_table self.old.sends (type_of stream) (take count (table self.old.sends (type_of stream)))) self.old.outstanding }
        requires lost { AreOfOpen (with_table self.old.sends (type_of stream) (take count (table self.old.sends (type_of stream)))) self.old.lost.pieces }
        requires unsent { sent_sum (with_table self.old.sends (type_of stream) (take count (table self.old.sends (type_of stream)))) ≡ sent_sum self.old.sends }
        requires unwritten { total promised_on (with_table self.old.sends (type_of stream) (take count (table self.old.sends (type_of stream)))) ≡ total promised_on self.old.sends }
        requires unkept { total kept_on (with_table self.old.sends (type_of stream) (take count (table self.old.sends (type_of stream)))) ≡ total kept_on self.old.sends }
        ensures { self.new ≡ with_sends (with_table self.old.sends (type_of stream) (take count (table self.old.sends (type_of stream)))) self.old }
    {
        let lanes = &mut self.types[type_of(stream)];
        lanes.close_to(count);
    }

    #[tactic(auto, using(crate::proofs::Outboxes::half_there))]
    pub(crate) fn write(&mut self, stream: StreamId, bytes: &[u8]) -> Result<usize, SendFault>
        requires { is_some (lookup self.old.sends stream) ≡ true }
        ensures accepted { let lane = or_none (lookup self.old.sends stream) in
            IfOk result (λ n. (refusal lane ≡ None) × (n ≡ accepted lane (length bytes.now)) × (self.new ≡ on_lane stream (λ l. write_lane l (take n bytes.now)) self.old)) }
        ensures refused { let lane = or_none (lookup self.old.sends stream) in
            IfErr result (λ fault. (self.new ≡ self.old) × (fault ≡ unwrap_or (refusal lane) SendFault.NoMemory)) }
        ensures grows { result ≡ Err SendFault.NoMemory → 0 < accepted (or_none (lookup self.old.sends stream)) (length bytes.now) }
    {
        // A write to a full buffer costs no more than its marks.
        if !halves::has(&self.types, stream, Task::Writable) {
            match half_of(&self.types, stream).refusal() {
                Some(fault) => return Err(fault),
                None => return Ok(0),
            }
        }
        let types = &mut self.types;
        let over = Err(SendFault::Finished);
        halves::edit(types, stream, over, Moves::Room, |half| half.write(bytes))
    }

    #[tactic(auto, using(crate::proofs::Outboxes::half_there))]
    pub(crate) fn finish(&mut self, stream: StreamId) -> Result<(), SendFault>
        requires { is_some (lookup self.old.sends stream) ≡ true }
        ensures answer { result ≡ answer_of (refusal (or_none (lookup self.old.sends stream))) }
        ensures ok { OnOk result (self.new ≡ on_lane stream finish_lane self.old) }
        ensures err { OnErr result (self.new ≡ self.old) }
    {
        let types = &mut self.types;
        let over = Err(SendFault::Finished);
        halves::edit(types, stream, over, Moves::End, |half| half.finish())
    }

    #[tactic(auto, using(crate::proofs::Outboxes::half_there))]
    pub(crate) fn reset(&mut self, stream: StreamId, code: u64) -> Result<(), SendFault>
        requires open { is_some (lookup self.old.sends stream) ≡ true }
        requires fits { code ≤ MAX_VARINT }
        ensures answer { result ≡ answer_of (reset_refusal (or_none (lookup self.old.sends stream))) }
        ensures after { self.new ≡ on_lane stream (λ l. reset_lane l code) self.old }
        ensures err { OnErr result (self.new ≡ self.old) }
    {
        let types = &mut self.types;
        let over = Err(SendFault::Finished);
        halves::edit(types, stream, over, Moves::All, |half| half.reset(code))
    }

    #[tactic(auto, using(crate::proofs::Outboxes::half_there))]
    pub(crate) fn stopped(&mut self, stream: StreamId, code: u64, owner_answers: bool)
        requires open { is_some (lookup self.old.sends stream) ≡ true }
        requires fits { code ≤ MAX_VARINT }
        ensures { self.new ≡ on_lane stream (λ l. stop_taken owner_answers l code) self.old }
    {
        let types = &mut self.types;
        halves::edit(types, stream, (), Moves::All, |half| {
            if owner_answers {
                half.told_stop(code);
            } else {
                half.stopped(code);
            }
        });
    }

    pub(crate) fn set_buffer(&mut self, stream: StreamId, size: u32)
        requires { is_some (lookup self.old.sends stream) ≡ true }
        ensures { self.new ≡ on_lane stream (λ l. buffer_lane l size) self.old }
    {
        halves::set(&mut self.types, stream, Setting::Buffer(size));
    }

    pub(crate) fn allow(&mut self, stream: StreamId, limit: u64)
        requires open { is_some (lookup self.old.sends stream) ≡ true }
        requires limit { limit ≤ MAX_VARINT }
        ensures { self.new ≡ on_lane stream (λ l. allow_lane l limit) self.old }
    {
        halves::set(&mut self.types, stream, Setting::Limit(limit));
    }
}
