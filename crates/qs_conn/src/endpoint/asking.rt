//! What the application and the transport may ask of an endpoint. Nothing changes.
ghost use Rattle.std.specs.Prelude.{◌≡◌, ◌↔◌, IsTrue, ◌-◌, ◌^◌, min};
ghost use Rattle.qs_machine.specs.Credit.{all_taken, credit_for, window_left};
ghost use Rattle.qs_machine.specs.Asking.{GoesBesideAck, all_noted, taken, peer_closing, noted_closing, streams_left, open_left, is_blocked, credit_left, room, unsent, acked_below, stopped_with, IsNextOutstanding, all_unsent, all_kept};
ghost use Rattle.qs_machine.specs.EndStep.{EndStep, Peek as ToPeek};
ghost use Rattle.qs_machine.specs.Ends.{send_lane};
ghost use Rattle.qs_machine.specs.Sums.{or_none};
ghost use Rattle.qs_conn.specs.Sending.{credit_room};

use super::Endpoint;
use qs_calls::{Closed, MAX_VARINT, NotedClose, UseFault};
use qs_recv::Peek;
use qs_streams::Place;
use qs_wire::{Dir, StreamId};

impl Endpoint {
    /// Whether a packet would carry more than an ACK: a control frame is pending, or data or a FIN that no limit holds back (RFC 9000,
    /// sections 4.1 and 13.3). A closed endpoint sends nothing (section 10.2).
    pub fn is_sendable(&self) -> bool
        ensures { IsTrue result ↔ GoesBesideAck self.now }
    {
        if self.closed.is_some() {
            return false;
        }
        self.core.has_frame()
    }

    /// The code with which the peer closed by a frame that was received here, `None` if it didn't (RFC 9000, section 10.2).
    pub fn peer_closed(&self) -> Option<u64>
        ensures { result ≡ peer_closing self.now.closed }
    {
        match self.closed {
            Some(Closed::ByPeer(code)) => Some(code),
            _ => None,
        }
    }

    /// The close that `note_closed` noted, `None` if it closed in another way or is open (RFC 9000, section 10.2).
    pub fn noted_close(&self) -> Option<NotedClose>
        ensures { result ≡ noted_closing self.now.closed }
    {
        match self.closed {
            Some(Closed::Noted(close)) => Some(close),
            _ => None,
        }
    }

    /// Into how many runs the received offsets fall, on all streams whose end wasn't read and that weren't reset: one for each with some,
    /// and one more for each gap. Each run beyond two of a stream takes memory, also on a stream that was stopped, where no credit bounds
    /// them: the transport closes a connection whose number gets too great. Constant time.
    pub fn noted(&self) -> u64
        ensures { result ≡ all_noted self.now }
    {
        let _granted = self.core.limits.granted;
        self.core.recvs.tally().noted
    }

    /// Shows what a read would return, and changes nothing: the next bytes of a stream stay where they are, for `consume` to take (RFC
    /// 9000, section 2.2). They come in two pieces of memory, of which the second may be empty: all of them, up to the first that is
    /// missing.
    ///
    /// Refused as `read` is.
    #[tactic(auto, using(crate::proofs::Hearing::peek_refused, crate::proofs::Hearing::receiver_open))]
    pub fn peek(&self, stream: StreamId) -> Result<Peek<'_>, UseFault>
        ensures call { EndStep self.now (ToPeek stream) result self.now }
    {
        if let Some(fault) = self.no_reader(stream) {
            return Err(fault);
        }
        let half = self.core.recvs.half(Place::of(stream)).unwrap();
        Ok(half.peek())
    }

    /// How many bytes of a stream count as consumed, which its limit follows: those that were read, or all that arrived once it was
    /// stopped, or its final size once the peer reset it (RFC 9000, sections 3.5 and 4.2). `None` if the stream has no receiving half here.
    /// It shows how fast a window is used up. Constant time.
    pub fn taken(&self, stream: StreamId) -> Option<u64>
        ensures { result ≡ taken self.now stream }
    {
        let half = self.core.recvs.half(Place::of(stream))?;
        Some(half.sizes().taken)
    }

    /// How many bytes of all streams count as consumed: the sum of `taken` over all, which the connection's limit follows (RFC 9000,
    /// section 4.2). Constant time.
    pub fn taken_sum(&self) -> u64
        ensures { result ≡ all_taken self.now }
    {
        let _granted = self.core.limits.granted;
        self.core.recvs.tally().taken
    }

    /// How many streams of a direction the peer may still open in the life of the connection. If none is left, a new connection is needed
    /// (RFC 9000, section 4.6). `granted_streams` is how far it may go now.
    pub fn streams_left(&self, dir: Dir) -> u64
        ensures { result ≡ streams_left self.now dir }
    {
        let lifetime = match dir {
            Dir::Bidi => self.core.limits.settings.lifetime_bidi,
            Dir::Uni => self.core.limits.settings.lifetime_uni,
        };
        lifetime.saturating_sub(self.opened_count(self.peer_type(dir)) as u64)
    }

    /// How many streams of a direction `open` may open by the peer's latest count (RFC 9000, section 4.6). What the peer permits later
    /// can't be known here.
    pub fn open_left(&self, dir: Dir) -> u64
        ensures { result ≡ open_left self.now dir }
    {
        let known = self.known_count(dir);
        known.saturating_sub(self.opened_count(self.own_type(dir)) as u64)
    }

    /// Whether unsent bytes of the stream wait for credit alone: its limit is reached, or the connection's is (RFC 9000, section 4.1). Lost
    /// bytes need no credit, since they were counted when first sent. At a closed endpoint nothing waits: it sends nothing more (section
    /// 10.2).
    pub fn is_blocked(&self, stream: StreamId) -> bool
        ensures { result ≡ is_blocked self.now stream }
    {
        let Some(half) = self.core.outbox.half(stream) else {
            return false;
        };
        if let Some(_code) = half.reset_code() {
            return false;
        }
        if half.sent_end() >= half.written() {
            return false;
        }
        let is_used_up = self.core.outbox.sent_sum() == self.core.limits.known_data;
        self.closed.is_none() && (half.sent_end() == half.limit() || is_used_up)
    }

    /// How many new bytes the peer's limit on the connection permits (RFC 9000, section 4.1). Lost bytes need no credit, and written ones
    /// use it up as they are sent: see `unsent`.
    pub fn credit_left(&self) -> u64
        ensures { result ≡ credit_left self.now }
    {
        let known = self.core.limits.known_data;
        known.saturating_sub(self.core.outbox.sent_sum())
    }

    /// How many bytes `write` accepts of a stream now, however many are offered: 0 if it would be refused, or if the stream has no sending
    /// half here (RFC 9000, sections 2.2 and 2.4). Credit doesn't count, since bytes beyond it wait, unless writes keep within credit
    /// ([`Tuning::within_credit`], section 4.1); what all streams keep counts if that is bounded ([`Tuning::send_window`]). Constant time.
    #[tactic(auto, using(crate::proofs::Hearing::room_left, crate::proofs::Hearing::room_free))]
    pub fn room(&self, stream: StreamId) -> u64
        ensures { result ≡ room self.now stream }
    {
        if self.closed.is_some() {
            return 0;
        }
        let room = self.credit_room(stream);
        match self.window_left() {
            Some(left) => room.min(left),
            None => room,
        }
    }

    // The lesser of both, so that `room` never promises what `write` refuses.
    fn credit_room(&self, stream: StreamId) -> u64
        ensures { result ≡ credit_room self.now (send_lane self.now stream) }
    {
        let Some(half) = self.core.outbox.half(stream) else {
            return 0;
        };
        if half.refusal().is_some() {
            return 0;
        }
        let room = (half.room() as u64).min(MAX_VARINT - half.written());
        if self.core.limits.tuning.within_credit {
            return room.min(self.credit_for(stream));
        }
        room
    }

    // None without a bound, so that the usual endpoint compares nothing.
    #[tactic(auto, using(crate::proofs::Hearing::left_of))]
    pub(super) fn window_left(&self) -> Option<u64>
        ensures { result ≡ window_left self.now }
    {
        match self.core.limits.tuning.send_window {
            Some(window) => Some(window.saturating_sub(self.kept_sum())),
            None => None,
        }
    }

    /// How many bytes written to all streams weren't sent yet: the sum of `unsent` over all (RFC 9000, sections 2.2 and 3.1). Beyond the
    /// greatest u64 it stays at that. Constant time.
    pub fn unsent_sum(&self) -> u64
        ensures { result ≡ min (all_unsent self.now) (2 ^ 64 - 1) }
    {
        self.core.outbox.unsent_sum()
    }

    /// How many bytes of all streams are kept until they are acknowledged (RFC 9000, section 13.3): of each all from its lowest
    /// unacknowledged offset on, and none after a reset. Beyond the greatest u64 it stays at that. Constant time.
    pub fn kept_sum(&self) -> u64
        ensures { result ≡ min (all_kept self.now) (2 ^ 64 - 1) }
    {
        self.core.outbox.kept_sum()
    }

    // What waits on other streams counts, since it will use up credit first.
    pub(super) fn credit_for(&self, stream: StreamId) -> u64
        ensures { result ≡ credit_for self.now (or_none (send_lane self.now stream)) }
    {
        let all = self.credit_left().saturating_sub(self.unsent_sum());
        let Some(half) = self.core.outbox.half(stream) else {
            return 0;
        };
        all.min(half.limit().saturating_sub(half.written()))
    }

    /// How many bytes of a stream weren't sent yet: 0 after a reset, since none will be (RFC 9000, sections 2.2 and 3.1), and if the stream
    /// has no sending half here.
    pub fn unsent(&self, stream: StreamId) -> u64
        ensures { result ≡ unsent self.now stream }
    {
        let Some(half) = self.core.outbox.half(stream) else {
            return 0;
        };
        if let Some(_code) = half.reset_code() {
            return 0;
        }
        half.written().saturating_sub(half.sent_end())
    }

    /// The lowest offset of a stream that isn't acknowledged, in bytes from its start: all below it are (RFC 9000, section 13.3). If it is
    /// the count written, every byte is. `None` if the stream has no sending half here.
    pub fn acked_below(&self, stream: StreamId) -> Option<u64>
        ensures { result ≡ acked_below self.now stream }
    {
        let half = self.core.outbox.half(stream)?;
        Some(half.unacked_from())
    }

    /// The code of the peer's first STOP_SENDING that came while the sending half could be reset; `None` if there was none. It stays,
    /// whatever becomes of the half, for an application that comes late (RFC 9000, section 3.5).
    pub fn stopped_with(&self, stream: StreamId) -> Option<u64>
        ensures { result ≡ stopped_with self.now stream }
    {
        let half = self.core.outbox.half(stream)?;
        half.stop_code()
    }

    /// The lowest number from one on of an outstanding packet: it was made, asks for an ACK, and is neither acknowledged nor declared lost
    /// (RFC 9000, section 13.3). It looks at each number from the lowest outstanding one on.
    pub fn next_outstanding(&self, from: u64) -> Option<u64>
        ensures { IsNextOutstanding self.now.outstanding from result }
    {
        self.core.outbox.next_outstanding(from)
    }
}
