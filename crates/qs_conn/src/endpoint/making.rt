//! Packets are made, and numbers given to those of the transport.
ghost use Rattle.std.specs.Prelude.{◌≡◌, ◌≤◌, ◌<◌, ◌^◌, ◌↔◌, ℕ, IsTrue, List, [], length, if◌then◌else◌};
ghost use Rattle.qs_machine.specs.Ends.{End};
ghost use Rattle.qs_machine.specs.Due.{Sendable};
ghost use Rattle.qs_machine.specs.Making.{MakeBy, MakeStep, ClaimStep};
ghost use Rattle.qs_machine.specs.InOrder.{NothingStarves, NoItemStarves};
ghost use Rattle.qs_conn.specs.Written.{made_text, KeepsRest, filled_text, KeepsBehind};
ghost use Rattle.qs_machine.specs.Filling.{WantedGoes, FillBy, still_asked};
ghost use Rattle.qs_machine.specs.EndStep.{EndStep, Make, MakeAck, FillIn};

use super::Endpoint;
use crate::filling::{Course, Wish, put_kept};
use qs_calls::{Fill, Filled, MAX_VARINT, Made, MakeFault, NO_CAP};
use qs_wire::StreamId;

impl Endpoint {
    /// Makes the next packet: writes its payload at the slice's front. `None` if nothing that is due may go under the limits. What is due
    /// goes in as far as there is room, in the order ACK, control frames, data of streams, lower streams first (RFC 9000, sections 4, 13.2
    /// and 13.3). An ACK carries a delay of 0, which is true if packets are asked for as soon as an ACK is due.
    ///
    /// Refused, and then unchanged: `Closed`; `Exhausted` if the last packet number was used; `NoMemory`, only if something may go.
    pub fn make_packet(&mut self, out: &mut [u8]) -> Result<Option<Made>, MakeFault>
        requires least { 128 ≤ length out.old }
        requires most { length out.old ≤ 16383 }
        ensures step { MakeStep self.old 0 0 (length out.old) result (made_text result out.new) self.new }
        ensures order { NothingStarves self.old result self.new }
        ensures rest { KeepsRest result out.old out.new }
    {
        self.make_packet_from(Fill::all().first, 0, out)
    }

    /// Makes the next packet, as `make_packet` does, with two choices: data goes in from stream `first` on, lower streams first, and then
    /// from those below it; and an ACK carries this delay, in the unit that the peer was given (RFC 9000, sections 2.3, 18.2 and 19.3). A
    /// number instead of an order of all streams, which would need memory, faults and calls of its own.
    #[inline(always)]
    pub fn make_packet_from(
        &mut self,
        first: StreamId,
        delay: u64,
        out: &mut [u8],
    ) -> Result<Option<Made>, MakeFault>
        requires delay { delay < 2 ^ 62 }
        requires least { 128 ≤ length out.old }
        requires most { length out.old ≤ 16383 }
        ensures step { EndStep self.old (Make first delay (length out.old)) (result, made_text result out.new) self.new }
        ensures order { NothingStarves self.old result self.new }
        ensures rest { KeepsRest result out.old out.new }
    {
        if self.closed.is_some() {
            return Err(MakeFault::Closed);
        }
        let number = self.core.outbox.next();
        if number > MAX_VARINT {
            return Err(MakeFault::Exhausted);
        }
        let most = self.core.most_pieces(out.len());
        if let Err(_refused) = self.core.outbox.begin(most) {
            return self.without_memory();
        }
        let want = Fill {
            items: true,
            streams: true,
            first,
            alone: false,
            most_bytes: NO_CAP,
        };
        let wish = Wish {
            want,
            delay,
            ack_due: self.ack_due,
        };
        let len = self.core.fill(&self.done, &wish, out).len;
        if len == 0 {
            return Ok(None);
        }
        let is_ack_eliciting = self.core.outbox.has_piece();
        self.ack_due = false;
        self.core.outbox.commit();
        self.settle();
        Ok(Some(Made {
            number,
            len,
            is_ack_eliciting,
        }))
    }

    // Room is taken before it is known whether anything goes: if nothing does, memory wasn't needed.
    #[tactic(auto, using(std::proofs::lemmas::Bool::both_ways))]
    fn without_memory(&self) -> Result<Option<Made>, MakeFault>
        ensures by { (first delay room : ℕ) → MakeBy self.now first delay room result [] self.now }
        ensures order { (old new : End) → NothingStarves old result new }
        ensures text { (out : List ℕ) → made_text result out ≡ [] }
    {
        if self.may_make() {
            return Err(MakeFault::NoMemory);
        }
        Ok(None)
    }

    fn may_make(&self) -> bool
        ensures { IsTrue result ↔ Sendable self.now }
    {
        if self.ack_due {
            return true;
        }
        self.core.has_frame()
    }

    /// Makes the next packet, with an ACK alone: writes its payload at the slice's front. `None` if no ACK is due. It names the highest
    /// numbers kept, as many ranges as there is room for, and carries this delay, in the unit that the peer was given (RFC 9000, sections
    /// 13.2 and 19.3). Such a packet isn't in flight, so it may go when the congestion window is full (RFC 9002, sections 2 and 7); what
    /// else is due stays due. It takes no memory.
    ///
    /// Refused, and then unchanged: `Closed`; `Exhausted` if the last packet number was used.
    pub fn make_ack(&mut self, delay: u64, out: &mut [u8]) -> Result<Option<Made>, MakeFault>
        requires delay { delay < 2 ^ 62 }
        requires least { 128 ≤ length out.old }
        requires most { length out.old ≤ 16383 }
        ensures step { EndStep self.old (MakeAck delay (length out.old)) (result, made_text result out.new) self.new }
        ensures rest { KeepsRest result out.old out.new }
    {
        if self.closed.is_some() {
            return Err(MakeFault::Closed);
        }
        let number = self.core.outbox.next();
        if number > MAX_VARINT {
            return Err(MakeFault::Exhausted);
        }
        if !self.ack_due {
            return Ok(None);
        }
        let len = put_kept(&self.done, delay, out);
        self.ack_due = false;
        self.core.outbox.commit();
        self.settle();
        Ok(Some(Made {
            number,
            len,
            is_ack_eliciting: false,
        }))
    }

    /// Whether an ACK is due (RFC 9000, section 13.2).
    pub fn ack_is_due(&self) -> bool
        ensures { result ≡ self.now.ack_due }
    {
        self.ack_due
    }

    /// Uses up the next packet number for a packet that the transport makes itself, and returns it. Nothing is recorded under it: an ACK
    /// may name it, and as lost it is `NotOutstanding` (RFC 9000, sections 12.3 and 13.1). A closed endpoint gives numbers too, since the
    /// payload of its close goes in a packet. It takes no memory.
    ///
    /// Refused, and then unchanged: `Exhausted` if the last packet number was used.
    pub fn claim_number(&mut self) -> Result<u64, MakeFault>
        ensures { ClaimStep self.old result self.new }
    {
        let number = self.next_number();
        if number > MAX_VARINT {
            return Err(MakeFault::Exhausted);
        }
        self.core.outbox.commit();
        Ok(number)
    }

    /// The packet number that the next packet has, or the next claim: 2^62 if the last one was used (RFC 9000, section 12.3).
    pub fn next_number(&self) -> u64
        ensures { result ≡ self.now.next }
    {
        self.core.outbox.next()
    }

    /// Fills a slice with frames of what is due and asked for, for a packet of a stack with packets of its own: never an ACK, which the
    /// stack writes. Control frames come first, since the peer may wait for credit, then data of streams in turn (RFC 9000, sections 2.3,
    /// 4, 12.4 and 13.3). The token that it returns names them later, acknowledged or lost. `None` if nothing that is asked for may go, or
    /// the room is too small: with `MIN_FILL` bytes it never is. The slice may have any length, and only what is filled changes.
    ///
    /// Refused, and then unchanged: `Closed`; `Exhausted` if the last number was used; `NoMemory`, only if something that is asked for may
    /// go.
    pub fn fill(&mut self, out: &mut [u8], want: &Fill) -> Result<Option<Filled>, MakeFault>
        ensures step { EndStep self.old (FillIn want.now (length out.old)) (result, filled_text result out.new) self.new }
        ensures order { NoItemStarves want.now self.old result self.new }
        ensures rest { KeepsBehind result out.old out.new }
    {
        if self.closed.is_some() {
            return Err(MakeFault::Closed);
        }
        let number = self.core.outbox.next();
        let token = self.token_of(number);
        if number > MAX_VARINT {
            return Err(MakeFault::Exhausted);
        }
        let most = self.core.most_pieces(out.len());
        if let Err(_refused) = self.core.outbox.begin(most) {
            return self.unfilled(want);
        }
        let wish = Wish {
            want: *want,
            delay: 0,
            ack_due: false,
        };
        let packet = self.core.fill(&self.done, &wish, out);
        let len = packet.len;
        if len == 0 {
            return Ok(None);
        }
        let last_stream = self.core.outbox.last_stream();
        self.core.outbox.commit();
        self.settle();
        let more = self.has_more(want, may_follow(packet), &last_stream);
        Ok(Some(Filled {
            token,
            len,
            last_stream,
            more,
        }))
    }

    // Room for pieces is taken before anything is put, and may be refused when nothing would have gone: then memory wasn't needed.
    fn unfilled(&self, want: &Fill) -> Result<Option<Filled>, MakeFault>
        ensures by { (room : ℕ) → FillBy self.now want.now room result [] self.now }
        ensures order { (old new : End) → NoItemStarves want.now old result new }
        ensures text { (out : List ℕ) → filled_text result out ≡ [] }
    {
        // (the cap of bytes holds nothing back that memory does)
        if self.has_more(want, 1, &None) {
            return Err(MakeFault::NoMemory);
        }
        Ok(None)
    }

    // The stream that sent last is asked first, since it mostly has more.
    fn has_more(&self, want: &Fill, left: usize, last: &Option<StreamId>) -> bool
        ensures { IsTrue result ↔ WantedGoes (still_asked want.now left) self.now }
    {
        self.core.has_wanted(want, left, last)
    }
}

// How many bytes of streams may follow a packet: none, where nothing held bytes back that may go.
#[inline(always)]
fn may_follow(packet: Course) -> usize
    ensures { result ≡ (if packet.is_full then packet.quota else 0) }
{
    if packet.is_full { packet.quota } else { 0 }
}
