//! What the application does with its streams.
ghost use Rattle.std.specs.Prelude.{◌≡◌, ◌<◌, ◌^◌, ◌++◌, List, length, take, drop, ℕ, is_some, true};
ghost use Rattle.qs_machine.specs.Tables.{lookup};
ghost use Rattle.qs_recv.specs.Lane.{read_answer, after_read};
ghost use Rattle.qs_machine.specs.Ends.{on_recv, send_lane};
ghost use Rattle.qs_machine.specs.Sums.{or_none};
ghost use Rattle.qs_conn.specs.Sending.{offered, let_go};
ghost use Rattle.qs_recv.specs.declared.credit.Share.TheVariants as shares;
ghost use Rattle.qs_machine.specs.Verdicts.{or_new};
ghost use Rattle.qs_machine.specs.Owner.{WriteStep, FinishStep, ResetStep, StopStep, ReadStep, ConsumeStep, AreTaken, is_read_no_more, no_half, use_fault};
ghost use Rattle.qs_machine.specs.Reports.{lane_report, own_closing};
ghost use Rattle.qs_machine.specs.EndStep.{EndStep, Consume, StopAndDiscard, Report};
ghost use Rattle.qs_conn.specs.Layers.{no_sender, no_receiver};

use super::Endpoint;
use qs_calls::{Closed, Closing, Consumed, LaneReport, SendReport, UseFault};
use qs_recv::Read;
use qs_send::SendFault;
use qs_streams::Task;
use qs_wire::StreamId;

impl Endpoint {
    /// Accepts the front of the bytes for sending, as many as there is room for, and returns how many. If writes keep within credit
    /// ([`Tuning::within_credit`]), no more than may be sent at once under the stream's limit and the connection's, beside all that waits
    /// to be sent (RFC 9000, section 4.1). Then no byte waits for credit, so no STREAM_DATA_BLOCKED or DATA_BLOCKED is due: that the write
    /// was cut short is the sign. If all streams together are bounded ([`Tuning::send_window`]), no more than that leaves beside all that
    /// they keep until it is acknowledged (section 13.3), and no memory is asked for if nothing is left. Constant time beside the bytes.
    ///
    /// Refused, and then unchanged: `Closed`; `NoSuchStream` or `WrongDirection` if the stream has no sending half; `WasReset`; `Finished`;
    /// and `NoMemory`.
    #[tactic(auto, using(crate::proofs::Hearing::write_within, crate::proofs::AckRuns::idle_with))]
    pub fn write(&mut self, stream: StreamId, bytes: &[u8]) -> Result<usize, UseFault>
        ensures { WriteStep self.old stream bytes.now result self.new }
    {
        if let Some(fault) = self.no_sender(stream) {
            return Err(fault);
        }
        let bytes = self.offered(stream, bytes);
        match self.core.outbox.write(stream, bytes) {
            Ok(count) => {
                self.core.note_written(stream, count);
                self.settle();
                Ok(count)
            }
            Err(fault) => Err(use_fault(fault)),
        }
    }

    // Cut before the half sees them, so that a half knows no credit but its own.
    #[tactic(auto, using(crate::proofs::Hearing::front_none, crate::proofs::Hearing::front_some))]
    fn offered<'a>(&self, stream: StreamId, bytes: &'a [u8]) -> &'a [u8]
        ensures { result.now ≡ offered self.now (or_none (send_lane self.now stream)) bytes.now }
    {
        let bytes = self.let_go(stream, bytes);
        match self.window_left() {
            Some(left) => front(bytes, left),
            None => bytes,
        }
    }

    // What waits on other streams uses up credit first.
    #[tactic(auto, using(crate::proofs::Hearing::let_go_all, crate::proofs::Hearing::let_go_cut))]
    fn let_go<'a>(&self, stream: StreamId, bytes: &'a [u8]) -> &'a [u8]
        ensures { result.now ≡ let_go self.now (or_none (send_lane self.now stream)) bytes.now }
    {
        if !self.core.limits.tuning.within_credit {
            return bytes;
        }
        front(bytes, self.credit_for(stream))
    }

    /// Ends the stream after the bytes written so far.
    ///
    /// Refused as `write` is, but never for want of memory.
    #[tactic(auto, using(crate::proofs::AckRuns::idle_with))]
    pub fn finish(&mut self, stream: StreamId) -> Result<(), UseFault>
        ensures { FinishStep self.old stream result self.new }
    {
        if let Some(fault) = self.no_sender(stream) {
            return Err(fault);
        }
        self.core.outbox.learn_sending(stream);
        match self.core.outbox.finish(stream) {
            Ok(()) => {
                self.settle();
                Ok(())
            }
            Err(fault) => Err(use_fault(fault)),
        }
    }

    /// Resets the stream's sending half with the application's code, below 2^62 (RFC 9000, sections 3.1 and 20.2).
    ///
    /// Refused, and then unchanged: as `write` is; `Finished` only once all was acknowledged.
    #[tactic(auto, using(crate::proofs::AckRuns::idle_with))]
    pub fn reset(&mut self, stream: StreamId, code: u64) -> Result<(), UseFault>
        requires { code < 2 ^ 62 }
        ensures { ResetStep self.old stream code result self.new }
    {
        if let Some(fault) = self.no_sender(stream) {
            return Err(fault);
        }
        match self.core.outbox.reset(stream, code) {
            Ok(()) => {
                self.core.due.set(Task::ResetDue, stream, true);
                self.settle();
                Ok(())
            }
            Err(fault) => Err(use_fault(fault)),
        }
    }

    /// Reads the next bytes, or says how the stream stands (RFC 9000, section 2.2).
    ///
    /// Refused, and then unchanged: `Closed`, unless the tuning has `reads_when_closed`: then what came before is read on; `NoSuchStream`
    /// or `WrongDirection` if the stream has no receiving half.
    #[tactic(auto, using(crate::proofs::Hearing::read_ok, crate::proofs::Hearing::read_none))]
    pub fn read(&mut self, stream: StreamId, into: &mut [u8]) -> Result<Read, UseFault>
        ensures { (bytes : List ℕ) × (into.new ≡ bytes ++ drop (length bytes) into.old) × ReadStep self.old stream (length into.old) result bytes self.new }
    {
        if let Some(fault) = self.no_reader(stream) {
            return Err(fault);
        }
        // A read of a stream without news costs no more than its marks, so an application may go through all of them.
        if !self.core.recvs.may_tell(stream) {
            self.settle();
            return Ok(Read::Wait);
        }
        let was = self.core.is_over(stream);
        let answer = self.core.recvs.read(stream, into);
        let is = self.core.is_over(stream);
        self.core.ended.recount(stream, was, is);
        self.is_settled = false;
        self.settle();
        Ok(answer)
    }

    /// Consumes the next bytes, at most so many, as `read` into a slice of that size does, and copies none. If that reaches the final size
    /// the end counts as read, so that no further call is needed (RFC 9000, sections 2.2, 3.2 and 4.5).
    ///
    /// Returns what such a read would, and whether the end was reached.
    ///
    /// Refused as `read` is.
    ///
    /// ```text
    /// let consumed = end.consume(stream, 100)?;
    /// ```
    #[tactic(auto, using(crate::proofs::Hearing::consume_ok, crate::proofs::Hearing::consume_refused, crate::proofs::Hearing::receiver_open, crate::proofs::Hearing::receiver_open_still))]
    pub fn consume(&mut self, stream: StreamId, most: usize) -> Result<Consumed, UseFault>
        ensures step { ConsumeStep self.old stream most result self.new }
        ensures call { (bytes : List ℕ) → AreTaken self.old stream most result bytes → EndStep self.old (Consume stream most) (result, bytes) self.new }
    {
        if let Some(fault) = self.no_reader(stream) {
            return Err(fault);
        }
        let read = self.skip(stream, most);
        let next = self.skip(stream, 0);
        self.settle();
        Ok(Consumed {
            read,
            at_end: matches!(next, Read::End),
        })
    }

    // Limits move once, behind this and the end.
    fn skip(&mut self, stream: StreamId, most: usize) -> Read
        requires { is_some (lookup self.old.recvs stream) ≡ true }
        ensures answer { result ≡ read_answer (or_new (lookup self.old.recvs stream) 0 shares.Half) most }
        ensures after { self.new ≡ on_recv stream (λ l. after_read l most) self.old }
    {
        let was = self.core.is_over(stream);
        let answer = self.core.recvs.skip(stream, most);
        let is = self.core.is_over(stream);
        self.core.ended.recount(stream, was, is);
        self.is_settled = false;
        answer
    }

    /// Discards the stream's bytes, those stored and those still to come (RFC 9000, section 3.5). The first code stays; the application's
    /// codes lie below 2^62.
    ///
    /// Refused, and then unchanged: `Closed`; `NoSuchStream` or `WrongDirection` if the stream has no receiving half.
    #[tactic(auto, using(crate::proofs::Hearing::stop_ok))]
    pub fn stop(&mut self, stream: StreamId, code: u64) -> Result<(), UseFault>
        requires { code < 2 ^ 62 }
        ensures { StopStep self.old stream code result self.new }
    {
        if let Some(fault) = self.no_receiver(self.closed.is_some(), stream) {
            return Err(fault);
        }
        let was = self.core.recvs.stop_to_tell(stream);
        self.core.recvs.stop(stream, code);
        self.core.note_stop(stream, was);
        self.is_settled = false;
        self.settle();
        Ok(())
    }

    /// As [`stop`](Endpoint::stop), for an application that won't hear of the stream again: it counts as read to its end as soon as its
    /// last byte or a reset arrives, so the peer is granted another stream without another read (RFC 9000, sections 3.2, 3.5 and 4.6). The
    /// first code stays; the application's codes lie below 2^62.
    ///
    /// Refused, and then unchanged: as `stop` is.
    ///
    /// ```text
    /// end.stop_and_discard(stream, 7)?;
    /// ```
    #[tactic(auto, using(crate::proofs::Hearing::forget_ok))]
    pub fn stop_and_discard(&mut self, stream: StreamId, code: u64) -> Result<(), UseFault>
        requires { code < 2 ^ 62 }
        ensures { EndStep self.old (StopAndDiscard stream code) result self.new }
    {
        if let Some(fault) = self.no_receiver(self.closed.is_some(), stream) {
            return Err(fault);
        }
        let was = self.core.is_over(stream);
        let told = self.core.recvs.stop_to_tell(stream);
        self.core.recvs.stop_and_discard(stream, code);
        let is = self.core.is_over(stream);
        self.core.ended.recount(stream, was, is);
        self.core.note_stop(stream, told);
        self.is_settled = false;
        self.settle();
        Ok(())
    }

    /// The states of the stream's halves at this endpoint, `None` if it isn't open.
    pub fn lane_report(&self, stream: StreamId) -> Option<LaneReport>
        ensures report { result ≡ lane_report self.now stream }
        ensures call { EndStep self.now (Report stream) result self.now }
    {
        let send = match self.core.outbox.half(stream) {
            Some(half) => Some(SendReport {
                state: half.state(),
                written: half.written(),
                final_size: half.final_size(),
                reset_code: half.reset_code(),
                limit: half.limit(),
            }),
            None => None,
        };
        match (send, self.core.recvs.report(stream)) {
            (None, None) => None,
            (send, recv) => Some(LaneReport { send, recv }),
        }
    }

    /// Why this endpoint closed, `None` if it is open or the peer closed (RFC 9000, section 10.2).
    pub fn closing(&self) -> Option<Closing>
        ensures { result ≡ own_closing self.now.closed }
    {
        match self.closed {
            Some(Closed::ByUs(closing)) => Some(closing),
            _ => None,
        }
    }

    fn no_sender(&self, stream: StreamId) -> Option<UseFault>
        ensures { result ≡ no_sender self.now stream }
    {
        if self.closed.is_some() {
            Some(UseFault::Closed)
        } else if self.core.outbox.is_open(stream) {
            None
        } else {
            Some(no_half(self.core.recvs.is_open(stream)))
        }
    }

    pub(super) fn no_reader(&self, stream: StreamId) -> Option<UseFault>
        ensures { result ≡ no_receiver (is_read_no_more self.now) self.now stream }
    {
        self.no_receiver(self.is_read_no_more(), stream)
    }

    fn no_receiver(&self, is_shut: bool, stream: StreamId) -> Option<UseFault>
        ensures { result ≡ no_receiver is_shut self.now stream }
    {
        if is_shut {
            Some(UseFault::Closed)
        } else if self.core.recvs.is_open(stream) {
            None
        } else {
            Some(no_half(self.core.outbox.is_open(stream)))
        }
    }

    pub(super) fn is_read_no_more(&self) -> bool
        ensures { result ≡ is_read_no_more self.now }
    {
        self.closed.is_some() && !self.core.limits.tuning.reads_when_closed
    }
}

fn no_half(other: bool) -> UseFault
    ensures { result ≡ no_half other }
{
    if other {
        UseFault::WrongDirection
    } else {
        UseFault::NoSuchStream
    }
}

fn use_fault(fault: SendFault) -> UseFault
    ensures { result ≡ use_fault fault }
{
    match fault {
        SendFault::Finished => UseFault::Finished,
        SendFault::WasReset => UseFault::WasReset,
        SendFault::NoMemory => UseFault::NoMemory,
    }
}

#[tactic(auto, using(crate::proofs::Hearing::front_whole))]
fn front(bytes: &[u8], most: u64) -> &[u8]
    ensures { result.now ≡ take most bytes.now }
{
    if most < bytes.len() as u64 {
        &bytes[..most as usize]
    } else {
        bytes
    }
}
