//! How frames are judged. Nothing changes here, so a frame that offends leaves everything as it was.
ghost use Rattle.std.specs.Prelude.{◌≡◌, ◌+◌, ◌≤◌, ◌<◌, true, length, None, Ok, IfOk};
ghost use Rattle.qs_ranges.specs.Numbers.{MAX_VARINT};
ghost use Rattle.qs_recv.specs.Lane.{check_stream, check_reset};
ghost use Rattle.qs_recv.specs.declared.half.Highest.{Highest};
ghost use Rattle.qs_machine.specs.Ends.{recv_lane};
ghost use Rattle.qs_machine.specs.Credit.{grant};
ghost use Rattle.qs_machine.specs.Seen.{Stream};
ghost use Rattle.qs_machine.specs.Verdicts.{or_else, ack_fault, state_fault_in, state_fault_out, credit_fault, bytes_fault, fault_code, lane_of, verdict};
ghost use Rattle.qs_conn.specs.Seen.{view_seen, SeenFits, Judges};

use super::{Endpoint, is_uni, role_bit};
use crate::recv_lanes::Half;
use crate::seen::SeenFrame;
use qs_recv::{Highest, RecvFault};
use qs_send::Item;
use qs_streams::Place;
use qs_wire::StreamId;

const FLOW_CONTROL_ERROR: u64 = 0x03;

const STREAM_LIMIT_ERROR: u64 = 0x04;

const STREAM_STATE_ERROR: u64 = 0x05;

const FINAL_SIZE_ERROR: u64 = 0x06;

const PROTOCOL_VIOLATION: u64 = 0x0a;

impl Endpoint {
    #[tactic(auto, unfolding(qs_machine::specs::Verdicts::verdict))]
    #[inline(always)]
    pub(super) fn verdict(&self, seen: &SeenFrame<'_>) -> Option<u64>
        requires { SeenFits seen.now }
        ensures { result ≡ verdict self.now (view_seen seen.now) }
    {
        match *seen {
            SeenFrame::Ack { largest, .. } => self.ack_fault(largest),
            SeenFrame::Stream {
                stream,
                offset,
                bytes,
                fin,
            } => self.stream_fault(stream, offset, bytes, fin),
            SeenFrame::Control(
                Item::ResetStream {
                    stream,
                    final_size,
                    ..
                },
            ) => self.reset_fault(stream, final_size),
            SeenFrame::Control(Item::StreamDataBlocked { stream, .. }) => {
                self.state_fault_in(Place::of(stream))
            }
            SeenFrame::Control(Item::StopSending { stream, .. }) => self.state_fault_out(stream),
            SeenFrame::Control(Item::MaxStreamData { stream, .. }) => self.state_fault_out(stream),
            SeenFrame::Control(_) | SeenFrame::Close(_) | SeenFrame::Plain { .. } => None,
        }
    }

    // A number that was never used shows a peer that guesses (RFC 9000, section 13.1).
    fn ack_fault(&self, largest: u64) -> Option<u64>
        ensures { result ≡ ack_fault self.now largest }
    {
        if largest >= self.core.outbox.next() {
            Some(PROTOCOL_VIOLATION)
        } else {
            None
        }
    }

    // With it comes whether a frame is sure to change this endpoint, which is known on the way: `take_frame` needs no second look.
    #[inline(always)]
    pub(super) fn judge(&self, seen: &SeenFrame<'_>) -> Result<bool, u64>
        requires { SeenFits seen.now }
        ensures { Judges self.now (view_seen seen.now) result }
    {
        if let SeenFrame::Stream {
            stream,
            offset,
            bytes,
            fin,
        } = *seen
        {
            return self.judge_stream(stream, offset, bytes, fin);
        }
        match self.verdict(seen) {
            Some(code) => Err(code),
            None => Ok(false),
        }
    }

    #[tactic(auto, unfolding(qs_machine::specs::Verdicts::verdict))]
    #[inline(always)]
    fn stream_fault(&self, stream: Place, offset: u64, bytes: &[u8], fin: bool) -> Option<u64>
        requires { offset + length bytes.now ≤ MAX_VARINT }
        ensures { result ≡ or_else (state_fault_in self.now stream) (or_else (credit_fault self.now (check_stream (lane_of self.now stream) offset (length bytes.now) fin)) (bytes_fault self.now stream offset bytes.now)) }
    {
        match self.judge_stream(stream, offset, bytes, fin) {
            Ok(_sure) => None,
            Err(code) => Some(code),
        }
    }

    // The bytes come last, after both limits, and only those that are still stored are compared (RFC 9000, section 2.2). A frame that
    // raises the highest offset changes this endpoint.
    #[tactic(auto, unfolding(qs_machine::specs::Verdicts::verdict))]
    #[inline(always)]
    fn judge_stream(&self, stream: Place, offset: u64, bytes: &[u8], fin: bool) -> Result<bool, u64>
        requires { offset + length bytes.now ≤ MAX_VARINT }
        ensures { Judges self.now (Stream stream offset bytes.now fin) result }
    {
        if let Some(code) = self.state_fault_in(stream) {
            return Err(code);
        }
        let Some(half) = self.core.recvs.half(stream) else {
            return self.judge_first(stream, offset, bytes, fin);
        };
        let judged = half.judge(offset, bytes, fin);
        if let Some(code) = self.credit_fault(judged.stream) {
            return Err(code);
        }
        half.learn_lawful();
        match judged.bytes {
            Ok(()) => Ok(is_rise(judged.stream)),
            Err(fault) => Err(code_of(fault)),
        }
    }

    // Judged as by a half that received nothing, before one is made: a frame that offends opens nothing.
    #[tactic(auto, unfolding(qs_machine::specs::Verdicts::verdict))]
    fn judge_first(&self, stream: Place, offset: u64, bytes: &[u8], fin: bool) -> Result<bool, u64>
        requires in_range { offset + length bytes.now ≤ MAX_VARINT }
        requires none { recv_lane self.now stream ≡ None }
        requires state { state_fault_in self.now stream ≡ None }
        ensures { Judges self.now (Stream stream offset bytes.now fin) result }
    {
        let window = self.window(stream.id);
        let judged = Half::judge_first(self.alloc, window, offset, bytes, fin);
        if let Some(code) = self.credit_fault(judged.stream) {
            return Err(code);
        }
        match judged.bytes {
            Ok(()) => Ok(true),
            Err(fault) => Err(code_of(fault)),
        }
    }

    fn reset_fault(&self, stream: StreamId, size: u64) -> Option<u64>
        requires { size ≤ MAX_VARINT }
        ensures { result ≡ or_else (state_fault_in self.now stream) (credit_fault self.now (check_reset (lane_of self.now stream) size)) }
    {
        if let Some(code) = self.state_fault_in(Place::of(stream)) {
            return Some(code);
        }
        let Some(half) = self.core.recvs.half(Place::of(stream)) else {
            let window = self.window(stream);
            return self.credit_fault(Half::check_first_reset(self.alloc, window, size));
        };
        self.credit_fault(half.check_reset(size))
    }

    fn state_fault_in(&self, stream: Place) -> Option<u64>
        ensures { result ≡ state_fault_in self.now stream }
    {
        if stream.stream_type % 2 == role_bit(self.core.limits.role) {
            return match self.core.recvs.half(stream) {
                Some(_open) => None,
                None => Some(STREAM_STATE_ERROR),
            };
        }
        let streams = &self.core.limits.granted_streams;
        let granted = if stream.stream_type >= 2 {
            streams.uni
        } else {
            streams.bidi
        };
        if granted <= stream.index as u64 {
            Some(STREAM_LIMIT_ERROR)
        } else {
            None
        }
    }

    fn state_fault_out(&self, stream: StreamId) -> Option<u64>
        ensures { result ≡ state_fault_out self.now stream }
    {
        if self.is_own(stream) {
            if self.core.outbox.is_open(stream) {
                None
            } else {
                Some(STREAM_STATE_ERROR)
            }
        } else if is_uni(stream) {
            Some(STREAM_STATE_ERROR)
        } else if self.grant(stream) <= stream.index() {
            Some(STREAM_LIMIT_ERROR)
        } else {
            None
        }
    }

    // The half's check first: the stream's fault is the closer one.
    fn credit_fault(&self, check: Result<Highest, RecvFault>) -> Option<u64>
        requires { IfOk check (λ h. h.after ≤ MAX_VARINT) }
        ensures { result ≡ credit_fault self.now check }
    {
        match check {
            Err(fault) => Some(code_of(fault)),
            Ok(highest) => {
                let growth = highest.after.saturating_sub(highest.before);
                if self.core.limits.granted < self.core.recvs.tally().spent + growth {
                    Some(FLOW_CONTROL_ERROR)
                } else {
                    None
                }
            }
        }
    }

    fn grant(&self, stream: StreamId) -> u64
        ensures { result ≡ grant self.now stream }
    {
        if is_uni(stream) {
            self.core.limits.granted_streams.uni
        } else {
            self.core.limits.granted_streams.bidi
        }
    }
}

fn is_rise(check: Result<Highest, RecvFault>) -> bool
    ensures { result ≡ true → (h : Highest) × (check ≡ Ok h) × (h.before < h.after) }
{
    match check {
        Ok(highest) => highest.before < highest.after,
        Err(_fault) => false,
    }
}

fn code_of(fault: RecvFault) -> u64
    ensures { result ≡ fault_code fault }
{
    match fault {
        RecvFault::FinalSize => FINAL_SIZE_ERROR,
        RecvFault::StreamCredit => FLOW_CONTROL_ERROR,
        RecvFault::NoMemory => 0,
        RecvFault::ChangedByte => PROTOCOL_VIOLATION,
    }
}
