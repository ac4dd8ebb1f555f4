//! The sending half of a stream (RFC 9000, sections 2.2, 3.1 and 13.3).
ghost use Rattle.std.specs.Prelude.{if◌then◌else◌, ◌==◌, ◌≡◌, ◌+◌, ◌-◌, ◌*◌, ◌≤◌, ◌<◌, ◌⊎◌, ◌^◌, ◌↔◌, IsTrue, ◌&&◌, ℕ, Bool, true, false, not, length, take, drop, is_some, unwrap_or, option_map, None, Some, Err, OnOk, OnErr, IfOk, IfErr, IfSome, IfNone};
ghost use Rattle.qs_ranges.specs.Numbers.{MAX_VARINT, MissesRange};
ghost use Rattle.qs_send.specs.Chunks.{IsDueChunk, WasSent};
ghost use Rattle.qs_send.specs.Sound.{IsLawful};
ghost use Rattle.qs_send.specs.declared.parts.Reset.{Reset};
ghost use Rattle.qs_send.specs.Changes.{stop_changes, asked_changes};
ghost use Rattle.qs_send.specs.Writable.{is_writable};
ghost use Rattle.qs_send.specs.Memory.{IsMemoryOf};
ghost use Rattle.qs_send.specs.Lane.{new_sending, free_room, unacked_from, accepted, refusal, answer_of, reset_refusal, is_whole, state, declared_size, after_write, after_finish, after_reset, first_code, after_stopped, after_asked, after_reset_acked, after_blocked, after_allow, after_buffer, after_sent, after_acked, after_lost};

use crate::offsets::{Memory, Offsets};
use crate::parts::{Chunk, SendFault, SendState};
use qs_ranges::{MaybeNumber, NoMemory};
use qs_wire::StreamId;
use std::alloc::Global;
use std::marker::Model;

mod chunks;
mod over;

/// The largest value of a variable-length integer (RFC 9000, section 16).
pub const MAX_VARINT: u64 = (1 << 62) - 1;

/// The sending half of a stream: bytes are written once, go out in chunks, and stay until they are acknowledged. Lost ones go out again,
/// and a reset frees all of them (RFC 9000, sections 3.1 and 13.3).
///
/// What was noted as due and what was acknowledged are kept apart, and what is due is the difference. So `acked` and `lost` each grow one
/// set, in any order and late, and nothing has to be undone.
#[derive(Drop)]
pub struct SendHalf {
    id: StreamId,
    offsets: Offsets,
    limit: u64,
    buffer: u32,
    // Bounds the memory after a smaller buffer was set: what was accepted isn't moved.
    widest: u32,
    // Its final size is the sent end, so it needs no field.
    reset_code: MaybeNumber,
    // Kept whatever becomes of the half, for an application that asks late.
    stop_code: MaybeNumber,
    finished: bool,
    fin_sent: bool,
    fin_acked: bool,
    fin_noted: bool,
    blocked_sent: bool,
    reset_acked: bool,
}

impl Model for SendHalf {
    ghost use Rattle.std.specs.Prelude.{◌*◌, ◌≤◌, ◌&&◌, not};
    ghost use Rattle.qs_send.specs.Lane.{Sending};
    ghost use Rattle.qs_send.specs.Codes.{sending_code};
    ghost use Rattle.qs_send.specs.Offsets.{reset_at};
    ghost use Rattle.qs_send.specs.Sound.{IsLawful};
    ghost use Rattle.qs_send.specs.KeptBytes.{IsFreed};

    ghost Value = { Sending };

    ghost coded = { sending_code };

    ghost view = { λ h. record {
      lane = record { id = h.id; written = h.offsets.parts.written; kept = h.offsets.parts.kept; acked = h.offsets.parts.acked; sent_end = h.offsets.parts.sent_end; finished = h.finished; fin_sent = h.fin_sent; fin_acked = h.fin_acked; blocked_sent = h.blocked_sent; was_reset = reset_at h.offsets.parts.sent_end h.reset_code; reset_acked = h.reset_acked; limit = h.limit; buffer = h.buffer; widest = h.widest; stopped = h.stop_code };
      due = record { offsets = h.offsets.parts.due; fin = h.fin_noted && not h.fin_acked };
    } };

    ghost invariant = { λ h. IsLawful (record {
      lane = record { id = h.id; written = h.offsets.parts.written; kept = h.offsets.parts.kept; acked = h.offsets.parts.acked; sent_end = h.offsets.parts.sent_end; finished = h.finished; fin_sent = h.fin_sent; fin_acked = h.fin_acked; blocked_sent = h.blocked_sent; was_reset = reset_at h.offsets.parts.sent_end h.reset_code; reset_acked = h.reset_acked; limit = h.limit; buffer = h.buffer; widest = h.widest; stopped = h.stop_code };
      due = record { offsets = h.offsets.parts.due; fin = h.fin_noted && not h.fin_acked };
    }) × (h.offsets.room ≤ h.widest) × IsFreed (reset_at h.offsets.parts.sent_end h.reset_code) h.fin_acked h.offsets.parts.kept h.offsets.room };
}

impl SendHalf {
    /// A half in the state Ready, which may send the offsets below `limit` and keeps at most `buffer` bytes. It takes no memory, since a
    /// stream that is opened may never carry a byte.
    pub fn new(alloc: Global, id: StreamId, limit: u64, buffer: u32) -> Self
        requires { limit ≤ MAX_VARINT }
        ensures { result ≡ new_sending id limit buffer }
    {
        let _number = id.value();
        Self {
            id,
            offsets: Offsets::new(alloc),
            limit,
            buffer,
            widest: buffer,
            reset_code: MaybeNumber::none(),
            stop_code: MaybeNumber::none(),
            finished: false,
            fin_sent: false,
            fin_acked: false,
            fin_noted: false,
            blocked_sent: false,
            reset_acked: false,
        }
    }

    /// What holds of every half. It does nothing: a caller learns the clause.
    pub fn learn_lawful(&self)
        ensures { IsLawful self.now }
    {
        let _limit = self.limit;
    }

    /// Accepts the front of the bytes, as many as there is room for, and returns how many. They are due.
    ///
    /// Refused, and then unchanged: `WasReset` after a reset, else `Finished` after `finish`, else `NoMemory`.
    pub fn write(&mut self, bytes: &[u8]) -> Result<usize, SendFault>
        ensures accepted { IfOk result (λ n. (refusal self.old.lane ≡ None) × (n ≡ accepted self.old.lane (length bytes.now)) × (self.new ≡ after_write self.old (take n bytes.now))) }
        ensures refused { IfErr result (λ fault. (self.new ≡ self.old) × (fault ≡ unwrap_or (refusal self.old.lane) SendFault.NoMemory)) }

        // Memory is taken only for bytes that are accepted.
        ensures grows { result ≡ Err SendFault.NoMemory → 0 < accepted self.old.lane (length bytes.now) }
    {
        if let Some(fault) = self.refusal() {
            return Err(fault);
        }
        let most = (self.room() as u64).min(MAX_VARINT - self.offsets.written());
        let len = bytes.len().min(most as usize);
        if len == 0 {
            return Ok(0);
        }
        let (taken, _) = bytes.split_at(len);
        if let Err(_) = self.offsets.write(taken, self.widest as usize) {
            return Err(SendFault::NoMemory);
        }
        Ok(len)
    }

    /// Ends the stream after the bytes written so far. The FIN is due.
    ///
    /// Refused, and then unchanged: `WasReset` after a reset, else `Finished` after another `finish`.
    pub fn finish(&mut self) -> Result<(), SendFault>
        ensures answer { result ≡ answer_of (refusal self.old.lane) }
        ensures after { self.new ≡ after_finish self.old }
    {
        if let Some(fault) = self.refusal() {
            return Err(fault);
        }
        self.finished = true;
        self.fin_noted = true;
        Ok(())
    }

    /// Resets the stream in Ready, Send or Data Sent, with the count of offsets that went out as its final size: what was never sent needs
    /// no credit. From then on only the RESET_STREAM is to be sent (RFC 9000, sections 3.1 and 4.5), so the buffer is freed. The code is at
    /// most 2^62 - 1, so that a frame can carry it.
    ///
    /// Refused, and then unchanged: `WasReset` after another reset, else `Finished` in Data Recvd, when there is nothing left to give up.
    pub fn reset(&mut self, code: u64) -> Result<(), SendFault>
        requires { code ≤ MAX_VARINT }
        ensures answer { result ≡ answer_of (reset_refusal self.old.lane) }
        ensures after { self.new ≡ after_reset self.old code }
    {
        if self.was_reset() {
            return Err(SendFault::WasReset);
        }
        if self.is_whole() {
            return Err(SendFault::Finished);
        }
        self.reset_code = MaybeNumber::some(code);
        self.offsets.let_all_go();
        self.fin_noted = false;
        Ok(())
    }

    /// Processes a STOP_SENDING: a reset with its code, if one can still be made, and the first one's code is kept. Else nothing changes,
    /// so that a half that is over keeps few numbers (RFC 9000, section 3.5).
    pub fn stopped(&mut self, code: u64)
        requires { code ≤ MAX_VARINT }
        ensures { self.new ≡ after_stopped self.old code }
    {
        if self.reset(code).is_err() {
            return;
        }
        self.keep_stop(code);
    }

    /// Processes a STOP_SENDING that the application answers: the first one's code is kept if a reset can still be made, and the half goes
    /// on (RFC 9000, section 3.5).
    pub fn told_stop(&mut self, code: u64)
        requires { code ≤ MAX_VARINT }
        ensures { self.new ≡ after_asked self.old code }
    {
        if self.was_reset() || self.is_whole() {
            return;
        }
        self.keep_stop(code);
    }

    fn keep_stop(&mut self, code: u64)
        requires { code ≤ MAX_VARINT }
        ensures { self.new ≡ record self.old { lane = record self.old.lane { stopped = first_code self.old.lane.stopped code } } }
    {
        if self.stop_code.get().is_none() {
            self.stop_code = MaybeNumber::some(code);
        }
    }

    /// The code of the first STOP_SENDING that came (RFC 9000, section 3.5).
    pub fn stop_code(&self) -> Option<u64>
        ensures { result ≡ self.now.lane.stopped }
    {
        self.stop_code.get()
    }

    /// Whether a STOP_SENDING would change the half: whether it can still be reset (RFC 9000, section 3.5).
    pub fn stop_changes(&self) -> bool
        ensures { result ≡ stop_changes self.now.lane }
    {
        if self.was_reset() {
            return false;
        }
        !self.is_whole()
    }

    /// Whether one that the application answers would change it: none came before either (RFC 9000, section 3.5).
    pub fn asked_changes(&self) -> bool
        ensures { result ≡ asked_changes self.now.lane }
    {
        if self.stop_code.get().is_some() {
            return false;
        }
        self.stop_changes()
    }

    /// Raises the peer's limit. One that is no higher changes nothing, since frames may come out of order (RFC 9000, section 4.1).
    pub fn allow(&mut self, limit: u64)
        requires { limit ≤ MAX_VARINT }
        ensures { self.new ≡ after_allow self.old limit }
    {
        self.limit = self.limit.max(limit);
    }

    /// Keeps at most so many bytes from now on. What is kept stays, for it is promised to the reader: if it is more, no byte is accepted
    /// until enough of it is acknowledged.
    pub fn set_buffer(&mut self, size: u32)
        ensures { self.new ≡ after_buffer self.old size }
    {
        self.buffer = size;
        self.widest = self.widest.max(size);
    }

    pub fn note_blocked(&mut self)
        ensures { self.new ≡ after_blocked self.old }
    {
        self.blocked_sent = true;
    }

    pub fn reset_acked(&mut self)
        requires { state self.old.lane ≡ SendState.ResetSent }
        ensures { self.new ≡ after_reset_acked self.old }
    {
        self.reset_acked = true;
    }

    pub fn sent(&mut self, chunk: Chunk)
        requires { IsDueChunk self.old chunk }
        ensures { self.new ≡ after_sent self.old chunk }
    {
        self.offsets.sent(chunk.offset + chunk.len as u64);
        self.fin_sent |= chunk.fin;
        self.fin_noted &= !chunk.fin;
    }

    /// Notes that a chunk that was sent is acknowledged, also after it was lost. The bytes below the lowest unacknowledged offset are
    /// freed. Unchanged if memory was refused.
    pub fn acked(&mut self, chunk: Chunk) -> Result<(), NoMemory>
        requires { WasSent self.old.lane chunk }
        ensures ok { OnOk result (self.new ≡ after_acked self.old chunk) }
        ensures err { OnErr result (self.new ≡ self.old) }

        // Memory is taken only for offsets beside which none is acknowledged.
        ensures some { OnErr result (0 < chunk.len) }
        ensures grows { OnErr result (MissesRange self.old.lane.acked (chunk.offset - 1) (chunk.offset + chunk.len + 1)) }
    {
        let fin_acked = self.fin_acked | chunk.fin;
        let end = chunk.offset + chunk.len as u64;
        self.offsets.acked(chunk.offset, end, fin_acked)?;
        self.fin_acked = fin_acked;
        Ok(())
    }

    /// Notes that a chunk that was sent is lost: what of it isn't acknowledged is due again, but after a reset nothing is (RFC 9000,
    /// section 13.3). Unchanged if memory was refused.
    pub fn lost(&mut self, chunk: Chunk) -> Result<(), NoMemory>
        requires { WasSent self.old.lane chunk }
        ensures ok { OnOk result (self.new ≡ after_lost self.old chunk) }
        ensures err { OnErr result (self.new ≡ self.old) }

        // Memory is taken only for offsets beside which none is due, and not after a reset.
        ensures some { OnErr result (0 < chunk.len) }
        ensures open { OnErr result (self.old.lane.was_reset ≡ None) }
        ensures grows { OnErr result (MissesRange self.old.due.offsets (chunk.offset - 1) (chunk.offset + chunk.len + 1)) }
    {
        if self.was_reset() {
            return Ok(());
        }
        let end = chunk.offset + chunk.len as u64;
        self.offsets.lost(chunk.offset, end)?;
        self.fin_noted |= chunk.fin;
        Ok(())
    }

    pub fn state(&self) -> SendState
        ensures { result ≡ state self.now.lane }
    {
        if self.reset_acked {
            SendState::ResetRecvd
        } else if self.was_reset() {
            SendState::ResetSent
        } else if self.is_whole() {
            SendState::DataRecvd
        } else if self.fin_sent {
            SendState::DataSent
        } else if self.offsets.sent_end() > 0 || self.blocked_sent {
            SendState::Send
        } else {
            SendState::Ready
        }
    }

    /// The final size that was declared, by a reset or by the FIN that was sent (RFC 9000, section 4.5).
    pub fn final_size(&self) -> Option<u64>
        ensures value { result ≡ declared_size self.now.lane }
        ensures small { IfSome result (λ size. size ≤ MAX_VARINT) }
    {
        match self.reset_code.get() {
            Some(_) => Some(self.offsets.sent_end()),
            None if self.fin_sent => Some(self.offsets.written()),
            None => None,
        }
    }

    /// The application's code of the reset: at most 2^62 - 1.
    #[inline(always)]
    pub fn reset_code(&self) -> Option<u64>
        ensures value { result ≡ option_map (λ (r : Reset). r.code) self.now.lane.was_reset }
        ensures small { IfSome result (λ code. code ≤ MAX_VARINT) }
    {
        self.reset_code.get()
    }

    /// How many bytes are kept until they are acknowledged.
    pub fn kept_len(&self) -> usize
        ensures { result ≡ length self.now.lane.kept }
    {
        self.offsets.kept_len()
    }

    #[inline(always)]
    pub fn written(&self) -> u64
        ensures exact { result ≡ self.now.lane.written }
        ensures small { result ≤ MAX_VARINT }
    {
        self.offsets.written()
    }

    /// The number after the largest offset that was sent; 0 where none was.
    #[inline(always)]
    pub fn sent_end(&self) -> u64
        ensures exact { result ≡ self.now.lane.sent_end }
        ensures small { result ≤ MAX_VARINT }
    {
        self.offsets.sent_end()
    }

    /// The lowest offset that isn't acknowledged (RFC 9000, section 13.3).
    pub fn unacked_from(&self) -> u64
        ensures { result ≡ unacked_from self.now.lane }
    {
        self.offsets.unacked_from()
    }

    /// The offsets below it may be sent.
    #[inline(always)]
    pub fn limit(&self) -> u64
        ensures exact { result ≡ self.now.lane.limit }
        ensures small { result ≤ MAX_VARINT }
    {
        self.limit
    }

    /// How many bytes the buffer accepts: none while more are kept than it is set to.
    pub fn room(&self) -> usize
        ensures { result ≡ free_room self.now.lane }
    {
        (self.buffer as usize).saturating_sub(self.offsets.kept_len())
    }

    /// How many bytes of memory the buffer takes: at least those that are kept, and up to the most that it was set to. No more than 4,096
    /// if none is kept, and nothing after a reset and in Data Recvd. The offsets stand beside, so that it is known whose memory this is.
    pub fn held(&self) -> Memory<'_>
        ensures exact { IsMemoryOf self.now.lane result.offsets result.bytes }
        ensures kept { length self.now.lane.kept ≤ result.bytes }
        ensures bound { result.bytes ≤ self.now.lane.widest }
        ensures idle { length self.now.lane.kept ≡ 0 → result.bytes ≤ 4096 }
        ensures reset { is_some self.now.lane.was_reset ≡ true → result.bytes ≡ 0 }
        ensures whole { is_whole self.now.lane ≡ true → result.bytes ≡ 0 }
    {
        Memory {
            bytes: self.offsets.held() as u64,
            offsets: Some(&self.offsets),
        }
    }

    /// Why a write and a finish are refused, `None` if they aren't: `WasReset` after a reset, else `Finished` after `finish` (RFC 9000,
    /// sections 2.4 and 3.1).
    pub fn refusal(&self) -> Option<SendFault>
        ensures { result ≡ refusal self.now.lane }
    {
        if self.was_reset() {
            Some(SendFault::WasReset)
        } else if self.finished {
            Some(SendFault::Finished)
        } else {
            None
        }
    }

    /// Whether a write of one byte would be accepted, if there is memory for it: it was neither finished nor reset, and there is room (RFC
    /// 9000, sections 2.2, 2.4 and 3.1).
    pub fn is_writable(&self) -> bool
        ensures { result ≡ is_writable self.now.lane }
    {
        if self.refusal().is_some() {
            return false;
        }
        self.offsets.kept_len() < self.buffer as usize && self.offsets.written() < MAX_VARINT
    }

    fn was_reset(&self) -> bool
        ensures { result ≡ is_some self.now.lane.was_reset }
    {
        self.reset_code.get().is_some()
    }

    fn is_whole(&self) -> bool
        requires { is_some self.now.lane.was_reset ≡ false }
        ensures { result ≡ is_whole self.now.lane }
    {
        self.fin_acked && self.offsets.kept_len() == 0
    }
}
