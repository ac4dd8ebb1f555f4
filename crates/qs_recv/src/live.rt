//! A receiving half that may store bytes.
ghost use Rattle.std.specs.Prelude.{true, None, if◌then◌else◌, ◌==◌, max, ◌≡◌, ◌+◌, ◌-◌, ◌*◌, ◌<◌, ◌≤◌, ◌++◌, ◌||◌, length, drop, IsOk, IfOk, IfSome, IfNone, OnOk, OnErr, IfErr, IsTrue, is_some, false};
ghost use Rattle.std.specs.FinMap as map;
ghost use Rattle.qs_ranges.specs.Numbers.{MAX_VARINT, MissesRange, covers};
ghost use Rattle.qs_recv.specs.Lawful.{IsLawful};
ghost use Rattle.qs_recv.specs.Sound.{CodeFits};
ghost use Rattle.qs_recv.specs.News.{is_readable};
ghost use Rattle.qs_recv.specs.Lane.{highest, highest_after, noted, taken, state, check_stream, check_bytes, take_stream, check_reset, take_reset, is_whole, is_over, at_final_size, breaks_final_size, read_answer, bytes_read, after_read, stop, stop_and_discard, raise, raise_answer, raised_limit, set_window, MAX_WINDOW};
ghost use Rattle.qs_recv.specs.Changes.{stream_changes};
ghost use Rattle.qs_recv.specs.Peek.{IsPeek};
ghost use Rattle.qs_recv.specs.Room.{IsRoomOf};

use crate::assembly::{Assembly, Memory, Peeking, Skipping};
use crate::credit::{limit_with, next_limit};
use crate::half::{Highest, Judged, Peek, Read, RecvFault, RecvState, Sizes, Standing};
use crate::over::Over;
use crate::rest::{Rest, given};
use crate::window::Windows;
use std::alloc::Global;
use std::marker::Model;

/// Numbers and their flags apart: an `Option<u64>` takes twice the bytes. `RecvHalf` says what the calls do.
#[derive(Drop)]
pub(crate) struct LiveHalf<A: Assembly> {
    assembly: A,
    read_count: u64,
    received_end: u64,
    limit: u64,
    size: u64,
    reset: u64,
    stop: u64,
    windows: Windows,
    is_sized: bool,
    is_reset: bool,
    is_stopped: bool,
    reader_done: bool,
}

impl<A: Assembly> Model for LiveHalf<A> {
    ghost use Rattle.qs_recv.specs.Lane.{RecvLane};
    ghost use Rattle.qs_recv.specs.Codes.{lane_code};
    ghost use Rattle.qs_recv.specs.Rest.{given};
    ghost use Rattle.qs_recv.specs.Sound.{IsLetGo, IsSound};

    ghost Value = { RecvLane };

    ghost coded = { lane_code };

    ghost view = { λ h. record { arrived = A.holds h.assembly; final_size = given h.is_sized h.size; reset_code = given h.is_reset h.reset; stop_code = given h.is_stopped h.stop; reader_done = h.reader_done; limit = h.limit; window = h.windows.size; share = h.windows.share } };

    ghost invariant = { λ h. IsSound (record { arrived = A.holds h.assembly; final_size = given h.is_sized h.size; reset_code = given h.is_reset h.reset; stop_code = given h.is_stopped h.stop; reader_done = h.reader_done; limit = h.limit; window = h.windows.size; share = h.windows.share }) h.windows.widest h.read_count h.received_end × IsLetGo (record { arrived = A.holds h.assembly; final_size = given h.is_sized h.size; reset_code = given h.is_reset h.reset; stop_code = given h.is_stopped h.stop; reader_done = h.reader_done; limit = h.limit; window = h.windows.size; share = h.windows.share }) (A.size h.assembly) };
}

impl<A: Assembly> LiveHalf<A> {
    /// For a question to a half at rest; it takes no memory.
    pub(crate) fn revived(alloc: Global, rest: &Rest) -> Self
        ensures { result ≡ rest.now }
    {
        LiveHalf {
            assembly: Self::assembly_at_rest(alloc, rest),
            read_count: rest.read_count,
            received_end: rest.received_end,
            limit: rest.limit,
            size: rest.size,
            reset: rest.reset,
            stop: rest.stop,
            windows: rest.windows,
            is_sized: rest.is_sized,
            is_reset: rest.is_reset,
            is_stopped: rest.is_stopped,
            reader_done: rest.reader_done,
        }
    }

    pub(crate) fn assembly_at_rest(alloc: Global, rest: &Rest) -> A
        ensures same { A.holds result ≡ rest.now.arrived }
        ensures small { A.size result ≡ 0 }
    {
        A::at_rest(
            alloc,
            rest.windows.widest as u64,
            rest.read_count,
            rest.received_end,
            rest.discards(),
        )
    }

    /// The box stays if a smaller one was refused, and goes on as a half at rest.
    pub(crate) fn let_go(&mut self, alloc: Global, rest: &Rest)
        ensures { self.new ≡ rest.now }
    {
        *self = LiveHalf::revived(alloc, rest);
    }

    pub(crate) fn is_done(&self) -> bool
        ensures { result ≡ (self.now.reader_done || is_some self.now.stop_code) }
    {
        self.reader_done || self.is_stopped
    }

    /// None while an offset is missing: a late frame could then want its assembly.
    #[tactic(auto, using(crate::proofs::RestLaws::rested_is))]
    pub(crate) fn rested(&self) -> Option<Rest>
        ensures { IfSome result (λ rest. rest ≡ self.now) }
    {
        if !self.is_done() || !self.assembly.received().covers(0, self.received_end) {
            return None;
        }
        Some(Rest {
            read_count: self.read_count,
            received_end: self.received_end,
            limit: self.limit,
            size: self.size,
            reset: self.reset,
            stop: self.stop,
            windows: self.windows,
            is_sized: self.is_sized,
            is_reset: self.is_reset,
            is_stopped: self.is_stopped,
            reader_done: self.reader_done,
        })
    }

    pub(crate) fn over(&self) -> Option<Over>
        ensures { IfSome result (λ over. over ≡ self.now) }
    {
        match self.rested() {
            Some(rest) => rest.over(),
            None => None,
        }
    }

    pub(crate) fn check_stream(
        &self,
        offset: u64,
        len: u64,
        fin: bool,
    ) -> Result<Highest, RecvFault>
        requires { offset + len ≤ MAX_VARINT }
        ensures value { result ≡ check_stream self.now offset len fin }
        ensures in_range { IfOk result (λ h. h.after ≤ MAX_VARINT) }
    {
        if self.breaks_final_size(offset, len, fin) {
            return Err(RecvFault::FinalSize);
        }
        let end = offset + len;
        let before = if self.is_sized {
            self.size
        } else {
            self.received_end
        };
        if before.max(end) > self.limit {
            return Err(RecvFault::StreamCredit);
        }
        let after = if fin {
            end
        } else if self.is_sized || len == 0 {
            before
        } else {
            before.max(end)
        };
        Ok(Highest { before, after })
    }

    pub(crate) fn check_bytes(&self, offset: u64, bytes: &[u8]) -> Result<(), RecvFault>
        requires { offset + length bytes.now ≤ MAX_VARINT }
        ensures { result ≡ check_bytes self.now offset bytes.now }
    {
        if self.assembly.same(offset, bytes) {
            Ok(())
        } else {
            Err(RecvFault::ChangedByte)
        }
    }

    #[inline(always)]
    pub(crate) fn judge(&self, offset: u64, bytes: &[u8], fin: bool) -> Judged
        requires { offset + length bytes.now ≤ MAX_VARINT }
        ensures stream { result.stream ≡ check_stream self.now offset (length bytes.now) fin }
        ensures bytes { result.bytes ≡ check_bytes self.now offset bytes.now }
        ensures in_range { IfOk result.stream (λ h. h.after ≤ MAX_VARINT) }
    {
        Judged {
            stream: self.check_stream(offset, bytes.len() as u64, fin),
            bytes: self.check_bytes(offset, bytes),
        }
    }

    #[tactic(auto, using(crate::proofs::RestLaws::given_some, crate::proofs::LawfulLaws::grown_noted, crate::proofs::LawfulLaws::highest_passed, crate::proofs::RestLaws::let_go_refused))]
    pub(crate) fn take_stream(
        &mut self,
        offset: u64,
        bytes: &[u8],
        fin: bool,
    ) -> Result<(), RecvFault>
        requires in_range { offset + length bytes.now ≤ MAX_VARINT }
        requires passed { IsOk (check_stream self.old offset (length bytes.now) fin) }
        requires unchanged { IsOk (check_bytes self.old offset bytes.now) }
        ensures taken { OnOk result (self.new ≡ take_stream self.old offset bytes.now fin) }
        ensures grown { OnOk result (highest self.new ≡ highest_after self.old offset (length bytes.now) fin) }
        ensures refused { IfErr result (λ fault. (fault ≡ RecvFault.NoMemory) × (self.new ≡ self.old)) }

        // Memory is taken only for bytes of which one is new, after a stop only if no offset at or beside it was received, and after a
        // reset never.
        ensures open { OnErr result (self.old.reset_code ≡ None) }
        ensures news { OnErr result (covers self.old.arrived.received offset (offset + length bytes.now) ≡ false) }
        ensures apart { OnErr result (IsTrue (is_some self.old.stop_code)
            → MissesRange self.old.arrived.received (offset - 1) (offset + length bytes.now + 1)) }
    {
        let end = offset + bytes.len() as u64;
        if !self.is_reset {
            if self.assembly.put(offset, bytes).is_err() {
                return Err(RecvFault::NoMemory);
            }
            self.received_end = end_with(self.received_end, offset, bytes.len() as u64);
        }
        if fin {
            self.is_sized = true;
            self.size = end;
        }
        Ok(())
    }

    pub(crate) fn stream_changes(&self, offset: u64, len: u64, fin: bool) -> bool
        requires { offset + len ≤ MAX_VARINT }
        ensures { result ≡ stream_changes self.now offset len fin }
    {
        if fin && !self.is_sized {
            return true;
        }
        if self.is_reset {
            return false;
        }
        !self.assembly.received().covers(offset, offset + len)
    }

    pub(crate) fn check_reset(&self, size: u64) -> Result<Highest, RecvFault>
        requires { size ≤ MAX_VARINT }
        ensures { result ≡ check_reset self.now size }
    {
        if self.breaks_final_size(size, 0, true) {
            return Err(RecvFault::FinalSize);
        }
        if size > self.limit {
            return Err(RecvFault::StreamCredit);
        }
        Ok(Highest {
            before: self.highest(),
            after: size,
        })
    }

    /// What a reset that passed its check makes of it: a half at rest, which takes its place. None if nothing changes.
    pub(crate) fn reset(&mut self, code: u64, size: u64) -> Option<Rest>
        requires in_range { size ≤ MAX_VARINT }
        requires passed { IsOk (check_reset self.old size) }
        ensures after { IfSome result (λ rest. rest ≡ take_reset self.old code size) }
        ensures grown { IfSome result (λ rest. highest rest ≡ size) }
        ensures same { IfNone result (self.new ≡ take_reset self.old code size) }
        ensures known { IfNone result (highest self.new ≡ size) }
    {
        if self.is_reset || self.is_whole() {
            return None;
        }
        Some(Rest {
            read_count: self.read_count,
            received_end: self.received_end,
            limit: self.limit,
            size,
            reset: code,
            stop: self.stop,
            windows: self.windows,
            is_sized: true,
            is_reset: true,
            is_stopped: self.is_stopped,
            reader_done: self.reader_done,
        })
    }

    pub(crate) fn read(&mut self, into: &mut [u8]) -> Read
        ensures answer { result ≡ read_answer self.old (length into.old) }
        ensures bytes { let bytes = bytes_read self.old (length into.old) in into.new ≡ bytes ++ drop (length bytes) into.old }
        ensures after { self.new ≡ after_read self.old (length into.old) }
        ensures same_highest { highest self.new ≡ highest self.old }
    {
        if self.is_reset {
            self.reader_done = true;
            return Read::Reset(self.reset);
        }
        if self.is_stopped {
            if self.is_whole() {
                self.reader_done = true;
                return Read::End;
            }
            return Read::Wait;
        }
        if self.is_at_end() {
            self.assembly.give_back();
            self.reader_done = true;
            return Read::End;
        }
        if !self.assembly.received().has(self.read_count) {
            return Read::Wait;
        }
        let count = self.assembly.take(into);
        self.read_count += count as u64;
        Read::Bytes(count)
    }

    pub(crate) fn stop(&mut self, code: u64)
        requires { code ≤ MAX_VARINT }
        ensures after { self.new ≡ stop self.old code }
        ensures same_highest { highest self.new ≡ highest self.old }
    {
        if self.is_over() {
            return;
        }
        if !self.is_stopped {
            self.assembly.discard();
            self.is_stopped = true;
            self.stop = code;
        }
    }

    pub(crate) fn stop_and_discard(&mut self, code: u64)
        requires { code ≤ MAX_VARINT }
        ensures after { self.new ≡ stop_and_discard self.old code }
        ensures same_highest { highest self.new ≡ highest self.old }
    {
        self.stop(code);
        self.reader_done = true;
    }

    pub(crate) fn raise(&mut self) -> Option<u64>
        ensures answer { result ≡ raise_answer self.old }
        ensures after { self.new ≡ raise self.old }
    {
        let next = self.raised_limit();
        if next <= self.limit {
            return None;
        }
        self.limit = next;
        Some(next)
    }

    pub(crate) fn raised_limit(&self) -> u64
        ensures value { result ≡ raised_limit self.now }
        ensures small { result ≤ MAX_VARINT }
    {
        if self.is_sized {
            return self.limit;
        }
        let windows = self.windows;
        next_limit(self.limit, self.taken(), windows.size as u64, windows.share)
    }

    pub(crate) fn set_window(&mut self, window: u64)
        requires some { 1 ≤ window }
        requires small { window ≤ MAX_WINDOW }
        ensures { self.new ≡ set_window self.old window }
    {
        let taken = self.taken();
        if !self.is_sized {
            self.limit = limit_with(self.windows.size as u64, self.limit, taken, window);
        }
        self.assembly.widen(window);
        self.windows = self.windows.with(window);
    }

    pub(crate) fn sizes(&self) -> Sizes
        ensures spent { result.spent ≡ highest self.now }
        ensures taken { result.taken ≡ taken self.now }
        ensures stored { result.stored ≡ map.len self.now.arrived.stored }
        ensures noted { result.noted ≡ noted self.now }
        ensures stopped { result.is_stopped ≡ is_some self.now.stop_code }
        ensures small { result.spent ≤ MAX_VARINT }
        ensures paid { map.len self.now.arrived.stored + taken self.now ≤ highest self.now }
        ensures few { result.noted ≤ result.spent }
        ensures lawful { IsLawful self.now }
    {
        let spent = if self.is_sized {
            self.size
        } else {
            self.received_end
        };
        let taken = if self.is_reset || self.is_stopped {
            spent
        } else {
            self.read_count
        };
        let noted = if self.is_reset || (self.reader_done && self.is_whole()) {
            0
        } else {
            self.assembly.received().count() as u64
        };
        Sizes {
            spent,
            taken,
            stored: self.assembly.stored(),
            noted,
            is_stopped: self.is_stopped,
        }
    }

    pub(crate) fn standing(&self) -> Standing
        ensures readable { result.is_readable ≡ is_readable self.now }
        ensures ended { result.has_ended ≡ is_over self.now }
    {
        if self.reader_done {
            return Standing {
                is_readable: false,
                has_ended: self.is_reset || self.is_whole(),
            };
        }
        let is_readable = if self.is_stopped && !self.is_reset {
            self.is_whole()
        } else {
            self.is_reset
                || (self.is_sized && self.read_count == self.size)
                || self.assembly.received().has(self.read_count)
        };
        Standing {
            is_readable,
            has_ended: false,
        }
    }

    pub(crate) fn limit(&self) -> u64
        ensures value { result ≡ self.now.limit }
        ensures small { result ≤ MAX_VARINT }
    {
        self.limit
    }

    #[tactic(auto, using(crate::proofs::LawfulLaws::small_count))]
    pub(crate) fn taken(&self) -> u64
        ensures value { result ≡ taken self.now }
        ensures in_range { result ≤ MAX_VARINT }
        ensures within { result ≤ highest self.now }
    {
        if self.is_reset || self.is_stopped {
            self.highest()
        } else {
            self.read_count
        }
    }

    pub(crate) fn highest(&self) -> u64
        ensures value { result ≡ highest self.now }
        ensures in_range { result ≤ MAX_VARINT }
    {
        if self.is_sized {
            self.size
        } else {
            self.received_end
        }
    }

    pub(crate) fn final_size(&self) -> Option<u64>
        ensures { result ≡ self.now.final_size }
    {
        given(self.is_sized, self.size)
    }

    pub(crate) fn is_told(&self) -> bool
        ensures { result ≡ self.now.reader_done }
    {
        self.reader_done
    }

    pub(crate) fn state(&self) -> RecvState
        ensures { result ≡ state self.now }
    {
        if self.is_reset {
            if self.reader_done {
                RecvState::ResetRead
            } else {
                RecvState::ResetRecvd
            }
        } else if self.is_whole() {
            if self.reader_done {
                RecvState::DataRead
            } else {
                RecvState::DataRecvd
            }
        } else if self.is_sized {
            RecvState::SizeKnown
        } else {
            RecvState::Recv
        }
    }

    pub(crate) fn held(&self) -> Memory<'_, A>
        ensures exact { IsRoomOf A.holds A.size self.now result.assembly result.bytes }
        ensures room { map.len self.now.arrived.stored ≤ result.bytes }
        ensures least { 0 < map.len self.now.arrived.stored → A.least self.now.arrived ≤ result.bytes }
        ensures bound { result.bytes ≤ max 4096 (4 * (highest self.now - taken self.now)) }
        ensures idle { map.len self.now.arrived.stored ≡ 0 → result.bytes ≤ 4096 }
        ensures over { IsTrue self.now.reader_done → result.bytes ≡ 0 }
        ensures gone { IsTrue self.now.arrived.discarding → result.bytes ≡ 0 }
    {
        Memory {
            bytes: self.assembly.held(),
            assembly: Some(&self.assembly),
        }
    }

    pub(crate) fn read_count(&self) -> u64
        ensures { result ≡ self.now.arrived.read_count }
    {
        self.read_count
    }

    pub(crate) fn stop_code(&self) -> Option<u64>
        ensures value { result ≡ self.now.stop_code }
        ensures small { CodeFits result }
    {
        given(self.is_stopped, self.stop)
    }

    pub(crate) fn reset_code(&self) -> Option<u64>
        ensures { result ≡ self.now.reset_code }
    {
        given(self.is_reset, self.reset)
    }

    pub(crate) fn is_over(&self) -> bool
        ensures { result ≡ is_over self.now }
    {
        self.reader_done && (self.is_reset || self.is_whole())
    }

    fn is_at_end(&self) -> bool
        ensures { result ≡ at_final_size self.now.arrived.read_count self.now.final_size }
    {
        self.is_sized && self.read_count == self.size
    }

    // Seldom called, and apart so that its callers are small.
    #[inline(never)]
    fn is_whole(&self) -> bool
        ensures { result ≡ is_whole self.now }
    {
        self.is_sized && self.assembly.received().covers(0, self.size)
    }

    fn breaks_final_size(&self, offset: u64, len: u64, fin: bool) -> bool
        requires { offset + len ≤ MAX_VARINT }
        ensures { result ≡ breaks_final_size self.now offset len fin }
    {
        let end = offset + len;
        if self.is_sized {
            return (len > 0 && self.size < end) || (fin && end != self.size);
        }
        fin && end < self.received_end
    }
}

impl<A: Peeking> LiveHalf<A> {
    pub(crate) fn peek(&self) -> Peek<'_>
        ensures { IsPeek self.now result }
    {
        if self.is_reset {
            return Peek::Reset(self.reset);
        }
        if self.is_stopped {
            if self.is_whole() {
                return Peek::End;
            }
            return Peek::Wait;
        }
        if self.is_at_end() {
            return Peek::End;
        }
        if !self.assembly.received().has(self.read_count) {
            return Peek::Wait;
        }
        let (front, back) = self.assembly.front();
        Peek::Bytes(front, back)
    }
}

impl<A: Skipping> LiveHalf<A> {
    pub(crate) fn skip(&mut self, most: usize) -> Read
        ensures answer { result ≡ read_answer self.old most }
        ensures after { self.new ≡ after_read self.old most }
        ensures same_highest { highest self.new ≡ highest self.old }
    {
        if self.is_reset {
            self.reader_done = true;
            return Read::Reset(self.reset);
        }
        if self.is_stopped {
            if self.is_whole() {
                self.reader_done = true;
                return Read::End;
            }
            return Read::Wait;
        }
        if self.is_at_end() {
            self.assembly.give_back();
            self.reader_done = true;
            return Read::End;
        }
        if !self.assembly.received().has(self.read_count) {
            return Read::Wait;
        }
        let count = self.assembly.skip(most);
        self.read_count += count as u64;
        Read::Bytes(count)
    }
}

fn end_with(before: u64, offset: u64, len: u64) -> u64
    requires { offset + len ≤ MAX_VARINT }
    ensures { result ≡ (if len == 0 then before else max before (offset + len)) }
{
    if len == 0 {
        before
    } else {
        before.max(offset + len)
    }
}
