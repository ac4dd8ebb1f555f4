//! A receiving half that stores nothing, in few bytes. A half is kept until its connection ends, so what one takes that is over counts for
//! every stream that ever was.
ghost use Rattle.std.specs.Prelude.{if◌then◌else◌, ◌≡◌, ℕ, ◌+◌, ◌-◌, ◌≤◌, [], length, true, false, None, Some, IsOk, IsTrue, IfSome, IfNone, is_some, ◌&&◌, ◌||◌};
ghost use Rattle.std.specs.FinMap as map;
ghost use Rattle.qs_ranges.specs.Numbers.{MAX_VARINT, MissesRange, covers};
ghost use Rattle.qs_recv.specs.Lawful.{IsLawful};
ghost use Rattle.qs_recv.specs.Rest.{EndsAt, IsAtRest, given};
ghost use Rattle.qs_recv.specs.Peek.{IsPeek};
ghost use Rattle.qs_recv.specs.News.{is_readable};
ghost use Rattle.qs_recv.specs.Room.{needs_no_room};
ghost use Rattle.qs_recv.specs.Sound.{CodeFits};
ghost use Rattle.qs_recv.specs.Lane.{new_lane, highest, highest_after, noted, taken, state, is_whole, is_over, check_stream, check_reset, take_stream, take_reset, read_answer, bytes_read, after_read, stop, stop_and_discard, raise, raise_answer, raised_limit, set_window, MAX_WINDOW};

use crate::credit::{Share, limit_with, next_limit};
use crate::half::{Peek, Read, RecvState, Sizes, Standing};
use crate::over::Over;
use crate::window::Windows;
use std::marker::Model;

/// A receiving half that stores nothing, and has received exactly the offsets below `received_end`: one that never carried a byte, or that
/// is over. It could be so whenever all that came was read, but then a stream that is read as it arrives would take a box and a ring for
/// each frame. Numbers with a flag apart, since an `Option<u64>` takes twice the bytes.
#[derive(Drop)]
pub(crate) struct Rest {
    pub(crate) read_count: u64,
    pub(crate) received_end: u64,
    pub(crate) limit: u64,
    pub(crate) size: u64,
    pub(crate) reset: u64,
    pub(crate) stop: u64,
    pub(crate) windows: Windows,
    pub(crate) is_sized: bool,
    pub(crate) is_reset: bool,
    pub(crate) is_stopped: bool,
    pub(crate) reader_done: bool,
}

impl Model for Rest {
    ghost use Rattle.qs_recv.specs.Lane.{RecvLane};
    ghost use Rattle.qs_recv.specs.Codes.{lane_code};
    ghost use Rattle.qs_recv.specs.Rest.{IsAtRest, given, lane_at_rest};

    ghost Value = { RecvLane };

    ghost coded = { lane_code };

    ghost view = { λ r. lane_at_rest r.windows r.read_count r.received_end r.limit (given r.is_sized r.size) (given r.is_reset r.reset) (given r.is_stopped r.stop) r.reader_done };

    ghost invariant = { λ r. IsAtRest (lane_at_rest r.windows r.read_count r.received_end r.limit (given r.is_sized r.size) (given r.is_reset r.reset) (given r.is_stopped r.stop) r.reader_done) r.read_count r.received_end };
}

impl Rest {
    pub(crate) fn new(window: u64, share: Share) -> Self
        requires some { 1 ≤ window }
        requires small { window ≤ MAX_WINDOW }
        ensures { result ≡ new_lane window share }
    {
        Rest {
            read_count: 0,
            received_end: 0,
            limit: window,
            size: 0,
            reset: 0,
            stop: 0,
            windows: Windows {
                widest: window as u32,
                size: window as u32,
                share,
            },
            is_sized: false,
            is_reset: false,
            is_stopped: false,
            reader_done: false,
        }
    }

    /// Takes a frame that passed its check, if that stores no byte and leaves no gap. Else it answers false and changes nothing: the half
    /// needs its assembly, and so memory.
    pub(crate) fn takes(&mut self, offset: u64, bytes: &[u8], fin: bool) -> bool
        requires in_range { offset + length bytes.now ≤ MAX_VARINT }
        requires passed { IsOk (check_stream self.old offset (length bytes.now) fin) }
        ensures taken { result ≡ true → self.new ≡ take_stream self.old offset bytes.now fin }
        ensures grown { result ≡ true → highest self.new ≡ highest_after self.old offset (length bytes.now) fin }
        ensures same { result ≡ false → self.new ≡ self.old }
        ensures open { result ≡ false → self.old.reset_code ≡ None }
        ensures news { result ≡ false → covers self.old.arrived.received offset (offset + length bytes.now) ≡ false }
        ensures apart { result ≡ false → IsTrue (is_some self.old.stop_code)
            → MissesRange self.old.arrived.received (offset - 1) (offset + length bytes.now + 1) }
    {
        let Some(received_end) = self.end_with(offset, bytes) else {
            return false;
        };
        self.received_end = received_end;
        if fin {
            self.is_sized = true;
            self.size = offset + bytes.len() as u64;
        }
        true
    }

    #[tactic(auto, using(crate::proofs::RestLaws::reset_rest_is))]
    pub(crate) fn take_reset(&mut self, code: u64, size: u64)
        requires in_range { size ≤ MAX_VARINT }
        requires passed { IsOk (check_reset self.old size) }
        ensures after { self.new ≡ take_reset self.old code size }
        ensures grown { highest self.new ≡ size }
    {
        if self.is_reset || self.is_whole() {
            return;
        }
        self.is_sized = true;
        self.size = size;
        self.is_reset = true;
        self.reset = code;
    }

    /// There are no bytes, so it takes no slice.
    pub(crate) fn read(&mut self) -> Read
        ensures answer { (room : ℕ) → result ≡ read_answer self.old room }
        ensures bytes { (room : ℕ) → bytes_read self.old room ≡ [] }
        ensures after { (room : ℕ) → self.new ≡ after_read self.old room }
        ensures same_highest { highest self.new ≡ highest self.old }
    {
        if self.is_reset {
            self.reader_done = true;
            return Read::Reset(self.reset);
        }
        if self.ends() {
            self.reader_done = true;
            return Read::End;
        }
        Read::Wait
    }

    pub(crate) fn peek(&self) -> Peek<'_>
        ensures { IsPeek self.now result }
    {
        if self.is_reset {
            return Peek::Reset(self.reset);
        }
        if self.ends() { Peek::End } else { Peek::Wait }
    }

    pub(crate) fn is_told(&self) -> bool
        ensures { result ≡ self.now.reader_done }
    {
        self.reader_done
    }

    /// The first code stays, and what is over isn't stopped: so a half that is over keeps no code, and its numbers are few.
    pub(crate) fn stop(&mut self, code: u64)
        requires { code ≤ MAX_VARINT }
        ensures after { self.new ≡ stop self.old code }
        ensures same_highest { highest self.new ≡ highest self.old }
    {
        if self.is_over() {
            return;
        }
        if !self.is_stopped {
            self.is_stopped = true;
            self.stop = code;
        }
    }

    /// Setting `told` with the stop is all: a half is over once its reader knows the end, and that reader doesn't ask.
    pub(crate) fn stop_and_discard(&mut self, code: u64)
        requires { code ≤ MAX_VARINT }
        ensures after { self.new ≡ stop_and_discard self.old code }
        ensures same_highest { highest self.new ≡ highest self.old }
    {
        self.stop(code);
        self.reader_done = true;
    }

    pub(crate) fn raise(&mut self) -> Option<u64>
        ensures answer { result ≡ raise_answer self.old }
        ensures after { self.new ≡ raise self.old }
    {
        let next = self.raised_limit();
        if next <= self.limit {
            return None;
        }
        self.limit = next;
        Some(next)
    }

    pub(crate) fn raised_limit(&self) -> u64
        ensures value { result ≡ raised_limit self.now }
        ensures small { result ≤ MAX_VARINT }
    {
        if self.is_sized {
            return self.limit;
        }
        let windows = self.windows;
        next_limit(self.limit, self.taken(), windows.size as u64, windows.share)
    }

    pub(crate) fn set_window(&mut self, window: u64)
        requires some { 1 ≤ window }
        requires small { window ≤ MAX_WINDOW }
        ensures { self.new ≡ set_window self.old window }
    {
        let taken = self.taken();
        if !self.is_sized {
            self.limit = limit_with(self.windows.size as u64, self.limit, taken, window);
        }
        self.windows = self.windows.with(window);
    }

    pub(crate) fn learn_lawful(&self)
        ensures { IsLawful self.now }
    {
        let _ = &self.limit;
    }

    pub(crate) fn sizes(&self) -> Sizes
        ensures spent { result.spent ≡ highest self.now }
        ensures taken { result.taken ≡ taken self.now }
        ensures stored { result.stored ≡ map.len self.now.arrived.stored }
        ensures noted { result.noted ≡ noted self.now }
        ensures stopped { result.is_stopped ≡ is_some self.now.stop_code }
        ensures small { result.spent ≤ MAX_VARINT }
        ensures paid { result.stored + result.taken ≤ result.spent }
        ensures few { result.noted ≤ result.spent }
        ensures lawful { IsLawful self.now }
    {
        self.learn_lawful();
        Sizes {
            spent: self.highest(),
            taken: self.taken(),
            stored: self.stored(),
            noted: self.noted(),
            is_stopped: self.is_stopped,
        }
    }

    pub(crate) fn standing(&self) -> Standing
        ensures readable { result.is_readable ≡ is_readable self.now }
        ensures ended { result.has_ended ≡ is_over self.now }
    {
        if self.reader_done {
            return Standing {
                is_readable: false,
                has_ended: self.is_over(),
            };
        }
        Standing {
            is_readable: self.is_reset || !matches!(self.peek(), Peek::Wait),
            has_ended: false,
        }
    }

    pub(crate) fn limit(&self) -> u64
        ensures value { result ≡ self.now.limit }
        ensures small { result ≤ MAX_VARINT }
    {
        self.limit
    }

    pub(crate) fn taken(&self) -> u64
        ensures value { result ≡ taken self.now }
        ensures in_range { result ≤ MAX_VARINT }
        ensures within { result ≤ highest self.now }
    {
        if self.is_reset || self.is_stopped {
            self.highest()
        } else {
            self.read_count
        }
    }

    pub(crate) fn highest(&self) -> u64
        ensures value { result ≡ highest self.now }
        ensures in_range { result ≤ MAX_VARINT }
    {
        if self.is_sized {
            self.size
        } else {
            self.received_end
        }
    }

    #[tactic(auto, using(qs_ranges::proofs::Edits::one_run_below, qs_ranges::proofs::Edits::no_run_below))]
    pub(crate) fn noted(&self) -> u64
        ensures value { result ≡ noted self.now }
        ensures within { result ≤ highest self.now }
    {
        if self.keeps_none() {
            return 0;
        }
        if self.received_end > 0 { 1 } else { 0 }
    }

    pub(crate) fn final_size(&self) -> Option<u64>
        ensures { result ≡ self.now.final_size }
    {
        given(self.is_sized, self.size)
    }

    #[tactic(auto, using(crate::proofs::LawfulLaws::taken_within))]
    pub(crate) fn stored(&self) -> u64
        ensures value { result ≡ map.len self.now.arrived.stored }
        ensures none { result ≡ 0 }
        ensures empty { self.now.arrived.stored ≡ map.empty }
        ensures within { taken self.now ≤ highest self.now }
        ensures room { needs_no_room self.now ≡ true }
    {
        let _ = &self.limit;
        0
    }

    pub(crate) fn read_count(&self) -> u64
        ensures { result ≡ self.now.arrived.read_count }
    {
        self.read_count
    }

    pub(crate) fn stop_code(&self) -> Option<u64>
        ensures value { result ≡ self.now.stop_code }
        ensures small { CodeFits result }
    {
        given(self.is_stopped, self.stop)
    }

    pub(crate) fn reset_code(&self) -> Option<u64>
        ensures { result ≡ self.now.reset_code }
    {
        given(self.is_reset, self.reset)
    }

    pub(crate) fn state(&self) -> RecvState
        ensures { result ≡ state self.now }
    {
        if self.is_reset {
            if self.reader_done {
                RecvState::ResetRead
            } else {
                RecvState::ResetRecvd
            }
        } else if self.is_whole() {
            if self.reader_done {
                RecvState::DataRead
            } else {
                RecvState::DataRecvd
            }
        } else if self.is_sized {
            RecvState::SizeKnown
        } else {
            RecvState::Recv
        }
    }

    pub(crate) fn over(&self) -> Option<Over>
        ensures { IfSome result (λ over. over ≡ self.now) }
    {
        if !self.reader_done || self.is_reset || self.is_stopped || !self.is_sized {
            return None;
        }
        Some(Over {
            end: self.size,
            past: (self.limit - self.size) as u32,
            windows: self.windows,
        })
    }

    // None if one of its bytes would be stored, or the offsets would lie apart: only then an assembly is needed.
    #[tactic(auto, using(std::proofs::lemmas::Bool::both_ways, crate::proofs::RestLaws::apart_below, crate::proofs::RestLaws::news_below))]
    fn end_with(&self, offset: u64, bytes: &[u8]) -> Option<u64>
        requires in_range { offset + length bytes.now ≤ MAX_VARINT }
        ensures ends { IfSome result (EndsAt self.now offset bytes.now) }
        ensures open { IfNone result (self.now.reset_code ≡ None) }
        ensures news { IfNone result (covers self.now.arrived.received offset (offset + length bytes.now) ≡ false) }
        ensures apart { IfNone result (IsTrue (is_some self.now.stop_code)
            → MissesRange self.now.arrived.received (offset - 1) (offset + length bytes.now + 1)) }
    {
        let end = offset + bytes.len() as u64;
        if self.is_reset || end <= offset || end <= self.received_end {
            return Some(self.received_end);
        }
        if self.is_stopped && offset <= self.received_end {
            return Some(end);
        }
        None
    }

    fn ends(&self) -> bool
        requires { self.now.reset_code ≡ None }
        ensures answer { (room : ℕ) → read_answer self.now room ≡ (if result then Read.End else Read.Wait) }
        ensures all { IsTrue result → self.now.arrived.discarding ≡ false → self.now.final_size ≡ Some self.now.arrived.read_count }
    {
        if self.is_stopped {
            self.is_whole()
        } else {
            self.is_sized && self.read_count == self.size
        }
    }

    pub(crate) fn discards(&self) -> bool
        ensures { result ≡ self.now.arrived.discarding }
    {
        self.is_reset || self.is_stopped
    }

    // After a reset, or once over: nothing asks any more which offsets came.
    fn keeps_none(&self) -> bool
        ensures { result ≡ ((self.now.reader_done && is_whole self.now) || is_some self.now.reset_code) }
    {
        (self.reader_done && self.is_whole()) || self.is_reset
    }

    pub(crate) fn is_over(&self) -> bool
        ensures { result ≡ is_over self.now }
    {
        self.reader_done && (self.is_reset || self.is_whole())
    }

    #[tactic(auto, using(crate::proofs::RestLaws::whole_below))]
    fn is_whole(&self) -> bool
        ensures { result ≡ is_whole self.now }
    {
        self.is_sized && self.size <= self.received_end
    }
}

pub(crate) fn given(is_there: bool, number: u64) -> Option<u64>
    ensures { result ≡ given is_there number }
{
    if is_there { Some(number) } else { None }
}
