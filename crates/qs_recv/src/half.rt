//! The receiving half of a stream (RFC 9000, sections 2.2, 3.2, 3.5 and 4).
ghost use Rattle.std.specs.Prelude.{max, ◌≡◌, ◌+◌, ◌-◌, ◌*◌, ◌<◌, ◌≤◌, ◌++◌, length, drop, IsOk, IfOk, OnOk, OnErr, IfErr, IsTrue, is_some, false, None};
ghost use Rattle.std.specs.FinMap as map;
ghost use Rattle.qs_ranges.specs.Numbers.{MAX_VARINT, MissesRange, covers};
ghost use Rattle.qs_recv.specs.Lawful.{IsLawful};
ghost use Rattle.qs_recv.specs.Sound.{CodeFits};
ghost use Rattle.qs_recv.specs.News.{is_readable};
ghost use Rattle.qs_recv.specs.Lane.{new_lane, highest, highest_after, noted, taken, state, check_stream, check_bytes, take_stream, check_reset, take_reset, is_over, read_answer, bytes_read, after_read, stop, stop_and_discard, raise, raise_answer, set_window, MAX_WINDOW};
ghost use Rattle.qs_recv.specs.Changes.{stream_changes};
ghost use Rattle.qs_recv.specs.Peek.{IsPeek};
ghost use Rattle.qs_recv.specs.Room.{IsRoomOf};

use crate::assembly::{Assembly, Memory, Peeking, Skipping};
use crate::credit::Share;
use crate::live::LiveHalf;
use crate::over::Over;
use crate::rest::Rest;
use qs_ranges::NoMemory;
use std::alloc::Global;
use std::marker::Model;

/// Why data or a reset is refused. The half stays as it was. Each but NoMemory is an error of the peer; ChangedByte comes from
/// `check_bytes` alone, since it is judged after the connection's limit.
#[derive(Debug, Clone, Copy, PartialEq, Eq, Drop)]
pub enum RecvFault {
    /// Another final size is named, or one below what came, or data past it: FINAL_SIZE_ERROR (section 4.5).
    FinalSize,
    /// The stream's limit is exceeded: FLOW_CONTROL_ERROR (section 4.1).
    StreamCredit,
    NoMemory,
    /// Another byte stands at an offset that is still stored: PROTOCOL_VIOLATION (section 2.2).
    ChangedByte,
}

/// The highest offset of a stream before and after a frame: the final size if known, else one more than the largest offset received, or 0.
/// Both, so that the caller holds the growth against the connection's limit.
#[derive(Debug, Clone, Copy, PartialEq, Eq, Drop)]
pub struct Highest {
    pub before: u64,
    pub after: u64,
}

/// What is said of a STREAM frame in one look: whether its offsets and its end may be taken, with what that does to the highest offset; and
/// whether its bytes are those that are stored.
#[derive(Debug, Clone, Copy, PartialEq, Eq, Drop)]
pub struct Judged {
    pub stream: Result<Highest, RecvFault>,
    pub bytes: Result<(), RecvFault>,
}

/// What a half adds to the sums over all of them: the highest offset; what counts as consumed; how many bytes are stored; into how many
/// runs the received offsets fall, none after a reset or once all was read; and whether it was stopped, so that what arrives counts as
/// consumed. Sums are kept by differences of these, since a walk over all streams at each call would cost with their count.
#[derive(Debug, Clone, Copy, PartialEq, Eq, Drop)]
pub struct Sizes {
    pub spent: u64,
    pub taken: u64,
    pub stored: u64,
    pub noted: u64,
    pub is_stopped: bool,
}

#[derive(Debug, Clone, Copy, PartialEq, Eq, Drop)]
pub struct Standing {
    pub is_readable: bool,
    pub has_ended: bool,
}

/// What a read returns: so many bytes were read, all data was read, the stream was reset with a code, or nothing is next.
#[derive(Debug, Clone, Copy, PartialEq, Eq, Drop)]
pub enum Read {
    Bytes(usize),
    End,
    Reset(u64),
    Wait,
}

/// What a look at a stream shows, without reading: the next bytes, in one piece of memory or two; that all data was read; that the stream
/// was reset with a code; or that nothing is next.
#[derive(Debug, Clone, Copy, PartialEq, Eq)]
pub enum Peek<'a> {
    Bytes(&'a [u8], &'a [u8]),
    End,
    Reset(u64),
    Wait,
}

#[derive(Debug, Clone, Copy, PartialEq, Eq, Drop)]
pub enum RecvState {
    Recv,
    SizeKnown,
    DataRecvd,
    DataRead,
    ResetRecvd,
    ResetRead,
}

/// The receiving half of a stream, over any assembly. Offsets and sizes count bytes from the start of the stream.
///
/// A half is kept until its connection ends, so what one takes that is over counts for every stream that ever was. Its record has 24 bytes.
/// One that was read to its end stands in it. One that was reset, and one that was stopped and has no gap, takes a box of 64 bytes beside;
/// and one that may store bytes a larger one, with its assembly.
#[derive(Drop)]
pub struct RecvHalf<A: Assembly> {
    alloc: Global,
    parts: Parts<A>,
}

#[derive(Drop)]
enum Parts<A: Assembly> {
    Kept(Kept),
    Live(Box<LiveHalf<A>>),
}

// An enum of its own, so that a half that may store bytes, the one of nearly each call, is found by one comparison.
#[derive(Drop)]
enum Kept {
    Over(Over),
    Rest(Box<Rest>),
}

impl<A: Assembly> Model for RecvHalf<A> {
    ghost use Rattle.qs_recv.specs.Lane.{RecvLane};
    ghost use Rattle.qs_recv.specs.Codes.{lane_code};
    ghost use Rattle.qs_recv.specs.Parts.{lane_of};

    ghost Value = { RecvLane };

    ghost coded = { lane_code };

    ghost view = { λ h. lane_of h.parts };
}

impl<A: Assembly> RecvHalf<A> {
    /// A half that grants `window` bytes beyond what was consumed, and moves its limit by such a share of these. Its box is taken at once,
    /// so that a reset never needs memory: `take_reset` has no error for it.
    pub fn new(alloc: Global, window: u64, share: Share) -> Result<Self, NoMemory>
        requires some { 1 ≤ window }
        requires small { window ≤ MAX_WINDOW }
        ensures { IfOk result (λ half. half ≡ new_lane window share) }
    {
        let rest = Rest::new(window, share);
        let fresh: LiveHalf<A> = LiveHalf::revived(alloc, &rest);
        let Ok(boxed) = Box::new(alloc, fresh) else {
            return Err(NoMemory);
        };
        Ok(RecvHalf {
            alloc,
            parts: Parts::Live(boxed),
        })
    }

    /// What is said of a STREAM frame by a half that received nothing: of a stream that the frame would open, before it opens. It takes no
    /// memory.
    pub fn judge_first(alloc: Global, window: u64, offset: u64, bytes: &[u8], fin: bool) -> Judged
        requires some { 1 ≤ window }
        requires small { window ≤ MAX_WINDOW }
        requires in_range { offset + length bytes.now ≤ MAX_VARINT }
        ensures stream { result.stream ≡ check_stream (new_lane window Share.Half) offset (length bytes.now) fin }
        ensures bytes { result.bytes ≡ check_bytes (new_lane window Share.Half) offset bytes.now }
        ensures in_range { IfOk result.stream (λ h. h.after ≤ MAX_VARINT) }
    {
        let rest = Rest::new(window, Share::Half);
        let fresh: LiveHalf<A> = LiveHalf::revived(alloc, &rest);
        fresh.judge(offset, bytes, fin)
    }

    /// Whether a half that received nothing may take a RESET_STREAM. It takes no memory.
    pub fn check_first_reset(alloc: Global, window: u64, size: u64) -> Result<Highest, RecvFault>
        requires some { 1 ≤ window }
        requires small { window ≤ MAX_WINDOW }
        requires in_range { size ≤ MAX_VARINT }
        ensures { result ≡ check_reset (new_lane window Share.Half) size }
    {
        let rest = Rest::new(window, Share::Half);
        let fresh: LiveHalf<A> = LiveHalf::revived(alloc, &rest);
        fresh.check_reset(size)
    }

    /// Whether a STREAM frame may be taken, and what it does to the highest offset. The final size is tested before the limit.
    pub fn check_stream(&self, offset: u64, len: u64, fin: bool) -> Result<Highest, RecvFault>
        requires { offset + len ≤ MAX_VARINT }
        ensures value { result ≡ check_stream self.now offset len fin }
        ensures in_range { IfOk result (λ h. h.after ≤ MAX_VARINT) }
    {
        match &self.parts {
            Parts::Kept(Kept::Over(over)) => self
                .revived(&over.rest())
                .check_stream(offset, len, fin),
            Parts::Kept(Kept::Rest(rest)) => self.revived(rest).check_stream(offset, len, fin),
            Parts::Live(live) => live.check_stream(offset, len, fin),
        }
    }

    /// Whether a STREAM frame's bytes are those that are stored at their offsets, as far as some still are. It takes no memory.
    #[tactic(auto, using(crate::proofs::RingLaws::same_empty))]
    pub fn check_bytes(&self, offset: u64, bytes: &[u8]) -> Result<(), RecvFault>
        requires { offset + length bytes.now ≤ MAX_VARINT }
        ensures { result ≡ check_bytes self.now offset bytes.now }
    {
        match &self.parts {
            Parts::Kept(Kept::Over(over)) => {
                over.is_over();
                Ok(())
            }
            Parts::Kept(Kept::Rest(rest)) => {
                let _none = rest.stored();
                Ok(())
            }
            Parts::Live(live) => live.check_bytes(offset, bytes),
        }
    }

    /// What is said of a STREAM frame: whether it may be taken, with the final size tested before the limit, and whether its bytes are
    /// those that are stored. A caller with a limit of its own tests that in between. It takes no memory.
    #[inline(always)]
    pub fn judge(&self, offset: u64, bytes: &[u8], fin: bool) -> Judged
        requires { offset + length bytes.now ≤ MAX_VARINT }
        ensures stream { result.stream ≡ check_stream self.now offset (length bytes.now) fin }
        ensures bytes { result.bytes ≡ check_bytes self.now offset bytes.now }
        ensures in_range { IfOk result.stream (λ h. h.after ≤ MAX_VARINT) }
    {
        match &self.parts {
            Parts::Kept(_) => Judged {
                stream: self.check_stream(offset, bytes.len() as u64, fin),
                bytes: self.check_bytes(offset, bytes),
            },
            Parts::Live(live) => live.judge(offset, bytes, fin),
        }
    }

    /// Whether a STREAM frame that passed both checks would change the half: it names the final size first, or brings a new offset, and no
    /// reset came.
    pub fn stream_changes(&self, offset: u64, len: u64, fin: bool) -> bool
        requires { offset + len ≤ MAX_VARINT }
        ensures { result ≡ stream_changes self.now offset len fin }
    {
        match &self.parts {
            Parts::Kept(Kept::Over(over)) => self
                .revived(&over.rest())
                .stream_changes(offset, len, fin),
            Parts::Kept(Kept::Rest(rest)) => self.revived(rest).stream_changes(offset, len, fin),
            Parts::Live(live) => live.stream_changes(offset, len, fin),
        }
    }

    /// Takes a STREAM frame that passed both checks. The only error is NoMemory. After a reset or a stop its bytes are counted and
    /// discarded.
    #[tactic(auto, using(crate::proofs::RestLaws::over_stream, crate::proofs::RestLaws::over_grown))]
    pub fn take_stream(&mut self, offset: u64, bytes: &[u8], fin: bool) -> Result<(), RecvFault>
        requires in_range { offset + length bytes.now ≤ MAX_VARINT }
        requires passed { IsOk (check_stream self.old offset (length bytes.now) fin) }
        requires unchanged { IsOk (check_bytes self.old offset bytes.now) }
        ensures taken { OnOk result (self.new ≡ take_stream self.old offset bytes.now fin) }
        ensures grown { OnOk result (highest self.new ≡ highest_after self.old offset (length bytes.now) fin) }
        ensures refused { IfErr result (λ fault. (fault ≡ RecvFault.NoMemory) × (self.new ≡ self.old)) }

        // Memory is taken only for bytes of which one is new, after a stop only if no offset at or beside it was received, and after a
        // reset never.
        ensures open { OnErr result (self.old.reset_code ≡ None) }
        ensures news { OnErr result (covers self.old.arrived.received offset (offset + length bytes.now) ≡ false) }
        ensures apart { OnErr result (IsTrue (is_some self.old.stop_code)
            → MissesRange self.old.arrived.received (offset - 1) (offset + length bytes.now + 1)) }
    {
        match &mut self.parts {
            Parts::Kept(Kept::Over(over)) => {
                over.is_over();
                Ok(())
            }
            Parts::Kept(Kept::Rest(rest)) => {
                if rest.takes(offset, bytes, fin) {
                    return Ok(());
                }
                let mut live: LiveHalf<A> = LiveHalf::revived(self.alloc, rest);
                live.take_stream(offset, bytes, fin)?;
                let Ok(boxed) = Box::new(self.alloc, live) else {
                    return Err(RecvFault::NoMemory);
                };
                self.parts = Parts::Live(boxed);
                Ok(())
            }
            Parts::Live(live) => {
                live.take_stream(offset, bytes, fin)?;
                self.settle();
                Ok(())
            }
        }
    }

    pub fn check_reset(&self, size: u64) -> Result<Highest, RecvFault>
        requires { size ≤ MAX_VARINT }
        ensures { result ≡ check_reset self.now size }
    {
        match &self.parts {
            Parts::Kept(Kept::Over(over)) => self.revived(&over.rest()).check_reset(size),
            Parts::Kept(Kept::Rest(rest)) => self.revived(rest).check_reset(size),
            Parts::Live(live) => live.check_reset(size),
        }
    }

    /// Takes a RESET_STREAM frame that passed the check: what is stored is discarded, and so is what was noted of the received offsets, for
    /// which nothing asks any more. Once all data arrived, or after another reset, nothing changes.
    #[tactic(auto, using(crate::proofs::RestLaws::over_reset, crate::proofs::RestLaws::over_size))]
    pub fn take_reset(&mut self, code: u64, size: u64)
        requires in_range { size ≤ MAX_VARINT }
        requires passed { IsOk (check_reset self.old size) }
        ensures after { self.new ≡ take_reset self.old code size }
        ensures grown { highest self.new ≡ size }
    {
        match &mut self.parts {
            Parts::Kept(Kept::Over(over)) => over.is_over(),
            Parts::Kept(Kept::Rest(rest)) => rest.take_reset(code, size),
            Parts::Live(live) => {
                let Some(rest) = live.reset(code, size) else {
                    return;
                };
                live.let_go(self.alloc, &rest);
                if let Ok(boxed) = Box::new(self.alloc, rest) {
                    self.parts = Parts::Kept(Kept::Rest(boxed));
                }
            }
        }
    }

    /// Reads the next bytes into the slice's front, or says how the stream stands. The rest of the slice stays.
    #[tactic(auto, using(crate::proofs::RestLaws::over_read, crate::proofs::RestLaws::over_bytes, crate::proofs::RestLaws::over_after_read))]
    pub fn read(&mut self, into: &mut [u8]) -> Read
        ensures answer { result ≡ read_answer self.old (length into.old) }
        ensures bytes { let bytes = bytes_read self.old (length into.old) in into.new ≡ bytes ++ drop (length bytes) into.old }
        ensures after { self.new ≡ after_read self.old (length into.old) }
        ensures same_highest { highest self.new ≡ highest self.old }
    {
        let answer = match &mut self.parts {
            Parts::Kept(Kept::Over(over)) => {
                over.is_over();
                Read::End
            }
            Parts::Kept(Kept::Rest(rest)) => rest.read(),
            Parts::Live(live) => live.read(into),
        };
        if matches!(answer, Read::End) {
            self.end();
        }
        answer
    }

    /// Discards the stored bytes, and those that arrive from now on (section 3.5). The first code stays; a code is at most 2^62 - 1, so
    /// that a frame can carry it. Once the end or a reset was read it changes nothing, so that a half that is over keeps no code.
    #[tactic(auto, using(crate::proofs::RestLaws::over_stop))]
    pub fn stop(&mut self, code: u64)
        requires { code ≤ MAX_VARINT }
        ensures after { self.new ≡ stop self.old code }
        ensures same_highest { highest self.new ≡ highest self.old }
    {
        match &mut self.parts {
            Parts::Kept(Kept::Over(over)) => over.is_over(),
            Parts::Kept(Kept::Rest(rest)) => rest.stop(code),
            Parts::Live(live) => live.stop(code),
        }
    }

    /// Stops it for a reader that won't ask again: it counts as read to its end as soon as that or a reset comes (sections 3.2 and 3.5).
    #[tactic(auto, using(crate::proofs::RestLaws::over_forget))]
    pub fn stop_and_discard(&mut self, code: u64)
        requires { code ≤ MAX_VARINT }
        ensures after { self.new ≡ stop_and_discard self.old code }
        ensures same_highest { highest self.new ≡ highest self.old }
    {
        match &mut self.parts {
            Parts::Kept(Kept::Over(over)) => over.is_over(),
            Parts::Kept(Kept::Rest(rest)) => rest.stop_and_discard(code),
            Parts::Live(live) => live.stop_and_discard(code),
        }
    }

    /// Raises the limit by what was consumed, once that is the half's share of its window or more, and returns the new one if it rose
    /// (section 4.2). Once the final size is known it stays, since nobody needs it.
    #[tactic(auto, using(crate::proofs::RestLaws::over_raise))]
    pub fn raise(&mut self) -> Option<u64>
        ensures answer { result ≡ raise_answer self.old }
        ensures after { self.new ≡ raise self.old }
    {
        match &mut self.parts {
            Parts::Kept(Kept::Over(over)) => {
                over.is_over();
                None
            }
            Parts::Kept(Kept::Rest(rest)) => rest.raise(),
            Parts::Live(live) => live.raise(),
        }
    }

    /// Whether `raise` would raise the limit.
    #[tactic(auto, using(crate::proofs::RestLaws::over_raise))]
    pub fn rises(&self) -> bool
        ensures { result ≡ is_some (raise_answer self.now) }
    {
        match &self.parts {
            Parts::Kept(Kept::Over(over)) => {
                over.is_over();
                false
            }
            Parts::Kept(Kept::Rest(rest)) => rest.limit() < rest.raised_limit(),
            Parts::Live(live) => live.limit() < live.raised_limit(),
        }
    }

    /// Sets another window (section 4.2): a greater one raises the limit at once, even by less than the half's share, and under a smaller
    /// one the limit stays until enough is consumed. Once the final size is known it stays.
    pub fn set_window(&mut self, window: u64)
        requires some { 1 ≤ window }
        requires small { window ≤ MAX_WINDOW }
        ensures after { self.new ≡ set_window self.old window }
        ensures same_highest { highest self.new ≡ highest self.old }
    {
        match &mut self.parts {
            Parts::Kept(Kept::Over(over)) => over.set_window(window),
            Parts::Kept(Kept::Rest(rest)) => rest.set_window(window),
            Parts::Live(live) => live.set_window(window),
        }
    }

    pub fn sizes(&self) -> Sizes
        ensures spent { result.spent ≡ highest self.now }
        ensures taken { result.taken ≡ taken self.now }
        ensures stored { result.stored ≡ map.len self.now.arrived.stored }
        ensures noted { result.noted ≡ noted self.now }
        ensures stopped { result.is_stopped ≡ is_some self.now.stop_code }
        ensures small { result.spent ≤ MAX_VARINT }
        ensures paid { result.stored + result.taken ≤ result.spent }
        ensures few { result.noted ≤ result.spent }
        ensures lawful { IsLawful self.now }
    {
        match &self.parts {
            Parts::Kept(Kept::Over(over)) => over.rest().sizes(),
            Parts::Kept(Kept::Rest(rest)) => rest.sizes(),
            Parts::Live(live) => live.sizes(),
        }
    }

    /// What holds of every half. It does nothing: a caller learns the clause.
    pub fn learn_lawful(&self)
        ensures { IsLawful self.now }
    {
        let _sizes = self.sizes();
    }

    /// Whether a read of one byte would return something new: bytes, or the end or a reset that wasn't read yet; and whether either was. Of
    /// a stopped half only the end and a reset are read (sections 2.2, 3.2 and 3.5). Both in one look, for the marks of all streams.
    #[inline(always)]
    pub fn standing(&self) -> Standing
        ensures readable { result.is_readable ≡ is_readable self.now }
        ensures ended { result.has_ended ≡ is_over self.now }
    {
        match &self.parts {
            Parts::Kept(Kept::Over(over)) => over.rest().standing(),
            Parts::Kept(Kept::Rest(rest)) => rest.standing(),
            Parts::Live(live) => live.standing(),
        }
    }

    /// Whether the end or a reset was read: Data Read and Reset Read (section 3.2).
    pub fn has_ended(&self) -> bool
        ensures { result ≡ is_over self.now }
    {
        match &self.parts {
            Parts::Kept(Kept::Over(over)) => over.rest().is_over(),
            Parts::Kept(Kept::Rest(rest)) => rest.is_over(),
            Parts::Live(live) => live.is_over(),
        }
    }

    pub fn limit(&self) -> u64
        ensures value { result ≡ self.now.limit }
        ensures small { result ≤ MAX_VARINT }
    {
        match &self.parts {
            Parts::Kept(Kept::Over(over)) => over.rest().limit(),
            Parts::Kept(Kept::Rest(rest)) => rest.limit(),
            Parts::Live(live) => live.limit(),
        }
    }

    /// How long the stream is, if that is known (section 4.5).
    pub fn final_size(&self) -> Option<u64>
        ensures { result ≡ self.now.final_size }
    {
        match &self.parts {
            Parts::Kept(Kept::Over(over)) => over.rest().final_size(),
            Parts::Kept(Kept::Rest(rest)) => rest.final_size(),
            Parts::Live(live) => live.final_size(),
        }
    }

    /// Whether its reader knows all there is: the end or a reset was read, or it was stopped and forgotten.
    pub fn is_told(&self) -> bool
        ensures { result ≡ self.now.reader_done }
    {
        match &self.parts {
            Parts::Kept(Kept::Over(over)) => over.rest().is_told(),
            Parts::Kept(Kept::Rest(rest)) => rest.is_told(),
            Parts::Live(live) => live.is_told(),
        }
    }

    /// The state by what arrived and what was read (section 3.2).
    pub fn state(&self) -> RecvState
        ensures { result ≡ state self.now }
    {
        match &self.parts {
            Parts::Kept(Kept::Over(over)) => over.rest().state(),
            Parts::Kept(Kept::Rest(rest)) => rest.state(),
            Parts::Live(live) => live.state(),
        }
    }

    /// Whether a read of one byte would return something new: bytes, or the end or a reset that wasn't read yet. Of a stopped half only the
    /// end and a reset are read (sections 2.2, 3.2 and 3.5).
    pub fn is_readable(&self) -> bool
        ensures { result ≡ is_readable self.now }
    {
        match &self.parts {
            Parts::Kept(Kept::Over(over)) => over.rest().standing().is_readable,
            Parts::Kept(Kept::Rest(rest)) => rest.standing().is_readable,
            Parts::Live(live) => live.standing().is_readable,
        }
    }

    /// How many bytes of memory it takes to store some, as the assembly counts them: at most 4,096, or while some are stored four times the
    /// highest offset less what was consumed; none once the end was read, or if bytes are discarded. The assembly stands beside, so
    /// that it is known whose memory this is.
    pub fn held(&self) -> Memory<'_, A>
        ensures exact { IsRoomOf A.holds A.size self.now result.assembly result.bytes }
        ensures room { map.len self.now.arrived.stored ≤ result.bytes }
        ensures least { 0 < map.len self.now.arrived.stored → A.least self.now.arrived ≤ result.bytes }
        ensures bound { result.bytes ≤ max 4096 (4 * (highest self.now - taken self.now)) }
        ensures idle { map.len self.now.arrived.stored ≡ 0 → result.bytes ≤ 4096 }
        ensures over { IsTrue self.now.reader_done → result.bytes ≡ 0 }
        ensures gone { IsTrue self.now.arrived.discarding → result.bytes ≡ 0 }
    {
        match &self.parts {
            Parts::Kept(Kept::Over(over)) => Memory {
                bytes: over.rest().stored(),
                assembly: None,
            },
            Parts::Kept(Kept::Rest(rest)) => Memory {
                bytes: rest.stored(),
                assembly: None,
            },
            Parts::Live(live) => live.held(),
        }
    }

    pub fn read_count(&self) -> u64
        ensures { result ≡ self.now.arrived.read_count }
    {
        match &self.parts {
            Parts::Kept(Kept::Over(over)) => over.rest().read_count(),
            Parts::Kept(Kept::Rest(rest)) => rest.read_count(),
            Parts::Live(live) => live.read_count(),
        }
    }

    pub fn stop_code(&self) -> Option<u64>
        ensures value { result ≡ self.now.stop_code }
        ensures small { CodeFits result }
    {
        match &self.parts {
            Parts::Kept(Kept::Over(over)) => over.rest().stop_code(),
            Parts::Kept(Kept::Rest(rest)) => rest.stop_code(),
            Parts::Live(live) => live.stop_code(),
        }
    }

    pub fn reset_code(&self) -> Option<u64>
        ensures { result ≡ self.now.reset_code }
    {
        match &self.parts {
            Parts::Kept(Kept::Over(over)) => over.rest().reset_code(),
            Parts::Kept(Kept::Rest(rest)) => rest.reset_code(),
            Parts::Live(live) => live.reset_code(),
        }
    }

    // Its box is freed: a half that is over stands in its record.
    #[inline(never)]
    fn end(&mut self)
        ensures { self.new ≡ self.old }
    {
        let over = match &self.parts {
            Parts::Kept(Kept::Over(_)) => None,
            Parts::Kept(Kept::Rest(rest)) => rest.over(),
            Parts::Live(live) => live.over(),
        };
        if let Some(over) = over {
            self.parts = Parts::Kept(Kept::Over(over));
        }
    }

    // Without an assembly, if no offset is missing. If the smaller box is refused the larger one stays, and no answer shows it.
    fn settle(&mut self)
        ensures { self.new ≡ self.old }
    {
        let Parts::Live(live) = &self.parts else {
            return;
        };
        if live.is_done() {
            self.settle_apart();
        }
    }

    // Seldom called, and apart so that the other is small.
    #[inline(never)]
    fn settle_apart(&mut self)
        ensures { self.new ≡ self.old }
    {
        let Parts::Live(live) = &self.parts else {
            return;
        };
        let Some(rest) = live.rested() else {
            return;
        };
        if let Ok(boxed) = Box::new(self.alloc, rest) {
            self.parts = Parts::Kept(Kept::Rest(boxed));
        }
    }

    // Made on the stack for a question that needs one, so that a half at rest is defined once.
    fn revived(&self, rest: &Rest) -> LiveHalf<A>
        ensures { result ≡ rest.now }
    {
        LiveHalf::revived(self.alloc, rest)
    }
}

impl<A: Peeking> RecvHalf<A> {
    /// What a read with room enough would return, and changes nothing: the next bytes stay where they are, all of them, up to the first
    /// that is missing.
    #[tactic(auto, using(crate::proofs::RestLaws::over_read))]
    pub fn peek(&self) -> Peek<'_>
        ensures { IsPeek self.now result }
    {
        match &self.parts {
            Parts::Kept(Kept::Over(over)) => {
                over.is_over();
                Peek::End
            }
            Parts::Kept(Kept::Rest(rest)) => rest.peek(),
            Parts::Live(live) => live.peek(),
        }
    }
}

impl<A: Skipping> RecvHalf<A> {
    /// Takes the next bytes, as a read into a slice of so many bytes does, and copies none; or says how the stream stands.
    #[tactic(auto, using(crate::proofs::RestLaws::over_read, crate::proofs::RestLaws::over_after_read))]
    pub fn skip(&mut self, most: usize) -> Read
        ensures answer { result ≡ read_answer self.old most }
        ensures after { self.new ≡ after_read self.old most }
        ensures same_highest { highest self.new ≡ highest self.old }
    {
        let answer = match &mut self.parts {
            Parts::Kept(Kept::Over(over)) => {
                over.is_over();
                Read::End
            }
            Parts::Kept(Kept::Rest(rest)) => rest.read(),
            Parts::Live(live) => live.skip(most),
        };
        if matches!(answer, Read::End) {
            self.end();
        }
        answer
    }
}
