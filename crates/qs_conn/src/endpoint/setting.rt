//! What an application changes while the connection lasts. What the peer was given at first stays beside it: each sentence on first limits
//! speaks of that.
ghost use Rattle.std.specs.Prelude.{◌≡◌, true};
ghost use Rattle.qs_machine.specs.Setting.{ConnWindow, Grant, SendBuffer, StreamWindow, is_settable, no_half_to_set, with_setting};
ghost use Rattle.qs_machine.specs.EndStep.{EndStep, Set};

use super::Endpoint;
use crate::setup::is_between;
use qs_calls::SetFault;
use qs_wire::{Dir, StreamId};

impl Endpoint {
    /// Sets the connection's window (RFC 9000, section 4.1): how many bytes may be received on all streams beyond those consumed. A greater
    /// window raises the limit at once, even by less than a step; under a smaller one the limit stays until enough is consumed. No limit
    /// falls, and what the peer was given at first stays. Constant time, beside what any call looks at; it takes no memory.
    ///
    /// Refused, and then unchanged: `Closed`; `OutOfRange` below 1 and above 2^40.
    pub fn set_conn_window(&mut self, window: u64) -> Result<(), SetFault>
        ensures { EndStep self.old (Set (ConnWindow window)) result self.new }
    {
        if self.closed.is_some() {
            return Err(SetFault::Closed);
        }
        if !is_between(1, MAX_CONN_WINDOW, window) {
            return Err(SetFault::OutOfRange);
        }
        self.force_window(window);
        self.settle();
        Ok(())
    }

    /// Sets how many streams of a direction the peer may have open (RFC 9000, section 4.6). A greater grant permits more at once, beside
    /// those that ended, up to the lifetime's count; under a smaller one the count stays until enough ended. No count falls, and what the
    /// peer was given at first stays. Constant time, beside what any call looks at; it takes no memory.
    ///
    /// Refused, and then unchanged: `Closed`; `OutOfRange` above 2^17.
    pub fn set_grant(&mut self, dir: Dir, streams: u64) -> Result<(), SetFault>
        ensures { EndStep self.old (Set (Grant dir streams)) result self.new }
    {
        if self.closed.is_some() {
            return Err(SetFault::Closed);
        }
        if streams > MAX_GRANT {
            return Err(SetFault::OutOfRange);
        }
        self.force_grant(dir, streams);
        self.settle();
        Ok(())
    }

    /// Sets how many unacknowledged bytes the stream's sending half keeps at most, within the range of [`Settings::send_buffer`]. A stream
    /// that opens later begins with the setting. No byte that is kept goes, since it is promised to the reader: if more are kept, writes
    /// accept none until enough of them are acknowledged. Of a half that was finished or reset it changes the number alone.
    ///
    /// Refused, and then unchanged: `Closed`; `OutOfRange`; `NoSuchStream` or `WrongDirection` if the stream has no sending half.
    #[tactic(auto, using(crate::proofs::AckRuns::idle_with))]
    pub fn set_send_buffer(&mut self, stream: StreamId, size: usize) -> Result<(), SetFault>
        ensures { EndStep self.old (Set (SendBuffer stream size)) result self.new }
    {
        if self.closed.is_some() {
            return Err(SetFault::Closed);
        }
        if !is_between(1, 1 << 30, size as u64) {
            return Err(SetFault::OutOfRange);
        }
        if !self.core.outbox.is_open(stream) {
            return Err(no_half_to_set(self.core.recvs.is_open(stream)));
        }
        self.core.outbox.set_buffer(stream, size as u32);
        self.settle();
        Ok(())
    }

    /// Sets the window of the stream's receiving half (RFC 9000, section 4.1), within the range of [`Settings::uni`]: how many bytes may
    /// arrive beyond those consumed. A greater window raises the stream's limit at once, even by less than a step; under a smaller one the
    /// limit stays until enough is consumed. No limit falls, and none moves once the final size is known. A stream that opens later begins
    /// with the window that the peer was given at first. Constant time, beside what any call looks at; it takes no memory.
    ///
    /// Refused, and then unchanged: `Closed`; `OutOfRange` below 1 and above 2^30; `NoSuchStream` or `WrongDirection` if the stream has no
    /// receiving half.
    #[tactic(auto, using(crate::proofs::Cores::kept_moved))]
    pub fn set_stream_window(&mut self, stream: StreamId, size: u64) -> Result<(), SetFault>
        ensures { EndStep self.old (Set (StreamWindow stream size)) result self.new }
    {
        if self.closed.is_some() {
            return Err(SetFault::Closed);
        }
        if !is_between(1, MAX_STREAM_WINDOW, size) {
            return Err(SetFault::OutOfRange);
        }
        if !self.core.recvs.is_open(stream) {
            return Err(no_half_to_set(self.core.outbox.is_open(stream)));
        }
        self.core.set_window(stream, size);
        self.is_settled = false;
        self.settle();
        Ok(())
    }

    fn force_window(&mut self, window: u64)
        requires { is_settable (ConnWindow window) ≡ true }
        ensures { self.new ≡ with_setting (ConnWindow window) self.old }
    {
        let taken = self.core.recvs.tally().taken;
        self.core.limits.set_conn_window(window, taken);
        self.is_settled = false;
    }

    fn force_grant(&mut self, dir: Dir, streams: u64)
        requires { is_settable (Grant dir streams) ≡ true }
        ensures { self.new ≡ with_setting (Grant dir streams) self.old }
    {
        let ended = self.core.ended.of(dir);
        self.core.limits.set_grant(dir, streams, ended);
        self.is_settled = false;
    }
}

const MAX_CONN_WINDOW: u64 = 1 << 40;

const MAX_STREAM_WINDOW: u64 = 1 << 30;

const MAX_GRANT: u64 = 1 << 17;

fn no_half_to_set(other: bool) -> SetFault
    ensures { result ≡ no_half_to_set other }
{
    if other {
        SetFault::WrongDirection
    } else {
        SetFault::NoSuchStream
    }
}
