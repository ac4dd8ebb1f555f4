//! What of an endpoint is an event for its application. It is searched as things are, so no queue can fill up.
ghost use Rattle.std.specs.Prelude.{◌≡◌, ◌<◌, ◌≤◌, ◌↔◌, IsTrue, true, false, is_some, ℕ, None, Some, IfSome, ◌^◌};
ghost use Rattle.qs_send.specs.Lane.{SendLane};
ghost use Rattle.qs_machine.specs.Tables.{lookup};
ghost use Rattle.qs_machine.specs.Asking.{all_unsent, credit_left, room, stopped_with};
ghost use Rattle.qs_machine.specs.Credit.{send_ended};
ghost use Rattle.qs_machine.specs.Ends.{recv_lane};
ghost use Rattle.qs_machine.specs.Heard.{Hearing, IsNextOpened, MayOpen, is_cut_short, is_met, limit_to_tell, WasResetAcked, is_told, wants};
ghost use Rattle.qs_machine.specs.News.{IsLeast, IsReadable, IsHeld};
ghost use Rattle.qs_conn.specs.ByDir.{IsFirstDir};
ghost use Rattle.qs_conn.specs.Hearing.{next_of_peer};
ghost use Rattle.qs_conn.specs.Sending.{TakesAlone};

use super::Endpoint;
use crate::by_dir::ByDir;
use crate::recv_marks::RecvTask;
use crate::send_marks::{Search, Task};
use crate::told_streams::ToldStreams;
use qs_calls::MAX_VARINT;
use qs_streams::{index_of, lesser, type_of};
use qs_wire::{Dir, StreamId};

impl Endpoint {
    /// A count for each direction is enough: streams of the peer open in order.
    #[tactic(auto, using(crate::proofs::Hearing::least_opened))]
    pub(crate) fn next_opened(&self, heard: ByDir<u64>) -> Option<StreamId>
        ensures { (h : Hearing) → h.opened_bidi ≡ heard.bidi → h.opened_uni ≡ heard.uni → IsLeast (IsNextOpened self.now h) 0 result }
    {
        let bidi = self.next_opened_of(Dir::Bidi, heard.bidi);
        lesser(bidi, self.next_opened_of(Dir::Uni, heard.uni))
    }

    fn next_opened_of(&self, dir: Dir, heard: u64) -> Option<u64>
        ensures value { result ≡ next_of_peer self.now dir heard }
        ensures small { IfSome result (λ n. n < 2 ^ 62) }
    {
        let stream_type = self.peer_type(dir);
        if heard >= self.opened_count(stream_type) as u64 {
            return None;
        }
        Some(heard * 4 + stream_type as u64)
    }

    pub(crate) fn next_readable_untold(&self, told: &ToldStreams) -> Option<StreamId>
        ensures { IsLeast (λ n. IsReadable self.now n × (is_told told.now n ≡ false)) 0 result }
    {
        if self.is_read_no_more() {
            return None;
        }
        self.core.recvs.next_untold(RecvTask::Readable, told)
    }

    /// Of those of which a write was cut short: others nobody waits for.
    #[inline(always)]
    pub(crate) fn next_writable_of(&self, short: &ToldStreams) -> Option<StreamId>
        ensures { IsLeast (λ n. (0 < room self.now n) × (is_told short.now n ≡ true)) 0 result }
    {
        // Mostly no write was cut short.
        if !short.may_have() {
            return None;
        }
        if self.takes_nothing() {
            return None;
        }
        if self.core.limits.tuning.within_credit {
            let search = Search {
                task: Task::Funded,
                is_told: true,
            };
            return self.core.outbox.next_sought(search, short);
        }
        let search = Search {
            task: Task::Writable,
            is_told: true,
        };
        self.core.outbox.next_sought(search, short)
    }

    // What holds all streams back is asked once, and not of each stream.
    fn takes_nothing(&self) -> bool
        ensures none { result ≡ true → (n : ℕ) → 0 < room self.now n → ⊥ }
        ensures some { result ≡ false → (n : ℕ) → IsHeld (TakesAlone self.now) self.now.sends n → 0 < room self.now n }
    {
        if self.closed.is_some() {
            return true;
        }
        if self.is_credit_used_up() {
            return true;
        }
        match self.window_left() {
            Some(left) => left == 0,
            None => false,
        }
    }

    fn is_credit_used_up(&self) -> bool
        ensures { IsTrue result ↔ ((self.now.tuning.within_credit ≡ true) × (credit_left self.now ≤ all_unsent self.now)) }
    {
        self.core.limits.tuning.within_credit && self.credit_left() <= self.unsent_sum()
    }

    pub(crate) fn next_stopped_untold(&self, told: &ToldStreams) -> Option<StreamId>
        ensures { IsLeast (λ n. (is_some (stopped_with self.now n) ≡ true) × (is_told told.now n ≡ false)) 0 result }
    {
        let search = Search {
            task: Task::Stopped,
            is_told: false,
        };
        self.core.outbox.next_sought(search, told)
    }

    pub(crate) fn next_sent_untold(&self, told: &ToldStreams) -> Option<StreamId>
        ensures { IsLeast (λ n. IsHeld (λ l. send_ended l ≡ true) self.now.sends n × (is_told told.now n ≡ false)) 0 result }
    {
        let search = Search {
            task: Task::Ended,
            is_told: false,
        };
        self.core.outbox.next_sought(search, told)
    }

    /// Of the directions in which an open was blocked: others nobody waits for.
    pub(crate) fn next_available(&self, wanted: ByDir<bool>) -> Option<Dir>
        ensures { (h : Hearing) → h.wants_bidi ≡ wanted.bidi → h.wants_uni ≡ wanted.uni → IsFirstDir (λ d. MayOpen self.now d × (wants h d ≡ true)) result }
    {
        if self.closed.is_some() {
            return None;
        }
        if wanted.bidi && self.open_left(Dir::Bidi) > 0 {
            return Some(Dir::Bidi);
        }
        if wanted.uni && self.open_left(Dir::Uni) > 0 {
            return Some(Dir::Uni);
        }
        None
    }

    pub(crate) fn is_closed(&self) -> bool
        ensures { result ≡ is_some self.now.closed }
    {
        self.closed.is_some()
    }

    /// A limit that rose since doesn't hold the peer back, and one of a stream whose length is known never will.
    pub(crate) fn is_met(&self, stream: StreamId, named: u64) -> bool
        ensures { result ≡ is_met (limit_to_tell (recv_lane self.now stream)) named }
    {
        match self.core.recvs.limit_to_tell(stream) {
            Some(limit) => limit <= named,
            None => false,
        }
    }

    pub(crate) fn is_readable(&self, stream: StreamId) -> bool
        ensures { IsTrue result ↔ IsReadable self.now stream }
    {
        if self.is_read_no_more() {
            return false;
        }
        let readable = self.core.recvs.marks(RecvTask::Readable, type_of(stream));
        readable.has(index_of(stream))
    }

    pub(crate) fn was_reset_acked(&self, stream: StreamId) -> bool
        ensures reset { result ≡ true → IsHeld WasResetAcked self.now.sends stream }
        ensures not { result ≡ false → (l : SendLane) → lookup self.now.sends stream ≡ Some l → l.reset_acked ≡ false }
    {
        self.core.outbox.is_reset_acked(stream)
    }

    /// Asked before a write, since afterwards nobody knows what was offered.
    #[tactic(auto, using(crate::proofs::Hearing::cut_past))]
    pub(crate) fn is_cut_short(&self, stream: StreamId, len: usize) -> bool
        ensures { result ≡ is_cut_short self.now stream len }
    {
        // No buffer has room for as many bytes as there are offsets, so of such a write the half isn't looked at.
        self.core.outbox.is_open(stream)
            && (len as u64 > MAX_VARINT || self.room(stream) < len as u64)
    }
}
