ghost use Rattle.std.specs.Prelude.{◌≡◌, ◌≤◌, ◌<◌, ◌^◌, ◌/◌, ◌↔◌, IsTrue, ℕ, Bool, IfSome, IfNone, true, false};
ghost use Rattle.qs_ranges.specs.Numbers.{MAX_VARINT};
ghost use Rattle.qs_send.specs.Lane.{SendLane, Sending};
ghost use Rattle.qs_machine.specs.Tables.{lookup, type_of};
ghost use Rattle.qs_machine.specs.Sums.{or_none};
ghost use Rattle.qs_machine.specs.Ends.{End};
ghost use Rattle.qs_machine.specs.News.{IsLeast, IsHeld};
ghost use Rattle.qs_machine.specs.Heard.{is_told};
ghost use Rattle.qs_conn.specs.Marks.{IsBefore, is_marked};
ghost use Rattle.qs_conn.specs.Ended.{send_over};
ghost use Rattle.qs_conn.specs.Sending.{IsDueOf, MayWrite};
ghost use Rattle.qs_conn.specs.Tasks.{HasTaskAt, IsOpen, IsQuietAt, has};
ghost use Rattle.qs_machine.specs.Outgoing.{IsAckedOut, IsAckedReset, IsBlockedAt, WantsMore, reset_by, with_outgoing};

use super::halves::{half_of, is_open, marks, may_have, next_sought_of, next_with};
use super::{Outbox, halves};
use crate::marks::Marks;
use crate::send_marks::{Search, Task};
use crate::told_streams::ToldStreams;
use qs_send::{Item, Reset, SendState};
use qs_streams::least_stream;
use qs_wire::StreamId;

impl Outbox {
    pub(crate) fn is_acked(&self, item: Item) -> bool
        ensures { IsTrue result ↔ IsAckedOut self.now item }
    {
        if let Item::ResetStream { stream, .. } = item {
            return self.is_reset_acked(stream);
        }
        self.told.is_acked(item)
    }

    pub(crate) fn is_reset_acked(&self, stream: StreamId) -> bool
        ensures { IsTrue result ↔ IsAckedReset (lookup self.now.sends stream) }
    {
        let Some(half) = self.half(stream) else {
            return false;
        };
        matches!(half.state(), SendState::ResetRecvd)
    }

    /// With values that a frame can carry, so that the writer below can't fail.
    pub(crate) fn reset_of(&self, stream: StreamId) -> Option<Reset>
        ensures value { result ≡ (or_none (lookup self.now.sends stream)).was_reset }
        ensures small { IfSome result (λ r. (r.code ≤ MAX_VARINT) × (r.size ≤ MAX_VARINT)) }
    {
        let half = self.half(stream)?;
        reset_by(half.reset_code(), half.final_size())
    }

    /// With a value that a frame can carry.
    pub(crate) fn blocked_at(&self, stream: StreamId) -> Option<u64>
        ensures found { IfSome result (IsBlockedAt (lookup self.now.sends stream)) }
        ensures none { IfNone result ((m : ℕ) → IsBlockedAt (lookup self.now.sends stream) m → ⊥) }
        ensures small { IfSome result (λ limit. limit ≤ MAX_VARINT) }
    {
        let half = self.half(stream)?;
        if let Some(_code) = half.reset_code() {
            return None;
        }
        let limit = half.limit();
        if half.written() <= limit {
            return None;
        }
        if half.sent_end() != limit {
            return None;
        }
        Some(limit)
    }

    pub(crate) fn wants_more(&self, stream: StreamId) -> bool
        ensures { IsTrue result ↔ WantsMore (lookup self.now.sends stream) }
    {
        let Some(half) = self.half(stream) else {
            return false;
        };
        if let Some(_code) = half.reset_code() {
            return false;
        }
        half.sent_end() < half.written().min(half.limit())
    }

    pub(crate) fn may_have(&self, task: Task) -> bool
        ensures { result ≡ false → (n : ℕ) → IsQuietAt task self.now n }
    {
        may_have(&self.types, task)
    }

    /// The least number from one on of a stream that has a task. The streams between have none of it.
    pub(crate) fn next_marked(&self, task: Task, from: u64) -> Option<StreamId>
        requires { from ≤ 2 ^ 62 }
        ensures from { IfSome result (λ n. from ≤ n) }
        ensures has { IfSome result (HasTaskAt task self.now) }
        ensures quiet { (n : ℕ) → from ≤ n → IsBefore n result → IsQuietAt task self.now n }
    {
        if !may_have(&self.types, task) {
            return None;
        }
        let Some(stream) = next_with(&self.types, task, from) else {
            return None;
        };
        halves::learn_lawful(&self.types, stream);
        Some(stream)
    }

    /// Whether a stream's half has a task.
    pub(crate) fn has(&self, task: Task, stream: StreamId) -> bool
        ensures yes { result ≡ true → HasTaskAt task self.now stream }
        ensures no { result ≡ false → IsQuietAt task self.now stream }
    {
        let _next = self.next;
        if is_open(&self.types, stream) {
            halves::learn_lawful(&self.types, stream);
            return halves::has(&self.types, stream, task);
        }
        false
    }

    pub(crate) fn next_writable(&self, from: u64) -> Option<StreamId>
        requires { from ≤ 2 ^ 62 }
        ensures { IsLeast (IsHeld MayWrite self.now.sends) from result }
    {
        let _next = self.next;
        next_with(&self.types, Task::Writable, from)
    }

    /// Of the kinds that a half's lane tells.
    #[inline(always)]
    pub(crate) fn next_sought(&self, search: Search, told: &ToldStreams) -> Option<StreamId>
        ensures { (p : SendLane → Bool) → ((s : Sending) → has search.task s ≡ p s.lane) → IsLeast (λ n. IsHeld (λ l. p l ≡ true) self.now.sends n × (is_told told.now n ≡ search.is_told)) 0 result }
    {
        let types = &self.types;
        least_stream(
            next_sought_of(types, search, told, 0),
            next_sought_of(types, search, told, 1),
            next_sought_of(types, search, told, 2),
            next_sought_of(types, search, told, 3),
        )
    }

    /// The marks of the streams of a type, by index, whose sending half is over.
    pub(crate) fn ended_marks(&self, stream_type: usize) -> &Marks
        requires { stream_type < 4 }
        ensures { (n : ℕ) → type_of n ≡ stream_type → is_marked result.now (n / 4) ≡ send_over (lookup self.now.sends n) }
    {
        let _next = self.next;
        marks(&self.types, Task::Ended, stream_type)
    }

    /// Whatever the connection's limit says: that one holds all alike.
    pub(crate) fn next_sendable(&self, from: u64) -> Option<StreamId>
        requires { from ≤ 2 ^ 62 }
        ensures { (e : End) → IsLeast (IsDueOf (with_outgoing self.now e)) from result }
    {
        let _next = self.next;
        let Some(stream) = next_with(&self.types, Task::Bytes, from) else {
            return None;
        };
        half_of(&self.types, stream).learn_lawful();
        Some(stream)
    }
}

fn reset_by(code: Option<u64>, size: Option<u64>) -> Option<Reset>
    requires code { IfSome code (λ n. n ≤ MAX_VARINT) }
    requires size { IfSome size (λ n. n ≤ MAX_VARINT) }
    ensures value { result ≡ reset_by code size }
    ensures small { IfSome result (λ r. (r.code ≤ MAX_VARINT) × (r.size ≤ MAX_VARINT)) }
{
    match (code, size) {
        (Some(code), Some(size)) => Some(Reset { code, size }),
        (Some(_), None) => None,
        (None, _) => None,
    }
}
