//! What falls due as values rise, and what is due no more as it goes out.
ghost use Rattle.std.specs.Prelude.{if◌then◌else◌, ◌≡◌, ◌≤◌, is_none, is_some, not, true, false};
ghost use Rattle.qs_ranges.specs.Numbers.{MAX_VARINT};
ghost use Rattle.qs_recv.specs.Lane.{MAX_WINDOW, set_window};
ghost use Rattle.qs_send.specs.Lane.{allow_lane};
ghost use Rattle.qs_machine.specs.Tables.{lookup, updated};
ghost use Rattle.qs_machine.specs.Outgoing.{on_lane};
ghost use Rattle.qs_conn.specs.Due.{IsBlockedBy, IsDueWithout, IsItemMarked, IsMarkedIf, IsNotedBlock, is_present, is_same, recv_limit, row_of};
ghost use Rattle.qs_conn.specs.declared.due.Kind.TheVariants as kinds;
ghost use Rattle.qs_conn.specs.OwnTold.{own_with, own_left};
ghost use Rattle.qs_conn.specs.Middle.{IsAtRest, KeepsStreams};

use super::Core;
use crate::due::mark;
use qs_send::{Item, Piece, Reset};
use qs_streams::Task;
use qs_wire::StreamId;

impl Core {
    pub(super) fn note_put(&mut self, item: &Item, is_full: bool)
        ensures same { self.new ≡ record self.old { due = self.new.due; own = if is_full then self.old.own else own_with item.now self.old.own } }
        ensures full { is_full ≡ true → self.new.due ≡ self.old.due }
        ensures put { is_full ≡ false → IsItemMarked item.now false self.old.due self.new.due }
    {
        if !is_full {
            mark(&mut self.due, item, false);
            self.own.insert(item);
        }
    }

    /// A lost piece that has the present value of its half is due again; of an older one nothing is.
    pub(super) fn note_lost(&mut self, piece: &Piece)
        ensures same { self.new ≡ record self.old { due = self.new.due; own = own_left piece.now self.old.own } }
        ensures marked { IsDueWithout piece.now self.old.recvs self.old.outbox.sends self.old.due self.new.due }
    {
        if let Piece::Told(item) = piece {
            if self.is_present(item) {
                mark(&mut self.due, item, true);
            }
            self.own.remove(item);
        }
    }

    /// So many bytes were written: if they brought the stream to its limit it is blocked there (RFC 9000, section 4.1).
    pub(crate) fn note_written(&mut self, stream: StreamId, count: usize)
        ensures same { self.new ≡ record self.old { due = self.new.due } }
        ensures noted { IsNotedBlock (IsBlockedBy count (lookup self.old.outbox.sends stream)) stream self.old.due self.new.due }
    {
        let Some(limit) = self.outbox.blocked_at(stream) else {
            return;
        };
        let Some(half) = self.outbox.half(stream) else {
            return;
        };
        if half.written() - limit <= count as u64 {
            self.due.set(Task::BlockDue, stream, true);
        }
    }

    /// A stop falls due if there was none to send.
    pub(crate) fn note_stop(&mut self, stream: StreamId, was: Option<u64>)
        ensures same { self.new ≡ record self.old { due = self.new.due } }
        ensures marked { IsMarkedIf (is_none was) (row_of kinds.StopSending) stream self.old.due self.new.due }
    {
        if was.is_none() {
            self.due.set(Task::StopDue, stream, true);
        }
    }

    /// A reset falls due if there was none.
    pub(crate) fn note_reset(&mut self, stream: StreamId, was: Option<Reset>)
        ensures same { self.new ≡ record self.old { due = self.new.due } }
        ensures marked { IsMarkedIf (is_none was) (row_of kinds.ResetStream) stream self.old.due self.new.due }
    {
        if was.is_none() {
            self.due.set(Task::ResetDue, stream, true);
        }
    }

    /// With another limit a stream is blocked at the old one no more (RFC 9000, section 4.1).
    #[tactic(auto, using(crate::proofs::AckRuns::idle_with))]
    pub(crate) fn allow(&mut self, stream: StreamId, limit: u64)
        requires rest { IsAtRest self.old }
        requires open { is_some (lookup self.old.outbox.sends stream) ≡ true }
        requires limit { limit ≤ MAX_VARINT }
        ensures rest { IsAtRest self.new }
        ensures outbox { self.new.outbox ≡ on_lane stream (λ l. allow_lane l limit) self.old.outbox }
        ensures streams { KeepsStreams self.old self.new }
        ensures ended { self.new.ended ≡ self.old.ended }
    {
        self.outbox.learn_sending(stream);
        self.outbox.allow(stream, limit);
    }

    /// A raised limit isn't in any packet yet.
    pub(crate) fn set_window(&mut self, stream: StreamId, window: u64)
        requires rest { IsAtRest self.old }
        requires open { is_some (lookup self.old.recvs stream) ≡ true }
        requires some { 1 ≤ window }
        requires small { window ≤ MAX_WINDOW }
        ensures rest { IsAtRest self.new }
        ensures same { self.new ≡ record self.old { recvs = updated self.old.recvs stream (λ l. set_window l window) (lookup self.old.recvs stream); due = self.new.due } }
    {
        let was = self.recvs.limit_of(stream);
        self.recvs.set_window(stream, window);
        self.note_limit(stream, was);
    }

    fn note_limit(&mut self, stream: StreamId, was: Option<u64>)
        ensures same { self.new ≡ record self.old { due = self.new.due } }
        ensures marked { IsMarkedIf (not (is_same was (recv_limit self.old.recvs stream))) (row_of kinds.MaxStreamData) stream self.old.due self.new.due }
    {
        let is = self.recvs.limit_of(stream);
        if !is_same(was, is) {
            self.due.set(Task::LimitDue, stream, true);
        }
    }

    // A stop and a reset keep their value, so theirs always is.
    fn is_present(&self, item: &Item) -> bool
        ensures { result ≡ is_present item.now self.now.recvs self.now.outbox.sends }
    {
        match *item {
            Item::MaxStreamData { stream, maximum } => {
                matches!(self.recvs.limit_of(stream), Some(present) if present == maximum)
            }
            Item::StreamDataBlocked { stream, limit } => {
                matches!(self.outbox.half(stream), Some(half) if half.limit() == limit)
            }
            _ => true,
        }
    }
}

fn is_same(a: Option<u64>, b: Option<u64>) -> bool
    ensures { result ≡ is_same a b }
{
    match (a, b) {
        (Some(x), Some(y)) => x == y,
        _ => false,
    }
}
