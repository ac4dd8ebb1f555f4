ghost use Rattle.std.specs.Prelude.{◌≡◌, ◌+◌, ◌<◌, ◌^◌, [], false, slice_set, IfSome, OnOk};
ghost use Rattle.qs_machine.specs.Credit.{send_ended};
ghost use Rattle.qs_conn.specs.Marks.{IsClear, is_marked, HasRoom, IsClearedFrom, IsNextMark, IsWider};
ghost use Rattle.qs_conn.specs.Tasks.{AreMarkedBefore, begins, has, is_due_below, marks_of, may_end};
ghost use Rattle.qs_conn.specs.declared.send_marks.Task.TheVariants as tasks;

use crate::marks::Marks;
use qs_ranges::NoMemory;
use qs_send::{SendHalf, SendState};
use std::alloc::Global;

#[derive(Clone, Copy, Drop)]
pub(crate) enum Task {
    /// Whatever the connection's limit says: that one holds all alike.
    Bytes,
    /// They take no credit of the connection, so they go when it is used up.
    Again,
    Writable,
    /// Below the stream's limit: for an application whose writes keep within credit. The connection's limit isn't asked, since marks that
    /// knew it would move for every stream as it moves.
    Funded,
    Ended,
    Stopped,
}

/// What a change may move of a half.
#[derive(Clone, Copy, Drop)]
pub(crate) enum Moves {
    /// Which bytes go, and nothing else.
    Sent,
    /// Whether its end goes, and its room. No byte falls due, and no sum moves.
    End,
    /// Its room and the sums, too, and where its end is acknowledged whether it is over. Nothing falls due that was sent before.
    Room,
    /// All of it.
    All,
}

#[derive(Clone, Copy, Drop)]
pub(crate) struct Search {
    pub(crate) task: Task,
    pub(crate) is_told: bool,
}

/// The halves of one type that have a task, for each task.
#[derive(Drop)]
pub(crate) struct SendMarks {
    bytes: Marks,
    again: Marks,
    writable: Marks,
    funded: Marks,
    ended: Marks,
    stopped: Marks,
}

impl SendMarks {
    pub(crate) fn new(alloc: Global) -> Self
        ensures { (t : Task) → marks_of result t ≡ [] }
    {
        SendMarks {
            bytes: Marks::new(alloc),
            again: Marks::new(alloc),
            writable: Marks::new(alloc),
            funded: Marks::new(alloc),
            ended: Marks::new(alloc),
            stopped: Marks::new(alloc),
        }
    }

    #[inline(always)]
    #[tactic(auto, using(crate::proofs::Marked::wider_same))]
    pub(crate) fn make_room(&mut self, index: usize) -> Result<(), NoMemory>
        requires { index < 2 ^ 60 }
        ensures wider { (t : Task) → IsWider (marks_of self.old t) (marks_of self.new t) }
        ensures ok { OnOk result ((t : Task) → HasRoom index (marks_of self.old t) → HasRoom (index + 1) (marks_of self.new t)) }
    {
        self.bytes.make_room(index)?;
        self.again.make_room(index)?;
        self.writable.make_room(index)?;
        self.funded.make_room(index)?;
        self.ended.make_room(index)?;
        self.stopped.make_room(index)
    }

    pub(crate) fn clear_from(&mut self, count: usize)
        ensures { (t : Task) → IsClearedFrom count (marks_of self.old t) (marks_of self.new t) }
    {
        self.bytes.clear_from(count);
        self.again.clear_from(count);
        self.writable.clear_from(count);
        self.funded.clear_from(count);
        self.ended.clear_from(count);
        self.stopped.clear_from(count);
    }

    /// Marks a half that begins with a limit and a buffer.
    #[inline(always)]
    #[tactic(auto, using(crate::proofs::Marked::mark_is))]
    pub(crate) fn begin(&mut self, index: usize, limit: u64, buffer: u32)
        requires { (t : Task) → is_marked (marks_of self.old t) index ≡ false }
        ensures { (t : Task) → marks_of self.new t ≡ slice_set (marks_of self.old t) index (begins t limit buffer) }
    {
        self.writable.set(index, buffer > 0);
        self.funded.set(index, buffer > 0 && limit > 0);
    }

    /// Looks again at a half that changed: at what the change may move.
    #[inline(always)]
    pub(crate) fn look(&mut self, index: usize, half: &SendHalf, moves: Moves)
        requires { AreMarkedBefore moves self.old index half.now }
        ensures { (t : Task) → marks_of self.new t ≡ slice_set (marks_of self.old t) index (has t half.now) }
    {
        self.bytes.set(index, may_send(half));
        match moves {
            Moves::Sent => look_again(&mut self.again, index, half),
            Moves::End => {
                look_may_end(&mut self.again, index, half);
                self.look_room(index, half);
            }
            Moves::Room => {
                look_again(&mut self.again, index, half);
                look_end(&mut self.ended, index, half);
                self.look_room(index, half);
            }
            Moves::All => {
                self.again.set(index, may_send_again(half));
                self.ended.set(index, has_ended(half));
                self.stopped.set(index, half.stop_code().is_some());
                self.look_room(index, half);
            }
        }
    }

    // Looks again at the room of a half.
    #[inline(always)]
    fn look_room(&mut self, index: usize, half: &SendHalf)
        ensures { self.new ≡ record self.old { writable = slice_set self.old.writable index (has tasks.Writable half.now); funded = slice_set self.old.funded index (has tasks.Funded half.now) } }
    {
        let is_writable = half.is_writable();
        self.writable.set(index, is_writable);
        self.funded
            .set(index, is_writable && half.written() < half.limit());
    }

    #[inline(always)]
    pub(crate) fn of(&self, task: Task) -> &Marks
        ensures { result.now ≡ marks_of self.now task }
    {
        match task {
            Task::Bytes => &self.bytes,
            Task::Again => &self.again,
            Task::Writable => &self.writable,
            Task::Funded => &self.funded,
            Task::Ended => &self.ended,
            Task::Stopped => &self.stopped,
        }
    }
}

// Looks whether a half has something to send again, where it had.
#[inline(always)]
#[tactic(auto, using(crate::proofs::Marked::mark_is))]
fn look_again(again: &mut Marks, index: usize, half: &SendHalf)
    requires { is_marked again.old index ≡ false → has tasks.Again half.now ≡ false }
    ensures { again.new ≡ slice_set again.old index (has tasks.Again half.now) }
{
    if !again.may_have() {
        return;
    }
    if !again.has(index) {
        return;
    }
    again.set(index, may_send_again(half));
}

// Looks whether the end may go, where nothing else fell due.
#[inline(always)]
#[tactic(auto, using(crate::proofs::Marked::mark_is))]
fn look_may_end(again: &mut Marks, index: usize, half: &SendHalf)
    requires { may_end half.now ≡ false → is_marked again.old index ≡ has tasks.Again half.now }
    ensures { again.new ≡ slice_set again.old index (has tasks.Again half.now) }
{
    if !may_end(half) {
        return;
    }
    again.set(index, true);
}

// Looks whether a half is over, where its end is acknowledged.
#[inline(always)]
#[tactic(auto, using(crate::proofs::Marked::mark_is))]
fn look_end(ended: &mut Marks, index: usize, half: &SendHalf)
    requires { half.now.lane.fin_acked ≡ false → is_marked ended.old index ≡ has tasks.Ended half.now }
    ensures { ended.new ≡ slice_set ended.old index (has tasks.Ended half.now) }
{
    if !half.end_acked() {
        return;
    }
    ended.set(index, has_ended(half));
}

// Whether the end may go.
fn may_end(half: &SendHalf) -> bool
    ensures { result ≡ may_end half.now }
{
    half.end_due() && half.sent_end() == half.written()
}

// Whether bytes or the end may go.
#[inline(always)]
fn may_send(half: &SendHalf) -> bool
    ensures { result ≡ has tasks.Bytes half.now }
{
    // New bytes come first: they need no search of what was sent and what of it is acknowledged.
    if half.has_unsent() {
        return true;
    }
    if may_end(half) {
        return true;
    }
    is_due_below(half, half.limit())
}

fn may_send_again(half: &SendHalf) -> bool
    ensures { result ≡ has tasks.Again half.now }
{
    if may_end(half) {
        return true;
    }
    is_due_below(half, half.sent_end())
}

// Whether a byte below an offset is due.
#[inline(always)]
#[tactic(auto, using(crate::proofs::Tasks::least_below, crate::proofs::Tasks::none_below))]
fn is_due_below(half: &SendHalf, end: u64) -> bool
    ensures { result ≡ is_due_below half.now end }
{
    match half.lowest_due() {
        Some(offset) => offset < end,
        None => false,
    }
}

fn has_ended(half: &SendHalf) -> bool
    ensures { result ≡ send_ended half.now.lane }
{
    half.learn_lawful();
    matches!(half.state(), SendState::DataRecvd | SendState::ResetRecvd)
}
