//! The sending halves of an end, by the type of the stream and by its index: one that is named, and searches.
ghost use Rattle.std.specs.Prelude.{◌≡◌, ◌≤◌, ◌<◌, ◌^◌, ℕ, length, is_some, true, false, Some, IfSome};
ghost use Rattle.qs_send.specs.Lane.{Sending};
ghost use Rattle.qs_send.specs.Sound.{IsLawful};
ghost use Rattle.qs_machine.specs.Tables.{lookup, updated};
ghost use Rattle.qs_machine.specs.Sums.{or_no_sending, tables_of};
ghost use Rattle.qs_machine.specs.News.{IsLeast, IsHeld};
ghost use Rattle.std.specs.Fn.{FnOnceTakesAtMut, FnOnceReturnsAtMut};
ghost use Rattle.qs_conn.specs.Edits.{IsEditedIn, LeavesStill, MaySet, OrStays, after_set};
ghost use Rattle.qs_conn.specs.Marks.{TellWhich};
ghost use Rattle.qs_conn.specs.Tasks.{IsQuiet, HasTask, IsSoughtOf, has};

use crate::marks::Marks;
use crate::send_lanes::{SendLanes, Setting};
use crate::send_marks::{Moves, Search, Task};
use crate::told_streams::ToldStreams;
use qs_send::{SendHalf, SendView};
use qs_streams::{index_of, least_stream, type_of};
use qs_wire::StreamId;

#[inline(always)]
pub(super) fn is_open(types: &[SendLanes; 4], stream: StreamId) -> bool
    requires { length types.now ≡ 4 }
    ensures { result ≡ is_some (lookup (tables_of types.now) stream) }
{
    let lanes = &types[type_of(stream)];
    index_of(stream) < lanes.len()
}

/// Changes the sending half of an open stream: the one way in. One that is over stays as it is, and what is given is the answer.
#[inline(always)]
#[tactic(auto, using(qs_machine::proofs::TableEdits::open_there, qs_machine::proofs::TableEdits::half_is))]
pub(super) fn edit<R: Drop, F: FnOnce(&mut SendHalf) -> R>(
    types: &mut [SendLanes; 4],
    stream: StreamId,
    over: R,
    moves: Moves,
    change: F,
) -> R
    requires open { is_some (lookup (tables_of types.old) stream) ≡ true }
    requires callable { FnOnceTakesAtMut F.FnOnce change (or_no_sending (lookup (tables_of types.old) stream)) }
    requires stays { LeavesStill F.FnOnce change moves (or_no_sending (lookup (tables_of types.old) stream)) }
    ensures len { length types.new ≡ 4 }
    ensures lawful { IsLawful (or_no_sending (lookup (tables_of types.old) stream)) }
    ensures edited { IsEditedIn (OrStays (FnOnceReturnsAtMut F.FnOnce change) over) (or_no_sending (lookup (tables_of types.old) stream)) (tables_of types.old) stream result (tables_of types.new) }
{
    let lanes = &mut types[type_of(stream)];
    let index = index_of(stream);
    lanes.learn_lawful(index);
    lanes.edit(index, over, moves, change)
}

/// Sets a value of a stream's half, where it has one, also of one that is over.
#[tactic(auto, using(qs_machine::proofs::TableEdits::open_there, qs_machine::proofs::TableEdits::updated_is))]
pub(super) fn set(types: &mut [SendLanes; 4], stream: StreamId, setting: Setting)
    requires { MaySet setting }
    ensures len { length types.new ≡ 4 }
    ensures after { tables_of types.new ≡ updated (tables_of types.old) stream (after_set setting) (lookup (tables_of types.old) stream) }
{
    if is_open(types, stream) {
        let lanes = &mut types[type_of(stream)];
        lanes.set(index_of(stream), setting);
    }
}

/// The marks of the streams of a type, by index, whose half has a task.
#[inline(always)]
pub(super) fn marks(types: &[SendLanes; 4], task: Task, stream_type: usize) -> &Marks
    requires len { length types.now ≡ 4 }
    requires stream_type { stream_type < 4 }
    ensures { TellWhich (has task) (tables_of types.now) stream_type result.now }
{
    let lanes = &types[stream_type];
    lanes.marks(task)
}

#[inline(always)]
pub(super) fn has(types: &[SendLanes; 4], stream: StreamId, task: Task) -> bool
    requires len { length types.now ≡ 4 }
    requires open { is_some (lookup (tables_of types.now) stream) ≡ true }
    ensures { result ≡ has task (or_no_sending (lookup (tables_of types.now) stream)) }
{
    marks(types, task, type_of(stream)).has(index_of(stream))
}

/// What holds of an open stream's half. It does nothing: a caller learns the clause.
#[tactic(auto, using(qs_machine::proofs::TableEdits::open_there, qs_machine::proofs::TableEdits::half_is))]
pub(super) fn learn_lawful(types: &[SendLanes; 4], stream: StreamId)
    requires len { length types.now ≡ 4 }
    requires open { is_some (lookup (tables_of types.now) stream) ≡ true }
    ensures { IsLawful (or_no_sending (lookup (tables_of types.now) stream)) }
{
    let lanes = &types[type_of(stream)];
    lanes.learn_lawful(index_of(stream));
}

#[inline(always)]
#[tactic(auto, using(qs_machine::proofs::TableEdits::open_there, qs_machine::proofs::TableEdits::half_at))]
pub(super) fn half_of(types: &[SendLanes; 4], stream: StreamId) -> SendView<'_>
    requires len { length types.now ≡ 4 }
    requires open { is_some (lookup (tables_of types.now) stream) ≡ true }
    ensures { lookup (tables_of types.now) stream ≡ Some result }
{
    let lanes = &types[type_of(stream)];
    lanes.get(index_of(stream))
}

#[inline(always)]
pub(super) fn may_have(types: &[SendLanes; 4], task: Task) -> bool
    requires { length types.now ≡ 4 }
    ensures { result ≡ false → (n : ℕ) (s : Sending) → lookup (tables_of types.now) n ≡ Some s → IsQuiet task s }
{
    if marks(types, task, 0).may_have() {
        return true;
    }
    if marks(types, task, 1).may_have() {
        return true;
    }
    if marks(types, task, 2).may_have() {
        return true;
    }
    marks(types, task, 3).may_have()
}

/// The least number from one on of a stream whose half has a task. It stands apart, so that where no half has it a caller pays for the
/// look at that alone.
#[inline(never)]
pub(super) fn next_with(types: &[SendLanes; 4], task: Task, from: u64) -> Option<StreamId>
    requires len { length types.now ≡ 4 }
    requires from { from ≤ 2 ^ 62 }
    ensures { IsLeast (IsHeld (HasTask task) (tables_of types.now)) from result }
{
    least_stream(
        marks(types, task, 0).next_stream(0, from),
        marks(types, task, 1).next_stream(1, from),
        marks(types, task, 2).next_stream(2, from),
        marks(types, task, 3).next_stream(3, from),
    )
}

#[inline(always)]
pub(super) fn next_sought_of(
    types: &[SendLanes; 4],
    search: Search,
    told: &ToldStreams,
    stream_type: usize,
) -> Option<u64>
    requires len { length types.now ≡ 4 }
    requires stream_type { stream_type < 4 }
    ensures least { IsLeast (IsSoughtOf search (tables_of types.now) told.now stream_type) 0 result }
    ensures small { IfSome result (λ n. n < 2 ^ 62) }
{
    let marks = marks(types, search.task, stream_type);
    let told = told.of_type(stream_type);
    if search.is_told {
        return marks.next_both(told.marks(), stream_type);
    }
    marks.next_untold(marks, told, stream_type, 0)
}
