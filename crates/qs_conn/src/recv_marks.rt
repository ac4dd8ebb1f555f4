ghost use Rattle.std.specs.Prelude.{◌≡◌, ◌+◌, ◌<◌, ◌^◌, [], slice_set, OnOk};
ghost use Rattle.qs_conn.specs.Marks.{HasRoom, IsClearedFrom, IsWider};
ghost use Rattle.qs_conn.specs.RecvTasks.{has, marks_of};

use crate::marks::Marks;
use qs_ranges::NoMemory;
use qs_recv::{RecvHalf, RingAssembly};
use std::alloc::Global;

#[derive(Clone, Copy, Drop)]
pub(crate) enum RecvTask {
    Readable,
    Ended,
}

#[derive(Drop)]
pub(crate) struct RecvMarks {
    readable: Marks,
    ended: Marks,
}

impl RecvMarks {
    pub(crate) fn new(alloc: Global) -> Self
        ensures { (t : RecvTask) → marks_of result t ≡ [] }
    {
        RecvMarks {
            readable: Marks::new(alloc),
            ended: Marks::new(alloc),
        }
    }

    #[inline(always)]
    #[tactic(auto, using(crate::proofs::Marked::wider_same))]
    pub(crate) fn make_room(&mut self, index: usize) -> Result<(), NoMemory>
        requires { index < 2 ^ 60 }
        ensures wider { (t : RecvTask) → IsWider (marks_of self.old t) (marks_of self.new t) }
        ensures ok { OnOk result ((t : RecvTask) → HasRoom index (marks_of self.old t) → HasRoom (index + 1) (marks_of self.new t)) }
    {
        self.readable.make_room(index)?;
        self.ended.make_room(index)
    }

    pub(crate) fn clear_from(&mut self, count: usize)
        ensures { (t : RecvTask) → IsClearedFrom count (marks_of self.old t) (marks_of self.new t) }
    {
        self.readable.clear_from(count);
        self.ended.clear_from(count);
    }

    pub(crate) fn look(&mut self, index: usize, half: &RecvHalf<RingAssembly>)
        ensures { (t : RecvTask) → marks_of self.new t ≡ slice_set (marks_of self.old t) index (has t half.now) }
    {
        let standing = half.standing();
        self.readable.set(index, standing.is_readable);
        self.ended.set(index, standing.has_ended);
    }

    #[inline(always)]
    pub(crate) fn marks(&self, task: RecvTask) -> &Marks
        ensures { result.now ≡ marks_of self.now task }
    {
        match task {
            RecvTask::Readable => &self.readable,
            RecvTask::Ended => &self.ended,
        }
    }
}
