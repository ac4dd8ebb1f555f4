//! Which control frames of streams may be due: a mark for each stream and kind. With one no packet in flight has the present value; without
//! one nothing of the kind is due. It is set as the value rises or its packet is lost, and goes as the frame goes out or nothing is found to
//! send: so filling a packet searches marks alone. Items of the connection itself have none: they are few enough for a value each.
ghost use Rattle.std.specs.Prelude.{◌≡◌, ◌<◌};
ghost use Rattle.qs_streams.specs.Tasks.{row};
ghost use Rattle.qs_conn.specs.Due.{IsItemMarked, row_of};
ghost use Rattle.qs_conn.specs.Filling.{slot_at};
ghost use Rattle.qs_conn.specs.Middle.{IsSortAt};

use qs_send::Item;
use qs_streams::{Boards, Task};
use qs_wire::{Dir, StreamId};

/// What a control item speaks of, without its value. At any moment at most one item of a slot is current, so a slot is enough to ask
/// whether it is outstanding.
#[derive(Clone, Copy, Drop)]
pub(crate) enum Slot {
    MaxData,
    MaxStreamData(StreamId),
    MaxStreams(Dir),
    ResetStream(StreamId),
    StopSending(StreamId),
    DataBlocked,
    StreamDataBlocked(StreamId),
    StreamsBlocked(Dir),
}

#[derive(Clone, Copy, Drop)]
pub(crate) enum Kind {
    ResetStream,
    StopSending,
    MaxStreamData,
    StreamDataBlocked,
}

/// What stands at a place of a packet's order: an item of the connection itself, or those of streams of a kind.
#[derive(Clone, Copy, Drop)]
pub(crate) enum Sort {
    Own(Slot),
    Streams(Kind),
}

/// The places of the kinds of streams: they are the rows of the tasks that put frames into a packet.
pub(crate) const STREAM_PLACES: u64 = 0b1011_1000;

#[inline(always)]
pub(crate) fn sort_at(place: usize) -> Sort
    requires { place < 10 }
    ensures { IsSortAt place result }
{
    match place {
        0 => Sort::Own(Slot::MaxData),
        1 => Sort::Own(Slot::MaxStreams(Dir::Bidi)),
        2 => Sort::Own(Slot::MaxStreams(Dir::Uni)),
        3 => Sort::Streams(Kind::ResetStream),
        4 => Sort::Streams(Kind::StopSending),
        5 => Sort::Streams(Kind::MaxStreamData),
        6 => Sort::Own(Slot::DataBlocked),
        7 => Sort::Streams(Kind::StreamDataBlocked),
        8 => Sort::Own(Slot::StreamsBlocked(Dir::Bidi)),
        _ => Sort::Own(Slot::StreamsBlocked(Dir::Uni)),
    }
}

impl Kind {
    pub(crate) fn at(self, stream: StreamId) -> Slot
        ensures { result ≡ slot_at self stream }
    {
        match self {
            Kind::ResetStream => Slot::ResetStream(stream),
            Kind::StopSending => Slot::StopSending(stream),
            Kind::MaxStreamData => Slot::MaxStreamData(stream),
            Kind::StreamDataBlocked => Slot::StreamDataBlocked(stream),
        }
    }

    #[inline(always)]
    pub(crate) fn task(self) -> Task
        ensures { row result ≡ row_of self }
    {
        match self {
            Kind::ResetStream => Task::ResetDue,
            Kind::StopSending => Task::StopDue,
            Kind::MaxStreamData => Task::LimitDue,
            Kind::StreamDataBlocked => Task::BlockDue,
        }
    }
}

#[inline(always)]
pub(crate) fn mark(marks: &mut Boards, item: &Item, is_due: bool)
    ensures { IsItemMarked item.now is_due marks.old marks.new }
{
    match *item {
        Item::ResetStream { stream, .. } => marks.set(Task::ResetDue, stream, is_due),
        Item::StopSending { stream, .. } => marks.set(Task::StopDue, stream, is_due),
        Item::MaxStreamData { stream, .. } => marks.set(Task::LimitDue, stream, is_due),
        Item::StreamDataBlocked { stream, .. } => marks.set(Task::BlockDue, stream, is_due),
        _ => {}
    }
}
