//! What the peer said blocks it, until the application is notified. It is no state of an endpoint, so it is kept beside.
ghost use Rattle.std.specs.Prelude.{◌≡◌, true, None, OnOk, OnErr};
ghost use Rattle.qs_machine.specs.Heard.{nothing_blocked, is_held_back, with_held_back, is_told, IsToldBeside, IsForgotten};
ghost use Rattle.qs_machine.specs.News.{IsLeast};
ghost use Rattle.qs_machine.specs.Tables.{lookup};
ghost use Rattle.qs_conn.specs.ByDir.{IsFirstDir};

use crate::by_dir::ByDir;
use crate::told_streams::ToldStreams;
use qs_ranges::NoMemory;
use qs_streams::least_stream;
use qs_wire::{Dir, StreamId};
use std::alloc::Global;
use std::marker::Model;

/// A flag for the connection and for each direction, and a mark for each stream: a second frame changes nothing, so a peer can't fill a
/// queue.
#[derive(Drop)]
pub(crate) struct BlockedMarks {
    conn: bool,
    streams: ToldStreams,
    dirs: ByDir<bool>,
}

impl Model for BlockedMarks {
    ghost use Rattle.qs_machine.specs.Heard.{Blocked};
    ghost use Rattle.qs_conn.specs.Hearing.{blocked_code};

    ghost Value = { Blocked };

    ghost coded = { blocked_code };

    ghost view = { λ b. record { conn = b.conn; streams = b.streams; bidi = b.dirs.bidi; uni = b.dirs.uni } };
}

impl BlockedMarks {
    pub(crate) fn new(alloc: Global) -> Self
        ensures { result ≡ nothing_blocked }
    {
        BlockedMarks {
            conn: false,
            streams: ToldStreams::new(alloc),
            dirs: ByDir::new(false, false),
        }
    }

    /// Whether the peer reported DATA_BLOCKED and the application wasn't notified yet.
    pub(crate) fn has_conn(&self) -> bool
        ensures { result ≡ self.now.conn }
    {
        self.conn
    }

    /// Sets or clears that.
    pub(crate) fn set_conn(&mut self, is_said: bool)
        ensures { self.new ≡ record self.old { conn = is_said } }
    {
        self.conn = is_said;
    }

    /// The same for STREAMS_BLOCKED of a direction.
    pub(crate) fn set_dir(&mut self, dir: Dir, is_said: bool)
        ensures { self.new ≡ with_held_back self.old dir is_said }
    {
        self.dirs.set(dir, is_said);
    }

    /// The same for a stream. Marks take memory only for the highest stream of its type so far.
    pub(crate) fn tell(&mut self, stream: StreamId) -> Result<(), NoMemory>
        ensures ok { OnOk result (IsToldBeside stream self.old.streams self.new.streams × (self.new ≡ record self.old { streams = self.new.streams })) }
        ensures err { OnErr result (self.new ≡ self.old) }
        ensures asks { OnErr result (lookup self.old.streams stream ≡ None) }
    {
        self.streams.tell(stream)
    }

    pub(crate) fn forget(&mut self, stream: StreamId)
        ensures forgotten { IsForgotten stream self.old.streams self.new.streams }
        ensures rest { self.new ≡ record self.old { streams = self.new.streams } }
    {
        self.streams.forget(stream);
    }

    pub(crate) fn next_dir(&self) -> Option<Dir>
        ensures { IsFirstDir (λ d. is_held_back self.now d ≡ true) result }
    {
        if self.dirs.bidi {
            return Some(Dir::Bidi);
        }
        if self.dirs.uni {
            return Some(Dir::Uni);
        }
        None
    }

    pub(crate) fn next_stream(&self) -> Option<StreamId>
        ensures { IsLeast (λ n. is_told self.now.streams n ≡ true) 0 result }
    {
        if !self.streams.may_have() {
            return None;
        }
        least_stream(
            self.streams.of_type(0).marks().next_stream(0, 0),
            self.streams.of_type(1).marks().next_stream(1, 0),
            self.streams.of_type(2).marks().next_stream(2, 0),
            self.streams.of_type(3).marks().next_stream(3, 0),
        )
    }
}
