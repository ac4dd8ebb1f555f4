//! Whether anything is due that may go. By marks and counts, since it is asked before each packet.
ghost use Rattle.std.specs.Prelude.{◌≡◌, ◌+◌, ◌<◌, ◌≤◌, ℕ, false};
ghost use Rattle.qs_machine.specs.Ends.{End};
ghost use Rattle.qs_machine.specs.Filling.{still_asked};
ghost use Rattle.qs_conn.specs.Middle.{IsCore, IsSortAt, end_of, own_items};
ghost use Rattle.qs_conn.specs.Filling.{slot_place, sort_place, kind_first, kind_past, all_items, ItemFits};
ghost use Rattle.qs_conn.specs.Marks.{IsDueIn, IsIdle};
ghost use Rattle.qs_streams.specs.Rows.{on};
ghost use Rattle.qs_conn.specs.Due.{IsMarkedAt};
ghost use Rattle.qs_conn.specs.Sending.{TellsDue, TellsGoing, TellsAnyGoing, TellsFrame, TellsItem, TellsStream, TellsWanted};

use super::Core;
use crate::due::{Kind, STREAM_PLACES, Slot, Sort, sort_at};
use qs_calls::Fill;
use qs_ranges::{lowest_bit, with_bit};
use qs_send::Item;
use qs_wire::{Dir, StreamId};

impl Core {
    #[tactic(auto, using(crate::proofs::MadePackets::tells_yes))]
    pub(crate) fn has_frame(&self) -> bool
        requires { IsCore self.now }
        ensures { (e : End) → TellsFrame result (end_of self.now e) }
    {
        if self.has_stream() {
            return true;
        }
        self.has_item()
    }

    /// With no byte left of the cap no stream is asked. The stream that sent last is asked before others are searched: it mostly has more.
    pub(crate) fn has_wanted(&self, want: &Fill, left: usize, last: &Option<StreamId>) -> bool
        requires { IsCore self.now }
        ensures { (e : End) → TellsWanted (still_asked want.now left) result (end_of self.now e) }
    {
        if left == 0 {
            return self.has_wanted_item(want);
        }
        // If there is more, it is mostly data.
        if self.has_wanted_stream(want, last) {
            return true;
        }
        self.has_wanted_item(want)
    }

    fn has_wanted_item(&self, want: &Fill) -> bool
        requires { IsCore self.now }
        ensures { (e : End) → TellsItem want.now result (end_of self.now e) }
    {
        if want.items {
            return self.has_item();
        }
        false
    }

    fn has_wanted_stream(&self, want: &Fill, last: &Option<StreamId>) -> bool
        requires { IsCore self.now }
        ensures { (e : End) → TellsStream want.now result (end_of self.now e) }
    {
        if !want.streams {
            return false;
        }
        if want.alone {
            return self.goes(want.first);
        }
        if let Some(stream) = *last {
            if self.goes(stream) {
                return true;
            }
        }
        self.has_stream()
    }

    fn has_item(&self) -> bool
        requires { IsCore self.now }
        ensures { (e : End) → TellsDue result (end_of self.now e) all_items }
    {
        let places = self.places();
        let mut from = 0;
        while let Some(place) = lowest_bit(places, from) {
            if self.has_sort(sort_at(place)) {
                return true;
            }
            from = place + 1;
        }
        false
    }

    /// A bit for each place in a packet's order where an item may be due: mostly there is none.
    #[inline(always)]
    pub(super) fn places(&self) -> u64
        requires { IsCore self.now }
        ensures idle { (s : Slot) (e : End) → on result (slot_place s).0 ≡ false → IsIdle (end_of self.now e) s }
        ensures few { (t : ℕ) → 10 ≤ t → t < 64 → on result t ≡ false }
    {
        self.own_places() | (self.due.some() & STREAM_PLACES)
    }

    // Those of the connection's own items.
    #[inline(always)]
    fn own_places(&self) -> u64
        requires { IsCore self.now }
        ensures idle { (s : Slot) (e : End) → own_items s ≡ 1 → on result (slot_place s).0 ≡ false → IsIdle (end_of self.now e) s }
        ensures few { (t : ℕ) → 10 ≤ t → t < 64 → on result t ≡ false }
    {
        let places = with_bit(0, 0, self.may_ask(Slot::MaxData));
        let places = with_bit(places, 1, self.may_ask(Slot::MaxStreams(Dir::Bidi)));
        let places = with_bit(places, 2, self.may_ask(Slot::MaxStreams(Dir::Uni)));
        let places = with_bit(places, 6, self.may_ask(Slot::DataBlocked));
        let places = with_bit(places, 8, self.may_ask(Slot::StreamsBlocked(Dir::Bidi)));
        with_bit(places, 9, self.may_ask(Slot::StreamsBlocked(Dir::Uni)))
    }

    #[inline(always)]
    fn may_ask(&self, slot: Slot) -> bool
        requires core { IsCore self.now }
        requires own { own_items slot ≡ 1 }
        ensures { result ≡ false → (e : End) → IsIdle (end_of self.now e) slot }
    {
        if let Slot::DataBlocked = slot {
            // Without a look at streams.
            let limit = self.limits.known_data;
            return self.outbox.sent_sum() == limit && !self.own.has(&Item::DataBlocked { limit });
        }
        self.due_in(slot).is_some()
    }

    #[inline(always)]
    fn has_sort(&self, sort: Sort) -> bool
        requires core { IsCore self.now }
        requires at { IsSortAt (sort_place sort) sort }
        ensures { (e : End) → TellsDue false (end_of self.now e) (sort_place sort, 0) → TellsDue result (end_of self.now e) (sort_place sort + 1, 0) }
    {
        match sort {
            Sort::Own(slot) => self.due_in(slot).is_some(),
            Sort::Streams(kind) => self.has_marked(kind),
        }
    }

    fn has_marked(&self, kind: Kind) -> bool
        requires { IsCore self.now }
        ensures { (e : End) → TellsDue false (end_of self.now e) (kind_first kind) → TellsDue result (end_of self.now e) (kind_past kind) }
    {
        let mut from = 0;
        while let Some(stream) = self.next_marked(kind, from) {
            if self.due_in(kind.at(stream)).is_some() {
                return true;
            }
            from = stream.value() + 1;
        }
        false
    }

    /// What of a slot is due: its current item, unless an outstanding packet tells it or an acknowledged one did (RFC 9000, sections 4.1, 4.6
    /// and 13.3). The one place that says so.
    #[inline(always)]
    pub(super) fn due_in(&self, slot: Slot) -> Option<Item>
        requires core { IsCore self.now }
        requires marked { IsMarkedAt self.now.due slot }
        ensures due { (e : End) → IsDueIn (end_of self.now e) slot result }
        ensures fits { ItemFits result }
    {
        let item = self.limits.current(&self.outbox, &self.recvs, slot)?;
        if self.own.is_told(&self.outbox, &item) {
            return None;
        }
        Some(item)
    }

    fn has_stream(&self) -> bool
        requires { IsCore self.now }
        ensures { (e : End) → TellsAnyGoing result (end_of self.now e) }
    {
        self.next_going(0).is_some()
    }

    fn goes(&self, stream: StreamId) -> bool
        requires { IsCore self.now }
        ensures { (e : End) → TellsGoing result (end_of self.now e) stream }
    {
        self.outbox.has(self.going_task(), stream)
    }
}
