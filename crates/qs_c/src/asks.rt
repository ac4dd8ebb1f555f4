//! What the calls ask of an end. Nothing changes.
ghost use Rattle.std.specs.Prelude.{◌≡◌, ◌↔◌, ℕ, Option, option_map, IsTrue, MatchBool};
ghost use Rattle.qs_machine.specs.News.{IsLeast, IsReadable, IsWritable, IsSendable, IsEnded};
ghost use Rattle.qs_machine.specs.Asking.{all_noted, GoesBesideAck, peer_closing, streams_left, open_left, is_blocked, credit_left, room, unsent, acked_below, stopped_with, IsNextOutstanding};
ghost use Rattle.qs_machine.specs.Credit.{spent, all_stored, granted_streams};
ghost use Rattle.qs_machine.specs.Reports.{lane_report};
ghost use Rattle.qs_conn.specs.Held.{IsHeldBy};
ghost use Rattle.qs_c.specs.Statuses.{Invalid, is_small, is_flag, dir_of, found};
ghost use Rattle.qs_c.specs.Lanes.{lane_of};

use crate::answers::{INVALID, OK, of_lane, of_number, of_stream};
use crate::calls::dir_of;
use crate::lane::GvLane;
use crate::thing::Thing;
use qs_wire::StreamId;

impl Thing {
    pub(crate) fn next_readable(&self, from: u64, stream: &mut u64) -> u32
        ensures { MatchBool (is_small from) ((a : Option ℕ) × ((result, stream.new) ≡ found a stream.old) × IsLeast (IsReadable self.now) from a) (Invalid result stream.old stream.new) }
    {
        let Some(id) = StreamId::new(from) else {
            return INVALID;
        };
        of_stream(self.end.next_readable(id), stream)
    }

    pub(crate) fn next_writable(&self, from: u64, stream: &mut u64) -> u32
        ensures { MatchBool (is_small from) ((a : Option ℕ) × ((result, stream.new) ≡ found a stream.old) × IsLeast (IsWritable self.now) from a) (Invalid result stream.old stream.new) }
    {
        let Some(id) = StreamId::new(from) else {
            return INVALID;
        };
        of_stream(self.end.next_writable(id), stream)
    }

    pub(crate) fn next_sendable(&self, from: u64, stream: &mut u64) -> u32
        ensures { MatchBool (is_small from) ((a : Option ℕ) × ((result, stream.new) ≡ found a stream.old) × IsLeast (IsSendable self.now) from a) (Invalid result stream.old stream.new) }
    {
        let Some(id) = StreamId::new(from) else {
            return INVALID;
        };
        of_stream(self.end.next_sendable(id), stream)
    }

    pub(crate) fn next_ended(&self, from: u64, stream: &mut u64) -> u32
        ensures { MatchBool (is_small from) ((a : Option ℕ) × ((result, stream.new) ≡ found a stream.old) × IsLeast (IsEnded self.now) from a) (Invalid result stream.old stream.new) }
    {
        let Some(id) = StreamId::new(from) else {
            return INVALID;
        };
        of_stream(self.end.next_ended(id), stream)
    }

    pub(crate) fn is_sendable(&self, answer: &mut bool) -> u32
        ensures { (result ≡ 0) × (IsTrue answer.new ↔ GoesBesideAck self.now) }
    {
        *answer = self.end.is_sendable();
        OK
    }

    pub(crate) fn is_blocked(&self, stream: u64, answer: &mut bool) -> u32
        ensures { MatchBool (is_small stream) ((result ≡ 0) × (answer.new ≡ is_blocked self.now stream)) (Invalid result answer.old answer.new) }
    {
        let Some(id) = StreamId::new(stream) else {
            return INVALID;
        };
        *answer = self.end.is_blocked(id);
        OK
    }

    pub(crate) fn credit_left(&self, count: &mut u64) -> u32
        ensures { (result ≡ 0) × (count.new ≡ credit_left self.now) }
    {
        *count = self.end.credit_left();
        OK
    }

    pub(crate) fn room(&self, stream: u64, count: &mut u64) -> u32
        ensures { MatchBool (is_small stream) ((result ≡ 0) × (count.new ≡ room self.now stream)) (Invalid result count.old count.new) }
    {
        let Some(id) = StreamId::new(stream) else {
            return INVALID;
        };
        *count = self.end.room(id);
        OK
    }

    pub(crate) fn unsent(&self, stream: u64, count: &mut u64) -> u32
        ensures { MatchBool (is_small stream) ((result ≡ 0) × (count.new ≡ unsent self.now stream)) (Invalid result count.old count.new) }
    {
        let Some(id) = StreamId::new(stream) else {
            return INVALID;
        };
        *count = self.end.unsent(id);
        OK
    }

    pub(crate) fn acked_below(&self, stream: u64, offset: &mut u64) -> u32
        ensures { MatchBool (is_small stream) ((result, offset.new) ≡ found (acked_below self.now stream) offset.old) (Invalid result offset.old offset.new) }
    {
        let Some(id) = StreamId::new(stream) else {
            return INVALID;
        };
        of_number(self.end.acked_below(id), offset)
    }

    pub(crate) fn ack_is_due(&self, answer: &mut bool) -> u32
        ensures { (result ≡ 0) × (answer.new ≡ self.now.ack_due) }
    {
        *answer = self.end.ack_is_due();
        OK
    }

    pub(crate) fn streams_left(&self, dir: u32, count: &mut u64) -> u32
        ensures { MatchBool (is_flag dir) ((result ≡ 0) × (count.new ≡ streams_left self.now (dir_of dir))) (Invalid result count.old count.new) }
    {
        let Some(way) = dir_of(dir) else {
            return INVALID;
        };
        *count = self.end.streams_left(way);
        OK
    }

    pub(crate) fn open_left(&self, dir: u32, count: &mut u64) -> u32
        ensures { MatchBool (is_flag dir) ((result ≡ 0) × (count.new ≡ open_left self.now (dir_of dir))) (Invalid result count.old count.new) }
    {
        let Some(way) = dir_of(dir) else {
            return INVALID;
        };
        *count = self.end.open_left(way);
        OK
    }

    pub(crate) fn granted_streams(&self, dir: u32, count: &mut u64) -> u32
        ensures { MatchBool (is_flag dir) ((result ≡ 0) × (count.new ≡ granted_streams self.now (dir_of dir))) (Invalid result count.old count.new) }
    {
        let Some(way) = dir_of(dir) else {
            return INVALID;
        };
        *count = self.end.granted_streams(way);
        OK
    }

    pub(crate) fn stored(&self, count: &mut u64) -> u32
        ensures { (result ≡ 0) × (count.new ≡ all_stored self.now) }
    {
        *count = self.end.stored();
        OK
    }

    pub(crate) fn noted(&self, count: &mut u64) -> u32
        ensures { (result ≡ 0) × (count.new ≡ all_noted self.now) }
    {
        *count = self.end.noted();
        OK
    }

    pub(crate) fn held(&self, receiving: &mut u64, sending: &mut u64) -> u32
        ensures { (result ≡ 0) × IsHeldBy self.now (record { receiving = receiving.new; sending = sending.new }) }
    {
        let held = self.end.held();
        *receiving = held.receiving;
        *sending = held.sending;
        OK
    }

    pub(crate) fn granted(&self, count: &mut u64) -> u32
        ensures { (result ≡ 0) × (count.new ≡ self.now.granted) }
    {
        *count = self.end.granted();
        OK
    }

    pub(crate) fn spent(&self, count: &mut u64) -> u32
        ensures { (result ≡ 0) × (count.new ≡ spent self.now) }
    {
        *count = self.end.spent();
        OK
    }

    pub(crate) fn next_number(&self, number: &mut u64) -> u32
        ensures { (result ≡ 0) × (number.new ≡ self.now.next) }
    {
        *number = self.end.next_number();
        OK
    }

    pub(crate) fn peer_closed(&self, code: &mut u64) -> u32
        ensures { (result, code.new) ≡ found (peer_closing self.now.closed) code.old }
    {
        of_number(self.end.peer_closed(), code)
    }

    pub(crate) fn stopped_with(&self, stream: u64, code: &mut u64) -> u32
        ensures { MatchBool (is_small stream) ((result, code.new) ≡ found (stopped_with self.now stream) code.old) (Invalid result code.old code.new) }
    {
        let Some(id) = StreamId::new(stream) else {
            return INVALID;
        };
        of_number(self.end.stopped_with(id), code)
    }

    pub(crate) fn next_outstanding(&self, from: u64, number: &mut u64) -> u32
        ensures { (a : Option ℕ) × ((result, number.new) ≡ found a number.old) × IsNextOutstanding self.now.outstanding from a }
    {
        of_number(self.end.next_outstanding(from), number)
    }

    pub(crate) fn lane_report(&self, stream: u64, lane: &mut GvLane) -> u32
        ensures { MatchBool (is_small stream) ((result, lane.new) ≡ found (option_map lane_of (lane_report self.now stream)) lane.old) (Invalid result lane.old lane.new) }
    {
        let Some(id) = StreamId::new(stream) else {
            return INVALID;
        };
        of_lane(self.end.lane_report(id), lane)
    }
}
