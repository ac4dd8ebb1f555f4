//! A frame without a fault takes effect.
ghost use Rattle.std.specs.Prelude.{◌≡◌, ◌+◌, ◌≤◌, ◌<◌, ◌^◌, length, true, None, OnOk, OnErr};
ghost use Rattle.std.specs.List.{FoldsTo};
ghost use Rattle.qs_ranges.specs.Numbers.{MAX_VARINT};
ghost use Rattle.qs_wire.specs.Varint.{numbers_of};
ghost use Rattle.qs_wire.specs.Layout.{taken, ack_ranges_of};
ghost use Rattle.qs_send.specs.declared.piece.Item.TheVariants as items;
ghost use Rattle.qs_machine.specs.Seen.{Ack, Stream, Control};
ghost use Rattle.qs_machine.specs.Verdicts.{state_fault_out, verdict};
ghost use Rattle.qs_machine.specs.FrameStep.{named, acks, item_taken, frame_taken};
ghost use Rattle.qs_machine.specs.Memory.{IsYetToOpen, MayRunOut};
ghost use Rattle.qs_machine.specs.Receiving.{RunsOut};
ghost use Rattle.qs_conn.specs.NewlyTold.{told_of};
ghost use Rattle.qs_conn.specs.Plain.{IsPlain};
ghost use Rattle.qs_conn.specs.Seen.{view_seen, SeenFits};

use super::Endpoint;
use crate::newly_told::Told;
use crate::seen::SeenFrame;
use qs_ranges::NoMemory;
use qs_send::Item;
use qs_streams::{Place, type_of};
use qs_wire::{Dir, StreamId};

impl Endpoint {
    // If it finds no memory it changes nothing, but that of an ACK some packets may be acknowledged then: each is let go by itself.
    #[tactic(auto, unfolding(qs_machine::specs::Verdicts::verdict, qs_machine::specs::FrameStep::frame_taken))]
    #[inline(always)]
    pub(super) fn on_frame<T: Told>(
        &mut self,
        seen: &SeenFrame<'_>,
        told: &mut T,
    ) -> Result<(), NoMemory>
        requires fits { SeenFits seen.now }
        requires passed { verdict self.old (view_seen seen.now) ≡ None }
        ensures ok { OnOk result (self.new ≡ frame_taken (view_seen seen.now) self.old) }
        ensures err { OnErr result (RunsOut self.old (view_seen seen.now) self.new) }
        ensures told { FoldsTo T.tells told.old (told_of (view_seen seen.now) self.old self.new) told.new }
    {
        match *seen {
            SeenFrame::Ack { largest, ranges } => self.on_ack(largest, ranges, told),
            SeenFrame::Stream {
                stream,
                offset,
                bytes,
                fin,
            } => self.on_stream(stream, offset, bytes, fin),
            SeenFrame::Control(Item::MaxData { maximum }) => {
                self.on_max_data(maximum);
                Ok(())
            }
            SeenFrame::Control(Item::MaxStreams { dir, count }) => {
                self.on_max_streams(dir, count);
                Ok(())
            }
            SeenFrame::Control(Item::MaxStreamData { stream, maximum }) => {
                self.on_max_stream_data(stream, maximum)
            }
            SeenFrame::Control(Item::StopSending { stream, code }) => {
                self.on_stop_sending(stream, code)
            }
            SeenFrame::Control(Item::StreamDataBlocked { stream, .. }) => self.open_by_peer(stream),
            SeenFrame::Control(
                Item::ResetStream {
                    stream,
                    code,
                    final_size,
                },
            ) => self.on_reset_stream(stream, code, final_size),
            SeenFrame::Control(_) | SeenFrame::Close(_) | SeenFrame::Plain { .. } => Ok(()),
        }
    }

    // Also those that were declared lost: a late ACK shows that they arrived (RFC 9000, sections 13.2.1 and 13.3).
    fn on_ack<T: Told>(&mut self, largest: u64, ranges: &[u8], told: &mut T) -> Result<(), NoMemory>
        requires small { largest < 2 ^ 62 }
        requires above { taken (numbers_of ranges.now) ≤ largest + 1 }
        ensures ok { OnOk result (self.new ≡ acks (named self.old (ack_ranges_of largest (numbers_of ranges.now))) self.old) }
        ensures err { OnErr result (RunsOut self.old (Ack largest (ack_ranges_of largest (numbers_of ranges.now))) self.new) }
        ensures told { FoldsTo T.tells told.old (told_of (Ack largest (ack_ranges_of largest (numbers_of ranges.now))) self.old self.new) told.new }
    {
        let before = self.core.ended;
        let taken = self.core.ack(largest, ranges, told);
        self.is_settled &= self.core.ended.is_same(before);
        taken
    }

    fn on_max_data(&mut self, maximum: u64)
        requires { maximum ≤ MAX_VARINT }
        ensures { self.new ≡ item_taken (items.MaxData maximum) self.old }
    {
        self.core.limits.known_data = self.core.limits.known_data.max(maximum);
    }

    fn on_max_streams(&mut self, dir: Dir, count: u64)
        requires { count ≤ 2 ^ 60 }
        ensures { self.new ≡ item_taken (items.MaxStreams dir count) self.old }
    {
        let known = &mut self.core.limits.known_streams;
        known.set(dir, known.of(dir).max(count));
    }

    #[tactic(auto, using(crate::proofs::AckRuns::idle_with))]
    fn on_max_stream_data(&mut self, stream: StreamId, maximum: u64) -> Result<(), NoMemory>
        requires limit { maximum ≤ MAX_VARINT }
        requires passed { state_fault_out self.old stream ≡ None }
        ensures ok { OnOk result (self.new ≡ item_taken (items.MaxStreamData stream maximum) self.old) }
        ensures err { OnErr result (self.new ≡ self.old) }
        ensures yet { OnErr result (IsYetToOpen self.old stream) }
    {
        self.open_by_peer(stream)?;
        self.core.allow(stream, maximum);
        Ok(())
    }

    // Either the half is reset at once, which no application can forget, or the application chose to answer.
    #[tactic(auto, using(crate::proofs::AckRuns::idle_with))]
    fn on_stop_sending(&mut self, stream: StreamId, code: u64) -> Result<(), NoMemory>
        requires fits { code ≤ MAX_VARINT }
        requires passed { state_fault_out self.old stream ≡ None }
        ensures ok { OnOk result (self.new ≡ item_taken (items.StopSending stream code) self.old) }
        ensures err { OnErr result (self.new ≡ self.old) }
        ensures yet { OnErr result (IsYetToOpen self.old stream) }
    {
        self.open_by_peer(stream)?;
        let answers = self.core.limits.tuning.answers_stops;
        let was = self.core.outbox.reset_of(stream);
        self.core.outbox.stopped(stream, code, answers);
        self.core.note_reset(stream, was);
        Ok(())
    }

    fn on_reset_stream(&mut self, stream: StreamId, code: u64, size: u64) -> Result<(), NoMemory>
        requires in_range { size ≤ MAX_VARINT }
        requires passed { verdict self.old (Control (items.ResetStream stream code size)) ≡ None }
        ensures ok { OnOk result (self.new ≡ item_taken (items.ResetStream stream code size) self.old) }
        ensures err { OnErr result (self.new ≡ self.old) }
        ensures yet { OnErr result (IsYetToOpen self.old stream) }
    {
        let _granted = self.core.limits.granted;
        self.open_by_peer(stream)?;
        let was = self.core.is_over(stream);
        self.core.recvs.take_reset(stream, code, size);
        let is = self.core.is_over(stream);
        self.core.ended.recount(stream, was, is);
        self.is_settled = false;
        Ok(())
    }

    // Most frames are of a stream that is open and of which no end, reset or stop came. Such a frame is taken by its half alone: no limit
    // is looked at as the call ends, and no stream counted anew.
    #[tactic(auto, unfolding(qs_machine::specs::FrameStep::frame_taken))]
    #[inline(always)]
    fn on_stream(
        &mut self,
        stream: Place,
        offset: u64,
        bytes: &[u8],
        fin: bool,
    ) -> Result<(), NoMemory>
        requires in_range { offset + length bytes.now ≤ MAX_VARINT }
        requires passed { verdict self.old (Stream stream offset bytes.now fin) ≡ None }
        ensures ok { OnOk result (self.new ≡ frame_taken (Stream stream offset bytes.now fin) self.old) }
        ensures err { OnErr result (self.new ≡ self.old) }
        ensures asks { OnErr result (MayRunOut self.old (Stream stream offset bytes.now fin)) }
    {
        if self.is_plain(stream) {
            self.core.recvs.take_stream(stream, offset, bytes, fin)?;
            return Ok(());
        }
        self.on_any_stream(stream.id, offset, bytes, fin)
    }

    fn is_plain(&self, stream: Place) -> bool
        ensures { result ≡ true → IsPlain self.now stream }
    {
        let Some(half) = self.core.recvs.half(stream) else {
            return false;
        };
        if half.is_told() {
            return false;
        }
        if half.stop_code().is_some() {
            return false;
        }
        if half.reset_code().is_some() {
            return false;
        }
        if stream.stream_type >= 2 {
            return true;
        }
        stream.index < self.core.outbox.count_of(stream.stream_type)
    }

    // The longer way: it may open streams, and end one.
    #[inline(always)]
    #[tactic(auto, unfolding(qs_machine::specs::FrameStep::frame_taken))]
    fn on_any_stream(
        &mut self,
        stream: StreamId,
        offset: u64,
        bytes: &[u8],
        fin: bool,
    ) -> Result<(), NoMemory>
        requires in_range { offset + length bytes.now ≤ MAX_VARINT }
        requires passed { verdict self.old (Stream stream offset bytes.now fin) ≡ None }
        ensures ok { OnOk result (self.new ≡ frame_taken (Stream stream offset bytes.now fin) self.old) }
        ensures err { OnErr result (self.new ≡ self.old) }
        ensures asks { OnErr result (MayRunOut self.old (Stream stream offset bytes.now fin)) }
    {
        self.core.outbox.learn_of_open();
        let stream_type = type_of(stream);
        let sends = self.core.outbox.count_of(stream_type);
        let recvs = self.core.recvs.count_of(stream_type);
        self.open_by_peer(stream)?;
        let was = self.core.is_over(stream);
        let place = Place::of(stream);
        if let Err(refused) = self.core.recvs.take_stream(place, offset, bytes, fin) {
            self.core.outbox.close_to(stream, sends);
            self.core.recvs.close_to(stream, recvs);
            self.is_settled = false;
            return Err(refused);
        }
        let is = self.core.is_over(stream);
        self.core.ended.recount(stream, was, is);
        self.is_settled = false;
        Ok(())
    }
}
