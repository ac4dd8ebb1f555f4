//! Packets are acknowledged, or lost.
ghost use Rattle.std.specs.Prelude.{◌≡◌, ◌<◌, ◌≤◌, ◌-◌, ◌^◌, false, Some, Err, IfOk, IfErr, OnOk, OnErr};
ghost use Rattle.qs_wire.specs.Varint.{numbers_of};
ghost use Rattle.qs_wire.specs.Layout.{ack_ranges_of};
ghost use Rattle.qs_machine.specs.Memory.{PieceMayRunOut};
ghost use Rattle.qs_machine.specs.Outgoing.{first_piece, first_acked_out, acked_at};
ghost use Rattle.qs_conn.specs.Middle.{IsAtRest, KeepsStreams};
ghost use Rattle.qs_conn.specs.Ended.{half_of};
ghost use Rattle.std.specs.List.{FoldsTo};
ghost use Rattle.qs_conn.specs.Rows.{AcksFrom, AcksRow, IsRowAt, MayRunOutAt, numbers_down};
ghost use Rattle.qs_conn.specs.NewlyTold.{TellsNamed, TellsAhead};
ghost use Rattle.qs_conn.specs.Runs.{AcksAhead, AcksBoth, AcksNamed, AcksPacket, AcksRanges, from_below, held_out, Loses};
ghost use Rattle.std.specs.FinMap as fmap;

use super::Core;
use crate::newly_told::{Silent, Told};
use crate::outbox::{KeptPacket, Row};
use qs_ranges::NoMemory;
use qs_send::{AckPass, Item, Piece};
use qs_wire::{AckRanges, StreamId};

impl Core {
    /// The outstanding packets first and then the lost ones, each from the highest number down, as the ranges come (RFC 9000, sections
    /// 13.2.1 and 13.3). If memory runs out, some first pieces are acknowledged: the payload may come again and finishes the work.
    #[tactic(auto, using(crate::proofs::AckRuns::first_stops))]
    pub(crate) fn ack<T: Told>(
        &mut self,
        largest: u64,
        ranges: &[u8],
        told: &mut T,
    ) -> Result<(), NoMemory>
        requires rest { IsAtRest self.old }
        requires small { largest < 2 ^ 62 }
        ensures rest { IsAtRest self.new }
        ensures streams { KeepsStreams self.old self.new }
        ensures step { AcksRanges (ack_ranges_of largest (numbers_of ranges.now)) self.old.outbox result self.new.outbox }
        ensures told { TellsNamed T.tells (ack_ranges_of largest (numbers_of ranges.now)) self.old.outbox self.new.outbox told.old told.new }
    {
        self.ack_all(false, AckRanges::new(largest, ranges), told)?;
        if !self.outbox.keeps_lost() {
            return Ok(());
        }
        self.ack_all(true, AckRanges::new(largest, ranges), &mut Silent)
    }

    /// As by an ACK of these numbers alone, so that tokens are defined by ACKs (RFC 9000, section 13.3).
    pub(crate) fn ack_range(&mut self, first: u64, end: u64) -> Result<(), NoMemory>
        requires rest { IsAtRest self.old }
        ensures rest { IsAtRest self.new }
        ensures streams { KeepsStreams self.old self.new }
        ensures step { AcksBoth (from_below first end) self.old.outbox result self.new.outbox }
    {
        let result = self.ack_both(first, end);
        self.outbox.trim();
        result
    }

    #[tactic(auto, using(crate::proofs::AckRuns::both_stops, crate::proofs::AckRuns::both_done, crate::proofs::AckRuns::none_late))]
    fn ack_both(&mut self, first: u64, end: u64) -> Result<(), NoMemory>
        requires rest { IsAtRest self.old }
        ensures rest { IsAtRest self.new }
        ensures streams { KeepsStreams self.old self.new }
        ensures step { AcksBoth (from_below first end) self.old.outbox result self.new.outbox }
    {
        self.ack_numbers(false, first, end)?;
        if !self.outbox.keeps_lost() {
            return Ok(());
        }
        self.ack_numbers(true, first, end)
    }

    #[tactic(auto, using(crate::proofs::AckRuns::range_end, crate::proofs::AckRuns::range_stop, crate::proofs::AckRuns::range_more))]
    #[inline(always)]
    fn ack_numbers(&mut self, late: bool, first: u64, end: u64) -> Result<(), NoMemory>
        requires rest { IsAtRest self.old }
        ensures rest { IsAtRest self.new }
        ensures streams { KeepsStreams self.old self.new }
        ensures step { AcksAhead late (from_below first end) self.old.outbox result self.new.outbox }
    {
        let mut number = end;
        while number > first {
            number = self.ack_from(late, number - 1, first)?;
        }
        Ok(())
    }

    #[tactic(auto, using(crate::proofs::AckRuns::all_named, crate::proofs::AckRuns::told_named))]
    fn ack_all<T: Told>(
        &mut self,
        late: bool,
        ranges: AckRanges<'_>,
        told: &mut T,
    ) -> Result<(), NoMemory>
        requires rest { IsAtRest self.old }
        ensures rest { IsAtRest self.new }
        ensures streams { KeepsStreams self.old self.new }
        ensures step { AcksNamed late ranges.entry self.old.outbox result self.new.outbox }
        ensures told { late ≡ false → TellsNamed T.tells ranges.entry self.old.outbox self.new.outbox told.old told.new }
    {
        let mut pass = AckPass::new(ranges);
        let result = self.ack_ahead(late, &mut pass, told);
        self.outbox.trim();
        result
    }

    fn ack_ahead<T: Told>(
        &mut self,
        late: bool,
        pass: &mut AckPass<'_>,
        told: &mut T,
    ) -> Result<(), NoMemory>
        requires rest { IsAtRest self.old }
        ensures rest { IsAtRest self.new }
        ensures streams { KeepsStreams self.old self.new }
        ensures step { AcksAhead late pass.old self.old.outbox result self.new.outbox }
        ensures told { late ≡ false → TellsAhead T.tells pass.old self.old.outbox self.new.outbox told.old told.new }
    {
        while let Some(number) = self.outbox.next_named(late, pass) {
            self.outbox.learn_none_empty();
            let low = pass.low();
            let first = self.ack_from(late, number, low)?;
            pass.go_below(first);
            tell_down(told, number, first);
        }
        Ok(())
    }

    // With the packet those below it, down to `low` at most, that carried bytes in a row with it. Answers the lowest number.
    #[inline(always)]
    fn ack_from(&mut self, late: bool, number: u64, low: u64) -> Result<u64, NoMemory>
        requires rest { IsAtRest self.old }
        ensures rest { IsAtRest self.new }
        ensures streams { KeepsStreams self.old self.new }
        ensures ok { IfOk result (λ first. AcksFrom late number low first self.old.outbox self.new.outbox) }
        ensures err { IfErr result (λ e. AcksPacket late number self.old.outbox (Err e) self.new.outbox) }
    {
        if !late {
            if let Some(row) = self.outbox.row(number, low) {
                self.ack_row(number, &row)?;
                return Ok(row.first);
            }
        }
        self.ack_packet(KeptPacket { late, number })?;
        Ok(number)
    }

    #[inline(always)]
    fn ack_row(&mut self, number: u64, row: &Row) -> Result<(), NoMemory>
        requires rest { IsAtRest self.old }
        requires row { IsRowAt self.old.outbox.outstanding row.now.stream number row.now.first row.now.chunk }
        ensures rest { IsAtRest self.new }
        ensures streams { KeepsStreams self.old self.new }
        ensures ok { OnOk result (AcksRow row.now.stream number row.now.first self.old.outbox self.new.outbox) }
        ensures err { OnErr result (self.new.outbox ≡ self.old.outbox) }
        ensures asks { OnErr result (MayRunOutAt number row.now.stream self.old.outbox) }
    {
        let was = self.is_over(row.stream);
        self.outbox.ack_row(number, row)?;
        let is = self.is_over(row.stream);
        self.ended.recount(row.stream, was, is);
        Ok(())
    }

    #[tactic(auto, using(crate::proofs::AckRuns::packet_end, crate::proofs::AckRuns::packet_stop, crate::proofs::AckRuns::packet_more, crate::proofs::AckRuns::packet_less))]
    #[inline(always)]
    fn ack_packet(&mut self, packet: KeptPacket) -> Result<(), NoMemory>
        requires rest { IsAtRest self.old }
        ensures rest { IsAtRest self.new }
        ensures streams { KeepsStreams self.old self.new }
        ensures step { AcksPacket packet.late packet.number self.old.outbox result self.new.outbox }
    {
        while let Some(piece) = self.outbox.first_kept(packet) {
            self.ack_piece(packet, piece)?;
        }
        Ok(())
    }

    // One by one, so that after a refusal each piece is either acknowledged or not.
    #[inline(always)]
    fn ack_piece(&mut self, packet: KeptPacket, piece: Piece) -> Result<(), NoMemory>
        requires rest { IsAtRest self.old }
        requires first { first_piece (fmap.get (held_out packet.late self.old.outbox) packet.number) ≡ Some piece }
        ensures ok { OnOk result (self.new.outbox ≡ first_acked_out (acked_at packet.late packet.number piece) self.old.outbox) }
        ensures err { OnErr result (self.new.outbox ≡ self.old.outbox) }
        ensures asks { OnErr result (PieceMayRunOut self.old.outbox.sends self.old.outbox.acked piece) }
        ensures rest { IsAtRest self.new }
        ensures streams { KeepsStreams self.old self.new }
    {
        let Some(stream) = half_of(&piece) else {
            self.outbox.ack_kept(packet, piece)?;
            return Ok(());
        };
        let was = self.is_over(stream);
        self.outbox.ack_kept(packet, piece)?;
        let is = self.is_over(stream);
        self.ended.recount(stream, was, is);
        Ok(())
    }

    pub(crate) fn lose(&mut self, number: u64) -> Result<(), NoMemory>
        requires rest { IsAtRest self.old }
        ensures rest { IsAtRest self.new }
        ensures streams { KeepsStreams self.old self.new }
        ensures ended { self.new.ended ≡ self.old.ended }
        ensures step { Loses number self.old.outbox result self.new.outbox }
    {
        let result = self.lose_pieces(number);
        self.outbox.trim();
        result
    }

    // One by one, so that after a refusal each piece is either lost or outstanding.
    #[tactic(auto, using(crate::proofs::AckRuns::loses_end, crate::proofs::AckRuns::loses_less))]
    fn lose_pieces(&mut self, number: u64) -> Result<(), NoMemory>
        requires rest { IsAtRest self.old }
        ensures rest { IsAtRest self.new }
        ensures streams { KeepsStreams self.old self.new }
        ensures ended { self.new.ended ≡ self.old.ended }
        ensures step { Loses number self.old.outbox result self.new.outbox }
    {
        while let Some(piece) = self.outbox.first(number) {
            self.outbox.learn_apart();
            self.outbox.lose_first(number, piece)?;
            self.note_lost(&piece);
        }
        Ok(())
    }
}

#[tactic(auto, using(crate::proofs::AckRuns::down_next))]
fn tell_down<T: Told>(told: &mut T, number: u64, first: u64)
    requires { first ≤ number }
    ensures { FoldsTo T.tells told.old (numbers_down first (number - first)) told.new }
{
    let mut last = number;
    while last > first {
        told.tell(last);
        last -= 1;
    }
    told.tell(first);
}

fn half_of(piece: &Piece) -> Option<StreamId>
    ensures { result ≡ half_of piece.now }
{
    match *piece {
        Piece::Data { stream, .. } => Some(stream),
        Piece::Told(Item::ResetStream { stream, .. }) => Some(stream),
        Piece::Told(_) => None,
    }
}
