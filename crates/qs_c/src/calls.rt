//! What the calls do with an end.
ghost use Rattle.std.specs.Prelude.{◌≡◌, ◌++◌, ◌&&◌, List, ℕ, length, drop, Option, Some, None, option_map, Result, if◌then◌else◌};
ghost use Rattle.qs_recv.specs.declared.half.Read.{Read};
ghost use Rattle.qs_calls.specs.declared.uses.UseFault.{UseFault};
ghost use Rattle.qs_calls.specs.declared.uses.OpenFault.{OpenFault};
ghost use Rattle.qs_calls.specs.declared.making.LostFault.{LostFault};
ghost use Rattle.qs_calls.specs.declared.making.MakeFault.{MakeFault};
ghost use Rattle.qs_calls.specs.declared.making.Made.{Made};
ghost use Rattle.qs_calls.specs.declared.closing.Closing.{Closing};
ghost use Rattle.qs_calls.specs.declared.closing.Received.{Received};
ghost use Rattle.qs_calls.specs.declared.settings.RaiseFault.{RaiseFault};
ghost use Rattle.qs_machine.specs.Owner.{WriteStep, FinishStep, ResetStep, StopStep, StopAndDiscardStep, ReadStep, OpenStep, AcceptStep, AcceptOfStep};
ghost use Rattle.qs_machine.specs.Receiving.{ReceiveStep};
ghost use Rattle.qs_machine.specs.Making.{MakeStep, MakeAckStep, ClaimStep, LoseStep, ClosePayload};
ghost use Rattle.qs_machine.specs.Raising.{RaiseStep};
ghost use Rattle.qs_machine.specs.Reports.{own_closing};
ghost use Rattle.qs_conn.specs.Written.{made_text, KeepsRest};
ghost use Rattle.qs_c.specs.Statuses.{Tested, Invalid, is_small, is_room, is_flag, dir_of, use_status, lost_status, make_status, raise_status, status_of, told, found, read_told, open_told, made_told, received_told};
ghost use Rattle.qs_c.specs.Structs.{closing_of, limits_in};

use crate::answers::{
    INVALID, of_claim, of_closing, of_count, of_len, of_lost, of_made, of_open, of_raise, of_read,
    of_received, of_stream, of_use,
};
use crate::structs::{GvClosing, GvLimits, GvMade};
use crate::thing::Thing;
use qs_wire::{Dir, StreamId};

const LIMIT: u64 = 1 << 62;

const MIN_ROOM: usize = 128;

const MAX_ROOM: usize = 16_383;

impl Thing {
    pub(crate) fn receive(&mut self, number: u64, payload: &[u8], closing: &mut GvClosing) -> u32
        ensures { Tested (is_small number) self.old self.new (Invalid result closing.old closing.new) ((a : Result Received Closing) × ((result, closing.new) ≡ received_told a closing.old) × ReceiveStep self.old number payload.now a self.new) }
    {
        if number >= LIMIT {
            return INVALID;
        }
        of_received(self.end.receive(number, payload), closing)
    }

    pub(crate) fn make_packet_from(
        &mut self,
        first: u64,
        delay: u64,
        out: &mut [u8],
        made: &mut GvMade,
    ) -> u32
        ensures { Tested (is_small first && is_small delay && is_room (length out.old)) self.old self.new (Invalid result made.old made.new × (out.new ≡ out.old)) ((a : Result (Option Made) MakeFault) × ((result, made.new) ≡ made_told a made.old) × MakeStep self.old first delay (length out.old) a (made_text a out.new) self.new × KeepsRest a out.old out.new) }
    {
        let Some(id) = StreamId::new(first) else {
            return INVALID;
        };
        if delay >= LIMIT || out.len() < MIN_ROOM || out.len() > MAX_ROOM {
            return INVALID;
        }
        of_made(self.end.make_packet_from(id, delay, out), made)
    }

    pub(crate) fn open(&mut self, dir: u32, number: &mut u64) -> u32
        ensures { Tested (is_flag dir) self.old self.new (Invalid result number.old number.new) ((a : Result ℕ OpenFault) × ((result, number.new) ≡ open_told a number.old) × OpenStep self.old (dir_of dir) a self.new) }
    {
        let Some(way) = dir_of(dir) else {
            return INVALID;
        };
        of_open(self.end.open(way), number)
    }

    pub(crate) fn accept(&mut self, stream: &mut u64) -> u32
        ensures { (a : Option ℕ) × ((result, stream.new) ≡ found a stream.old) × AcceptStep self.old a self.new }
    {
        of_stream(self.end.accept(), stream)
    }

    pub(crate) fn accept_of(&mut self, dir: u32, stream: &mut u64) -> u32
        ensures { Tested (is_flag dir) self.old self.new (Invalid result stream.old stream.new) ((a : Option ℕ) × ((result, stream.new) ≡ found a stream.old) × AcceptOfStep self.old (dir_of dir) a self.new) }
    {
        let Some(way) = dir_of(dir) else {
            return INVALID;
        };
        of_stream(self.end.accept_of(way), stream)
    }

    pub(crate) fn write(&mut self, stream: u64, bytes: &[u8], count: &mut usize) -> u32
        ensures { Tested (is_small stream) self.old self.new (Invalid result count.old count.new) ((a : Result ℕ UseFault) × ((result, count.new) ≡ told use_status a count.old) × WriteStep self.old stream bytes.now a self.new) }
    {
        let Some(id) = StreamId::new(stream) else {
            return INVALID;
        };
        of_count(self.end.write(id, bytes), count)
    }

    pub(crate) fn finish(&mut self, stream: u64) -> u32
        ensures { Tested (is_small stream) self.old self.new (result ≡ 1) ((a : Result (Unit {0}) UseFault) × (result ≡ status_of use_status a) × FinishStep self.old stream a self.new) }
    {
        let Some(id) = StreamId::new(stream) else {
            return INVALID;
        };
        of_use(self.end.finish(id))
    }

    pub(crate) fn reset(&mut self, stream: u64, code: u64) -> u32
        ensures { Tested (is_small stream && is_small code) self.old self.new (result ≡ 1) ((a : Result (Unit {0}) UseFault) × (result ≡ status_of use_status a) × ResetStep self.old stream code a self.new) }
    {
        let Some(id) = StreamId::new(stream) else {
            return INVALID;
        };
        if code >= LIMIT {
            return INVALID;
        }
        of_use(self.end.reset(id, code))
    }

    pub(crate) fn stop(&mut self, stream: u64, code: u64) -> u32
        ensures { Tested (is_small stream && is_small code) self.old self.new (result ≡ 1) ((a : Result (Unit {0}) UseFault) × (result ≡ status_of use_status a) × StopStep self.old stream code a self.new) }
    {
        let Some(id) = StreamId::new(stream) else {
            return INVALID;
        };
        if code >= LIMIT {
            return INVALID;
        }
        of_use(self.end.stop(id, code))
    }

    pub(crate) fn stop_and_discard(&mut self, stream: u64, code: u64) -> u32
        ensures { Tested (is_small stream && is_small code) self.old self.new (result ≡ 1) ((a : Result (Unit {0}) UseFault) × (result ≡ status_of use_status a) × StopAndDiscardStep self.old stream code a self.new) }
    {
        let Some(id) = StreamId::new(stream) else {
            return INVALID;
        };
        if code >= LIMIT {
            return INVALID;
        }
        of_use(self.end.stop_and_discard(id, code))
    }

    pub(crate) fn read(&mut self, stream: u64, into: &mut [u8], number: &mut u64) -> u32
        ensures { Tested (is_small stream) self.old self.new (Invalid result number.old number.new × (into.new ≡ into.old)) ((a : Result Read UseFault) × (bytes : List ℕ) × ((result, number.new) ≡ read_told a number.old) × (into.new ≡ bytes ++ drop (length bytes) into.old) × ReadStep self.old stream (length into.old) a bytes self.new) }
    {
        let Some(id) = StreamId::new(stream) else {
            return INVALID;
        };
        of_read(self.end.read(id, into), number)
    }

    pub(crate) fn declare_lost(&mut self, number: u64) -> u32
        ensures { (a : Result (Unit {0}) LostFault) × (result ≡ status_of lost_status a) × LoseStep self.old number a self.new }
    {
        of_lost(self.end.declare_lost(number))
    }

    pub(crate) fn claim_number(&mut self, number: &mut u64) -> u32
        ensures { (a : Result ℕ MakeFault) × ((result, number.new) ≡ told make_status a number.old) × ClaimStep self.old a self.new }
    {
        of_claim(self.end.claim_number(), number)
    }

    pub(crate) fn make_ack(&mut self, delay: u64, out: &mut [u8], made: &mut GvMade) -> u32
        ensures { Tested (is_small delay && is_room (length out.old)) self.old self.new (Invalid result made.old made.new × (out.new ≡ out.old)) ((a : Result (Option Made) MakeFault) × ((result, made.new) ≡ made_told a made.old) × MakeAckStep self.old delay (length out.old) a (made_text a out.new) self.new × KeepsRest a out.old out.new) }
    {
        if delay >= LIMIT || out.len() < MIN_ROOM || out.len() > MAX_ROOM {
            return INVALID;
        }
        of_made(self.end.make_ack(delay, out), made)
    }

    pub(crate) fn raise_limits(&mut self, limits: &GvLimits) -> u32
        ensures { (a : Result (Unit {0}) RaiseFault) × (result ≡ status_of raise_status a) × RaiseStep self.old (limits_in limits.now) a self.new }
    {
        of_raise(self.end.raise_limits(&limits.limits()))
    }

    pub(crate) fn closing(&self, closing: &mut GvClosing) -> u32
        ensures { (result, closing.new) ≡ found (option_map closing_of (own_closing self.now.closed)) closing.old }
    {
        of_closing(self.end.closing(), closing)
    }

    pub(crate) fn close_payload(&self, out: &mut [u8], len: &mut usize) -> u32
        ensures { (a : Option ℕ) × ((result, len.new) ≡ found a len.old) × ClosePayload self.now out.old a out.new }
    {
        of_len(self.end.close_payload(out), len)
    }
}

pub(crate) fn dir_of(dir: u32) -> Option<Dir>
    ensures { result ≡ (if is_flag dir then Some (dir_of dir) else None) }
{
    match dir {
        0 => Some(Dir::Bidi),
        1 => Some(Dir::Uni),
        _ => None,
    }
}
