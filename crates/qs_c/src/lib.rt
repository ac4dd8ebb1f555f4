//! The calls of C: what the C layer in `c/src` offers as `gv_*` stands on them.
//!
//! Each takes a handle, checks what the endpoint's own call requires, and answers by a number of `specs/Statuses` and through its pointers.
//! Its contract is that of the endpoint's call, with how the answer is given. The C layer adds no number of its own, so what is proved here
//! is what C gets.
#![tactic(auto)]

mod acks;
mod answers;
mod asks;
mod calls;
mod cell;
mod closes;
mod consuming;
mod events;
mod frame;
mod giving;
mod handle;
mod lane;
mod lending;
mod listener;
mod listener_cell;
mod listener_handle;
mod loose;
mod news;
mod peeking;
mod puts;
mod reads;
mod setting;
mod stack;
mod starts;
mod structs;
mod sums;
mod telling;
mod thing;
mod tokens;

ghost use Rattle.std.specs.Prelude.{◌≡◌, ◌++◌, ◌&&◌, List, ℕ, true, length, map, drop, Option, None, option_map, Result, MatchBool, ◌↔◌, IsTrue, nat_eq};
ghost use Rattle.qs_wire.specs.Grammar.{frames_of};
ghost use Rattle.qs_wire.specs.Reading.{reading_of};
ghost use Rattle.qs_wire.specs.LastStream.{last_stream_of};
ghost use Rattle.qs_recv.specs.declared.half.Read.{Read};
ghost use Rattle.qs_calls.specs.declared.uses.UseFault.{UseFault};
ghost use Rattle.qs_calls.specs.declared.uses.OpenFault.{OpenFault};
ghost use Rattle.qs_calls.specs.declared.making.LostFault.{LostFault};
ghost use Rattle.qs_calls.specs.declared.making.MakeFault.{MakeFault};
ghost use Rattle.qs_calls.specs.declared.making.Made.{Made};
ghost use Rattle.qs_calls.specs.declared.closing.Closing.{Closing};
ghost use Rattle.qs_calls.specs.declared.closing.Received.{Received};
ghost use Rattle.qs_calls.specs.declared.settings.RaiseFault.{RaiseFault};
ghost use Rattle.qs_machine.specs.Owner.{WriteStep, FinishStep, ResetStep, StopStep, StopAndDiscardStep, ReadStep, OpenStep, AcceptStep, AcceptOfStep};
ghost use Rattle.qs_machine.specs.Receiving.{ReceiveStep};
ghost use Rattle.qs_machine.specs.Making.{MakeStep, MakeAckStep, ClaimStep, LoseStep, ClosePayload};
ghost use Rattle.qs_machine.specs.Raising.{RaiseStep};
ghost use Rattle.qs_machine.specs.News.{IsLeast, IsReadable, IsWritable, IsSendable, IsEnded};
ghost use Rattle.qs_machine.specs.Asking.{all_noted, GoesBesideAck, peer_closing, streams_left, open_left, is_blocked, credit_left, room, unsent, acked_below, stopped_with, IsNextOutstanding};
ghost use Rattle.qs_machine.specs.Credit.{spent, all_stored, granted_streams};
ghost use Rattle.qs_machine.specs.Reports.{own_closing, lane_report};
ghost use Rattle.qs_conn.specs.Written.{made_text, KeepsRest};
ghost use Rattle.qs_conn.specs.Held.{IsHeldBy};
ghost use Rattle.qs_c.specs.Statuses.{Called, Asked, Invalid, IsNew, Starts, role_of, is_small, is_room, is_flag, dir_of, use_status, lost_status, make_status, raise_status, status_of, told, found, read_told, open_told, made_told, received_told};
ghost use Rattle.qs_c.specs.Structs.{closing_of, settings_in, is_tuning, tuning_in, limits_in};
ghost use Rattle.qs_c.specs.Lanes.{lane_of};
ghost use Rattle.qs_c.specs.Frames.{NextAnswer, GivenAnswer};
ghost use Rattle.qs_c.specs.Acks.{pair_of, are_ranges, AckAnswer, RangeAnswer};
ghost use Rattle.qs_machine.specs.Ends.{wide_end_made};

use crate::acks::GvRange;
use crate::answers::{INVALID, of_stream};
use crate::frame::{GvFault, GvFrame};
use crate::handle::Handle;
use crate::lane::GvLane;
use crate::structs::{GvClosing, GvLimits, GvMade, GvSettings, GvTuning};
use qs_wire::last_stream;
use std::alloc::Global;

/// Apart from `gvp_new`, so that making an endpoint can't fail for memory once its settings passed. A handle that holds one loses it.
#[unsafe(no_mangle)]
pub extern "C" fn gvp_reserve(alloc: Global, end: &mut Handle) -> u32
    ensures { MatchBool (nat_eq result 0) (IsNew end.new.cell.value) ((result ≡ 2) × (end.new.cell.value ≡ end.old.cell.value)) }
{
    starts::reserve(alloc, end)
}

/// It takes no memory: `gvp_reserve` took it.
#[unsafe(no_mangle)]
pub extern "C" fn gvp_new(
    alloc: Global,
    end: &mut Handle,
    role: u32,
    settings: &GvSettings,
    tuning: &GvTuning,
    peer: &GvLimits,
) -> u32
    ensures { Called end.old.cell.value end.new.cell.value (is_flag role && is_tuning tuning.now) (result ≡ 1) (λ e f. Starts (wide_end_made (role_of role) (settings_in settings.now) (tuning_in tuning.now) (limits_in peer.now)) result e f) }
{
    let Some(mut thing) = end.take(alloc) else {
        return INVALID;
    };
    let status = thing.start(alloc, role, settings, tuning, peer);
    end.put(thing);
    status
}

#[unsafe(no_mangle)]
pub extern "C" fn gvp_free(alloc: Global, end: &mut Handle)
    ensures { end.new.cell.value ≡ None }
{
    let _gone = end.take(alloc);
}

#[unsafe(no_mangle)]
pub extern "C" fn gvp_receive(
    alloc: Global,
    end: &mut Handle,
    number: u64,
    payload: &[u8],
    closing: &mut GvClosing,
) -> u32
    ensures { Called end.old.cell.value end.new.cell.value (is_small number) (Invalid result closing.old closing.new) (λ e f. (a : Result Received Closing) × ((result, closing.new) ≡ received_told a closing.old) × ReceiveStep e number payload.now a f) }
{
    let Some(mut thing) = end.take(alloc) else {
        return INVALID;
    };
    let status = thing.receive(number, payload, closing);
    end.put(thing);
    status
}

#[unsafe(no_mangle)]
pub extern "C" fn gvp_make_packet_from(
    alloc: Global,
    end: &mut Handle,
    first: u64,
    delay: u64,
    out: &mut [u8],
    made: &mut GvMade,
) -> u32
    ensures { Called end.old.cell.value end.new.cell.value (is_small first && is_small delay && is_room (length out.old)) (Invalid result made.old made.new × (out.new ≡ out.old)) (λ e f. (a : Result (Option Made) MakeFault) × ((result, made.new) ≡ made_told a made.old) × MakeStep e first delay (length out.old) a (made_text a out.new) f × KeepsRest a out.old out.new) }
{
    let Some(mut thing) = end.take(alloc) else {
        return INVALID;
    };
    let status = thing.make_packet_from(first, delay, out, made);
    end.put(thing);
    status
}

#[unsafe(no_mangle)]
pub extern "C" fn gvp_open(alloc: Global, end: &mut Handle, dir: u32, number: &mut u64) -> u32
    ensures { Called end.old.cell.value end.new.cell.value (is_flag dir) (Invalid result number.old number.new) (λ e f. (a : Result ℕ OpenFault) × ((result, number.new) ≡ open_told a number.old) × OpenStep e (dir_of dir) a f) }
{
    let Some(mut thing) = end.take(alloc) else {
        return INVALID;
    };
    let status = thing.open(dir, number);
    end.put(thing);
    status
}

#[unsafe(no_mangle)]
pub extern "C" fn gvp_accept(alloc: Global, end: &mut Handle, stream: &mut u64) -> u32
    ensures { Called end.old.cell.value end.new.cell.value true (Invalid result stream.old stream.new) (λ e f. (a : Option ℕ) × ((result, stream.new) ≡ found a stream.old) × AcceptStep e a f) }
{
    let Some(mut thing) = end.take(alloc) else {
        return INVALID;
    };
    let status = thing.accept(stream);
    end.put(thing);
    status
}

#[unsafe(no_mangle)]
pub extern "C" fn gvp_accept_of(alloc: Global, end: &mut Handle, dir: u32, stream: &mut u64) -> u32
    ensures { Called end.old.cell.value end.new.cell.value (is_flag dir) (Invalid result stream.old stream.new) (λ e f. (a : Option ℕ) × ((result, stream.new) ≡ found a stream.old) × AcceptOfStep e (dir_of dir) a f) }
{
    let Some(mut thing) = end.take(alloc) else {
        return INVALID;
    };
    let status = thing.accept_of(dir, stream);
    end.put(thing);
    status
}

#[unsafe(no_mangle)]
pub extern "C" fn gvp_write(
    alloc: Global,
    end: &mut Handle,
    stream: u64,
    bytes: &[u8],
    count: &mut usize,
) -> u32
    ensures { Called end.old.cell.value end.new.cell.value (is_small stream) (Invalid result count.old count.new) (λ e f. (a : Result ℕ UseFault) × ((result, count.new) ≡ told use_status a count.old) × WriteStep e stream bytes.now a f) }
{
    let Some(mut thing) = end.take(alloc) else {
        return INVALID;
    };
    let status = thing.write(stream, bytes, count);
    end.put(thing);
    status
}

#[unsafe(no_mangle)]
pub extern "C" fn gvp_finish(alloc: Global, end: &mut Handle, stream: u64) -> u32
    ensures { Called end.old.cell.value end.new.cell.value (is_small stream) (result ≡ 1) (λ e f. (a : Result (Unit {0}) UseFault) × (result ≡ status_of use_status a) × FinishStep e stream a f) }
{
    let Some(mut thing) = end.take(alloc) else {
        return INVALID;
    };
    let status = thing.finish(stream);
    end.put(thing);
    status
}

#[unsafe(no_mangle)]
pub extern "C" fn gvp_reset(alloc: Global, end: &mut Handle, stream: u64, code: u64) -> u32
    ensures { Called end.old.cell.value end.new.cell.value (is_small stream && is_small code) (result ≡ 1) (λ e f. (a : Result (Unit {0}) UseFault) × (result ≡ status_of use_status a) × ResetStep e stream code a f) }
{
    let Some(mut thing) = end.take(alloc) else {
        return INVALID;
    };
    let status = thing.reset(stream, code);
    end.put(thing);
    status
}

#[unsafe(no_mangle)]
pub extern "C" fn gvp_stop(alloc: Global, end: &mut Handle, stream: u64, code: u64) -> u32
    ensures { Called end.old.cell.value end.new.cell.value (is_small stream && is_small code) (result ≡ 1) (λ e f. (a : Result (Unit {0}) UseFault) × (result ≡ status_of use_status a) × StopStep e stream code a f) }
{
    let Some(mut thing) = end.take(alloc) else {
        return INVALID;
    };
    let status = thing.stop(stream, code);
    end.put(thing);
    status
}

#[unsafe(no_mangle)]
pub extern "C" fn gvp_stop_and_discard(
    alloc: Global,
    end: &mut Handle,
    stream: u64,
    code: u64,
) -> u32
    ensures { Called end.old.cell.value end.new.cell.value (is_small stream && is_small code) (result ≡ 1) (λ e f. (a : Result (Unit {0}) UseFault) × (result ≡ status_of use_status a) × StopAndDiscardStep e stream code a f) }
{
    let Some(mut thing) = end.take(alloc) else {
        return INVALID;
    };
    let status = thing.stop_and_discard(stream, code);
    end.put(thing);
    status
}

#[unsafe(no_mangle)]
pub extern "C" fn gvp_read(
    alloc: Global,
    end: &mut Handle,
    stream: u64,
    into: &mut [u8],
    number: &mut u64,
) -> u32
    ensures { Called end.old.cell.value end.new.cell.value (is_small stream) (Invalid result number.old number.new × (into.new ≡ into.old)) (λ e f. (a : Result Read UseFault) × (bytes : List ℕ) × ((result, number.new) ≡ read_told a number.old) × (into.new ≡ bytes ++ drop (length bytes) into.old) × ReadStep e stream (length into.old) a bytes f) }
{
    let Some(mut thing) = end.take(alloc) else {
        return INVALID;
    };
    let status = thing.read(stream, into, number);
    end.put(thing);
    status
}

#[unsafe(no_mangle)]
pub extern "C" fn gvp_declare_lost(alloc: Global, end: &mut Handle, number: u64) -> u32
    ensures { Called end.old.cell.value end.new.cell.value true (result ≡ 1) (λ e f. (a : Result (Unit {0}) LostFault) × (result ≡ status_of lost_status a) × LoseStep e number a f) }
{
    let Some(mut thing) = end.take(alloc) else {
        return INVALID;
    };
    let status = thing.declare_lost(number);
    end.put(thing);
    status
}

#[unsafe(no_mangle)]
pub extern "C" fn gvp_closing(alloc: Global, end: &mut Handle, closing: &mut GvClosing) -> u32
    ensures { Asked end.old.cell.value end.new.cell.value true (Invalid result closing.old closing.new) (λ e. (result, closing.new) ≡ found (option_map closing_of (own_closing e.closed)) closing.old) }
{
    let Some(thing) = end.take(alloc) else {
        return INVALID;
    };
    let status = thing.closing(closing);
    end.put(thing);
    status
}

#[unsafe(no_mangle)]
pub extern "C" fn gvp_close_payload(
    alloc: Global,
    end: &mut Handle,
    out: &mut [u8],
    len: &mut usize,
) -> u32
    ensures { Asked end.old.cell.value end.new.cell.value true (Invalid result len.old len.new × (out.new ≡ out.old)) (λ e. (a : Option ℕ) × ((result, len.new) ≡ found a len.old) × ClosePayload e out.old a out.new) }
{
    let Some(thing) = end.take(alloc) else {
        return INVALID;
    };
    let status = thing.close_payload(out, len);
    end.put(thing);
    status
}

#[unsafe(no_mangle)]
pub extern "C" fn gvp_next_readable(
    alloc: Global,
    end: &mut Handle,
    from: u64,
    stream: &mut u64,
) -> u32
    ensures { Asked end.old.cell.value end.new.cell.value (is_small from) (Invalid result stream.old stream.new) (λ e. (a : Option ℕ) × ((result, stream.new) ≡ found a stream.old) × IsLeast (IsReadable e) from a) }
{
    let Some(thing) = end.take(alloc) else {
        return INVALID;
    };
    let status = thing.next_readable(from, stream);
    end.put(thing);
    status
}

#[unsafe(no_mangle)]
pub extern "C" fn gvp_next_writable(
    alloc: Global,
    end: &mut Handle,
    from: u64,
    stream: &mut u64,
) -> u32
    ensures { Asked end.old.cell.value end.new.cell.value (is_small from) (Invalid result stream.old stream.new) (λ e. (a : Option ℕ) × ((result, stream.new) ≡ found a stream.old) × IsLeast (IsWritable e) from a) }
{
    let Some(thing) = end.take(alloc) else {
        return INVALID;
    };
    let status = thing.next_writable(from, stream);
    end.put(thing);
    status
}

#[unsafe(no_mangle)]
pub extern "C" fn gvp_next_sendable(
    alloc: Global,
    end: &mut Handle,
    from: u64,
    stream: &mut u64,
) -> u32
    ensures { Asked end.old.cell.value end.new.cell.value (is_small from) (Invalid result stream.old stream.new) (λ e. (a : Option ℕ) × ((result, stream.new) ≡ found a stream.old) × IsLeast (IsSendable e) from a) }
{
    let Some(thing) = end.take(alloc) else {
        return INVALID;
    };
    let status = thing.next_sendable(from, stream);
    end.put(thing);
    status
}

#[unsafe(no_mangle)]
pub extern "C" fn gvp_next_ended(
    alloc: Global,
    end: &mut Handle,
    from: u64,
    stream: &mut u64,
) -> u32
    ensures { Asked end.old.cell.value end.new.cell.value (is_small from) (Invalid result stream.old stream.new) (λ e. (a : Option ℕ) × ((result, stream.new) ≡ found a stream.old) × IsLeast (IsEnded e) from a) }
{
    let Some(thing) = end.take(alloc) else {
        return INVALID;
    };
    let status = thing.next_ended(from, stream);
    end.put(thing);
    status
}

#[unsafe(no_mangle)]
pub extern "C" fn gvp_is_sendable(alloc: Global, end: &mut Handle, answer: &mut bool) -> u32
    ensures { Asked end.old.cell.value end.new.cell.value true (Invalid result answer.old answer.new) (λ e. (result ≡ 0) × (IsTrue answer.new ↔ GoesBesideAck e)) }
{
    let Some(thing) = end.take(alloc) else {
        return INVALID;
    };
    let status = thing.is_sendable(answer);
    end.put(thing);
    status
}

#[unsafe(no_mangle)]
pub extern "C" fn gvp_is_blocked(
    alloc: Global,
    end: &mut Handle,
    stream: u64,
    answer: &mut bool,
) -> u32
    ensures { Asked end.old.cell.value end.new.cell.value (is_small stream) (Invalid result answer.old answer.new) (λ e. (result ≡ 0) × (answer.new ≡ is_blocked e stream)) }
{
    let Some(thing) = end.take(alloc) else {
        return INVALID;
    };
    let status = thing.is_blocked(stream, answer);
    end.put(thing);
    status
}

#[unsafe(no_mangle)]
pub extern "C" fn gvp_credit_left(alloc: Global, end: &mut Handle, count: &mut u64) -> u32
    ensures { Asked end.old.cell.value end.new.cell.value true (Invalid result count.old count.new) (λ e. (result ≡ 0) × (count.new ≡ credit_left e)) }
{
    let Some(thing) = end.take(alloc) else {
        return INVALID;
    };
    let status = thing.credit_left(count);
    end.put(thing);
    status
}

#[unsafe(no_mangle)]
pub extern "C" fn gvp_room(alloc: Global, end: &mut Handle, stream: u64, count: &mut u64) -> u32
    ensures { Asked end.old.cell.value end.new.cell.value (is_small stream) (Invalid result count.old count.new) (λ e. (result ≡ 0) × (count.new ≡ room e stream)) }
{
    let Some(thing) = end.take(alloc) else {
        return INVALID;
    };
    let status = thing.room(stream, count);
    end.put(thing);
    status
}

#[unsafe(no_mangle)]
pub extern "C" fn gvp_unsent(alloc: Global, end: &mut Handle, stream: u64, count: &mut u64) -> u32
    ensures { Asked end.old.cell.value end.new.cell.value (is_small stream) (Invalid result count.old count.new) (λ e. (result ≡ 0) × (count.new ≡ unsent e stream)) }
{
    let Some(thing) = end.take(alloc) else {
        return INVALID;
    };
    let status = thing.unsent(stream, count);
    end.put(thing);
    status
}

#[unsafe(no_mangle)]
pub extern "C" fn gvp_acked_below(
    alloc: Global,
    end: &mut Handle,
    stream: u64,
    offset: &mut u64,
) -> u32
    ensures { Asked end.old.cell.value end.new.cell.value (is_small stream) (Invalid result offset.old offset.new) (λ e. (result, offset.new) ≡ found (acked_below e stream) offset.old) }
{
    let Some(thing) = end.take(alloc) else {
        return INVALID;
    };
    let status = thing.acked_below(stream, offset);
    end.put(thing);
    status
}

#[unsafe(no_mangle)]
pub extern "C" fn gvp_ack_is_due(alloc: Global, end: &mut Handle, answer: &mut bool) -> u32
    ensures { Asked end.old.cell.value end.new.cell.value true (Invalid result answer.old answer.new) (λ e. (result ≡ 0) × (answer.new ≡ e.ack_due)) }
{
    let Some(thing) = end.take(alloc) else {
        return INVALID;
    };
    let status = thing.ack_is_due(answer);
    end.put(thing);
    status
}

#[unsafe(no_mangle)]
pub extern "C" fn gvp_streams_left(
    alloc: Global,
    end: &mut Handle,
    dir: u32,
    count: &mut u64,
) -> u32
    ensures { Asked end.old.cell.value end.new.cell.value (is_flag dir) (Invalid result count.old count.new) (λ e. (result ≡ 0) × (count.new ≡ streams_left e (dir_of dir))) }
{
    let Some(thing) = end.take(alloc) else {
        return INVALID;
    };
    let status = thing.streams_left(dir, count);
    end.put(thing);
    status
}

#[unsafe(no_mangle)]
pub extern "C" fn gvp_open_left(alloc: Global, end: &mut Handle, dir: u32, count: &mut u64) -> u32
    ensures { Asked end.old.cell.value end.new.cell.value (is_flag dir) (Invalid result count.old count.new) (λ e. (result ≡ 0) × (count.new ≡ open_left e (dir_of dir))) }
{
    let Some(thing) = end.take(alloc) else {
        return INVALID;
    };
    let status = thing.open_left(dir, count);
    end.put(thing);
    status
}

#[unsafe(no_mangle)]
pub extern "C" fn gvp_granted_streams(
    alloc: Global,
    end: &mut Handle,
    dir: u32,
    count: &mut u64,
) -> u32
    ensures { Asked end.old.cell.value end.new.cell.value (is_flag dir) (Invalid result count.old count.new) (λ e. (result ≡ 0) × (count.new ≡ granted_streams e (dir_of dir))) }
{
    let Some(thing) = end.take(alloc) else {
        return INVALID;
    };
    let status = thing.granted_streams(dir, count);
    end.put(thing);
    status
}

#[unsafe(no_mangle)]
pub extern "C" fn gvp_stored(alloc: Global, end: &mut Handle, count: &mut u64) -> u32
    ensures { Asked end.old.cell.value end.new.cell.value true (Invalid result count.old count.new) (λ e. (result ≡ 0) × (count.new ≡ all_stored e)) }
{
    let Some(thing) = end.take(alloc) else {
        return INVALID;
    };
    let status = thing.stored(count);
    end.put(thing);
    status
}

#[unsafe(no_mangle)]
pub extern "C" fn gvp_noted(alloc: Global, end: &mut Handle, count: &mut u64) -> u32
    ensures { Asked end.old.cell.value end.new.cell.value true (Invalid result count.old count.new) (λ e. (result ≡ 0) × (count.new ≡ all_noted e)) }
{
    let Some(thing) = end.take(alloc) else {
        return INVALID;
    };
    let status = thing.noted(count);
    end.put(thing);
    status
}

#[unsafe(no_mangle)]
pub extern "C" fn gvp_held(
    alloc: Global,
    end: &mut Handle,
    receiving: &mut u64,
    sending: &mut u64,
) -> u32
    ensures { Asked end.old.cell.value end.new.cell.value true (Invalid result receiving.old receiving.new × (sending.new ≡ sending.old)) (λ e. (result ≡ 0) × IsHeldBy e (record { receiving = receiving.new; sending = sending.new })) }
{
    let Some(thing) = end.take(alloc) else {
        return INVALID;
    };
    let status = thing.held(receiving, sending);
    end.put(thing);
    status
}

#[unsafe(no_mangle)]
pub extern "C" fn gvp_granted(alloc: Global, end: &mut Handle, count: &mut u64) -> u32
    ensures { Asked end.old.cell.value end.new.cell.value true (Invalid result count.old count.new) (λ e. (result ≡ 0) × (count.new ≡ e.granted)) }
{
    let Some(thing) = end.take(alloc) else {
        return INVALID;
    };
    let status = thing.granted(count);
    end.put(thing);
    status
}

#[unsafe(no_mangle)]
pub extern "C" fn gvp_spent(alloc: Global, end: &mut Handle, count: &mut u64) -> u32
    ensures { Asked end.old.cell.value end.new.cell.value true (Invalid result count.old count.new) (λ e. (result ≡ 0) × (count.new ≡ spent e)) }
{
    let Some(thing) = end.take(alloc) else {
        return INVALID;
    };
    let status = thing.spent(count);
    end.put(thing);
    status
}

#[unsafe(no_mangle)]
pub extern "C" fn gvp_next_number(alloc: Global, end: &mut Handle, number: &mut u64) -> u32
    ensures { Asked end.old.cell.value end.new.cell.value true (Invalid result number.old number.new) (λ e. (result ≡ 0) × (number.new ≡ e.next)) }
{
    let Some(thing) = end.take(alloc) else {
        return INVALID;
    };
    let status = thing.next_number(number);
    end.put(thing);
    status
}

#[unsafe(no_mangle)]
pub extern "C" fn gvp_peer_closed(alloc: Global, end: &mut Handle, code: &mut u64) -> u32
    ensures { Asked end.old.cell.value end.new.cell.value true (Invalid result code.old code.new) (λ e. (result, code.new) ≡ found (peer_closing e.closed) code.old) }
{
    let Some(thing) = end.take(alloc) else {
        return INVALID;
    };
    let status = thing.peer_closed(code);
    end.put(thing);
    status
}

#[unsafe(no_mangle)]
pub extern "C" fn gvp_stopped_with(
    alloc: Global,
    end: &mut Handle,
    stream: u64,
    code: &mut u64,
) -> u32
    ensures { Asked end.old.cell.value end.new.cell.value (is_small stream) (Invalid result code.old code.new) (λ e. (result, code.new) ≡ found (stopped_with e stream) code.old) }
{
    let Some(thing) = end.take(alloc) else {
        return INVALID;
    };
    let status = thing.stopped_with(stream, code);
    end.put(thing);
    status
}

#[unsafe(no_mangle)]
pub extern "C" fn gvp_next_outstanding(
    alloc: Global,
    end: &mut Handle,
    from: u64,
    number: &mut u64,
) -> u32
    ensures { Asked end.old.cell.value end.new.cell.value true (Invalid result number.old number.new) (λ e. (a : Option ℕ) × ((result, number.new) ≡ found a number.old) × IsNextOutstanding e.outstanding from a) }
{
    let Some(thing) = end.take(alloc) else {
        return INVALID;
    };
    let status = thing.next_outstanding(from, number);
    end.put(thing);
    status
}

#[unsafe(no_mangle)]
pub extern "C" fn gvp_lane_report(
    alloc: Global,
    end: &mut Handle,
    stream: u64,
    lane: &mut GvLane,
) -> u32
    ensures { Asked end.old.cell.value end.new.cell.value (is_small stream) (Invalid result lane.old lane.new) (λ e. (result, lane.new) ≡ found (option_map lane_of (lane_report e stream)) lane.old) }
{
    let Some(thing) = end.take(alloc) else {
        return INVALID;
    };
    let status = thing.lane_report(stream, lane);
    end.put(thing);
    status
}

#[unsafe(no_mangle)]
pub extern "C" fn gvp_claim_number(alloc: Global, end: &mut Handle, number: &mut u64) -> u32
    ensures { Called end.old.cell.value end.new.cell.value true (Invalid result number.old number.new) (λ e f. (a : Result ℕ MakeFault) × ((result, number.new) ≡ told make_status a number.old) × ClaimStep e a f) }
{
    let Some(mut thing) = end.take(alloc) else {
        return INVALID;
    };
    let status = thing.claim_number(number);
    end.put(thing);
    status
}

#[unsafe(no_mangle)]
pub extern "C" fn gvp_make_ack(
    alloc: Global,
    end: &mut Handle,
    delay: u64,
    out: &mut [u8],
    made: &mut GvMade,
) -> u32
    ensures { Called end.old.cell.value end.new.cell.value (is_small delay && is_room (length out.old)) (Invalid result made.old made.new × (out.new ≡ out.old)) (λ e f. (a : Result (Option Made) MakeFault) × ((result, made.new) ≡ made_told a made.old) × MakeAckStep e delay (length out.old) a (made_text a out.new) f × KeepsRest a out.old out.new) }
{
    let Some(mut thing) = end.take(alloc) else {
        return INVALID;
    };
    let status = thing.make_ack(delay, out, made);
    end.put(thing);
    status
}

#[unsafe(no_mangle)]
pub extern "C" fn gvp_raise_limits(alloc: Global, end: &mut Handle, limits: &GvLimits) -> u32
    ensures { Called end.old.cell.value end.new.cell.value true (result ≡ 1) (λ e f. (a : Result (Unit {0}) RaiseFault) × (result ≡ status_of raise_status a) × RaiseStep e (limits_in limits.now) a f) }
{
    let Some(mut thing) = end.take(alloc) else {
        return INVALID;
    };
    let status = thing.raise_limits(limits);
    end.put(thing);
    status
}

#[unsafe(no_mangle)]
pub extern "C" fn gvp_last_stream(payload: &[u8], stream: &mut u64) -> u32
    ensures { (result, stream.new) ≡ found (last_stream_of None (frames_of (reading_of payload.now).left)) stream.old }
{
    of_stream(last_stream(payload), stream)
}

/// The place behind it is returned, so that C keeps the walk and no handle is needed.
#[unsafe(no_mangle)]
pub extern "C" fn gvp_frames_next(
    payload: &[u8],
    place: &mut usize,
    frame: &mut GvFrame,
    fault: &mut GvFault,
) -> u32
    ensures { NextAnswer payload.now result (record { place = place.old; frame = frame.old; fault = fault.old }) (record { place = place.new; frame = frame.new; fault = fault.new }) }
{
    reads::next(payload, place, frame, fault)
}

/// The token apart, since a frame's struct has only places.
#[unsafe(no_mangle)]
pub extern "C" fn gvp_put(
    frame: &GvFrame,
    bytes: &[u8],
    token: &[u8],
    out: &mut [u8],
    len: &mut usize,
) -> u32
    ensures { GivenAnswer frame.now bytes.now token.now (result, len.new, out.new) len.old out.old }
{
    puts::put_frame(frame, bytes, token, out, len)
}

#[unsafe(no_mangle)]
pub extern "C" fn gvp_put_ack(
    ranges: &[GvRange],
    delay: u64,
    out: &mut [u8],
    count: &mut usize,
    len: &mut usize,
) -> u32
    ensures { MatchBool (are_ranges ranges.now && is_small delay) (AckAnswer (map pair_of ranges.now) delay result (record { count = count.old; len = len.old; bytes = out.old }) (record { count = count.new; len = len.new; bytes = out.new })) (Invalid result count.old count.new × (len.new ≡ len.old) × (out.new ≡ out.old)) }
{
    acks::put(ranges, delay, out, count, len)
}

#[unsafe(no_mangle)]
pub extern "C" fn gvp_ack_next(
    bytes: &[u8],
    largest: &mut u64,
    used: &mut usize,
    range: &mut GvRange,
) -> u32
    ensures { RangeAnswer bytes.now result (record { largest = largest.old; used = used.old; range = range.old }) (record { largest = largest.new; used = used.new; range = range.new }) }
{
    acks::next_range(bytes, largest, used, range)
}
