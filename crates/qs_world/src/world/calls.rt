//! What an application does.
ghost use Rattle.std.specs.Prelude.{◌≡◌, ◌≤◌, ◌<◌, ◌^◌, length, false, true};
ghost use Rattle.qs_calls.specs.Events.{act_fits};
ghost use Rattle.qs_calls.specs.declared.event.Act.TheVariants.{ReadUpTo, Make};
ghost use Rattle.qs_world.specs.Owners.{is_delivery, OwnStep};
ghost use Rattle.qs_world.specs.Buffers.{room_of, count_read, count_made};

use qs_calls::{Act, Answer};
use qs_conn::{Endpoint, Made, MakeFault, UseFault};
use qs_recv::Read;
use qs_wire::StreamId;

/// Taken before the call, so that its answer can always be kept.
pub(crate) fn room_of(act: &Act) -> usize
    ensures { result ≡ room_of act.now }
{
    match act {
        Act::ReadUpTo(_, size) => *size,
        Act::Make(room) => *room,
        _ => 0,
    }
}

/// The buffer becomes the answer's bytes, so that a read copies once.
pub(crate) fn own_call(end: &mut Endpoint, act: &Act, buffer: Vec<u8>) -> Answer
    requires own { is_delivery act.now ≡ false }
    requires fits { act_fits act.now ≡ true }
    requires room { length buffer.items ≡ room_of act.now }
    ensures { OwnStep end.old act.now result end.new }
{
    match act {
        Act::OpenStream(dir) => Answer::OpenStream(end.open(*dir)),
        Act::Accept => Answer::Accept(end.accept()),
        Act::Write(stream, bytes) => Answer::Write(end.write(*stream, bytes)),
        Act::Finish(stream) => Answer::Finish(end.finish(*stream)),
        Act::Reset(stream, code) => Answer::Reset(end.reset(*stream, *code)),
        Act::Stop(stream, code) => Answer::Stop(end.stop(*stream, *code)),
        Act::ReadUpTo(stream, _) => read(end, *stream, buffer),
        Act::Make(_) => make(end, buffer),
        Act::Lose(number) => Answer::Lose(end.declare_lost(*number)),
        Act::Claim => Answer::Claim(end.claim_number()),
        Act::Deliver(_) => unreachable!(),
    }
}

fn read(end: &mut Endpoint, stream: StreamId, mut buffer: Vec<u8>) -> Answer
    ensures { OwnStep end.old (ReadUpTo stream (length buffer.items)) result end.new }
{
    let answer = end.read(stream, &mut buffer);
    buffer.truncate(count_read(&answer));
    Answer::ReadUpTo(answer, buffer)
}

fn count_read(answer: &Result<Read, UseFault>) -> usize
    ensures { result ≡ count_read answer.now }
{
    match *answer {
        Ok(Read::Bytes(count)) => count,
        _ => 0,
    }
}

fn make(end: &mut Endpoint, mut buffer: Vec<u8>) -> Answer
    requires least { 128 ≤ length buffer.items }
    requires most { length buffer.items ≤ 16383 }
    ensures { OwnStep end.old (Make (length buffer.items)) result end.new }
{
    let answer = end.make_packet(&mut buffer);
    buffer.truncate(count_made(&answer));
    Answer::Make(answer, buffer)
}

fn count_made(answer: &Result<Option<Made>, MakeFault>) -> usize
    ensures { result ≡ count_made answer.now }
{
    match *answer {
        Ok(Some(made)) => made.len,
        _ => 0,
    }
}
