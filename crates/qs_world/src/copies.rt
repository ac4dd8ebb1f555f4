//! Copies of what happened, in memory of their own: for whoever keeps the log and hands it out.
ghost use Rattle.std.specs.Prelude.{◌≡◌, ◌≤◌, [], IfOk, length, vec_capacity};
ghost use Rattle.qs_world.specs.Copies.{SameEvent, SameAct, SameAnswer, SameLog};
ghost use Rattle.qs_world.specs.Buffers.{bytes_of};

use qs_calls::{Act, Answer, Event};
use std::alloc::{AllocError, Global};

/// Only the bytes of a write take memory.
pub fn copy_event(alloc: Global, event: &Event) -> Result<Event, AllocError>
    ensures { IfOk result (λ copy. SameEvent copy event.now) }
{
    let act = copy_act(alloc, &event.act)?;
    Ok(Event {
        end: event.end,
        act,
    })
}

fn copy_answer(alloc: Global, answer: &Answer) -> Result<Answer, AllocError>
    ensures { IfOk result (λ copy. SameAnswer copy answer.now) }
{
    let room = Vec::with_capacity(alloc, bytes_of(answer).len())?;
    Ok(copy_into(room, answer))
}

fn bytes_of(answer: &Answer) -> &[u8]
    ensures { result.now ≡ bytes_of answer.now }
{
    match answer {
        Answer::ReadUpTo(_, bytes) => bytes,
        Answer::Make(_, payload) => payload,
        _ => &[],
    }
}

/// It takes no memory, so that nothing can fail once the event happened.
pub(crate) fn copy_into(room: Vec<u8>, answer: &Answer) -> Answer
    requires empty { room.items ≡ [] }
    requires room { length (bytes_of answer.now) ≤ vec_capacity room }
    ensures { SameAnswer result answer.now }
{
    match answer {
        Answer::OpenStream(result) => Answer::OpenStream(*result),
        Answer::Accept(stream) => Answer::Accept(*stream),
        Answer::Write(result) => Answer::Write(*result),
        Answer::Finish(result) => Answer::Finish(*result),
        Answer::Reset(result) => Answer::Reset(*result),
        Answer::Stop(result) => Answer::Stop(*result),
        Answer::ReadUpTo(result, bytes) => Answer::ReadUpTo(*result, filled(room, bytes)),
        Answer::Make(result, payload) => Answer::Make(*result, filled(room, payload)),
        Answer::Lose(result) => Answer::Lose(*result),
        Answer::Claim(result) => Answer::Claim(*result),
        Answer::Deliver(result) => Answer::Deliver(*result),
    }
}

fn filled(mut room: Vec<u8>, bytes: &[u8]) -> Vec<u8>
    requires empty { room.items ≡ [] }
    requires room { length bytes.now ≤ vec_capacity room }
    ensures { result.items ≡ bytes.now }
{
    let _ = room.extend_from_slice(bytes);
    room
}

pub(crate) fn copy_log(
    alloc: Global,
    log: &[(Event, Answer)],
) -> Result<Vec<(Event, Answer)>, AllocError>
    ensures { IfOk result (λ copy. SameLog copy.items log.now) }
{
    let mut copy = Vec::with_capacity(alloc, log.len())?;
    for (event, answer) in log {
        let event = copy_event(alloc, event)?;
        let answer = copy_answer(alloc, answer)?;
        copy.push((event, answer))?;
    }
    Ok(copy)
}

fn copy_act(alloc: Global, act: &Act) -> Result<Act, AllocError>
    ensures { IfOk result (λ copy. SameAct copy act.now) }
{
    Ok(match act {
        Act::OpenStream(dir) => Act::OpenStream(*dir),
        Act::Accept => Act::Accept,
        Act::Write(stream, bytes) => Act::Write(*stream, Vec::from_slice(alloc, bytes)?),
        Act::Finish(stream) => Act::Finish(*stream),
        Act::Reset(stream, code) => Act::Reset(*stream, *code),
        Act::Stop(stream, code) => Act::Stop(*stream, *code),
        Act::ReadUpTo(stream, size) => Act::ReadUpTo(*stream, *size),
        Act::Make(room) => Act::Make(*room),
        Act::Lose(number) => Act::Lose(*number),
        Act::Claim => Act::Claim,
        Act::Deliver(number) => Act::Deliver(*number),
    })
}
