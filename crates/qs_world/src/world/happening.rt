//! One event happens to two endpoints.
ghost use Rattle.std.specs.Prelude.{◌≡◌, ◌≤◌, ◌<◌, ◌^◌, List, ℕ, length, true, None, Some, IfOk, MatchBool};
ghost use Rattle.qs_machine.specs.Receiving.{ReceiveStep};
ghost use Rattle.qs_world.specs.Buffers.{room_of};
ghost use Rattle.qs_calls.specs.Events.{act_fits, fits};
ghost use Rattle.qs_runs.specs.Logs.{payload};
ghost use Rattle.qs_runs.specs.Events.{happened, EventStep};
ghost use Rattle.qs_world.specs.Plays.{HasAgreed, IsMissing, IsMissingBy, world_by};

use super::calls::own_call;
use super::log::Log;
use qs_calls::{Act, Answer, Event, Side};
use qs_conn::{Closing, Endpoint, Received};
use std::alloc::{AllocError, Global};

pub(crate) fn is_missing(log: &Log, event: &Event) -> bool
    ensures { MatchBool result (IsMissing log.now.history event.now) (IsMissing log.now.history event.now → ⊥) }
{
    match &event.act {
        Act::Deliver(number) => log.payload(event.end, *number).is_none(),
        _ => false,
    }
}

/// Taken before anything happens, so that a refusal leaves the world as it was.
pub(crate) fn buffer_of(alloc: Global, size: usize) -> Result<Vec<u8>, AllocError>
    ensures { IfOk result (λ buffer. length buffer.items ≡ size) }
{
    vec![in alloc; 0; size]
}

pub(crate) fn happen(
    log: &Log,
    a: &mut Endpoint,
    b: &mut Endpoint,
    event: &Event,
    buffer: Vec<u8>,
) -> Answer
    requires agreed { HasAgreed (record { log = log.now.history; ends = record { a = a.old; b = b.old } }) }
    requires there { IsMissing log.now.history event.now → ⊥ }
    requires fits { fits event.now ≡ true }
    requires room { length buffer.items ≡ room_of event.now.act }
    ensures { EventStep log.now.history (record { a = a.old; b = b.old }) event.now result (record { a = a.new; b = b.new }) }
{
    match event.end {
        Side::A => happen_at(log, Side::A, a, b, &event.act, buffer),
        Side::B => happen_at(log, Side::B, b, a, &event.act, buffer),
    }
}

#[tactic(auto, using(crate::proofs::Sides::delivered, crate::proofs::Sides::owner_did))]
fn happen_at(
    log: &Log,
    side: Side,
    own: &mut Endpoint,
    peer: &mut Endpoint,
    act: &Act,
    buffer: Vec<u8>,
) -> Answer
    requires agreed { HasAgreed (record { log = log.now.history; ends = world_by side own.old peer.old }) }
    requires there { IsMissingBy log.now.history side act.now → ⊥ }
    requires fits { act_fits act.now ≡ true }
    requires room { length buffer.items ≡ room_of act.now }
    ensures { EventStep log.now.history (world_by side own.old peer.old) (record { end = side; act = act.now }) result (world_by side own.new peer.new) }
{
    match act {
        Act::Deliver(number) => Answer::Deliver(deliver(log, side, peer, *number)),
        _ => own_call(own, act, buffer),
    }
}

fn deliver(log: &Log, from: Side, to: &mut Endpoint, number: u64) -> Result<Received, Closing>
    requires there { payload from number (happened log.now.history) ≡ None → ⊥ }
    requires small { number < 2 ^ 62 }
    ensures { (text : List ℕ) × (payload from number (happened log.now.history) ≡ Some text) × ReceiveStep to.old number text result to.new }
{
    let Some(text) = log.payload(from, number) else {
        unreachable!()
    };
    to.receive(number, text)
}
