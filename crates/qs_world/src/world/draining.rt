//! Plain rounds, until nothing is left to do.
ghost use Rattle.std.specs.Prelude.{◌≡◌, ◌+◌, ◌<◌, ◌≤◌, true, None, IfSome, IfNone, MatchBool};
ghost use Rattle.qs_machine.specs.News.{IsLeast, IsReadable};
ghost use Rattle.qs_calls.specs.Events.{fits};
ghost use Rattle.qs_runs.specs.Worlds.{end_of};
ghost use Rattle.qs_world.specs.Plays.{HasAgreed, IsMissing};
ghost use Rattle.qs_world.specs.declared.world.draining.Turn.TheVariants.{Lose, Make, Read};
ghost use Rattle.qs_world.specs.Comes.{ComesToRest};
ghost use Rattle.qs_world.specs.Draining.{IsIdle, AreIdle, DrainStep, IsOf, IsOver, just_made, last_makes_none, next_turn, number_made, turns_to_make};

use super::World;
use super::log::same_side;
use crate::report::PlayFault;
use qs_calls::{Act, Answer, Event, MAX_VARINT, Side};
use qs_conn::Endpoint;
use qs_wire::StreamId;

const ROOM: usize = 1200;

const SIZE: usize = 1024;

/// What plain rounds came to.
#[derive(Clone, Copy, Debug, PartialEq, Eq, Drop)]
pub enum Drained {
    /// Both are at rest: nothing but an ACK may go out, no packet is outstanding, and no stream has news for its reader.
    AtRest,
    /// As many events happened as were allowed, and not both are at rest. A bound, since a call may be refused memory for ever.
    UsedUp,
}

#[derive(Clone, Copy, Drop)]
pub enum Turn {
    Lose(Side),
    /// Each is delivered at once, so none is lost in a round.
    Make(Side),
    Read(Side),
}

impl Turn {
    /// A round has six, and begins with A's losses: what was under way goes out again.
    fn after(self) -> Turn
        ensures next { result ≡ next_turn self }
        ensures nearer { 0 < turns_to_make self → turns_to_make result + 1 ≡ turns_to_make self }
        ensures near { turns_to_make result ≤ 3 }
    {
        match self {
            Turn::Lose(end) => Turn::Make(end),
            Turn::Make(Side::A) => Turn::Lose(Side::B),
            Turn::Make(Side::B) => Turn::Read(Side::A),
            Turn::Read(Side::A) => Turn::Read(Side::B),
            Turn::Read(Side::B) => Turn::Lose(Side::A),
        }
    }
}

impl World {
    /// Plays plain rounds until both ends are at rest, or until that many events happened. In a round each end in turn declares lost all
    /// that it has outstanding and makes packets until none is made, each of which is delivered at once; then the owner of each reads all
    /// that there is to read. Each event stands in [`World::log`] with its answer, as by [`World::happen`].
    ///
    /// Where no call is refused they come to rest, and a number bounds the events: one for each packet that is outstanding, eight for each
    /// thing that can be done for good, and thirteen. Another bounds the rounds: two for each window less its step that is filled, and six.
    ///
    /// At rest all is done: what was written was read, unless its stream was reset or stopped, all credit is back, and resets and stops
    /// have come to their end.
    ///
    /// Refused: `NoMemory` if the log found none. What happened until then stays.
    pub fn drain(&mut self, most: u64) -> Result<Drained, PlayFault>
        ensures drained { DrainStep self.old most result self.new }
        ensures comes { ComesToRest self.old most result self.new }
        ensures agrees { HasAgreed self.new }
    {
        self.learn_agreed();
        let mut left = most;
        let mut turn = Turn::Lose(Side::A);
        while !self.is_idle() {
            if left == 0 {
                return Ok(Drained::UsedUp);
            }
            match self.next_event(turn) {
                Some(event) => {
                    if let Err(fault) = self.happen(event) {
                        return Err(fault);
                    }
                    left -= 1;
                    if self.has_made_none() {
                        turn = turn.after();
                    }
                }
                None => turn = turn.after(),
            }
        }
        Ok(Drained::AtRest)
    }

    fn learn_agreed(&self)
        ensures { HasAgreed self.now }
    {
        let _a = &self.a;
    }

    fn is_idle(&self) -> bool
        ensures idle { MatchBool result (AreIdle self.now.ends) (AreIdle self.now.ends → ⊥) }
        ensures agrees { HasAgreed self.now }
    {
        is_idle(&self.a) && is_idle(&self.b)
    }

    fn next_event(&self, turn: Turn) -> Option<Event>
        ensures plain { IfSome result (λ event. IsOf turn self.now event × (fits event ≡ true) × (IsMissing self.now.log event → ⊥)) }
        ensures over { IfNone result (IsOver turn self.now.ends) }
    {
        match turn {
            Turn::Lose(end) => self.next_loss(end),
            Turn::Make(end) => Some(self.next_making(end)),
            Turn::Read(end) => self.next_read(end),
        }
    }

    fn next_loss(&self, end: Side) -> Option<Event>
        ensures plain { IfSome result (λ event. IsOf (Lose end) self.now event × (fits event ≡ true) × (IsMissing self.now.log event → ⊥)) }
        ensures over { IfNone result (IsOver (Lose end) self.now.ends) }
    {
        match self.end(end).next_outstanding(0) {
            Some(number) if number <= MAX_VARINT => Some(Event {
                end,
                act: Act::Lose(number),
            }),
            _ => None,
        }
    }

    fn next_making(&self, end: Side) -> Event
        ensures plain { IsOf (Make end) self.now result }
        ensures fits { fits result ≡ true }
        ensures there { IsMissing self.now.log result → ⊥ }
    {
        match self.just_made(end) {
            Some(number) => Event {
                end,
                act: Act::Deliver(number),
            },
            None => Event {
                end,
                act: Act::Make(ROOM),
            },
        }
    }

    fn next_read(&self, end: Side) -> Option<Event>
        ensures plain { IfSome result (λ event. IsOf (Read end) self.now event × (fits event ≡ true) × (IsMissing self.now.log event → ⊥)) }
        ensures over { IfNone result (IsOver (Read end) self.now.ends) }
    {
        match next_news(self.end(end)) {
            Some(stream) => Some(Event {
                end,
                act: Act::ReadUpTo(stream, SIZE),
            }),
            None => None,
        }
    }

    fn just_made(&self, end: Side) -> Option<u64>
        ensures value { result ≡ just_made end self.now.log }
        ensures agrees { HasAgreed self.now }
    {
        let Some((event, answer)) = self.log.entries().last() else {
            return None;
        };
        if same_side(end, event.end) {
            number_made(answer)
        } else {
            None
        }
    }

    fn has_made_none(&self) -> bool
        ensures { result ≡ last_makes_none self.now.log }
    {
        match self.log.entries().last() {
            Some((_, Answer::Make(Ok(Some(_)), _))) => false,
            Some((_, Answer::Make(_, _))) => true,
            _ => false,
        }
    }

    fn end(&self, side: Side) -> &Endpoint
        ensures { result.now ≡ end_of self.now.ends side }
    {
        match side {
            Side::A => &self.a,
            Side::B => &self.b,
        }
    }
}

fn number_made(answer: &Answer) -> Option<u64>
    ensures { result ≡ number_made answer.now }
{
    match answer {
        Answer::Make(Ok(Some(made)), _) => Some(made.number),
        _ => None,
    }
}

#[tactic(auto, using(crate::proofs::Draining::some_outstanding, crate::proofs::Draining::idle_by))]
fn is_idle(end: &Endpoint) -> bool
    ensures { MatchBool result (IsIdle end.now) (IsIdle end.now → ⊥) }
{
    if end.is_sendable() {
        return false;
    }
    match end.next_outstanding(0) {
        Some(_) => false,
        None => has_no_news(end),
    }
}

fn has_no_news(end: &Endpoint) -> bool
    ensures { MatchBool result (IsLeast (IsReadable end.now) 0 None) (IsLeast (IsReadable end.now) 0 None → ⊥) }
{
    match next_news(end) {
        Some(_) => false,
        None => true,
    }
}

fn next_news(end: &Endpoint) -> Option<StreamId>
    ensures { IsLeast (IsReadable end.now) 0 result }
{
    end.next_readable(first_stream())
}

fn first_stream() -> StreamId
    ensures { result ≡ 0 }
{
    match StreamId::new(0) {
        Some(id) => id,
        None => unreachable!(),
    }
}
