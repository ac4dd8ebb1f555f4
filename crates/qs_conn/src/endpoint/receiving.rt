ghost use Rattle.std.specs.Prelude.{◌≡◌, ◌<◌, ◌^◌, ◌+◌, ◌-◌, if◌then◌else◌, OnOk, OnErr};
ghost use Rattle.std.specs.List.{FoldsTo};
ghost use Rattle.qs_wire.specs.Layout.{view};
ghost use Rattle.qs_wire.specs.Grammar.{Fits};
ghost use Rattle.qs_wire.specs.Reading.{view_placed};
ghost use Rattle.qs_send.specs.Records.{NoneEmpty};
ghost use Rattle.qs_machine.specs.Ends.{closes};
ghost use Rattle.qs_machine.specs.Newly.{newly_acked};
ghost use Rattle.qs_machine.specs.Seen.{seen};
ghost use Rattle.qs_machine.specs.Receiving.{ReceiveStep, TakesPayload, AtEnd, closing_at, closing_of, noted_receive, noted_of_us};
ghost use Rattle.qs_conn.specs.Layers.{TakesFrame};
ghost use Rattle.qs_conn.specs.NewlyTold.{told_of};
ghost use Rattle.qs_ranges.specs.Numbers.{numbers, MissesRange};
ghost use Rattle.qs_machine.specs.Recording.{has_too_many, least_in, lowest_end, recorded};
ghost use Rattle.qs_machine.specs.News.{IsLeast};
ghost use Rattle.std.specs.FinSet as set;

use super::Endpoint;
use crate::newly_told::{Silent, Told};
use crate::seen::{SeenFrame, asks_ack, seen};
use qs_calls::{Closed, Closer, Closing, NotedClose, Received};
use qs_ranges::{NoMemory, RangeSet};
use qs_wire::{Frames, Placed, WireFault};

/// What one frame does to the processing of its payload. If it goes on, the frame may ask for an ACK, which counts only when all frames
/// took effect.
#[derive(Drop)]
pub(crate) enum Progress {
    GoesOn(bool),
    Ends(Result<Received, Closing>),
}

/// A bound on what a peer can make this endpoint keep. All of them take at most 515 bytes in an ACK.
const MAX_RUNS: usize = 32;

impl Endpoint {
    /// Processes the payload of a packet: its frames take effect, one after the other, in order (RFC 9000, sections 12.3, 12.4 and 13.1).
    /// `number` is the packet's number, below 2^62; `payload` is all bytes of its frames.
    ///
    /// Returns
    /// - `Done` once all frames took effect. The number is kept, and if a frame asks for it an ACK is due (section 13.2).
    /// - `Duplicate` if the number is kept already, and `BelowFloor` if it is below those whose history is kept (section 13.2.3). Nothing
    ///   changes.
    /// - `NoMemory`: the frames before took effect, the number isn't kept, and the same payload may come again.
    /// - `PeerClosed` with the code of the peer's CONNECTION_CLOSE. The frames before it took effect; the endpoint is closed from now on
    ///   (section 10.2.2).
    ///
    /// Refused with a `Closing` if the bytes are no frames (section 12.4) or a frame breaks a rule (sections 4, 13.1, 19 and 20.1): its
    /// code, and the type and the place of that frame. The frames before it took effect; the endpoint is closed from now on, and
    /// `close_payload` writes the close (section 10.2).
    ///
    /// A closed endpoint returns what it returned when it closed, before it looks at the number, and nothing changes.
    pub fn receive(&mut self, number: u64, payload: &[u8]) -> Result<Received, Closing>
        requires { number < 2 ^ 62 }
        ensures { ReceiveStep self.old number payload.now result self.new }
    {
        self.receive_with_acks(number, payload, &mut Silent)
    }

    /// As `receive`, and `told` is called for each packet that the payload newly acknowledges, once: one that was outstanding, that an ACK
    /// of the payload names, and that isn't outstanding any more (RFC 9000, section 13.3). They come in the order of the ACKs, of each ACK
    /// the highest number first, as soon as the packet's last piece is acknowledged: congestion control goes on from there (RFC 9002,
    /// section 7).
    ///
    /// After `NoMemory` none was named that is still outstanding: the same payload may come again, and names the others.
    #[tactic(auto, using(crate::proofs::Asked::is_received, crate::proofs::Asked::nothing_told))]
    pub fn receive_with_acks<T: Told>(
        &mut self,
        number: u64,
        payload: &[u8],
        told: &mut T,
    ) -> Result<Received, Closing>
        requires { number < 2 ^ 62 }
        ensures step { ReceiveStep self.old number payload.now result self.new }
        ensures told { FoldsTo T.tells told.old (newly_acked self.old payload.now self.new) told.new }
    {
        match self.closed {
            Some(Closed::ByUs(closing)) => return Err(closing),
            Some(Closed::ByPeer(code)) => return Ok(Received::PeerClosed(code)),
            Some(Closed::Noted(close)) => return noted_receive(close),
            None => {}
        }
        if number < self.floor {
            return Ok(Received::BelowFloor);
        }
        if self.done.has(number) {
            return Ok(Received::Duplicate);
        }
        let taken = self.take_payload(number, payload, told);
        self.settle();
        taken
    }

    fn take_payload<T: Told>(
        &mut self,
        number: u64,
        payload: &[u8],
        told: &mut T,
    ) -> Result<Received, Closing>
        requires { number < 2 ^ 62 }
        ensures step { TakesPayload number payload.now self.old result self.new }
        ensures told { FoldsTo T.tells told.old (newly_acked self.old payload.now self.new) told.new }
    {
        self.learn_none_empty();
        let mut frames = Frames::new(payload);
        let mut asks = false;
        loop {
            // Most frames are of streams: apart, so that the compiler knows which frame this is.
            if let Some(placed) = frames.next_stream() {
                match self.take_placed(&placed, told) {
                    Progress::GoesOn(asks_ack) => asks |= asks_ack,
                    Progress::Ends(result) => return result,
                }
            } else {
                match frames.next() {
                    Ok(Some(placed)) => match self.take_placed(&placed, told) {
                        Progress::GoesOn(asks_ack) => asks |= asks_ack,
                        Progress::Ends(result) => return result,
                    },
                    Ok(None) => return Ok(self.record_all(number, asks)),
                    Err(fault) => return Err(self.close_by(fault)),
                }
            }
        }
    }

    fn learn_none_empty(&self)
        ensures { NoneEmpty self.now.outstanding }
    {
        self.core.outbox.learn_none_empty();
    }

    #[tactic(auto, using(crate::proofs::Asked::code_fits, crate::proofs::Asked::runs_out))]
    #[inline(always)]
    fn take_placed<T: Told>(&mut self, placed: &Placed<'_>, told: &mut T) -> Progress
        requires fits { Fits (view placed.now.frame) }
        requires typed { placed.now.frame_type < 2 ^ 62 }
        ensures step { TakesFrame (view_placed placed.now) self.old result self.new }
        ensures told { FoldsTo T.tells told.old (told_of (seen (view placed.now.frame)) self.old self.new) told.new }
    {
        let seen = seen(&placed.frame);
        if let SeenFrame::Close(code) = seen {
            self.closed = Some(Closed::ByPeer(code));
            return Progress::Ends(Ok(Received::PeerClosed(code)));
        }
        if let Some(code) = self.verdict(&seen) {
            return Progress::Ends(Err(self.close_at(placed, code)));
        }
        if let Err(_refused) = self.on_frame(&seen, told) {
            return Progress::Ends(Ok(Received::NoMemory));
        }
        Progress::GoesOn(asks_ack(&seen))
    }

    #[inline(always)]
    fn record_all(&mut self, number: u64, asks: bool) -> Received
        requires { number < 2 ^ 62 }
        ensures { AtEnd number asks None self.old (Ok result) self.new }
    {
        if let Err(_refused) = self.record(number, asks) {
            return Received::NoMemory;
        }
        Received::Done
    }

    fn close_at(&mut self, placed: &Placed<'_>, code: u64) -> Closing
        requires small { code < 2 ^ 62 }
        requires typed { placed.now.frame_type < 2 ^ 62 }
        ensures value { result ≡ closing_at (view_placed placed.now) code }
        ensures after { self.new ≡ closes (Closed.ByUs result) self.old }
    {
        let closing = Closing {
            code,
            frame_type: placed.frame_type,
            place: placed.place,
        };
        self.closed = Some(Closed::ByUs(closing));
        closing
    }

    fn close_by(&mut self, fault: WireFault) -> Closing
        requires { (fault.code < 2 ^ 62) × (fault.frame_type < 2 ^ 62) }
        ensures value { result ≡ closing_of fault }
        ensures after { self.new ≡ closes (Closed.ByUs result) self.old }
    {
        let closing = Closing {
            code: fault.code,
            frame_type: fault.frame_type,
            place: fault.place,
        };
        self.closed = Some(Closed::ByUs(closing));
        closing
    }

    // Only once all frames took effect: a number that is kept is acknowledged, and its payload never processed again (RFC 9000, section
    // 13.2.3).
    #[inline(always)]
    #[tactic(auto, using(qs_machine::proofs::RunLaws::insert_is_range, crate::proofs::Stages::few_recorded))]
    pub(super) fn record(&mut self, number: u64, asks: bool) -> Result<(), NoMemory>
        requires { number < 2 ^ 62 }
        ensures ok { OnOk result (self.new ≡ recorded number asks self.old) }
        ensures err { OnErr result (self.new ≡ self.old) }
        ensures touches_none { OnErr result (MissesRange self.old.done (number - 1) (number + 2)) }
    {
        self.done.insert(number, number + 1)?;
        self.floor = trim(&mut self.done, self.floor);
        self.ack_due |= asks;
        Ok(())
    }
}

// In the words that `receive` has, so that a stack needs no other way for it.
fn noted_receive(close: NotedClose) -> Result<Received, Closing>
    ensures { result ≡ noted_receive close.by close.code }
{
    match close.by {
        Closer::Us => Err(noted_of_us(close.code)),
        Closer::Peer => Ok(Received::PeerClosed(close.code)),
    }
}

// No frame's fault, so it names none.
pub(super) fn noted_of_us(code: u64) -> Closing
    ensures { result ≡ noted_of_us code }
{
    Closing {
        code,
        frame_type: 0,
        place: 0,
    }
}

// The lowest leaves, even if it is the number that just came. Numbers below the floor are dropped unseen from then on, so that none is
// processed twice.
#[tactic(auto, unfolding(qs_machine::specs::Recording::has_too_many))]
fn trim(done: &mut RangeSet, floor: u64) -> u64
    ensures done { done.new ≡ (if has_too_many done.old then set.difference done.old (numbers 0 (lowest_end done.old)) else done.old) }
    ensures floor { result ≡ (if has_too_many done.old then lowest_end done.old else floor) }
{
    if done.count() <= MAX_RUNS {
        return floor;
    }
    let end = lowest_end(done);
    done.drop_below(end);
    end
}

fn lowest_end(done: &RangeSet) -> u64
    ensures { result ≡ lowest_end done.now }
{
    done.first_missing(lowest(done))
}

fn lowest(done: &RangeSet) -> u64
    ensures { result ≡ least_in (set.items done.now) }
{
    match done.first() {
        Some(number) => number,
        None => 0,
    }
}
