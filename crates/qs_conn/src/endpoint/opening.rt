ghost use Rattle.std.specs.Prelude.{◌≡◌, ◌≤◌, ◌<◌, ◌^◌, max, ◌&&◌, if◌then◌else◌, true, false, OnOk, OnErr};
ghost use Rattle.qs_ranges.specs.Numbers.{MAX_VARINT};
ghost use Rattle.qs_recv.specs.Lane.{MAX_WINDOW, new_lane as new_recv_lane};
ghost use Rattle.qs_send.specs.Lane.{new_lane as new_send_lane};
ghost use Rattle.qs_machine.specs.Tables.{open_to};
ghost use Rattle.qs_machine.specs.Ends.{opens, opened_by_peer};
ghost use Rattle.qs_machine.specs.Credit.{settle};
ghost use Rattle.qs_machine.specs.Due.{known_count};
ghost use Rattle.qs_machine.specs.Memory.{IsYetToOpen};
ghost use Rattle.qs_machine.specs.Outgoing.{with_sends};
ghost use Rattle.qs_machine.specs.Owner.{OpenStep, AcceptStep, own_type, peer_type, opened_count, with_wanted};
ghost use Rattle.qs_machine.specs.EndStep.{EndStep, AcceptOf};

use super::{Endpoint, is_uni, role_bit};
use crate::outbox::Outbox;
use crate::recv_tables::RecvTables;
use qs_calls::{OpenFault, Share};
use qs_ranges::NoMemory;
use qs_streams::type_of;
use qs_wire::{Dir, StreamId};

impl Endpoint {
    /// Opens the next stream of that direction, and returns its number.
    ///
    /// Refused: `Closed`; `Blocked` with the peer's count if as many are open; and `NoMemory`, and then nothing changed.
    pub fn open(&mut self, dir: Dir) -> Result<StreamId, OpenFault>
        ensures { OpenStep self.old dir result self.new }
    {
        if self.closed.is_some() {
            return Err(OpenFault::Closed);
        }
        let stream_type = self.own_type(dir);
        let count = self.opened_count(stream_type);
        let known = self.known_count(dir);
        if known <= count as u64 {
            self.want(dir, known);
            self.settle();
            return Err(OpenFault::Blocked(known));
        }
        let stream = StreamId::new(count as u64 * 4 + stream_type as u64).unwrap();
        if let Err(_refused) = self.open_stream(stream) {
            return Err(OpenFault::NoMemory);
        }
        self.settle();
        Ok(stream)
    }

    /// Returns each stream that the peer opened, once: bidirectional ones first, lower numbers first.
    #[tactic(auto, using(crate::proofs::Asked::bidi_given, crate::proofs::Asked::uni_given))]
    pub fn accept(&mut self) -> Option<StreamId>
        ensures { AcceptStep self.old result self.new }
    {
        match self.accept_of(Dir::Bidi) {
            Some(stream) => Some(stream),
            None => self.accept_of(Dir::Uni),
        }
    }

    /// Returns each stream of one direction that the peer opened, once: lower numbers first (RFC 9000, section 2.1). What this call
    /// returned `accept` doesn't, and the other way round.
    pub fn accept_of(&mut self, dir: Dir) -> Option<StreamId>
        ensures { EndStep self.old (AcceptOf dir) result self.new }
    {
        if self.closed.is_some() {
            return None;
        }
        let stream_type = self.peer_type(dir);
        let count = self.accepted.of(dir);
        if count >= self.opened_count(stream_type) as u64 {
            return None;
        }
        self.accepted.set(dir, count + 1);
        self.settle();
        Some(StreamId::new(count * 4 + stream_type as u64).unwrap())
    }

    // A frame that names a stream of the peer opens it (RFC 9000, section 3.2). Memory is asked for only if it isn't open yet, so a repeat
    // needs none.
    pub(super) fn open_by_peer(&mut self, stream: StreamId) -> Result<(), NoMemory>
        ensures ok { OnOk result (self.new ≡ opened_by_peer stream self.old) }
        ensures err { OnErr result (self.new ≡ self.old) }
        ensures yet { OnErr result (IsYetToOpen self.old stream) }
    {
        if self.is_yet_to_open(stream) {
            return self.open_stream(stream);
        }
        Ok(())
    }

    #[tactic(auto, using(crate::proofs::AckRuns::idle_with))]
    fn open_stream(&mut self, stream: StreamId) -> Result<(), NoMemory>
        ensures ok { OnOk result (self.new ≡ opens stream self.old) }
        ensures err { OnErr result (self.new ≡ self.old) }
    {
        let (uni, own) = (is_uni(stream), self.is_own(stream));
        let limit = self.first_send_limit(stream);
        let window = self.window(stream);
        let share = self.core.limits.tuning.credit_step;
        let buffer = self.send_buffer();
        self.core.outbox.learn_of_open();
        let before = self.core.outbox.count_of(type_of(stream));
        self.core.due.make_room(stream)?;
        open_sends(&mut self.core.outbox, uni & !own, limit, buffer, stream)?;
        if let Err(refused) = open_recvs(&mut self.core.recvs, uni & own, window, share, stream) {
            self.core.outbox.close_to(stream, before);
            self.is_settled = false;
            return Err(refused);
        }
        self.is_settled = false;
        Ok(())
    }

    fn want(&mut self, dir: Dir, count: u64)
        ensures { self.new ≡ with_wanted dir count self.old }
    {
        self.core.limits.wanted_streams.set(dir, Some(count));
    }

    pub(super) fn known_count(&self, dir: Dir) -> u64
        ensures value { result ≡ known_count self.now dir }
        ensures small { result ≤ 2 ^ 60 }
    {
        self.core.limits.known_streams.of(dir)
    }

    pub(super) fn opened_count(&self, stream_type: usize) -> usize
        requires { stream_type < 4 }
        ensures value { result ≡ opened_count self.now stream_type }
        ensures small { result ≤ 2 ^ 60 }
    {
        self.core
            .outbox
            .count_of(stream_type)
            .max(self.core.recvs.count_of(stream_type))
    }

    pub(super) fn own_type(&self, dir: Dir) -> usize
        ensures value { result ≡ own_type self.now dir }
        ensures small { result < 4 }
    {
        match dir {
            Dir::Bidi => role_bit(self.core.limits.role),
            Dir::Uni => 2 + role_bit(self.core.limits.role),
        }
    }

    pub(super) fn peer_type(&self, dir: Dir) -> usize
        ensures value { result ≡ peer_type self.now dir }
        ensures small { result < 4 }
    {
        match dir {
            Dir::Bidi => 1 - role_bit(self.core.limits.role),
            Dir::Uni => 3 - role_bit(self.core.limits.role),
        }
    }
}

#[inline(always)]
fn open_sends(
    outbox: &mut Outbox,
    absent: bool,
    limit: u64,
    buffer: u32,
    stream: StreamId,
) -> Result<(), NoMemory>
    requires { limit ≤ MAX_VARINT }
    ensures ok { OnOk result (outbox.new ≡ with_sends (if absent then outbox.old.sends else open_to outbox.old.sends stream (λ m. new_send_lane m limit buffer)) outbox.old) }
    ensures err { OnErr result (outbox.new ≡ outbox.old) }
{
    if absent {
        return Ok(());
    }
    outbox.open_to(limit, buffer, stream)
}

fn open_recvs(
    recvs: &mut RecvTables,
    absent: bool,
    window: u64,
    share: Share,
    stream: StreamId,
) -> Result<(), NoMemory>
    requires some { 1 ≤ window }
    requires small { window ≤ MAX_WINDOW }
    ensures ok { OnOk result (recvs.new ≡ (if absent then recvs.old else open_to recvs.old stream (λ m. new_recv_lane window share))) }
    ensures err { OnErr result (recvs.new ≡ recvs.old) }
{
    if absent {
        return Ok(());
    }
    recvs.open_to(window, share, stream)
}
