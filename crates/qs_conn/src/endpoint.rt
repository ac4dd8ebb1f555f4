//! One endpoint of a connection.
ghost use Rattle.std.specs.Prelude.{◌≡◌, ◌+◌, ◌≤◌, ◌<◌, max, min, Some, None};
ghost use Rattle.qs_ranges.specs.Numbers.{MAX_VARINT};
ghost use Rattle.qs_recv.specs.Lane.{MAX_WINDOW, next_limit};
ghost use Rattle.qs_calls.specs.Settings.{wide_setup_fault};
ghost use Rattle.qs_machine.specs.Ends.{end_made, wide_end_made, new_end, role_bit, is_uni, is_own, first_window, first_send_limit};
ghost use Rattle.qs_machine.specs.Credit.{spent, all_stored, granted_streams, count_step, in_steps, settle};
ghost use Rattle.qs_machine.specs.Making.{ClosePayload, ClosePayloadBy, close_text_of};
ghost use Rattle.qs_conn.specs.Layers.{ClosingFits};
ghost use Rattle.qs_conn.specs.Held.{IsHeldBy};
ghost use Rattle.qs_machine.specs.Standing.{IsWithinCredit};
ghost use Rattle.qs_machine.specs.EndStep.{EndStep, Stored, Granted, GrantedStreams, Spent, ClosingPayload, NoteClosed};

use crate::by_dir::ByDir;
use crate::held::Held;
use crate::limits::Limits;
use crate::middle::Core;
use crate::outbox::Outbox;
use crate::own_told::OwnTold;
use crate::recv_tables::RecvTables;
use crate::setup::{setup_fault, wide_setup_fault};
use qs_calls::{Closed, Closing, NotedClose, PeerLimits, Settings, SetupFault, Share, Tuning};
use qs_ranges::RangeSet;
use qs_recv::{next_limit, step_of};
use qs_streams::{Boards, type_of};
use qs_wire::{Dir, Frame, Role, StreamId, put};
use std::alloc::Global;
use std::marker::Model;

mod alone;
mod asking;
mod frames;
mod hearing;
mod making;
mod news;
mod opening;
mod owner;
mod raising;
mod receiving;
mod setting;
mod taking;
mod tokens;

/// One endpoint of a connection. It processes payloads and makes packets. The application opens, accepts, writes, finishes, resets, reads
/// and stops streams; the transport declares packets lost (RFC 9000, sections 2 to 4 and 13).
///
/// Contracts see it as a record.
#[derive(Drop)]
pub struct Endpoint {
    core: Core,
    peer: PeerLimits,
    // A call that moved nothing which limits and counts follow looks at none of them as it ends.
    is_settled: bool,
    accepted: ByDir<u64>,
    done: RangeSet,
    floor: u64,
    ack_due: bool,
    closed: Option<Closed>,
    alloc: Global,
}

impl Model for Endpoint {
    ghost use Rattle.qs_machine.specs.Ends.{End};
    ghost use Rattle.qs_machine.specs.EndCodes.{end_code};
    ghost use Rattle.qs_conn.specs.Middle.{IsKept};

    ghost Value = { End };

    ghost coded = { end_code };

    ghost view = { λ e. record {
      role = e.core.limits.role;
      settings = e.core.limits.settings;
      present = record {
        conn_window = e.core.limits.conn_window;
        widest = e.core.limits.widest;
        grant_bidi = e.core.limits.grants.bidi;
        grant_uni = e.core.limits.grants.uni;
      };
      tuning = e.core.limits.tuning;
      peer = e.peer;
      sends = e.core.outbox.sends;
      recvs = e.core.recvs;
      granted = e.core.limits.granted;
      granted_bidi = e.core.limits.granted_streams.bidi;
      granted_uni = e.core.limits.granted_streams.uni;
      known_data = e.core.limits.known_data;
      known_bidi = e.core.limits.known_streams.bidi;
      known_uni = e.core.limits.known_streams.uni;
      accepted_bidi = e.accepted.bidi;
      accepted_uni = e.accepted.uni;
      wanted_bidi = e.core.limits.wanted_streams.bidi;
      wanted_uni = e.core.limits.wanted_streams.uni;
      done = e.done;
      floor = e.floor;
      ack_due = e.ack_due;
      next = e.core.outbox.next;
      outstanding = e.core.outbox.outstanding;
      lost = e.core.outbox.lost;
      acked = e.core.outbox.acked;
      closed = e.closed;
    } };

    ghost invariant = { λ e. IsKept e.core e.peer e.done e.is_settled e.ack_due e.closed };
}

impl Endpoint {
    /// A new endpoint. Refused if a setting is out of its range, or if the peer permits more streams than have a number (RFC 9000, section
    /// 4.6).
    #[tactic(auto, using(qs_machine::proofs::Counts::no_wide_fault))]
    pub fn new(
        alloc: Global,
        role: Role,
        settings: Settings,
        peer: PeerLimits,
    ) -> Result<Endpoint, SetupFault>
        ensures { result ≡ end_made role settings peer }
    {
        match setup_fault(&settings, &peer) {
            Some(fault) => Err(fault),
            None => Ok(Self::begun(alloc, role, settings, Tuning::by_default(), peer)),
        }
    }

    /// The same with wider ranges: windows of streams and sending buffers of up to 2^30 bytes, a connection's window of up to 2^40, grants
    /// of up to 2^17 streams of a direction and lifetimes of up to 2^21; and tuned. What [`new`](Endpoint::new) makes this makes, too.
    pub fn with_tuning(
        alloc: Global,
        role: Role,
        settings: Settings,
        tuning: Tuning,
        peer: PeerLimits,
    ) -> Result<Endpoint, SetupFault>
        ensures { result ≡ wide_end_made role settings tuning peer }
    {
        match wide_setup_fault(&settings, &peer) {
            Some(fault) => Err(fault),
            None => Ok(Self::begun(alloc, role, settings, tuning, peer)),
        }
    }

    fn begun(
        alloc: Global,
        role: Role,
        settings: Settings,
        tuning: Tuning,
        peer: PeerLimits,
    ) -> Endpoint
        requires { wide_setup_fault settings peer ≡ None }
        ensures { result ≡ new_end role settings tuning peer }
    {
        Endpoint {
            core: Core {
                limits: Limits {
                    role,
                    settings,
                    tuning,
                    conn_window: settings.conn_window,
                    widest: settings.conn_window,
                    grants: ByDir::new(settings.grant_bidi, settings.grant_uni),
                    granted: settings.conn_window,
                    known_data: peer.max_data,
                    granted_streams: ByDir::new(settings.grant_bidi, settings.grant_uni),
                    known_streams: ByDir::new(peer.streams_bidi, peer.streams_uni),
                    wanted_streams: ByDir::new(None, None),
                },
                outbox: Outbox::new(alloc),
                recvs: RecvTables::new(alloc),
                due: Boards::new(alloc),
                own: OwnTold::new(),
                ended: ByDir::new(0, 0),
            },
            peer,
            is_settled: false,
            accepted: ByDir::new(0, 0),
            done: RangeSet::new(alloc),
            floor: 0,
            ack_due: false,
            closed: None,
            alloc,
        }
    }

    /// How many bytes are stored: at most what was granted beyond what was consumed.
    #[tactic(auto, using(crate::proofs::Cores::within_counted))]
    pub fn stored(&self) -> u64
        ensures exact { result ≡ all_stored self.now }
        ensures call { EndStep self.now Stored result self.now }
        ensures within { IsWithinCredit self.now }
    {
        let _granted = self.core.limits.granted;
        self.core.recvs.tally().stored
    }

    /// How much memory the receive buffers take and the sending buffers, by a walk over all streams that were opened, so for a look from
    /// time to time: a sum would have to be kept at each call. A peer within its credit can't make the receive buffers take more than four
    /// times the widest window of the connection that was set, and 4,096 bytes for each receiving half that still keeps bytes. A sending
    /// half that was reset, or of which all was acknowledged, takes none.
    pub fn held(&self) -> Held
        ensures { IsHeldBy self.now result }
    {
        let _granted = self.core.limits.granted;
        Held {
            receiving: self.core.recvs.held(),
            sending: self.core.outbox.held(),
        }
    }

    /// The connection limit granted to the peer (RFC 9000, section 4.1).
    pub fn granted(&self) -> u64
        ensures exact { result ≡ self.now.granted }
        ensures call { EndStep self.now Granted result self.now }
    {
        self.core.limits.granted
    }

    /// How many streams of a direction the peer may open: the grant, and one more for each of its streams that ended, up to the lifetime's
    /// count, and no fewer than before (RFC 9000, section 4.6). It takes no memory.
    pub fn granted_streams(&self, dir: Dir) -> u64
        ensures exact { result ≡ granted_streams self.now dir }
        ensures call { EndStep self.now (GrantedStreams dir) result self.now }
    {
        self.core.limits.granted_streams.of(dir)
    }

    /// The sum of the highest offsets of all streams, which the connection limit bounds.
    pub fn spent(&self) -> u64
        ensures exact { result ≡ spent self.now }
        ensures call { EndStep self.now Spent result self.now }
    {
        let _granted = self.core.limits.granted;
        self.core.recvs.tally().spent
    }

    /// Writes the payload for this endpoint's own close: a CONNECTION_CLOSE with an empty reason (RFC 9000, section 10.2). Returns its
    /// length. `None` if it didn't close, or if it doesn't fit; then nothing is written.
    pub fn close_payload(&self, out: &mut [u8]) -> Option<usize>
        ensures step { ClosePayload self.now out.old result out.new }
        ensures call { EndStep self.now (ClosingPayload out.old) (result, out.new) self.now }
    {
        let Some(Closed::ByUs(closing)) = self.closed else {
            return None;
        };
        put_close(closing, out)
    }

    // As a call ends, and never between the frames of a payload: so what a frame is judged by doesn't depend on where it stands in its
    // payload.
    fn settle(&mut self)
        ensures { self.new ≡ settle self.old }
    {
        if self.is_settled {
            return;
        }
        self.core.recvs.raise_all(&mut self.core.due);
        let taken = self.core.recvs.tally().taken;
        let settings = &self.core.limits.settings;
        let step = self.core.limits.tuning.count_step;
        self.core.limits.granted = next_limit(
            self.core.limits.granted,
            taken,
            self.core.limits.conn_window,
            self.core.limits.tuning.credit_step,
        );
        self.core.limits.granted_streams = ByDir {
            bidi: next_count(
                step,
                self.core.limits.granted_streams.bidi,
                self.core.limits.grants.bidi,
                settings.lifetime_bidi,
                self.core.ended.bidi,
            ),
            uni: next_count(
                step,
                self.core.limits.granted_streams.uni,
                self.core.limits.grants.uni,
                settings.lifetime_uni,
                self.core.ended.uni,
            ),
        };
        self.is_settled = true;
    }

    fn is_own(&self, stream: StreamId) -> bool
        ensures { result ≡ is_own self.now stream }
    {
        type_of(stream) % 2 == role_bit(self.core.limits.role)
    }

    // Its first limit too, which is what the peer counts with.
    fn window(&self, stream: StreamId) -> u64
        ensures value { result ≡ first_window self.now stream }
        ensures some { 1 ≤ result }
        ensures small { result ≤ MAX_WINDOW }
    {
        self.core.limits.window(stream)
    }

    fn send_buffer(&self) -> u32
        ensures { result ≡ self.now.settings.send_buffer }
    {
        self.core.limits.settings.send_buffer as u32
    }

    // By the peer's limits, which name streams as the peer sees them: what it opens is local to it.
    fn first_send_limit(&self, stream: StreamId) -> u64
        ensures value { result ≡ first_send_limit self.now stream }
        ensures small { result ≤ MAX_VARINT }
    {
        if is_uni(stream) {
            self.peer.uni
        } else if self.is_own(stream) {
            self.peer.bidi_remote
        } else {
            self.peer.bidi_local
        }
    }

    /// Notes a close that the stack above the packets saw or made itself, either side's, by the transport or by the application (RFC 9000,
    /// sections 10.2 and 19.19): such a stack sees CONNECTION_CLOSE frames before this endpoint does. It is closed from then on, as after
    /// any close, and `noted_close` returns what was noted; it has no payload for the peer, since such a stack writes its own. `receive`
    /// and `take_frame` return it again: the peer's close by its code, and its own as a closing of frame type 0 at place 0. An endpoint
    /// that closed before stays as it is. It takes no memory.
    pub fn note_closed(&mut self, close: NotedClose)
        ensures { EndStep self.old (NoteClosed close) tt self.new }
    {
        if self.closed.is_some() {
            return;
        }
        self.closed = Some(Closed::Noted(close));
    }
}

pub(crate) fn role_bit(role: Role) -> usize
    ensures value { result ≡ role_bit role }
    ensures small { result < 2 }
{
    match role {
        Role::Client => 0,
        Role::Server => 1,
    }
}

pub(crate) fn is_uni(stream: StreamId) -> bool
    ensures { result ≡ is_uni stream }
{
    type_of(stream) >= 2
}

// The grant and as many more as make whole steps, but no fewer than were granted, since no count may fall (RFC 9000, section 4.6).
fn next_count(step: Option<Share>, granted: u64, grant: u64, lifetime: u64, ended: u64) -> u64
    ensures { result ≡ max granted (min lifetime (grant + in_steps (count_step step grant) ended)) }
{
    let more = match step {
        None => ended,
        Some(share) => in_steps(step_of(share, grant), ended),
    };
    granted.max(grant.saturating_add(more).min(lifetime))
}

fn in_steps(step: u64, count: u64) -> u64
    requires { 0 < step }
    ensures { result ≡ in_steps step count }
{
    count - count % step
}

fn put_close(closing: Closing, out: &mut [u8]) -> Option<usize>
    requires { ClosingFits (Some (Closed.ByUs closing)) }
    ensures { ClosePayloadBy (close_text_of (Some (Closed.ByUs closing))) out.old result out.new }
{
    let frame = Frame::ConnectionClose {
        code: closing.code,
        frame_type: closing.frame_type,
        reason: &[],
    };
    match put(&frame, out) {
        Ok(len) => Some(len),
        Err(_full) => None,
    }
}
