//! Which control items an endpoint has to send.
ghost use Rattle.std.specs.Prelude.{◌≡◌, ◌≤◌, ◌<◌, ◌↔◌, IsTrue, None, Some};
ghost use Rattle.qs_ranges.specs.Numbers.{MAX_VARINT};
ghost use Rattle.qs_recv.specs.Lane.{MAX_CONN_WINDOW, RecvLane};
ghost use Rattle.qs_conn.specs.declared.due.Slot.TheVariants as slots;
ghost use Rattle.qs_machine.specs.Tables.{Tables};
ghost use Rattle.qs_machine.specs.Ends.{End, first_window_by};
ghost use Rattle.qs_machine.specs.Setting.{count_with};
ghost use Rattle.qs_conn.specs.declared.limits.Limits.{Limits};
ghost use Rattle.qs_machine.specs.Outgoing.{Outgoing};
ghost use Rattle.qs_conn.specs.Filling.{end_by, IsCurrentIn, ItemFits, LimitsFit, with_window, with_grant, AnyWantsMore};

use crate::by_dir::ByDir;
use crate::due::Slot;
use crate::endpoint::{is_uni, role_bit};
use crate::outbox::Outbox;
use crate::recv_tables::RecvTables;
use crate::send_marks::Task;
use qs_calls::{MAX_VARINT, Settings, Tuning};
use qs_send::Item;
use qs_streams::type_of;
use qs_wire::{Dir, Role, StreamId};

/// An endpoint's role and settings, and the limits on the connection and on counts of streams: those that it granted, and those of its
/// peer, with the counts at which `open` was blocked (RFC 9000, sections 4.1 and 4.6).
#[derive(Clone, Copy, Drop)]
pub(crate) struct Limits {
    pub role: Role,
    pub settings: Settings,
    pub tuning: Tuning,
    /// As they were set last, beside the settings that the peer was given; the widest window bounds what is granted beyond what was
    /// consumed, since a smaller one takes nothing back.
    pub conn_window: u64,
    pub widest: u64,
    pub grants: ByDir<u64>,
    pub granted: u64,
    pub known_data: u64,
    pub granted_streams: ByDir<u64>,
    pub known_streams: ByDir<u64>,
    pub wanted_streams: ByDir<Option<u64>>,
}

impl Limits {
    /// An item is due while no packet carries it with this value (RFC 9000, sections 4.1, 4.6 and 13.3).
    #[inline(always)]
    pub(crate) fn current(&self, outbox: &Outbox, recvs: &RecvTables, slot: Slot) -> Option<Item>
        requires { LimitsFit self.now }
        ensures current { (e : End) → IsCurrentIn (end_by self.now recvs.now outbox.now e) slot result }
        ensures fits { ItemFits result }
    {
        match slot {
            Slot::MaxData => self.max_data(),
            Slot::MaxStreamData(stream) => self.max_stream_data(recvs, stream),
            Slot::MaxStreams(dir) => self.max_streams(dir),
            Slot::ResetStream(stream) => reset_stream(outbox, stream),
            Slot::StopSending(stream) => stop_sending(recvs, stream),
            Slot::DataBlocked => self.data_blocked(outbox),
            Slot::StreamDataBlocked(stream) => stream_data_blocked(outbox, stream),
            Slot::StreamsBlocked(dir) => self.streams_blocked(dir),
        }
    }

    /// A greater window moves the limit at once (RFC 9000, section 4.1): a step that is never reached would hide it.
    pub(crate) fn set_conn_window(&mut self, window: u64, taken: u64)
        requires taken { taken ≤ MAX_VARINT }
        requires window { window ≤ MAX_CONN_WINDOW }
        ensures { self.new ≡ with_window window taken self.old }
    {
        if self.conn_window < window {
            self.granted = self.granted.max((taken + window).min(MAX_VARINT));
        }
        self.conn_window = window;
        self.widest = self.widest.max(window);
    }

    /// A greater grant moves the count at once (RFC 9000, section 4.6).
    pub(crate) fn set_grant(&mut self, dir: Dir, streams: u64, ended: u64)
        ensures { self.new ≡ with_grant dir streams ended self.old }
    {
        let lifetime = match dir {
            Dir::Bidi => self.settings.lifetime_bidi,
            Dir::Uni => self.settings.lifetime_uni,
        };
        let granted = self.granted_streams.of(dir);
        let count = count_with(self.grants.of(dir), granted, lifetime, ended, streams);
        self.granted_streams.set(dir, count);
        self.grants.set(dir, streams);
    }

    // Once it was raised: the first limit was in the handshake.
    fn max_data(&self) -> Option<Item>
        requires { LimitsFit self.now }
        ensures current { (recvs : Tables RecvLane) (o : Outgoing) (e : End) → IsCurrentIn (end_by self.now recvs o e) slots.MaxData result }
        ensures fits { ItemFits result }
    {
        if self.granted <= self.settings.conn_window {
            return None;
        }
        Some(Item::MaxData {
            maximum: self.granted,
        })
    }

    // Once it was raised: the first count was in the handshake.
    #[tactic(auto, using(crate::proofs::Untolds::max_streams_there, crate::proofs::Untolds::max_streams_none))]
    fn max_streams(&self, dir: Dir) -> Option<Item>
        requires { LimitsFit self.now }
        ensures current { (recvs : Tables RecvLane) (o : Outgoing) (e : End) → IsCurrentIn (end_by self.now recvs o e) (slots.MaxStreams dir) result }
        ensures fits { ItemFits result }
    {
        let (first, count) = match dir {
            Dir::Bidi => (self.settings.grant_bidi, self.granted_streams.bidi),
            Dir::Uni => (self.settings.grant_uni, self.granted_streams.uni),
        };
        if count <= first {
            return None;
        }
        Some(Item::MaxStreams { dir, count })
    }

    // Once it was raised, and while no final size is known: after that nobody needs it.
    #[tactic(auto, using(crate::proofs::Untolds::max_stream_data_there, crate::proofs::Untolds::max_stream_data_none))]
    fn max_stream_data(&self, recvs: &RecvTables, stream: StreamId) -> Option<Item>
        ensures current { (o : Outgoing) (e : End) → IsCurrentIn (end_by self.now recvs.now o e) (slots.MaxStreamData stream) result }
        ensures fits { ItemFits result }
    {
        match recvs.limit_to_tell(stream) {
            Some(maximum) if self.window(stream) < maximum => {
                Some(Item::MaxStreamData { stream, maximum })
            }
            _ => None,
        }
    }

    pub(crate) fn window(&self, stream: StreamId) -> u64
        ensures { result ≡ first_window_by self.now.role self.now.settings stream }
    {
        if is_uni(stream) {
            self.settings.uni
        } else if type_of(stream) % 2 == role_bit(self.role) {
            self.settings.bidi_local
        } else {
            self.settings.bidi_remote
        }
    }

    // Only while some stream has bytes that nothing else holds back, so that it is said of the limit that blocks.
    #[inline(always)]
    #[tactic(auto, using(crate::proofs::Untolds::data_blocked_there, crate::proofs::Untolds::data_blocked_none))]
    fn data_blocked(&self, outbox: &Outbox) -> Option<Item>
        requires { LimitsFit self.now }
        ensures current { (recvs : Tables RecvLane) (e : End) → IsCurrentIn (end_by self.now recvs outbox.now e) slots.DataBlocked result }
        ensures fits { ItemFits result }
    {
        if outbox.sent_sum() == self.known_data && any_wants_more(outbox) {
            Some(Item::DataBlocked {
                limit: self.known_data,
            })
        } else {
            None
        }
    }

    // While it is still the peer's count: one that rose blocks nobody.
    #[tactic(auto, using(crate::proofs::Untolds::streams_blocked_there, crate::proofs::Untolds::streams_blocked_none))]
    fn streams_blocked(&self, dir: Dir) -> Option<Item>
        requires { LimitsFit self.now }
        ensures current { (recvs : Tables RecvLane) (o : Outgoing) (e : End) → IsCurrentIn (end_by self.now recvs o e) (slots.StreamsBlocked dir) result }
        ensures fits { ItemFits result }
    {
        let count = self.known_streams.of(dir);
        match self.wanted_streams.of(dir) {
            Some(blocked) if blocked == count => Some(Item::StreamsBlocked { dir, count }),
            _ => None,
        }
    }
}

// Never less than the present count, since none may fall.
fn count_with(old: u64, granted: u64, lifetime: u64, ended: u64, grant: u64) -> u64
    ensures { result ≡ count_with old granted lifetime ended grant }
{
    if old < grant {
        granted.max(grant.saturating_add(ended).min(lifetime))
    } else {
        granted
    }
}

#[tactic(auto, using(crate::proofs::Untolds::reset_there, crate::proofs::Untolds::reset_none))]
fn reset_stream(outbox: &Outbox, stream: StreamId) -> Option<Item>
    ensures current { (t : Limits) (recvs : Tables RecvLane) (e : End) → IsCurrentIn (end_by t recvs outbox.now e) (slots.ResetStream stream) result }
    ensures fits { ItemFits result }
{
    let reset = outbox.reset_of(stream)?;
    Some(Item::ResetStream {
        stream,
        code: reset.code,
        final_size: reset.size,
    })
}

#[tactic(auto, using(crate::proofs::Untolds::stop_there, crate::proofs::Untolds::stop_none))]
fn stop_sending(recvs: &RecvTables, stream: StreamId) -> Option<Item>
    ensures current { (t : Limits) (o : Outgoing) (e : End) → IsCurrentIn (end_by t recvs.now o e) (slots.StopSending stream) result }
    ensures fits { ItemFits result }
{
    let code = recvs.stop_to_tell(stream)?;
    Some(Item::StopSending { stream, code })
}

#[tactic(auto, using(crate::proofs::Untolds::stream_data_blocked_there, crate::proofs::Untolds::stream_data_blocked_none))]
fn stream_data_blocked(outbox: &Outbox, stream: StreamId) -> Option<Item>
    ensures current { (t : Limits) (recvs : Tables RecvLane) (e : End) → IsCurrentIn (end_by t recvs outbox.now e) (slots.StreamDataBlocked stream) result }
    ensures fits { ItemFits result }
{
    let limit = outbox.blocked_at(stream)?;
    Some(Item::StreamDataBlocked { stream, limit })
}

#[tactic(auto, using(crate::proofs::Hearing::none_wants, crate::proofs::Hearing::wants_next))]
fn any_wants_more(outbox: &Outbox) -> bool
    ensures { IsTrue result ↔ AnyWantsMore outbox.now.sends }
{
    let mut from = 0;
    while let Some(stream) = outbox.next_marked(Task::Bytes, from) {
        if outbox.wants_more(stream) {
            return true;
        }
        from = stream.value() + 1;
    }
    false
}
