ghost use Rattle.std.specs.Prelude.{◌≡◌, ◌≤◌, ◌<◌, is_some, true, None};
ghost use Rattle.qs_ranges.specs.Numbers.{MAX_VARINT};
ghost use Rattle.qs_send.specs.Lane.{allow_lane};
ghost use Rattle.qs_calls.specs.Settings.{limits_fault};
ghost use Rattle.qs_machine.specs.Tables.{lookup};
ghost use Rattle.qs_machine.specs.Ends.{on_send, first_send_limit};
ghost use Rattle.qs_machine.specs.Raising.{raise_refusal, greater_limits, knows_limits, type_allowed};
ghost use Rattle.qs_machine.specs.EndStep.{EndStep, RaiseLimits};

use super::Endpoint;
use crate::setup::limits_fault;
use qs_calls::{PeerLimits, RaiseFault};
use qs_wire::StreamId;

impl Endpoint {
    /// Raises the peer's limits to those of the handshake: a client that began with remembered ones calls it (RFC 9000, section 7.4.1).
    /// Each limit becomes the greater of the two, for open streams too, and streams that open later begin with it; none falls. It looks at
    /// each open sending half.
    ///
    /// Refused, and then unchanged: `Closed`; `Refused` for limits that `new` would refuse, with its fault.
    pub fn raise_limits(&mut self, limits: &PeerLimits) -> Result<(), RaiseFault>
        ensures { EndStep self.old (RaiseLimits limits.now) result self.new }
    {
        if let Some(fault) = self.raise_refusal(limits) {
            return Err(fault);
        }
        self.know_limits(limits);
        self.allow_type(0);
        self.allow_type(1);
        self.allow_type(2);
        self.allow_type(3);
        self.settle();
        Ok(())
    }

    fn raise_refusal(&self, limits: &PeerLimits) -> Option<RaiseFault>
        ensures { result ≡ raise_refusal self.now limits.now }
    {
        if self.closed.is_some() {
            return Some(RaiseFault::Closed);
        }
        match limits_fault(limits) {
            Some(fault) => Some(RaiseFault::Refused(fault)),
            None => None,
        }
    }

    // Apart from the open streams, which aren't many when limits rise.
    fn know_limits(&mut self, limits: &PeerLimits)
        requires { limits_fault limits.now ≡ None }
        ensures { self.new ≡ knows_limits limits.now self.old }
    {
        self.peer = greater_limits(&self.peer, limits);
        self.core.limits.known_data = self.core.limits.known_data.max(limits.max_data);
        self.core.limits.known_streams.bidi = self
            .core
            .limits
            .known_streams
            .bidi
            .max(limits.streams_bidi);
        self.core.limits.known_streams.uni = self
            .core
            .limits
            .known_streams
            .uni
            .max(limits.streams_uni);
    }

    fn allow_type(&mut self, stream_type: usize)
        requires { stream_type < 4 }
        ensures { self.new ≡ record self.old { sends = type_allowed stream_type (first_send_limit self.old stream_type) self.old.sends } }
    {
        let limit = self.first_send_limit(StreamId::new(stream_type as u64).unwrap());
        for index in 0..self.core.outbox.count_of(stream_type) {
            let stream = StreamId::new((index * 4 + stream_type) as u64).unwrap();
            self.allow_to(stream, limit);
        }
    }

    #[tactic(auto, using(crate::proofs::AckRuns::idle_with, crate::proofs::Cores::kept_streams))]
    fn allow_to(&mut self, stream: StreamId, limit: u64)
        requires open { is_some (lookup self.old.sends stream) ≡ true }
        requires limit { limit ≤ MAX_VARINT }
        ensures { self.new ≡ on_send stream (λ l. allow_lane l limit) self.old }
    {
        self.core.allow(stream, limit);
    }
}

fn greater_limits(a: &PeerLimits, b: &PeerLimits) -> PeerLimits
    ensures { result ≡ greater_limits a.now b.now }
{
    PeerLimits {
        max_data: a.max_data.max(b.max_data),
        bidi_local: a.bidi_local.max(b.bidi_local),
        bidi_remote: a.bidi_remote.max(b.bidi_remote),
        uni: a.uni.max(b.uni),
        streams_bidi: a.streams_bidi.max(b.streams_bidi),
        streams_uni: a.streams_uni.max(b.streams_uni),
    }
}
