//! What carries datagrams between two ends.

ghost use Rattle.std.specs.Prelude.{◌≡◌, ◌≤◌, length, IfOk};
ghost use Rattle.qs_runs.specs.Logs.{other};
ghost use Rattle.qs_cli.specs.Carrying.{Failings, none_failed, after_send, after_recv, one_more, send_failed, recv_failed};

use qs_world::Side;
use std::marker::Model;

/// A call of a wire failed.
#[derive(Clone, Copy, Debug, PartialEq, Eq, Drop)]
pub struct WireError;

/// Carries datagrams from each of two ends to the other, and may lose them, hold them up or bring strangers'.
///
/// An error is returned only if the wire failed in that call, and the wire counts its failures: so a run can't make up one that didn't
/// happen. Those of sends are counted apart, too, so that a run can't forget to lose a packet that wasn't sent. A count stays at its
/// greatest value.
pub trait Wire {
    // How many calls failed, and how many of these were sends.
    ghost failed: { Self → Failings };

    /// Sends a datagram from one end to the other.
    fn send(&mut self, from: Side, bytes: &[u8]) -> Result<(), WireError>
        ensures { failed self.new ≡ after_send result (failed self.old) };

    /// Receives one datagram at an end, and answers how many of its bytes stand in the slice. What doesn't fit is lost.
    fn recv(&mut self, at: Side, into: &mut [u8]) -> Result<usize, WireError>
        ensures failed { failed self.new ≡ after_recv result (failed self.old) }
        ensures within { IfOk result (λ count. count ≤ length into.new) };

    /// How many calls failed.
    fn failures(&self) -> u64
        ensures { result ≡ (failed self.now).calls };
}

#[derive(Drop)]
pub(crate) struct Failures {
    calls: u64,
    sends: u64,
}

impl Model for Failures {
    ghost use Rattle.qs_cli.specs.Carrying.{Failings, failings_code};

    ghost Value = { Failings };

    ghost coded = { failings_code };

    ghost view = { λ f. record { calls = f.calls; sends = f.sends } };
}

impl Failures {
    pub(crate) fn none() -> Failures
        ensures { result ≡ none_failed }
    {
        Failures { calls: 0, sends: 0 }
    }

    pub(crate) fn note_send(&mut self) -> WireError
        ensures { self.new ≡ send_failed self.old }
    {
        self.calls = one_more(self.calls);
        self.sends = one_more(self.sends);
        WireError
    }

    pub(crate) fn note_recv(&mut self) -> WireError
        ensures { self.new ≡ recv_failed self.old }
    {
        self.calls = one_more(self.calls);
        WireError
    }

    pub(crate) fn count(&self) -> u64
        ensures { result ≡ self.now.calls }
    {
        self.calls
    }
}

/// It stays at its greatest value, so that it can't fall.
pub(crate) fn one_more(count: u64) -> u64
    ensures { result ≡ one_more count }
{
    if count < u64::MAX { count + 1 } else { count }
}

/// The end to which the other end's datagrams come.
pub fn other_side(side: Side) -> Side
    ensures { result ≡ other side }
{
    match side {
        Side::A => Side::B,
        Side::B => Side::A,
    }
}
