//! What an endpoint knows and has to send.
ghost use Rattle.std.specs.Prelude.{◌≡◌, ◌≤◌, ◌<◌, ◌^◌, ℕ, length};
ghost use Rattle.qs_machine.specs.Tables.{table};
ghost use Rattle.qs_conn.specs.Ended.{is_over};

use crate::by_dir::ByDir;
use crate::endpoint::{is_uni, role_bit};
use crate::limits::Limits;
use crate::outbox::Outbox;
use crate::own_told::OwnTold;
use crate::recv_tables::RecvTables;
use qs_streams::{Boards, type_of};
use qs_wire::StreamId;

mod acking;
mod filling;
mod noting;
mod sendable;

/// The limits, the streams and the packets: what a packet is filled from, and what an ACK or a loss changes. Apart from received packet
/// numbers and the close, so that proofs of these carry less.
#[derive(Drop)]
pub(crate) struct Core {
    pub limits: Limits,
    pub outbox: Outbox,
    pub recvs: RecvTables,
    pub due: Boards,
    pub own: OwnTold,
    pub ended: ByDir<u64>,
}

impl Core {
    /// Both halves, if it has two (RFC 9000, section 3): only then the peer may open another.
    #[inline(always)]
    pub(crate) fn is_over(&self, stream: StreamId) -> bool
        ensures value { result ≡ is_over self.now.limits.role self.now.recvs self.now.outbox.sends stream }
        ensures few { (k : ℕ) → k < 4 → length (table self.now.recvs k) ≤ 2 ^ 60 }
    {
        self.recvs.learn_few();
        if type_of(stream) % 2 == role_bit(self.limits.role) {
            return false;
        }
        self.recvs.has_ended(stream) && (is_uni(stream) || self.outbox.has_ended(stream))
    }
}
