//! A network that loses packets.

/// Loses one packet of each `lost_of`, and counts.
#[derive(Drop)]
pub struct Network {
    pub lost_of: u64,
    pub sent: u64,
    pub lost: u64,
}

impl Network {
    /// Whether it loses the next packet.
    pub fn loses(&mut self) -> bool {
        self.sent = self.sent.saturating_add(1);
        let is_lost = self.sent.checked_rem(self.lost_of) == Some(0);
        if is_lost {
            self.lost = self.lost.saturating_add(1);
        }
        is_lost
    }
}
