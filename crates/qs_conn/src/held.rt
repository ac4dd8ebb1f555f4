//! How much memory an endpoint takes for the bytes of its streams.
ghost use Rattle.std.specs.Prelude.{ℕ};
ghost use Rattle.qs_conn.specs.Rooms.{IsSumOf};

/// How much memory the buffers of streams take, in bytes. Beyond the greatest u64 it stays at that.
#[derive(Debug, Clone, Copy, PartialEq, Eq, Drop)]
pub struct Held {
    /// By receive buffers, for bytes that wait to be read (RFC 9000, section 2.2).
    pub receiving: u64,
    /// By sending buffers, for bytes that wait to be acknowledged (RFC 9000, section 13.3).
    pub sending: u64,
}

pub(crate) trait Holds {
    /// So many bytes it may take.
    ghost IsHeld: { Self → ℕ → Type 0 };

    fn held(&self) -> u64
        ensures { IsHeld self.now result };
}

// Of a part nothing is known but what it says, so that is what is summed. By a walk: a sum would have to be kept at each call.
#[tactic(auto, using(crate::proofs::Tasks::sum_none, crate::proofs::Tasks::sum_more))]
pub(crate) fn sum_held<T: Holds>(parts: &[T]) -> u64
    ensures { IsSumOf T.IsHeld parts.now result }
{
    let mut held: u64 = 0;
    for part in parts {
        held = held.saturating_add(part.held());
    }
    held
}
