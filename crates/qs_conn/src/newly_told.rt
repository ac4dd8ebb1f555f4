//! Who is told which packets a payload newly acknowledges.
ghost use Rattle.std.specs.Prelude.{ℕ, ⊤};

pub trait Told {
    // What may come of it: so a caller of `receive_with_acks` knows what its own code has seen.
    ghost tells: { Self → ℕ → Self → Type 0 };

    fn tell(&mut self, number: u64)
        ensures { tells self.old number self.new };
}

/// For calls that name no packet, so that there is one way to receive.
#[derive(Drop)]
pub(crate) struct Silent;

impl Told for Silent {
    ghost tells = { λ old number new. ⊤ };

    fn tell(&mut self, _number: u64) {}
}
