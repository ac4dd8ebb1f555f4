//! The packet number at which the ranges of an ACK begin.

ghost use Rattle.std.specs.Prelude.{◌≡◌, ◌^◌, ◌<◌};

/// A type of its own, so that its bound is known wherever ranges are shown.
#[derive(Clone, Copy)]
pub struct Largest {
    number: u64,
    ghost in_range: { number < 2 ^ 62 },
}

impl Largest {
    pub fn new(number: u64) -> Largest
        requires { number < 2 ^ 62 }
        ensures { result.number ≡ number }
    {
        Largest { number }
    }

    pub fn number(self) -> u64
        ensures number { result ≡ self.number }
        ensures in_range { result < 2 ^ 62 }
    {
        self.number
    }
}
