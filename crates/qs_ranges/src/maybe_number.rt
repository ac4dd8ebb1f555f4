//! A number below 2^62, or none, in eight bytes. A stream has several such numbers, and most end with none.
ghost use Rattle.std.specs.Prelude.{◌≡◌, ◌≤◌, None, Some, IfSome};
ghost use Rattle.qs_ranges.specs.Numbers.{MAX_VARINT};

use std::marker::Model;

// No number that there may be, so no flag is needed.
const NO_NUMBER: u64 = u64::MAX;

/// No number, or one below 2^62, in eight bytes: an `Option<u64>` takes sixteen.
#[derive(Clone, Copy)]
pub struct MaybeNumber {
    word: u64,
}

impl Model for MaybeNumber {
    ghost use Rattle.std.specs.Prelude.{◌≡◌, ℕ, Option, refl};
    ghost use Rattle.std.specs.Coded.{coded_ℕ, coded_option};
    ghost use Rattle.qs_ranges.specs.OneWord.{number_in, word_of};

    ghost Value = { Option ℕ };

    ghost coded = { coded_option coded_ℕ };

    ghost view = { λ m. number_in m.word };

    ghost inverse = { λ n. record { word = word_of n } };

    ghost inverse_ok = { λ m h. rw h refl };

    ghost invariant = { λ m. word_of (number_in m.word) ≡ m.word };
}

impl MaybeNumber {
    pub fn none() -> Self
        ensures { result ≡ None }
    {
        MaybeNumber { word: NO_NUMBER }
    }

    pub fn some(n: u64) -> Self
        requires { n ≤ MAX_VARINT }
        ensures { result ≡ Some n }
    {
        MaybeNumber { word: n }
    }

    #[inline(always)]
    pub fn get(self) -> Option<u64>
        ensures value { result ≡ self }
        ensures small { IfSome result (λ n. n ≤ MAX_VARINT) }
    {
        if self.word == NO_NUMBER {
            None
        } else {
            Some(self.word)
        }
    }
}
