//! A slot of 24 bytes: in it stands a half that is over, of another its place.
ghost use Rattle.std.specs.Prelude.{◌≡◌, ◌≤◌, ◌*◌, ◌+◌, ◌/◌, ◌%◌, ◌==◌, Bool, None, Some, is_some, false, true, if◌then◌else◌};
ghost use Rattle.qs_ranges.specs.Numbers.{MAX_VARINT};

use qs_ranges::MaybeNumber;

/// Most streams that ever were are over, so what they take is what counts.
#[derive(Clone, Copy)]
pub(crate) struct SendSlot {
    // None: the half isn't over.
    pub(crate) written: MaybeNumber,
    // Of a half that is over twice its limit, and one more if a STREAM_DATA_BLOCKED was sent, since a flag of its own would take eight
    // bytes; of another its place.
    pub(crate) rest: u64,
    pub(crate) buffer: u32,
    pub(crate) widest: u32,
}

impl SendSlot {
    pub(crate) fn full(place: usize) -> Self
        ensures { result ≡ record { written = None; rest = place; buffer = 0; widest = 0 } }
    {
        SendSlot {
            written: MaybeNumber::none(),
            rest: place as u64,
            buffer: 0,
            widest: 0,
        }
    }

    pub(crate) fn none() -> Self
        ensures { result ≡ record { written = Some 0; rest = 0; buffer = 0; widest = 0 } }
    {
        SendSlot {
            written: MaybeNumber::some(0),
            rest: 0,
            buffer: 0,
            widest: 0,
        }
    }

    #[inline(always)]
    pub(crate) fn is_over(&self) -> bool
        ensures { result ≡ is_some self.now.written }
    {
        self.written.get().is_some()
    }

    #[inline(always)]
    pub(crate) fn place_or(&self, none: usize) -> usize
        ensures over { is_some self.now.written ≡ true → result ≡ none }
        ensures full { is_some self.now.written ≡ false → result ≡ self.now.rest }
    {
        if self.is_over() {
            none
        } else {
            self.rest as usize
        }
    }
}
