//! Bits of a word, for the marks of 64 streams or slots that one look passes over.
ghost use Rattle.std.specs.Prelude.{◌<◌};
ghost use Rattle.qs_ranges.specs.Bits.{HasBit, IsLowestBit};

#[inline(always)]
pub fn with_bit(word: u64, bit: usize, is_set: bool) -> u64
    requires { bit < 64 }
    ensures { HasBit word bit is_set result }
{
    if is_set {
        word | (1 << bit)
    } else {
        word & !(1 << bit)
    }
}

pub fn lowest_bit(word: u64, from: usize) -> Option<usize>
    requires { from < 64 }
    ensures { IsLowestBit word from result }
{
    let rest = word >> from;
    if rest == 0 {
        return None;
    }
    Some(from + rest.trailing_zeros() as usize)
}
