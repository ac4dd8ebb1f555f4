//! What an assembly of arrived bytes promises, however it keeps them (RFC 9000, section 2.2). `RecvHalf` is proved over these laws alone,
//! so a ring and a list of chunks serve alike.
ghost use Rattle.std.specs.Prelude.{◌≡◌, ℕ, ◌+◌, ◌-◌, ◌*◌, ◌<◌, ◌≤◌, ◌⊎◌, ◌++◌, max, length, drop, true, false, OnOk, OnErr};
ghost use Rattle.std.specs.FinMap as map;
ghost use Rattle.std.specs.FinSet as set;
ghost use Rattle.qs_recv.specs.Assembled.{Assembled, nothing_yet, at_rest, put, take_front, front_of, discard, same, widen};
ghost use Rattle.qs_ranges.specs.Numbers.{IsLeastMissingFrom, MAX_VARINT, MissesRange, covers, end_of};
ghost use Rattle.qs_recv.specs.Lane.{MAX_WINDOW};

use qs_ranges::{NoMemory, RangeSet};
use std::alloc::Global;

/// The bytes of a stream from the first unread one on, in whatever order they arrive.
pub trait Assembly: Drop {
    /// What it holds, however it is kept.
    ghost holds: { Self → Assembled };

    /// How many bytes of memory it takes to store some, as the assembly counts them. A ghost of its own, since it is no part of what is
    /// held: two that hold the same may have grown otherwise.
    ghost size: { Self → ℕ };

    /// The least that this can be while some are stored: without it a bound would permit to count nothing.
    ghost least: { Assembled → ℕ };

    /// An assembly that stores at most `window` bytes past those that were read. It takes no memory, since most streams that are opened
    /// carry little.
    fn new(alloc: Global, window: u64) -> Self
        requires some { 1 ≤ window }
        requires small { window ≤ MAX_WINDOW }
        ensures empty { holds result ≡ nothing_yet window }
        ensures small { size result ≡ 0 };

    /// An assembly that stores nothing, and has received the offsets below `end`: all of them were read, or bytes are discarded. It takes
    /// no memory, so that a half kept by its numbers can answer like any other.
    fn at_rest(alloc: Global, window: u64, read_count: u64, end: u64, discarding: bool) -> Self
        requires small { window ≤ MAX_WINDOW }
        requires in_range { end ≤ MAX_VARINT }
        requires came { read_count ≤ end }
        requires all_read { discarding ≡ false → read_count ≡ end }
        ensures nothing { holds result ≡ at_rest window read_count end discarding }
        ensures small { size result ≡ 0 };

    /// Stores the bytes at offsets that weren't received before, and notes the offsets. NoMemory if a growth was refused.
    fn put(&mut self, offset: u64, bytes: &[u8]) -> Result<(), NoMemory>
        requires in_range { offset + length bytes.now ≤ MAX_VARINT }
        requires in_window { (holds self.old).discarding ≡ false
            → offset + length bytes.now ≤ (holds self.old).read_count + (holds self.old).widest }
        ensures ok { OnOk result (holds self.new ≡ put (holds self.old) offset bytes.now) }
        ensures err { OnErr result (holds self.new ≡ holds self.old) }

        // Memory is taken only for bytes of which one is new, and while bytes are discarded only if no offset at or beside it was received.
        // So a repeat is never refused.
        ensures news { OnErr result (covers (holds self.old).received offset (offset + length bytes.now) ≡ false) }
        ensures apart { OnErr result ((holds self.old).discarding ≡ true
            → MissesRange (holds self.old).received (offset - 1) (offset + length bytes.now + 1)) }

        // Memory changes only for a byte that is new and stored.
        ensures still { (size self.new ≡ size self.old) ⊎ (((holds self.old).discarding ≡ false)
            × (covers (holds self.old).received offset (offset + length bytes.now) ≡ false)) };

    /// Moves the next bytes to be read into the slice's front, and returns how many.
    fn take(&mut self, into: &mut [u8]) -> usize
        ensures count { result ≡ length (front_of (holds self.old) (length into.old)) }
        ensures bytes { into.new ≡ front_of (holds self.old) (length into.old) ++ drop result into.old }
        ensures rest { holds self.new ≡ take_front (holds self.old) (length into.old) };

    /// Discards the stored bytes, and those that arrive from now on.
    fn discard(&mut self)
        ensures after { holds self.new ≡ discard (holds self.old) }
        ensures gone { size self.new ≡ 0 };

    /// From now on stores as many bytes past those read as the greater window has.
    fn widen(&mut self, window: u64)
        requires { window ≤ MAX_WINDOW }
        ensures after { holds self.new ≡ widen (holds self.old) window }
        ensures still { size self.new ≡ size self.old };

    /// Frees memory in which nothing is stored. Its own call, so that a steady flow that empties the buffer again and again takes no memory
    /// anew.
    fn give_back(&mut self)
        ensures same { holds self.new ≡ holds self.old }
        ensures gone { map.len (holds self.old).stored ≡ 0 → size self.new ≡ 0 };

    /// Whether bytes are those that are stored at their offsets. Offsets without a stored byte don't count: they weren't received, were
    /// read, or are discarded, and there is nothing to compare.
    fn same(&self, offset: u64, bytes: &[u8]) -> bool
        requires in_range { offset + length bytes.now ≤ MAX_VARINT }
        ensures { result ≡ same (holds self.now).stored offset bytes.now };

    fn stored(&self) -> u64
        ensures { result ≡ map.len (holds self.now).stored };

    /// How many bytes of memory it takes to store some: no more than 4,096, or while some are stored four times as many as lie between what
    /// was read and the end of what arrived. Four, though three are kept to, so that no proof above counts on the third.
    fn held(&self) -> u64
        ensures value { result ≡ size self.now }
        ensures room { map.len (holds self.now).stored ≤ result }
        ensures least { 0 < map.len (holds self.now).stored → least (holds self.now) ≤ result }
        ensures bound { result ≤ max 4096 (4 * (end_of (holds self.now).received - (holds self.now).read_count)) }
        ensures idle { map.len (holds self.now).stored ≡ 0 → result ≤ 4096 };

    fn received(&self) -> &RangeSet
        ensures { result.now ≡ (holds self.now).received };
}

/// The memory that a half takes for bytes that arrived: so many bytes, and the assembly that takes them. A half without one takes none.
#[derive(Clone, Copy, Drop)]
pub struct Memory<'a, A: Assembly> {
    pub bytes: u64,
    pub assembly: Option<&'a A>,
}

/// An assembly whose next bytes can be looked at where they are. Beside `Assembly`, because a list of chunks can't promise it.
pub trait Peeking: Skipping {
    /// The next bytes to be read, all up to the first missing one, in two pieces if a ring's edge lies between.
    fn front(&self) -> (&[u8], &[u8])
        ensures next { result.0.now ++ result.1.now ≡ front_of (Self.holds self.now) (length (result.0.now ++ result.1.now)) }
        ensures some { (Self.holds self.now).discarding ≡ false → set.contains (Self.holds self.now).received (Self.holds self.now).read_count ≡ true
            → 0 < length (result.0.now ++ result.1.now) }
        ensures whole { (Self.holds self.now).discarding ≡ false
            → IsLeastMissingFrom (Self.holds self.now).received (Self.holds self.now).read_count ((Self.holds self.now).read_count + length (result.0.now ++ result.1.now)) };
}

/// An assembly whose next bytes can be passed over without a copy.
pub trait Skipping: Assembly {
    /// Takes the next bytes to be read, at most so many, and returns how many.
    fn skip(&mut self, most: usize) -> usize
        ensures count { result ≡ length (front_of (Self.holds self.old) most) }
        ensures rest { Self.holds self.new ≡ take_front (Self.holds self.old) most };
}
