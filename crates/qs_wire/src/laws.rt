//! Laws of the definitions alone: each is a function whose contract is the law.

ghost use Rattle.std.specs.Prelude.{◌≡◌, ℕ, ◌+◌, ◌<◌, ◌≤◌, ◌^◌, Bool, List, length, map, Some, None, if◌then◌else◌, nat_lt};
ghost use Rattle.std.specs.List.{AllByRecursion};
ghost use Rattle.qs_wire.specs.declared.fault.WireFault.{WireFault};
ghost use Rattle.qs_wire.specs.Varint.{short_len};
ghost use Rattle.qs_wire.specs.Layout.{FrameValue, PlacedValue, stream, taken, ack_ranges_of};
ghost use Rattle.qs_wire.specs.Grammar.{AreBytes, Fits, FaultyText, IsControl, PayloadText, canonical, canonical_all, frames_of};
ghost use Rattle.qs_wire.specs.Reading.{reading_of};
ghost use Rattle.qs_wire.specs.Acks.{AreAckPairs, FallBelow, ack_of, ack_pairs, inclusive};

/// The canonical text of a list of frames is a text of that list and of no other.
pub fn canonical_is_unique()
    ensures is_text { (frames : List FrameValue) → 0 < length frames → AllByRecursion Fits frames → PayloadText frames (canonical_all frames) }
    ensures of_no_other { (frames others : List FrameValue) → 0 < length frames → AllByRecursion Fits frames → PayloadText others (canonical_all frames) → others ≡ frames }
{}

/// The canonical text of a list of frames is read without a fault, as those frames.
pub fn canonical_reads_back()
    ensures no_fault { (frames : List FrameValue) → 0 < length frames → AllByRecursion Fits frames → (reading_of (canonical_all frames)).fault ≡ None }
    ensures same { (frames : List FrameValue) → 0 < length frames → AllByRecursion Fits frames → frames_of (reading_of (canonical_all frames)).left ≡ frames }
{}

/// No payload is a text of two lists of frames.
pub fn one_reading()
    ensures { (frames others : List FrameValue) (payload : List ℕ) → PayloadText frames payload → PayloadText others payload → others ≡ frames }
{}

/// A payload in which a fault stands is read up to that fault. It has no other fault, and is no text of
/// frames.
pub fn faults_are_read()
    ensures read { (payload : List ℕ) (left : List PlacedValue) (fault : WireFault) → AreBytes payload → FaultyText left fault payload
        → reading_of payload ≡ record { left = left; fault = Some fault } }
    ensures one { (payload : List ℕ) (left others : List PlacedValue) (fault other : WireFault) → AreBytes payload → FaultyText left fault payload
        → FaultyText others other payload → (left ≡ others) × (fault ≡ other) }
    ensures no_text { (payload : List ℕ) (frames : List FrameValue) (left : List PlacedValue) (fault : WireFault) → AreBytes payload → FaultyText left fault payload
        → PayloadText frames payload → ⊥ }
{}

/// The frames that are read of a payload can be written.
pub fn read_frames_fit()
    ensures { (payload : List ℕ) → AreBytes payload → AllByRecursion Fits (frames_of (reading_of payload).left) }
{}

/// The ACK of ranges can be written and names those ranges. The ranges of any ACK fall, and between two
/// of them lies a number.
pub fn acks_name_ranges()
    ensures fits { (delay : ℕ) (pairs : List (ℕ × ℕ)) → delay < 2 ^ 62 → AreAckPairs pairs → Fits (ack_of delay pairs) }
    ensures names { (delay : ℕ) (pairs : List (ℕ × ℕ)) → AreAckPairs pairs → ack_pairs (ack_of delay pairs) ≡ map inclusive pairs }
    ensures fall { (largest : ℕ) (numbers : List ℕ) → taken numbers ≤ largest + 1 → FallBelow (largest + 2) (ack_ranges_of largest numbers) }
{}

/// How many bytes canonical texts have.
pub fn lengths()
    ensures control { (frame : FrameValue) → IsControl frame → Fits frame → length (canonical frame) ≤ 25 }
    ensures of_stream { (id offset : ℕ) (fin : Bool) (bytes : List ℕ) → length (canonical (stream id offset fin bytes))
        ≡ 1 + short_len id + (if nat_lt 0 offset then short_len offset else 0) + short_len (length bytes) + length bytes }
{}
