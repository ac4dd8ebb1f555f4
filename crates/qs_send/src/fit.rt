//! How many bytes fit beside the number that counts them.
ghost use Rattle.std.specs.Prelude.{ℕ, ◌+◌, ◌≤◌, ◌<◌, ◌^◌};
ghost use Rattle.qs_wire.specs.Varint.{short_len};

/// The greatest count of bytes, at most `most`, that fits into the room together with the count's own
/// shortest spelling. 0 where none does.
#[tactic(auto, unfolding(qs_wire::specs::Varint::short_len))]
pub fn longest_fit(room: usize, most: u64) -> u64
    requires { most < 2 ^ 62 }
    ensures within { result ≤ most }
    ensures fits { 0 < result → result + short_len result ≤ room }
    ensures longest { (n : ℕ) → n ≤ most → n + short_len n ≤ room → n ≤ result }
{
    let room = room as u64;
    // Mostly the count takes two bytes, and needs no other look.
    if matches!(room, 0x41..=0x4001) {
        return (room - 2).min(most);
    }
    let one = room.saturating_sub(1).min(0x3f);
    let two = room.saturating_sub(2).min(0x3fff);
    let four = room.saturating_sub(4).min(0x3fff_ffff);
    let eight = room.saturating_sub(8);
    one.max(two).max(four).max(eight).min(most)
}
