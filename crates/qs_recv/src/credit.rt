//! How much more a peer may send.
ghost use Rattle.std.specs.Prelude.{◌≡◌, ◌≤◌, max};
ghost use Rattle.qs_ranges.specs.Numbers.{MAX_VARINT};
ghost use Rattle.qs_recv.specs.Lane.{MAX_CONN_WINDOW, step, next_limit, limit_with};

const MAX_VARINT: u64 = (1 << 62) - 1;

/// Shares are few, so that a step needs no division, and a half keeps its share in a byte.
#[derive(Clone, Copy, Debug, PartialEq, Eq, Drop)]
pub enum Share {
    Half,
    Quarter,
    Eighth,
    Sixteenth,
}

/// The limit that follows one after so much was consumed of a window: it moves once that is such a share more, so that not each read costs
/// a frame (RFC 9000, section 4.2).
pub fn next_limit(limit: u64, taken: u64, window: u64, share: Share) -> u64
    requires small { limit ≤ MAX_VARINT }
    requires taken { taken ≤ MAX_VARINT }
    requires window { window ≤ MAX_CONN_WINDOW }
    ensures value { result ≡ next_limit limit taken window share }
    ensures in_range { result ≤ MAX_VARINT }
{
    let next = (taken + window).min(MAX_VARINT);
    let step = step_of(share, window);
    if limit + step <= next || (next == MAX_VARINT && limit < next) {
        next
    } else {
        limit
    }
}

/// The limit under another window. A greater one moves it at once: a step that is never reached would hide it. Under a smaller one it
/// stays, since no limit may fall (RFC 9000, section 4.1).
pub(crate) fn limit_with(old: u64, granted: u64, taken: u64, window: u64) -> u64
    requires small { granted ≤ MAX_VARINT }
    requires taken { taken ≤ MAX_VARINT }
    requires window { window ≤ MAX_CONN_WINDOW }
    ensures value { result ≡ limit_with old granted taken window }
    ensures in_range { result ≤ MAX_VARINT }
{
    if old < window {
        granted.max((taken + window).min(MAX_VARINT))
    } else {
        granted
    }
}

/// A share rounds down, and is 1 at least: a limit that moves by 0 would never move.
pub fn step_of(share: Share, whole: u64) -> u64
    ensures value { result ≡ step share whole }
    ensures some { 1 ≤ result }
    ensures small { result ≤ max 1 whole }
{
    let part = match share {
        Share::Half => whole / 2,
        Share::Quarter => whole / 4,
        Share::Eighth => whole / 8,
        Share::Sixteenth => whole / 16,
    };
    part.max(1)
}
