//! Where a stream stands in a table.
ghost use Rattle.std.specs.Prelude.{◌≡◌, ◌+◌, ◌-◌, ◌/◌, ◌≤◌, ◌<◌, ◌^◌, IfSome};
ghost use Rattle.qs_machine.specs.Tables.{type_of, index_of};
ghost use Rattle.qs_streams.specs.Flags.{least_of};

use qs_wire::StreamId;
use std::marker::Model;

/// A stream with its place in a table, which is worked out once for a frame and not at each look.
#[derive(Clone, Copy)]
pub struct Place {
    pub id: StreamId,
    pub stream_type: usize,
    pub index: usize,
}

impl Model for Place {
    ghost use Rattle.std.specs.Prelude.{ℕ, ◌≡◌, ◌<◌, ◌^◌};
    ghost use Rattle.qs_machine.specs.Tables.{type_of, index_of};

    ghost Value = { ℕ };

    ghost view = { λ p. p.id };

    ghost inverse = { λ n. record { id = n; stream_type = type_of n; index = index_of n } };

    ghost invariant = { λ p. (p.stream_type ≡ type_of p.id) × (p.index ≡ index_of p.id) × (p.id < 2 ^ 62) };
}

impl Place {
    #[inline(always)]
    pub fn of(stream: StreamId) -> Place
        ensures { result ≡ stream }
    {
        let number = stream.value();
        Place {
            id: stream,
            stream_type: (number % 4) as usize,
            index: (number / 4) as usize,
        }
    }
}

#[inline(always)]
pub fn type_of(stream: StreamId) -> usize
    ensures value { result ≡ type_of stream }
    ensures small { result < 4 }
{
    (stream.value() % 4) as usize
}

#[inline(always)]
pub fn index_of(stream: StreamId) -> usize
    ensures value { result ≡ index_of stream }
    ensures small { result < 2 ^ 60 }
{
    (stream.value() / 4) as usize
}

pub fn index_from(stream_type: usize, from: u64) -> usize
    requires stream_type { stream_type < 4 }
    requires from { from ≤ 2 ^ 62 }
    ensures { result ≡ (from + 3 - stream_type) / 4 }
{
    ((from + 3 - stream_type as u64) / 4) as usize
}

/// `None` is as a number past all streams.
#[inline(always)]
pub fn lesser(a: Option<u64>, b: Option<u64>) -> Option<StreamId>
    requires a { IfSome a (λ n. n < 2 ^ 62) }
    requires b { IfSome b (λ n. n < 2 ^ 62) }
    ensures { result ≡ least_of a b }
{
    StreamId::new(a.unwrap_or(u64::MAX).min(b.unwrap_or(u64::MAX)))
}

/// One for each type, since tables are by type and a search goes by number.
#[inline(always)]
pub fn least_stream(
    a: Option<u64>,
    b: Option<u64>,
    c: Option<u64>,
    d: Option<u64>,
) -> Option<StreamId>
    requires a { IfSome a (λ n. n < 2 ^ 62) }
    requires b { IfSome b (λ n. n < 2 ^ 62) }
    requires c { IfSome c (λ n. n < 2 ^ 62) }
    requires d { IfSome d (λ n. n < 2 ^ 62) }
    ensures { result ≡ least_of (least_of a b) (least_of c d) }
{
    // None as a number past all streams': so three minima are all.
    let bidi = a.unwrap_or(u64::MAX).min(b.unwrap_or(u64::MAX));
    let uni = c.unwrap_or(u64::MAX).min(d.unwrap_or(u64::MAX));
    StreamId::new(bidi.min(uni))
}
