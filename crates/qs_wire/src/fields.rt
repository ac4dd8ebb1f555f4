ghost use Rattle.std.specs.Prelude.{◌≡◌, ℕ, ◌*◌, ◌+◌, ◌-◌, ◌^◌, ◌<◌, ◌≤◌, List, length, nat_lt, MatchResult, IfOk, Ok, Err};
ghost use Rattle.qs_wire.specs.Varint.{numbers_of};
ghost use Rattle.qs_wire.specs.Layout.{number_if, counted_if, ecn_if, taken};
ghost use Rattle.qs_wire.specs.Reading.{Gives, plain_at, counted_at, identifier_at, numbers_at, ranges_at, counts_at, field_at};

use crate::fault::FaultKind;
use crate::frame::EcnCounts;
use crate::varint::number_at;

#[tactic(auto, unfolding(crate::specs::Reading::plain_at))]
pub(crate) fn plain_at(len: u64, bytes: &[u8]) -> Result<(&[u8], &[u8]), FaultKind>
    ensures { Gives (λ x. (x.0.now, x.1.now)) result (plain_at len bytes.now) }
{
    if (bytes.len() as u64) < len {
        return Err(FaultKind::Truncated);
    }
    Ok(bytes.split_at(len as usize))
}

#[tactic(auto, unfolding(crate::specs::Reading::counted_at))]
pub(crate) fn counted_at(bytes: &[u8]) -> Result<(&[u8], &[u8]), FaultKind>
    ensures { Gives (λ x. (x.0.now, x.1.now)) result (counted_at bytes.now) }
{
    let (len, rest) = number_at(bytes)?;
    plain_at(len, rest)
}

/// Judged as soon as the length is read, since the bytes that follow can't be counted with it.
#[tactic(auto, unfolding(crate::specs::Reading::identifier_at))]
pub(crate) fn identifier_at(bytes: &[u8]) -> Result<(&[u8], &[u8]), FaultKind>
    ensures { Gives (λ x. (x.0.now, x.1.now)) result (identifier_at bytes.now) }
{
    let Some((&len, rest)) = bytes.split_first() else {
        return Err(FaultKind::Truncated);
    };
    match len {
        1..=20 => plain_at(u64::from(len), rest),
        _ => Err(FaultKind::IdentifierLength),
    }
}

pub(crate) fn number_if(there: bool, bytes: &[u8]) -> Result<(u64, &[u8]), FaultKind>
    ensures { Gives (λ x. (x.0, x.1.now)) result (field_at (number_if there) bytes.now) }
{
    if there {
        number_at(bytes)
    } else {
        Ok((0, bytes))
    }
}

/// All if no number counts them: a STREAM without a length goes on to the payload's end.
pub(crate) fn counted_if(there: bool, bytes: &[u8]) -> Result<(&[u8], &[u8]), FaultKind>
    ensures { Gives (λ x. (x.0.now, x.1.now)) result (field_at (counted_if there) bytes.now) }
{
    if there {
        counted_at(bytes)
    } else {
        Ok(bytes.split_at(bytes.len()))
    }
}

#[tactic(auto, unfolding(crate::specs::Reading::counts_at))]
fn counts_at(bytes: &[u8]) -> Result<(Option<EcnCounts>, &[u8]), FaultKind>
    ensures { Gives (λ x. (x.0, x.1.now)) result (counts_at bytes.now) }
{
    let (ect0, rest) = number_at(bytes)?;
    let (ect1, rest) = number_at(rest)?;
    let (ce, rest) = number_at(rest)?;
    Ok((Some(EcnCounts { ect0, ect1, ce }), rest))
}

pub(crate) fn ecn_if(there: bool, bytes: &[u8]) -> Result<(Option<EcnCounts>, &[u8]), FaultKind>
    ensures { Gives (λ x. (x.0, x.1.now)) result (field_at (ecn_if there) bytes.now) }
{
    if there {
        counts_at(bytes)
    } else {
        Ok((None, bytes))
    }
}

/// What follows so many numbers, and what is left of a limit from which each takes one more than itself: so a sum that falls below zero is
/// found without a list.
fn skip_numbers(count: u64, limit: u64, bytes: &[u8]) -> Result<(u64, &[u8]), FaultKind>
    ensures skips { MatchResult result
        (λ x. (vs : List ℕ) × (numbers_at count bytes.now ≡ Ok (vs, x.1.now)) × (x.0 ≡ limit - taken vs))
        (λ kind. numbers_at count bytes.now ≡ Err kind) }
    ensures shorter { IfOk result (λ x. length x.1.now ≤ length bytes.now) }
{
    let mut left = limit;
    let mut rest = bytes;
    for _ in 0..count {
        let (value, after) = number_at(rest)?;
        left = left.saturating_sub(value + 1);
        rest = after;
    }
    Ok((left, rest))
}

/// The numbers of an ACK's ranges, and whether they fall below zero. Told apart, since that is judged only when the whole frame was read.
#[tactic(auto, unfolding(crate::specs::Reading::ranges_at))]
pub(crate) fn ranges_at(largest: u64, bytes: &[u8]) -> Result<(&[u8], bool, &[u8]), FaultKind>
    requires { largest < 2 ^ 62 }
    ensures gives { Gives (λ x. (numbers_of x.0.now, x.2.now)) result (ranges_at bytes.now) }
    ensures falls { IfOk result (λ x. x.1 ≡ nat_lt (largest + 1) (taken (numbers_of x.0.now))) }
{
    let (pairs, numbers) = number_at(bytes)?;
    let (left, rest) = skip_numbers(2 * pairs + 1, largest + 2, numbers)?;
    Ok((&numbers[..numbers.len() - rest.len()], left == 0, rest))
}
