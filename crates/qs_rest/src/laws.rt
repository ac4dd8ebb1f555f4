//! Laws of the definitions alone: each is a function whose contract is the law.

ghost use Rattle.qs_rest.specs.Laws.{ItemsAreInOnePart, AllButAcksAsk, StopsGiveBack};
ghost use Rattle.qs_rest.specs.Rest.{EveryRunKeeps, IdleIsRest};
ghost use Rattle.qs_rest.specs.Again.{FramesRepeat};
ghost use Rattle.qs_rest.specs.OneStream.{EveryStreamRests, AnswersTell};
ghost use Rattle.qs_rest.specs.Exclusions.{Exclusions};
ghost use Rattle.qs_rest.specs.ExclusionsOneStream.{OneStreamExclusions};
ghost use Rattle.qs_rest.specs.Resting.{ItemsAreAcked, ToldIsTaken, AtEachRest, OnceLimitsKnown, FirstLimitsStay, TakenInIsTold, EventRunsTell, KnowsItsLimits, CreditIsWhole, HasCreditAhead, ResetsAreFinal, AllIsDelivered};

/// Each item that is to be told is in an outstanding packet, or was acknowledged, or is due.
pub fn items_are_in_one_part()
    ensures { ItemsAreInOnePart }
{}

/// Whatever a packet may hold asks for an acknowledgement, but an acknowledgement.
pub fn all_but_acks_ask()
    ensures { AllButAcksAsk }
{}

/// A half whose reader stopped has taken all that came, whatever comes later.
pub fn stops_give_back()
    ensures { StopsGiveBack }
{}

/// In every run, of both ends: what counts as acknowledged was told, what was told took effect, and limits and counts are settled.
pub fn every_run_keeps()
    ensures { EveryRunKeeps }
{}

/// An open end is at rest where its code answers so: `is_sendable` is false, and from 0 on `next_outstanding` and `next_readable` are `None`.
pub fn idle_is_rest()
    ensures { IdleIsRest }
{}

/// One stream that rests, whatever the others do: what was sent of it was read, and where its end was sent, both halves are in their last state.
pub fn every_stream_rests()
    ensures { EveryStreamRests }
{}

/// An application's questions tell the same: `acked_below` is what was written less `unsent`, and the reader has no news of the stream.
pub fn answers_tell()
    ensures { AnswersTell }
{}

/// At rest the peer acknowledged each item that is to be told.
pub fn items_are_acked()
    ensures { ItemsAreAcked }
{}

/// What an acknowledged packet told took effect at the peer.
pub fn told_is_taken()
    ensures { ToldIsTaken }
{}

/// An end that was told its peer's true limits, as it was made or later, knows them from then on, as both ends of a run of events alone do.
pub fn first_limits_stay()
    ensures stay { FirstLimitsStay }
    ensures taken_in { TakenInIsTold }
    ensures events { EventRunsTell }
{}

/// Frames that come without their packet, each of which took effect before, with it or without it, change nothing.
pub fn frames_repeat()
    ensures { FramesRepeat }
{}

/// At rest each limit that is granted is known, and each count of streams, and that is the next one; of an end that was told its peer's
/// true limits.
pub fn limits_are_known()
    ensures { AtEachRest (OnceLimitsKnown KnowsItsLimits) }
{}

/// At rest all credit is paid back, of the connection and of each stream.
pub fn credit_is_whole()
    ensures { AtEachRest CreditIsWhole }
{}

/// At rest more than each window less a step is left to its sender, so more than half of it, and a byte at least, unless the limit is the
/// greatest one; of an end that was told its peer's true limits.
pub fn credit_is_ahead()
    ensures { AtEachRest (OnceLimitsKnown HasCreditAhead) }
{}

/// At rest each stream that was reset, or whose reader stopped, has come to its end at both ends.
pub fn resets_are_final()
    ensures { AtEachRest ResetsAreFinal }
{}

/// At rest no limit holds a stream back that wasn't reset: what was written was read, and a stream that was finished is delivered; of an end
/// that was told its peer's true limits.
pub fn all_is_delivered()
    ensures { AtEachRest (OnceLimitsKnown AllIsDelivered) }
{}

/// Small ends that are at rest, and one that isn't for each clause.
pub fn exclusions()
    ensures { Exclusions }
{}

/// A stream that rests while another is at work; for each clause one that doesn't rest, or isn't read, and answers that don't tell so.
pub fn one_stream_exclusions()
    ensures { OneStreamExclusions }
{}
