//! Laws of the definitions alone: each is a function whose contract is the law.

ghost use Rattle.qs_progress.specs.Score.{WhatIsDoneStays};
ghost use Rattle.qs_progress.specs.Within.{ItemsAreWithin};
ghost use Rattle.qs_progress.specs.Acknowledged.{AcknowledgedGoesByValue, AcksTellPresent, OnlyAcksTell};
ghost use Rattle.qs_progress.specs.Bound.{DoneIsBounded};
ghost use Rattle.qs_progress.specs.Outstanding.{WhatIsOutStays};
ghost use Rattle.qs_progress.specs.Going.{WhatGoesOutIsNew};
ghost use Rattle.qs_progress.specs.Comes.{RestComes, AllComes};
ghost use Rattle.qs_progress.specs.Windows.{RoundsLeaveWidths, AllIsReadInRounds, RestComesInRounds, AllComesInRounds};
ghost use Rattle.qs_progress.specs.Ending.{CallsComeToAnEnd, RoomyPacketsCarry};
ghost use Rattle.qs_progress.specs.Exclusions.{Exclusions};
ghost use Rattle.qs_progress.specs.ExclusionsLaps.{LapExclusions};
ghost use Rattle.qs_progress.specs.ExclusionsRounds.{RoundExclusions};
ghost use Rattle.qs_progress.specs.ExclusionsWindows.{WindowExclusions};
ghost use Rattle.qs_progress.specs.ExclusionsEnding.{EndingExclusions};

/// What is done stays done: whatever happens, an end's score never falls, once it was told its peer's true limits.
pub fn what_is_done_stays()
    ensures { WhatIsDoneStays }
{}

/// And it is bounded, once both ends were told them: by the bytes that were written, the streams that were opened, and what was set beyond
/// the first windows and grants.
pub fn done_is_bounded()
    ensures { DoneIsBounded }
{}

/// In every run no packet of an end, outstanding or lost, holds an item whose value is above the present one, and none such was acknowledged.
pub fn items_are_within()
    ensures { ItemsAreWithin }
{}

/// Whatever happens, an item that was acknowledged with its present value stays so until the value changes, and isn't from then on.
pub fn acknowledged_goes_by_value()
    ensures { AcknowledgedGoesByValue }
{}

/// An ACK acknowledges the present value of each item that stands in a packet that it names.
pub fn acks_tell_present()
    ensures { AcksTellPresent }
{}

/// And no other frame acknowledges a value.
pub fn only_acks_tell()
    ensures { OnlyAcksTell }
{}

/// Where nothing is lost, asked for, set or closed, what an outstanding packet carries stays outstanding, or is acknowledged.
pub fn what_is_out_stays()
    ensures { WhatIsOutStays }
{}

/// And what goes out then wasn't acknowledged before.
pub fn what_goes_out_is_new()
    ensures { WhatGoesOutIsNew }
{}

/// Rest comes: in every run, from each moment on, a number bounds how many laps don't begin at rest.
pub fn rest_comes()
    ensures { RestComes }
{}

/// And so does all that holds at rest: the same number bounds how many laps begin where not all was delivered, or credit isn't whole.
pub fn all_comes()
    ensures { AllComes }
{}

/// By rounds, too, by packets as by tokens: two for each width of a window that is filled, five for each stretch, and five.
pub fn rest_comes_in_rounds()
    ensures { RestComesInRounds }
{}

/// And how many begin where not all was delivered, or credit isn't whole.
pub fn all_comes_in_rounds()
    ensures { AllComesInRounds }
{}

/// Where nothing is lost, asked for, set or closed, a number bounds how many packets carry more than ACKs, and how many reads tell something.
pub fn calls_come_to_an_end()
    ensures { CallsComeToAnEnd }
{}

/// A packet that is made by an end that has more to send carries more than ACKs, if it leaves 25 bytes of its room.
pub fn roomy_packets_carry()
    ensures { RoomyPacketsCarry }
{}

/// What a score counts, and what it doesn't: small ends with theirs, and one whose score falls where it takes in higher limits of its peer.
pub fn exclusions()
    ensures { Exclusions }
{}

/// A lap, that doesn't begin at rest, and for each part of one a case that is none for want of it; a limit that is acknowledged isn't told
/// again, and no ACK asks for one.
pub fn lap_exclusions()
    ensures { LapExclusions }
{}

/// A round, and for each part of one a case that is none for want of it.
pub fn round_exclusions()
    ensures { RoundExclusions }
{}

/// A read that tells the end counts, and none that tells it again; a packet that holds a piece counts, and none of ACKs alone.
pub fn ending_exclusions()
    ensures { EndingExclusions }
{}

/// All that is written is read in time: a number of windows that are filled bounds how many rounds begin before that.
pub fn all_is_read_in_rounds()
    ensures { AllIsReadInRounds }
{}

/// A round leaves windows as wide as they were.
pub fn rounds_leave_widths()
    ensures { RoundsLeaveWidths }
{}

/// How wide windows are, what fills them, and where not all is read.
pub fn window_exclusions()
    ensures { WindowExclusions }
{}
