//! Laws of the definitions alone: each is a function whose contract is the law. The invariant holds of two new ends, and every step keeps
//! it; each of its clauses is a law, and so is each part of what agrees. The last law joins them over whole runs.

ghost use Rattle.qs_runs.specs.Agree.{EveryRunAgrees};
ghost use Rattle.qs_runs.specs.Claims.{ClaimsAlwaysTellNothing};
ghost use Rattle.qs_runs.specs.Examples.{Examples};
ghost use Rattle.qs_runs.specs.Exclusions.{Exclusions};
ghost use Rattle.qs_runs.specs.Laws.{NewEndsMeetInvariant, StepsKeepInvariant, EventRunsAreRuns, PiecesAreAlwaysWritten, ReceivedIsAlwaysBelowSent, StoredIsAlwaysWritten, ReadIsAlwaysWritten, ArrivedWasAlwaysTaken, AckedHasAlwaysArrived, FinalSizeIsAlwaysDeclared, WhatIsKnownStays, ResetCodeIsAlwaysTheSenders, SentIsAlwaysWithinKnown, KnownIsAlwaysWithinGranted, StreamsAreOpenAtInitiator, OpenedIsAlwaysBelowKnown, ReadIsAPrefix, SpentIsBelowSent, RepeatsSpendNothing, ReceivedIsWhole, FinalSizesAlwaysAgree, NoEndCloses};

/// Two new ends, each told limits that the other grants, meet the invariant.
pub fn new_ends_meet_invariant()
    ensures { NewEndsMeetInvariant }
{}

/// Whatever happens, the invariant stays.
pub fn steps_keep_invariant()
    ensures { StepsKeepInvariant }
{}

/// Every run of events alone, of ends that were told the true limits, is a run of the calls that they are.
pub fn event_runs_are_runs()
    ensures { EventRunsAreRuns }
{}

/// What ever stood in a packet are the bytes that were written at its offsets, below the sent end.
pub fn pieces_are_written()
    ensures { PiecesAreAlwaysWritten }
{}

/// Every offset that was received was sent.
pub fn received_is_below_sent()
    ensures { ReceivedIsAlwaysBelowSent }
{}

/// Every stored byte is the one that was written at its offset.
pub fn stored_is_written()
    ensures { StoredIsAlwaysWritten }
{}

/// Every byte that was read is the one that was written at its offset.
pub fn read_is_written()
    ensures { ReadIsAlwaysWritten }
{}

/// Every frame on data that arrived, in a packet that was processed or without its packet, took effect, for good.
pub fn arrived_was_taken()
    ensures { ArrivedWasAlwaysTaken }
{}

/// What counts as acknowledged stood in a frame that arrived at the peer.
pub fn acked_has_arrived()
    ensures { AckedHasAlwaysArrived }
{}

/// A final size that is known is the declared one, which is the sent end, and without a known reset the count written.
pub fn final_size_is_declared()
    ensures { FinalSizeIsAlwaysDeclared }
{}

/// What a receiving half knows it keeps, so a known final size never changes.
pub fn what_is_known_stays()
    ensures { WhatIsKnownStays }
{}

/// The code of a reset that is known is that of the sender's reset.
pub fn reset_code_is_the_senders()
    ensures { ResetCodeIsAlwaysTheSenders }
{}

/// What was sent is within the limits that the sender knows.
pub fn sent_is_within_known()
    ensures { SentIsAlwaysWithinKnown }
{}

/// The limits that a sender knows are within those that its peer granted.
pub fn known_is_within_granted()
    ensures { KnownIsAlwaysWithinGranted }
{}

/// A stream that is open at one end is open at the end that opened it.
pub fn open_at_initiator()
    ensures { StreamsAreOpenAtInitiator }
{}

/// An end's own streams are below the count that it knows, and that is at most the granted one.
pub fn opened_is_below_known()
    ensures { OpenedIsAlwaysBelowKnown }
{}

/// What is read is a prefix of what was written, and all of it once the end was told to a reader that had not stopped.
pub fn read_is_a_prefix()
    ensures { ReadIsAPrefix }
{}

/// What is spent of an end's credit is at most what its peer sent.
pub fn spent_is_below_sent()
    ensures { SpentIsBelowSent }
{}

/// A packet that was processed leaves an end as it was, and a call that hands in nothing new spends no credit.
pub fn repeats_spend_nothing()
    ensures { RepeatsSpendNothing }
{}

/// A stream that counts as received at its sender was received in whole.
pub fn received_is_whole()
    ensures { ReceivedIsWhole }
{}

/// Final sizes and reset codes that are known are the sender's.
pub fn final_sizes_agree()
    ensures { FinalSizesAlwaysAgree }
{}

/// An end that was told of no close is open, or its peer was told of one, and it saw that peer's close.
pub fn no_end_closes()
    ensures { NoEndCloses }
{}

/// Whatever two ends are asked to do, in whatever order and number their packets come, each run of them agrees.
pub fn every_run_agrees()
    ensures { EveryRunAgrees }
{}

/// The packet of a number that the layer beneath claimed is a PING. What comes under it of an end that was told of no close, be it the PING
/// or plain frames in its place, changes nothing at an open peer but which numbers it keeps, from which one on, and whether an ACK is due.
pub fn claims_tell_nothing()
    ensures { ClaimsAlwaysTellNothing }
{}

/// What was written, read, made, processed and taken, read off small histories; and a PING may come alone.
pub fn examples()
    ensures { Examples }
{}

/// Small histories and worlds that don't agree, clause by clause; and what may happen, and what may not, row by row.
pub fn exclusions()
    ensures { Exclusions }
{}
