//! Laws on halves, chunks and passes over an ACK, each the contract of a function.
ghost use Rattle.qs_send.specs.Laws.{FrameLenIsCanonical, NewIsLawful, CallsKeepLawful, KeptFromUnacked, WholeIsAllAcked, EachOffsetIsInOnePart, InFlightWasSent, CallsMoveParts, DeclaredSizeIsSentEnd, DeclaredSizeStays, OnlyNewBytesSpend, NextChunkIsUnique, DueChunkHasBytes, CutChunkIsLast, SendableHasChunk, SendableEndHasChunk, HeldByRoomOrLimits};
ghost use Rattle.qs_send.specs.AckPass.{PassGivesAllNamed};
ghost use Rattle.qs_send.specs.LostPass.{LostPassGivesAllNamed};

/// The length that a chunk's room counts is that of the canonical text of its STREAM frame.
#[tactic(auto, using(crate::proofs::Numbers::frame_len_is_canonical))]
pub fn frame_len_is_canonical()
    ensures { FrameLenIsCanonical }
{}

/// A half meets its invariant as it begins, and each call keeps it.
pub fn calls_keep_lawful()
    ensures new { NewIsLawful }
    ensures kept { CallsKeepLawful }
{}

/// The bytes that are kept are those from the lowest offset not acknowledged on.
#[tactic(auto, using(crate::proofs::Runs::kept_from_unacked))]
pub fn kept_from_unacked()
    ensures { KeptFromUnacked }
{}

/// In Data Recvd each written offset and the end were acknowledged.
#[tactic(auto, using(crate::proofs::Runs::whole_is_all_acked))]
pub fn whole_is_all_acked()
    ensures { WholeIsAllAcked }
{}

/// Each written offset is in one of acknowledged, due and in flight.
#[tactic(auto, using(crate::proofs::Steps::each_offset_is_in_one_part, crate::proofs::Steps::in_flight_was_sent))]
pub fn each_offset_is_in_one_part()
    ensures one { EachOffsetIsInOnePart }
    ensures sent { InFlightWasSent }
{}

/// What each call moves between the three parts, of a lane that wasn't reset.
#[tactic(auto, using(crate::proofs::Steps::calls_move_parts))]
pub fn calls_move_parts()
    ensures { CallsMoveParts }
{}

/// A declared final size is the sent end, and never changes.
pub fn declared_size_stays()
    ensures sent { DeclaredSizeIsSentEnd }
    ensures stays { DeclaredSizeStays }
{}

/// A byte that is sent again spends nothing.
#[tactic(auto, using(crate::proofs::Steps::only_new_bytes_spend))]
pub fn only_new_bytes_spend()
    ensures { OnlyNewBytesSpend }
{}

/// One chunk at most is the next one.
pub fn next_chunk_is_unique()
    ensures { NextChunkIsUnique }
{}

/// The bytes of a due chunk are in the buffer.
#[tactic(auto, using(crate::proofs::Steps::due_has_bytes))]
pub fn due_chunk_has_bytes()
    ensures { DueChunkHasBytes }
{}

/// After a chunk that doesn't reach the end of its run, the same packet takes no other.
#[tactic(auto, using(crate::proofs::Steps::cut_chunk_is_last))]
pub fn cut_chunk_is_last()
    ensures { CutChunkIsLast }
{}

/// Where an offset or the end could go, 19 bytes of room are enough for a chunk.
pub fn sendable_has_chunk()
    ensures offset { SendableHasChunk }
    ensures end { SendableEndHasChunk }
{}

/// Where no chunk goes, either the room has less than 19 bytes or no room would be enough.
pub fn held_by_room_or_limits()
    ensures { HeldByRoomOrLimits }
{}

/// A pass over an ACK gives the outstanding numbers that it names, each once and the highest first, in no more turns than there are
/// slots and ranges (RFC 9000, section 13.3).
#[tactic(auto, using(crate::proofs::Passing::pass_gives_all_named))]
pub fn pass_gives_all_named()
    ensures { PassGivesAllNamed }
{}

/// A pass over an ACK gives the lost numbers that it names, each once and the highest first, in no more turns than there are records
/// and ranges (RFC 9000, section 13.2.1).
#[tactic(auto, using(crate::proofs::Passing::lost_pass_gives_all_named))]
pub fn lost_pass_gives_all_named()
    ensures { LostPassGivesAllNamed }
{}
