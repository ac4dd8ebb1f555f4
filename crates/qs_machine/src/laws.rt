//! Laws on ends and their calls, each the contract of a function.

ghost use Rattle.qs_machine.specs.Laws.{NewEndsAreSound, NewEndsAreWide, CallsKeepEndsSound, StoredBytesWereGranted, EndedIsLastState, NewEndsSettleCounts, CallsSettleCounts, CountsNeverFall, LimitsNeverFall, ClosedEndsStay, AnAckIsAPacket, AFillIsAPacket, ClaimedNumbersAreKnown, PayloadsAreTakenInOrder, EffectsRepeat, PayloadsRepeat, ProcessedPayloadsRepeat, NewEndsSentNothing, CallsSendWhatWasWritten, ForeignFramesTellNothing, ForeignFramesSettle};
ghost use Rattle.qs_machine.specs.Plains.{PlainFramesTellNothing};
ghost use Rattle.qs_machine.specs.Ways.{APayloadIsItsFrames, APayloadIsTakeFrames, AFrameIsItsPayload, AnAckIsItsToken, AnAckIsItsTokens, AnAckMayBeTold, ItsRangesAreTokens, AJoinedTokenIsItsParts, APayloadIsTokensAndFrames};
ghost use Rattle.qs_machine.specs.AckOrders.{AStopIsntMoved};
ghost use Rattle.qs_machine.specs.SettledLimits.{NewEndsSettleLimits, CallsSettleLimits};
ghost use Rattle.qs_machine.specs.OffsetParts.{OffsetsAreInOnePart};
ghost use Rattle.qs_machine.specs.Owning.{NoNewsIsLost};
ghost use Rattle.qs_machine.specs.Examples.{Examples};
ghost use Rattle.qs_machine.specs.Exclusions.{Exclusions};

/// A new end of wide ranges is sound, and each new end is such a one.
pub fn new_ends_are_sound()
    ensures sound { NewEndsAreSound }
    ensures wide { NewEndsAreWide }
{}

/// Every call leaves a sound end sound, whoever made the payloads that come to it.
pub fn calls_keep_ends_sound()
    ensures { CallsKeepEndsSound }
{}

/// A sound end stores at most what it granted, which is at most its window; and so of each stream. It grants no more streams than it
/// may in its lifetime.
pub fn stored_bytes_were_granted()
    ensures { StoredBytesWereGranted }
{}

/// A half of a stream counts as ended exactly in Data Read and Reset Read, or in Data Recvd and Reset Recvd.
pub fn ended_is_last_state()
    ensures { EndedIsLastState }
{}

/// Of a new end, and after every call, each granted count of streams is what the streams that ended make it.
pub fn counts_are_settled()
    ensures new { NewEndsSettleCounts }
    ensures calls { CallsSettleCounts }
{}

/// Of a new end, and after every call, whatever it answers, each limit is its own next one: the connection's, and that of each receiving
/// half whose final size isn't known.
pub fn limits_are_settled()
    ensures new { NewEndsSettleLimits }
    ensures calls { CallsSettleLimits }
{}

/// No call lowers a granted count of streams: a stream that ended stays so.
pub fn counts_never_fall()
    ensures { CountsNeverFall }
{}

/// No call lowers a limit that was granted or one that is known, or a known count of streams.
pub fn limits_never_fall()
    ensures { LimitsNeverFall }
{}

/// After a closing nothing changes any more, but the number of the next packet where one is claimed, and what is read where the owner chose
/// to read on.
pub fn closed_ends_stay()
    ensures { ClosedEndsStay }
{}

/// What `make_ack` makes is a packet of `make_packet` with no more room than it takes.
pub fn an_ack_is_a_packet()
    ensures { AnAckIsAPacket }
{}

/// What is filled in is a packet that `make_packet` may make in a room as long as its text, or nothing changed.
pub fn a_fill_is_a_packet()
    ensures { AFillIsAPacket }
{}

/// PADDING, PING and the frames that are carried for others change nothing but whether an ACK is due, wherever they stand in a payload.
pub fn plain_frames_tell_nothing()
    ensures { PlainFramesTellNothing }
{}

/// Frames of kinds that aren't an end's own are answered NotOurs, and leave an open end as it was; several settle its limits.
pub fn foreign_frames_tell_nothing()
    ensures alone { ForeignFramesTellNothing }
    ensures several { ForeignFramesSettle }
{}

/// An ACK that names a claimed number doesn't close the end, and no packet of that number is outstanding.
pub fn claimed_numbers_are_known()
    ensures { ClaimedNumbersAreKnown }
{}

/// Of a payload's frames some first ones take effect, in order, and then the processing ends.
pub fn payloads_are_taken_in_order()
    ensures { PayloadsAreTakenInOrder }
{}

/// Of a new end, and after every call, all outstanding data was written.
pub fn outstanding_was_written()
    ensures new { NewEndsSentNothing }
    ensures calls { CallsSendWhatWasWritten }
{}

/// Each written offset of a half that wasn't reset is acknowledged, or in flight, which is what an outstanding piece has and isn't
/// acknowledged, or due.
pub fn offsets_are_in_one_part()
    ensures { OffsetsAreInOnePart }
{}

/// Frames that took effect and come again have no fault and change nothing: nothing is spent, opened or reset twice.
pub fn effects_repeat()
    ensures { EffectsRepeat }
{}

/// A payload that found no memory, or was processed, may come again from its start: it goes on where it ended.
pub fn payloads_repeat()
    ensures { PayloadsRepeat }
{}

/// A payload that was processed and comes again changes nothing but which numbers are kept and whether an ACK is due.
pub fn processed_payloads_repeat()
    ensures { ProcessedPayloadsRepeat }
{}

/// Of an end to which calls led, whatever is called: what an owner would hear of it hears of still, unless it is over or the end closed. What it
/// is told is news no more, and no other news goes by it. No call stops a sending half that came to its end, so that no stop is lost that is
/// told with the end.
pub fn no_news_is_lost()
    ensures { NoNewsIsLost }
{}

/// Decisive steps of small connections, computed by the definitions.
pub fn examples()
    ensures { Examples }
{}

/// Steps of small connections that the definitions exclude, clause by clause.
pub fn exclusions()
    ensures { Exclusions }
{}

/// A payload that is processed is its frames, which take effect one after the other, and then its number; where it has no ACK it is
/// `take_frames` of them, and of a single frame `take_frame`; where it has one ACK, with no frame of streams or flow control before it, it is
/// first the tokens of the ACK's packets. A STOP_SENDING before the ACK isn't as one behind it.
pub fn payloads_are_their_frames()
    ensures effects { APayloadIsItsFrames }
    ensures several { APayloadIsTakeFrames }
    ensures one { AFrameIsItsPayload }
    ensures tokens { APayloadIsTokensAndFrames }
    ensures order { AStopIsntMoved }
{}

/// An ACK of one range of packets is the token of that range, in time or late. An ACK of any ranges is tokens of the same packets, told one
/// after the other, of an end whose outstanding data was written; and unless one of them is refused they may be told so. The ranges of an
/// ACK without a fault are such tokens, and a joined token is its two parts.
pub fn acks_are_their_tokens()
    ensures one { AnAckIsItsToken }
    ensures several { AnAckIsItsTokens }
    ensures told { AnAckMayBeTold }
    ensures ranges { ItsRangesAreTokens }
    ensures joined { AJoinedTokenIsItsParts }
{}
