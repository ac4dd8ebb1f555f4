//! The report of what two endpoints have come to.
ghost use Rattle.std.specs.Prelude.{◌≡◌, ◌++◌, ◌*◌, ◌<◌, ◌^◌, reverse, option_to_list, IfOk, IfErr, OnOk};
ghost use Rattle.qs_world.specs.LaneLists.{sending, receiving, asked_lane, lanes_of, lanes_from};
ghost use Rattle.qs_world.specs.Copies.{IsReportOf};
ghost use Rattle.qs_world.specs.Reports.{is_received, all_lanes, end_totals};
ghost use Rattle.qs_world.specs.declared.report.PlayFault.TheVariants.{NoMemory};

use crate::copies::copy_log;
use crate::report::{EndTotals, LaneTotals, PlayFault, Report};
use qs_calls::{Answer, Event, Side};
use qs_conn::{Endpoint, LaneReport, RecvReport, SendReport};
use qs_recv::RecvState;
use qs_send::SendState;
use qs_wire::StreamId;
use std::alloc::{AllocError, Global};

const INDEXES: u64 = 1 << 60;

// A half that isn't open has no report, and a line of the text wants one.
const NEVER_SENT: SendReport = SendReport {
    state: SendState::Ready,
    written: 0,
    final_size: None,
    reset_code: None,
    limit: 0,
};

const NEVER_RECEIVED: RecvReport = RecvReport {
    state: RecvState::Recv,
    read_count: 0,
    highest: 0,
    limit: 0,
    final_size: None,
    reset_code: None,
    stop_code: None,
};

///
/// Refused: `NoMemory`.
pub(crate) fn report_of(
    alloc: Global,
    log: &[(Event, Answer)],
    a: &Endpoint,
    b: &Endpoint,
) -> Result<Report, PlayFault>
    ensures ok { IfOk result (IsReportOf (record { log = reverse log.now; ends = record { a = a.now; b = b.now } })) }
    ensures err { IfErr result (λ fault. fault ≡ NoMemory) }
{
    let Ok(log) = copy_log(alloc, log) else {
        return Err(PlayFault::NoMemory);
    };
    let Ok(lanes) = all_lanes(alloc, a, b) else {
        return Err(PlayFault::NoMemory);
    };
    Ok(Report {
        log,
        lanes,
        ends: [end_totals(a), end_totals(b)],
    })
}

/// One look at each number up to the last that is open in any type of stream, so that the lanes come in order without being sorted.
pub(crate) fn all_lanes(
    alloc: Global,
    a: &Endpoint,
    b: &Endpoint,
) -> Result<Vec<LaneTotals>, AllocError>
    ensures { IfOk result (λ lanes. lanes.items ≡ all_lanes (record { a = a.now; b = b.now })) }
{
    let mut lanes = Vec::new(alloc);
    for index in 0..INDEXES {
        let before = lanes.len();
        push_index(&mut lanes, a, b, index)?;
        if lanes.len() == before {
            return Ok(lanes);
        }
    }
    // No memory holds a lane for every number.
    Err(AllocError)
}

pub(crate) fn end_totals(end: &Endpoint) -> EndTotals
    ensures { result ≡ end_totals end.now }
{
    EndTotals {
        spent: end.spent(),
        granted: end.granted(),
        stored: end.stored(),
        closing: end.closing(),
    }
}

fn push_index(
    lanes: &mut Vec<LaneTotals>,
    a: &Endpoint,
    b: &Endpoint,
    index: u64,
) -> Result<(), AllocError>
    requires { index < 2 ^ 60 }
    ensures { OnOk result (lanes.new.items ≡ lanes.old.items ++ lanes_from (record { a = a.now; b = b.now }) (index * 4) 4) }
{
    for kind in 0..4 {
        let stream = StreamId::new(index * 4 + kind).unwrap();
        push_stream(lanes, a, b, stream)?;
    }
    Ok(())
}

fn push_stream(
    lanes: &mut Vec<LaneTotals>,
    a: &Endpoint,
    b: &Endpoint,
    stream: StreamId,
) -> Result<(), AllocError>
    ensures { OnOk result (lanes.new.items ≡ lanes.old.items ++ lanes_of (record { a = a.now; b = b.now }) stream) }
{
    let at_a = a.lane_report(stream);
    let at_b = b.lane_report(stream);
    push_lane(
        lanes,
        lane_of(Side::A, stream, sending(at_a), receiving(at_b)),
    )?;
    push_lane(
        lanes,
        lane_of(Side::B, stream, sending(at_b), receiving(at_a)),
    )?;
    Ok(())
}

fn push_lane(lanes: &mut Vec<LaneTotals>, lane: Option<LaneTotals>) -> Result<(), AllocError>
    ensures { OnOk result (lanes.new.items ≡ lanes.old.items ++ option_to_list lane) }
{
    if let Some(lane) = lane {
        lanes.push(lane)?;
    }
    Ok(())
}

fn lane_of(
    sender: Side,
    id: StreamId,
    sent: Option<SendReport>,
    read: Option<RecvReport>,
) -> Option<LaneTotals>
    ensures { result ≡ asked_lane sender id sent read }
{
    if sent.is_none() && read.is_none() {
        return None;
    }
    let sent = sent.unwrap_or(NEVER_SENT);
    let read = read.unwrap_or(NEVER_RECEIVED);
    Some(LaneTotals {
        sender,
        id,
        written: sent.written,
        read: read.read_count,
        received: is_received(sent.state),
        declared: sent.final_size,
        known: read.final_size,
    })
}

fn sending(report: Option<LaneReport>) -> Option<SendReport>
    ensures { result ≡ sending report }
{
    report?.send
}

fn receiving(report: Option<LaneReport>) -> Option<RecvReport>
    ensures { result ≡ receiving report }
{
    report?.recv
}

fn is_received(state: SendState) -> bool
    ensures { result ≡ is_received state }
{
    matches!(state, SendState::DataRecvd)
}
