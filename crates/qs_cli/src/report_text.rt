//! What came of a run, as text.

ghost use Rattle.std.specs.Prelude.{◌≡◌, ◌++◌, OnOk, IfOk, codes};
ghost use Rattle.std.specs.List.{flat_map};
ghost use Rattle.std.specs.String.{string_bytes};
ghost use Rattle.qs_text.specs.EventText.{line};
ghost use Rattle.qs_world.specs.PlayText.{number_text, lane_text, closing_part, end_text, ends_text, play_text};

use qs_text::{push_closing, push_log, side_name, yes_no};
use qs_world::{Closing, EndTotals, LaneTotals, Report, Side};
use std::alloc::{AllocError, Global};

/// The text of a report: a line for each event with its answer, for each lane and for each end.
pub fn play_text(alloc: Global, report: &Report) -> Result<String, AllocError>
    ensures { IfOk result (λ text. string_bytes text ≡ play_text report.now) }
{
    let mut text = String::new(alloc);
    push_log(alloc, &mut text, &report.log)?;
    push_lanes(&mut text, &report.lanes)?;
    push_ends(&mut text, &report.ends)?;
    Ok(text)
}

fn push_lanes(text: &mut String, lanes: &[LaneTotals]) -> Result<(), AllocError>
    ensures { OnOk result (string_bytes text.new ≡ string_bytes text.old ++ flat_map (λ l. line (lane_text l)) lanes.now) }
{
    for lane in lanes {
        push_lane(text, lane)?;
        text.push_str("\n")?;
    }
    Ok(())
}

fn push_number(text: &mut String, number: Option<u64>) -> Result<(), AllocError>
    ensures { OnOk result (string_bytes text.new ≡ string_bytes text.old ++ number_text number) }
{
    match number {
        Some(number) => write!(text, "{number}"),
        None => text.push_str("none"),
    }
}

fn push_lane(text: &mut String, lane: &LaneTotals) -> Result<(), AllocError>
    ensures { OnOk result (string_bytes text.new ≡ string_bytes text.old ++ lane_text lane.now) }
{
    let (side, id) = (side_name(lane.sender), lane.id.value());
    let (written, read, received) = (lane.written, lane.read, yes_no(lane.received));
    write!(
        text,
        "lane {side} {id} written {written} read {read} received {received}"
    )?;
    push_sizes(text, lane.declared, lane.known)
}

fn push_sizes(
    text: &mut String,
    declared: Option<u64>,
    known: Option<u64>,
) -> Result<(), AllocError>
    ensures { OnOk result (string_bytes text.new ≡ string_bytes text.old ++ codes " declared " ++ number_text declared ++ codes " known " ++ number_text known) }
{
    text.push_str(" declared ")?;
    push_number(text, declared)?;
    text.push_str(" known ")?;
    push_number(text, known)
}

fn push_ends(text: &mut String, ends: &[EndTotals; 2]) -> Result<(), AllocError>
    ensures { OnOk result (string_bytes text.new ≡ string_bytes text.old ++ ends_text ends.now) }
{
    let [client, server] = ends;
    push_end(text, Side::A, client)?;
    text.push_str("\n")?;
    push_end(text, Side::B, server)?;
    text.push_str("\n")
}

fn push_end(text: &mut String, side: Side, end: &EndTotals) -> Result<(), AllocError>
    ensures { OnOk result (string_bytes text.new ≡ string_bytes text.old ++ end_text side end.now) }
{
    let (side, spent, granted, stored) = (side_name(side), end.spent, end.granted, end.stored);
    write!(
        text,
        "end {side} spent {spent} granted {granted} stored {stored}"
    )?;
    push_own_closing(text, end.closing)
}

fn push_own_closing(text: &mut String, closing: Option<Closing>) -> Result<(), AllocError>
    ensures { OnOk result (string_bytes text.new ≡ string_bytes text.old ++ closing_part closing) }
{
    match closing {
        Some(closing) => {
            text.push_str(" ")?;
            push_closing(text, closing)
        }
        None => Ok(()),
    }
}
