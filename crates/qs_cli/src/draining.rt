//! Plays scripts, and then leads both ends to rest.

ghost use Rattle.std.specs.Prelude.{◌≡◌, ◌++◌, true, IfOk};
ghost use Rattle.std.specs.List.{list_all};
ghost use Rattle.std.specs.String.{string_bytes};
ghost use Rattle.qs_calls.specs.Settings.{are_in_range};
ghost use Rattle.qs_calls.specs.Events.{fits};
ghost use Rattle.qs_world.specs.PlayText.{play_text};
ghost use Rattle.qs_cli.specs.declared.status.Status.TheVariants.{Success};
ghost use Rattle.qs_cli.specs.Runs.{Shows};
ghost use Rattle.qs_cli.specs.Draining.{AnswersDrained, AnswersDrainedEvents, rest_line};

use crate::report_text::play_text;
use crate::scripts::{show, show_missing, show_script_fault, written};
use crate::status::Status;
use qs_world::{Drained, Event, PlayFault, Report, Settings, parse_script, play_drained};
use std::alloc::{AllocError, Global};
use std::io;

/// None that a run meets: where no call is refused both come to rest.
const MOST_DRAINED: u64 = u64::MAX;

/// Plays a script between two ends of these settings, and then plain rounds until both ends are at rest. It writes the report of it all,
/// as [`crate::report_play`] does, and at last the line `at rest` or `not at rest`. It answers that report.
pub fn report_drained<W: io::Write>(
    alloc: Global,
    settings: Settings,
    script: &[u8],
    out: &mut W,
) -> Result<Report, Status>
    requires range { are_in_range settings ≡ true }
    ensures { AnswersDrained result settings script.now (W.contents out.old) (W.contents out.new) }
{
    match parse_script(alloc, script) {
        Ok(events) => drained_events(alloc, settings, events, out),
        Err(fault) => Err(show_script_fault(alloc, fault, out)),
    }
}

fn drained_events<W: io::Write>(
    alloc: Global,
    settings: Settings,
    events: Vec<Event>,
    out: &mut W,
) -> Result<Report, Status>
    requires fit { list_all fits events.items ≡ true }
    requires range { are_in_range settings ≡ true }
    ensures { AnswersDrainedEvents result settings events.items (W.contents out.old) (W.contents out.new) }
{
    match play_drained(alloc, settings, settings, events, MOST_DRAINED) {
        Ok((report, drained)) => {
            let status = show_drained(alloc, &report, drained, out);
            written(report, status)
        }
        Err(PlayFault::NoSuchPacket { event }) => Err(show_missing(alloc, event, out)),
        Err(PlayFault::NoMemory) => Err(Status::NoMemory),
        Err(PlayFault::Setup(_)) => unreachable!(),
    }
}

/// Writes a report, and the line that tells whether both ends came to rest.
fn show_drained<W: io::Write>(
    alloc: Global,
    report: &Report,
    drained: Drained,
    out: &mut W,
) -> Status
    ensures { Shows (play_text report.now ++ rest_line drained) Success (W.contents out.old) (W.contents out.new) result }
{
    match drained_text(alloc, report, drained) {
        Ok(text) => show(&text, Status::Success, out),
        Err(_) => Status::NoMemory,
    }
}

fn drained_text(alloc: Global, report: &Report, drained: Drained) -> Result<String, AllocError>
    ensures { IfOk result (λ text. string_bytes text ≡ play_text report.now ++ rest_line drained) }
{
    let mut text = play_text(alloc, report)?;
    text.push_str(rest_line(drained))?;
    Ok(text)
}

fn rest_line(drained: Drained) -> &'static str
    ensures { result.now ≡ rest_line drained }
{
    match drained {
        Drained::AtRest => "at rest\n",
        Drained::UsedUp => "not at rest\n",
    }
}
