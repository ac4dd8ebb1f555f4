//! Plays events and scripts, and makes scripts of random events.

ghost use Rattle.std.specs.Prelude.{◌≡◌, true, Err, IfOk};
ghost use Rattle.std.specs.List.{list_all};
ghost use Rattle.std.specs.String.{string_bytes};
ghost use Rattle.qs_calls.specs.Settings.{are_in_range};
ghost use Rattle.qs_machine.specs.Examples.{standard};
ghost use Rattle.qs_calls.specs.Events.{fits};
ghost use Rattle.qs_calls.specs.declared.settings.SetupFault.{SetupFault};
ghost use Rattle.qs_world.specs.declared.report.PlayFault.TheVariants.{Setup};
ghost use Rattle.qs_world.specs.Plays.{PlayOf};
ghost use Rattle.qs_world.specs.Copies.{PlayOfCopies};
ghost use Rattle.qs_world.specs.PlayText.{play_text};
ghost use Rattle.qs_cli.specs.declared.status.Status.TheVariants.{Success, FaultShown};
ghost use Rattle.qs_cli.specs.Runs.{AnswersEvents, AnswersPlay, AnswersRandom, EndsAs, Shows, ShowsPlayFault, ShowsScriptFault, missing_line, script_fault_line, status_of, written};

use crate::report_text::play_text;
use crate::status::Status;
use qs_text::script_text;
use qs_world::{
    Event, PlayFault, Reason, Report, ScriptFault, Settings, parse_script, play, play_all,
    random_script, standard_settings,
};
use std::alloc::{AllocError, Global};
use std::io;

/// Plays events between two ends of these settings, and writes the report: a line for each event with its answer, for each lane and for
/// each end. It answers the exit status. An event that delivers a packet which wasn't made is named in place of it all.
///
/// It is written once the text stands whole, so that `NoMemory` means that nothing was written. `Failed` if writing failed.
pub fn run_events<W: io::Write>(
    alloc: Global,
    settings: Settings,
    events: &[Event],
    out: &mut W,
) -> Status
    requires fit { list_all fits events.now ≡ true }
    requires range { are_in_range settings ≡ true }
    ensures { EndsAs (λ answer. AnswersEvents (PlayOfCopies settings settings events.now) answer (W.contents out.old) (W.contents out.new)) result }
{
    let played = play(alloc, settings, settings, events);
    status_of(show_played(alloc, played, out))
}

/// As [`run_events`], of the events themselves, and it answers the report that it wrote.
pub fn report_events<W: io::Write>(
    alloc: Global,
    settings: Settings,
    events: Vec<Event>,
    out: &mut W,
) -> Result<Report, Status>
    requires fit { list_all fits events.items ≡ true }
    requires range { are_in_range settings ≡ true }
    ensures { AnswersEvents (PlayOf settings settings events.items) result (W.contents out.old) (W.contents out.new) }
{
    let played = play_all(alloc, settings, settings, events);
    show_played(alloc, played, out)
}

fn show_played<W: io::Write>(
    alloc: Global,
    played: Result<Report, PlayFault>,
    out: &mut W,
) -> Result<Report, Status>
    requires { (fault : SetupFault) → played ≡ Err (Setup fault) → ⊥ }
    ensures { AnswersEvents (λ answer. answer ≡ played) result (W.contents out.old) (W.contents out.new) }
{
    match played {
        Ok(report) => {
            let status = show_report(alloc, &report, out);
            written(report, status)
        }
        Err(fault) => Err(show_play_fault(alloc, fault, out)),
    }
}

fn show_play_fault<W: io::Write>(alloc: Global, fault: PlayFault, out: &mut W) -> Status
    requires { (setup : SetupFault) → fault ≡ Setup setup → ⊥ }
    ensures { ShowsPlayFault fault (W.contents out.old) (W.contents out.new) result }
{
    match fault {
        PlayFault::NoSuchPacket { event } => show_missing(alloc, event, out),
        PlayFault::NoMemory => Status::NoMemory,
        PlayFault::Setup(_) => unreachable!(),
    }
}

fn show_report<W: io::Write>(alloc: Global, report: &Report, out: &mut W) -> Status
    ensures { Shows (play_text report.now) Success (W.contents out.old) (W.contents out.new) result }
{
    match play_text(alloc, report) {
        Ok(text) => show(&text, Status::Success, out),
        Err(_) => Status::NoMemory,
    }
}

/// The exit status of a run that answers the report that it wrote.
pub fn status_of(answer: Result<Report, Status>) -> Status
    ensures { result ≡ status_of answer }
{
    match answer {
        Ok(_) => Status::Success,
        Err(status) => status,
    }
}

/// A report that was written, or the status that tells why it wasn't.
pub fn written(report: Report, status: Status) -> Result<Report, Status>
    ensures { result ≡ written report status }
{
    match status {
        Status::Success => Ok(report),
        _ => Err(status),
    }
}

pub fn show_missing<W: io::Write>(alloc: Global, event: usize, out: &mut W) -> Status
    ensures { Shows (missing_line event) FaultShown (W.contents out.old) (W.contents out.new) result }
{
    match format!(in alloc; "fault: no such packet at event {event}\n") {
        Ok(text) => show(&text, Status::FaultShown, out),
        Err(_) => Status::NoMemory,
    }
}

pub fn show<W: io::Write>(text: &String, status: Status, out: &mut W) -> Status
    ensures { Shows (string_bytes text.now) status (W.contents out.old) (W.contents out.new) result }
{
    match out.write_all(text.as_bytes()) {
        Ok(()) => status,
        Err(_) => Status::Failed,
    }
}

/// Plays a script between two ends of the standard settings, as [`run_play_with`] does.
pub fn run_play<W: io::Write>(alloc: Global, script: &[u8], out: &mut W) -> Status
    ensures { EndsAs (λ answer. AnswersPlay answer standard script.now (W.contents out.old) (W.contents out.new)) result }
{
    run_play_with(alloc, standard_settings(), script, out)
}

/// Plays a script between two ends of these settings, and writes the report as [`run_events`] does. The fault of a script that can't be
/// read is named in place of it all.
pub fn run_play_with<W: io::Write>(
    alloc: Global,
    settings: Settings,
    script: &[u8],
    out: &mut W,
) -> Status
    requires range { are_in_range settings ≡ true }
    ensures { EndsAs (λ answer. AnswersPlay answer settings script.now (W.contents out.old) (W.contents out.new)) result }
{
    status_of(report_play(alloc, settings, script, out))
}

/// As [`run_play_with`], and it answers the report that it wrote.
pub fn report_play<W: io::Write>(
    alloc: Global,
    settings: Settings,
    script: &[u8],
    out: &mut W,
) -> Result<Report, Status>
    requires range { are_in_range settings ≡ true }
    ensures { AnswersPlay result settings script.now (W.contents out.old) (W.contents out.new) }
{
    match parse_script(alloc, script) {
        Ok(events) => report_events(alloc, settings, events, out),
        Err(fault) => Err(show_script_fault(alloc, fault, out)),
    }
}

/// Writes the line that names the fault of a script, unless it is want of memory.
pub fn show_script_fault<W: io::Write>(alloc: Global, fault: ScriptFault, out: &mut W) -> Status
    ensures { ShowsScriptFault fault (W.contents out.old) (W.contents out.new) result }
{
    if let Reason::NoMemory = fault.reason {
        return Status::NoMemory;
    }
    match script_fault_text(alloc, fault) {
        Ok(text) => show(&text, Status::FaultShown, out),
        Err(_) => Status::NoMemory,
    }
}

fn script_fault_text(alloc: Global, fault: ScriptFault) -> Result<String, AllocError>
    ensures { IfOk result (λ text. string_bytes text ≡ script_fault_line fault) }
{
    let (line, reason) = (fault.line, fault.reason.number());
    let mut text = String::new(alloc);
    write!(text, "fault: line {line} reason {reason}\n")?;
    Ok(text)
}

/// Writes a script of so many random events, which the seed determines.
pub fn run_random<W: io::Write>(alloc: Global, seed: u64, n: usize, out: &mut W) -> Status
    ensures { AnswersRandom result seed n (W.contents out.old) (W.contents out.new) }
{
    let events = match random_script(alloc, seed, n) {
        Ok(events) => events,
        Err(_) => return Status::NoMemory,
    };
    match script_text(alloc, &events) {
        Ok(text) => show(&text, Status::Success, out),
        Err(_) => Status::NoMemory,
    }
}
