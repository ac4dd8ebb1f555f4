//! The program: shows the frames of a payload, plays scripts, and makes random ones.
#![tactic(auto)]

ghost use Rattle.std.specs.Prelude.{◌≡◌, true};
ghost use Rattle.qs_calls.specs.Settings.{are_in_range};
ghost use Rattle.qs_request.specs.Requests.{IsPlayable};

mod input;
mod telling;
#[cfg(test)]
mod tests;
mod traces;

use crate::input::read_file;
use crate::telling::{tell, tell_fault, tell_made};
use crate::traces::write_traces;
use qs_cli::{
    Status, UdpWire, payload_fault, report_drained, report_play, report_udp, run_frames, run_random,
};
use qs_request::{Refusal, Request};
use qs_world::{Report, Settings};
use std::process::ExitCode;
use std::{env, io};

fn main(rt: HostRuntime) -> ExitCode {
    let status = run(&rt);
    let told = match status {
        Status::Success | Status::FaultShown => Ok(()),
        Status::BadUsage => rt.eprintln("qstream: bad usage"),
        Status::NoMemory => rt.eprintln("qstream: memory was refused\nqstream: failed"),
        Status::Failed => rt.eprintln("qstream: failed"),
    };
    match told {
        Ok(()) => ExitCode::from(status.code()),
        Err(_) => ExitCode::from(Status::Failed.code()),
    }
}

fn run(rt: &HostRuntime) -> Status {
    let words: Vec<String> = match arguments(rt) {
        Ok(words) => words,
        Err(status) => return status,
    };
    match Request::parse(rt.alloc(), &words) {
        Ok(request) => answer(rt, request),
        Err(Refusal::BadUsage(text)) => tell(rt, text.as_str(), Status::BadUsage),
        Err(Refusal::NoMemory) => Status::NoMemory,
    }
}

fn answer(rt: &HostRuntime, request: Request) -> Status
    requires { IsPlayable request }
{
    let mut out = io::writer(rt);
    match request {
        Request::Frames(hex) => {
            let status = run_frames(rt.alloc(), hex, &mut out);
            match payload_fault(hex.as_bytes()) {
                Some(fault) => tell_made(
                    rt,
                    format!(in rt.alloc(); "qstream: HEX: {fault}"),
                    status,
                ),
                None => explained(rt, b"", status),
            }
        }
        Request::Play {
            file,
            settings,
            drain,
            qlog,
        } => match read_file(rt, "play", file) {
            Ok(script) => {
                let answer = play(rt, settings, &script, drain, &mut out);
                traced(rt, &script, answer, qlog)
            }
            Err(status) => status,
        },
        Request::Udp { file, qlog } => match read_file(rt, "udp", file) {
            Ok(script) => over_udp(rt, &script, qlog, &mut out),
            Err(status) => status,
        },
        Request::Random { seed, n } => {
            let status = run_random(rt.alloc(), seed, n, &mut out);
            explained(rt, b"", status)
        }
    }
}

fn play<W: io::Write>(
    rt: &HostRuntime,
    settings: Settings,
    script: &[u8],
    drain: bool,
    out: &mut W,
) -> Result<Report, Status>
    requires { are_in_range settings ≡ true }
{
    if drain {
        report_drained(rt.alloc(), settings, script, out)
    } else {
        report_play(rt.alloc(), settings, script, out)
    }
}

fn over_udp<W: io::Write>(
    rt: &HostRuntime,
    script: &[u8],
    qlog: Option<&str>,
    out: &mut W,
) -> Status {
    match UdpWire::bind(rt) {
        Ok(mut wire) => {
            let answer = report_udp(rt.alloc(), script, &mut wire, out);
            traced(rt, script, answer, qlog)
        }
        Err(_) => tell(rt, "qstream: udp: no socket could be bound", Status::Failed),
    }
}

/// The status of a run, whose traces are written where a name for them is given.
fn traced(
    rt: &HostRuntime,
    script: &[u8],
    answer: Result<Report, Status>,
    qlog: Option<&str>,
) -> Status {
    match (answer, qlog) {
        (Ok(report), Some(name)) => write_traces(rt, name, &report.log),
        (Ok(_), None) => Status::Success,
        (Err(status), _) => explained(rt, script, status),
    }
}

/// The status of a run, once a line says why: the fault of the script, or that standard output can't be written.
fn explained(rt: &HostRuntime, script: &[u8], status: Status) -> Status {
    match status {
        Status::FaultShown => tell_fault(rt, script, status),
        Status::Failed => tell(rt, "qstream: standard output can't be written", status),
        _ => status,
    }
}

/// The words of the command line. One that is no text makes no sense.
fn arguments(rt: &HostRuntime) -> Result<Vec<String>, Status> {
    match env::args(rt) {
        Ok(words) => words.collect(rt.alloc()).map_err(|_| Status::NoMemory),
        Err(error) if error.kind() == io::ErrorKind::InvalidData => Err(tell(
            rt,
            "qstream: an argument is no text",
            Status::BadUsage,
        )),
        Err(_) => Err(Status::Failed),
    }
}
