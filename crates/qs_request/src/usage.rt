//! What is told of words that ask for nothing: the usage, or the word and what is wrong with it. ./qstream prints the usage from this
//! file if no program stands.

ghost use Rattle.std.specs.Prelude.{◌≡◌};
ghost use Rattle.clap.specs.Words.{kind_of};
ghost use Rattle.clap.specs.declared.error.kind.ErrorKind.TheVariants.{OutOfMemory};
ghost use Rattle.qs_request.specs.declared.command_line.Refusal.TheVariants.{NoMemory};

use crate::command_line::Refusal;
use clap::Error;
use clap::error::ErrorKind;
use std::alloc::{AllocError, Global};

/// The program's version.
pub(crate) const VERSION: &str = "0.1.0";

const QSTREAM: &str = "\
qstream 0.1.0: plays scripts between two QUIC endpoints, and shows payloads
usage: qstream frames HEX       shows the frames of a payload
       qstream play FILE        plays a script
       qstream udp FILE         the same, with packets sent over UDP
       qstream random SEED N    writes a script of N random events
       ./qstream show FILE      draws the run of play, in the repository
options of play:
  --grant G       each endpoint grants G streams of each direction at first
  --lifetime L    and one more for each that ended, up to L in all
  --drain         goes on until both endpoints are at rest
options of play and udp:
  --qlog OUT      writes traces to OUT.client.sqlog and OUT.server.sqlog
FILE is a script, and - is standard input.
status: 0 all went well, 1 a fault was printed, 2 bad usage, 3 failed
qstream COMMAND --help tells more of a command.";

const FRAMES: &str = "\
usage: qstream frames HEX
shows each frame of a payload with its place; then the canonical text, or the fault
  HEX    an even number of hex digits, up to 65535 bytes";

const PLAY: &str = "\
usage: qstream play FILE [--grant G] [--lifetime L] [--drain] [--qlog OUT]
plays a script and prints each answer, then what came of each stream and endpoint
  FILE            the script, up to 16 MiB; - is standard input
  --grant G       streams of each direction that each endpoint grants at first: 0 to 4096, 8 by default
  --lifetime L    and one more for each that ended, up to L in all: G to 65536
  --drain         goes on until both endpoints are at rest
  --qlog OUT      writes traces to OUT.client.sqlog and OUT.server.sqlog";

const UDP: &str = "\
usage: qstream udp FILE [--qlog OUT]
plays a script as play does, with packets sent over UDP between two sockets
  FILE          the script, up to 16 MiB; - is standard input
  --qlog OUT    writes traces to OUT.client.sqlog and OUT.server.sqlog";

const RANDOM: &str = "\
usage: qstream random SEED N
writes a script of random events, as play reads it
  SEED    the number that determines them: 0 to 18446744073709551615
  N       how many: 0 to 10000";

/// What is told of words that clap refused: the usage if they ask for help or for nothing, else what clap says.
pub(crate) fn refusal_of(alloc: Global, error: &Error, words: &[String]) -> Refusal
    ensures { kind_of error.now ≡ OutOfMemory → result ≡ NoMemory }
{
    let told = match error.kind() {
        ErrorKind::OutOfMemory => return Refusal::NoMemory,
        ErrorKind::DisplayHelp | ErrorKind::DisplayVersion | ErrorKind::MissingSubcommand => {
            String::from_str(alloc, usage(words))
        }
        _ => complaint(alloc, error),
    };
    telling(told)
}

/// What is told of a word of that name, for a reason of the program's own.
pub(crate) fn refused(alloc: Global, name: &str, word: &str, reason: &str) -> Refusal {
    telling(format!(in alloc; "qstream: {name} {word}: {reason}"))
}

/// The same of a number beyond a bound, which is named behind `at most` or `at least`.
pub(crate) fn beyond(alloc: Global, name: &str, word: &str, side: &str, bound: u64) -> Refusal {
    telling(format!(in alloc; "qstream: {name} {word}: {side} {bound}"))
}

fn telling(told: Result<String, AllocError>) -> Refusal {
    match told {
        Ok(text) => Refusal::BadUsage(text),
        Err(_) => Refusal::NoMemory,
    }
}

/// The usage of the command that the words name, or the program's.
fn usage(words: &[String]) -> &'static str {
    let mut names = words.iter().skip(1).map(|word| word.as_str());
    let name = names.find(|name| *name != "help");
    match name.unwrap_or("") {
        "frames" => FRAMES,
        "play" => PLAY,
        "udp" => UDP,
        "random" => RANDOM,
        _ => QSTREAM,
    }
}

/// What clap says, in one line and without its own usage.
fn complaint(alloc: Global, error: &Error) -> Result<String, AllocError> {
    let said = format!(in alloc; "{error}")?;
    let mut line = String::from_str(alloc, "qstream:")?;
    for part in said.lines().take_while(|part| !part.is_empty()) {
        let part = part.trim_start().trim_start_matches("error: ");
        write!(line, " {part}")?;
    }
    Ok(line)
}
