//! What the command line asks for.

ghost use Rattle.std.specs.Prelude.{◌≡◌, ℕ, true, Some, is_some, map, option_map, string_bytes, IfOk, IfErr};
ghost use Rattle.std.specs.Char.{is_ascii_digit};
ghost use Rattle.std.specs.List.{list_all};
ghost use Rattle.clap.specs.Words.{app_of, first_of, found_of, rows_of};
ghost use Rattle.qs_calls.specs.declared.settings.Settings.{Settings};
ghost use Rattle.qs_request.specs.declared.command_line.Request.{Request};
ghost use Rattle.qs_request.specs.Requests.{IsPlayable, IsNumber, IsNumberOr, AreSettings, Asks, AsksFor, MakeSense, RefusesUnless, frames_app, script_app, play_app, random_app, qstream};

use crate::usage::{VERSION, beyond, refusal_of, refused};
use clap::{Arg, ArgAction, ArgMatches, Command};
use qs_calls::Settings;
use qs_script::standard_settings;
use std::alloc::{AllocError, Global};

/// The most events of a random script.
const MAX_EVENTS: u64 = 10_000;

/// How many streams of each direction an endpoint grants at first, at most and if nothing else is asked for.
const MAX_GRANT: u64 = 4096;

const USUAL_GRANT: u64 = 8;

/// How many it grants in all, at most.
const MAX_LIFETIME: u64 = 65_536;

/// Why the words ask for nothing.
#[derive(Debug, Drop)]
pub enum Refusal {
    /// They make no sense, or ask for help. The text, without its last line's end, is what helps.
    BadUsage(String),
    /// Memory was refused.
    NoMemory,
}

/// What the program is asked to do.
#[derive(Clone, Copy)]
pub enum Request<'a> {
    /// Show the frames of the payload that the word spells in hex.
    Frames(&'a str),
    /// Play the script in the file of that name, between two endpoints of these settings, and lead them to rest if that is asked for. The
    /// traces of both go to files, if a name is given for these.
    Play {
        file: &'a str,
        settings: Settings,
        drain: bool,
        qlog: Option<&'a str>,
    },
    /// Play the script in the file of that name, with its packets over UDP. The traces of both go to files, as above.
    Udp {
        file: &'a str,
        qlog: Option<&'a str>,
    },
    /// Show a script of `n` random events, at most 10,000, which the seed determines.
    Random {
        seed: u64,
        n: usize,
    },
}

impl<'a> Request<'a> {
    /// What the words ask for, the program's name first. `BadUsage` if they make no sense or ask for help, `NoMemory` if memory was
    /// refused.
    pub fn parse(alloc: Global, words: &'a [String]) -> Result<Request<'a>, Refusal>
        ensures asked { IfOk result (AsksFor (map string_bytes words.entry.now)) }
        ensures playable { IfOk result IsPlayable }
        ensures refused { IfErr result (RefusesUnless (MakeSense (map string_bytes words.entry.now))) }
    {
        let Ok(command) = command(alloc) else {
            return Err(Refusal::NoMemory);
        };
        let matches = match command.try_get_matches_from(words) {
            Ok(matches) => matches,
            Err(error) => return Err(refusal_of(alloc, &error, words)),
        };
        match matches.subcommand() {
            Some((name, found)) => asked_for(alloc, name, found),
            None => Err(refused(alloc, "COMMAND", "", "it is missing")),
        }
    }
}

/// What a subcommand of that name asks for with these arguments.
fn asked_for<'a>(alloc: Global, name: &str, found: &ArgMatches<'a>) -> Result<Request<'a>, Refusal>
    ensures asked { IfOk result (Asks name.now (rows_of (found_of found.now))) }
    ensures playable { IfOk result IsPlayable }
    ensures refused { IfErr result (RefusesUnless ((request : Request) × Asks name.now (rows_of (found_of found.now)) request)) }
{
    match name {
        "frames" => Ok(Request::Frames(word(alloc, found, "HEX")?)),
        "play" => {
            let settings = settings(alloc, found.get_str("G"), found.get_str("L"))?;
            Ok(Request::Play {
                file: word(alloc, found, "FILE")?,
                settings,
                drain: found.get_flag("drain"),
                qlog: found.get_str("OUT"),
            })
        }
        "udp" => Ok(Request::Udp {
            file: word(alloc, found, "FILE")?,
            qlog: found.get_str("OUT"),
        }),
        "random" => {
            let seed = word(alloc, found, "SEED")?;
            let n = word(alloc, found, "N")?;
            Ok(Request::Random {
                seed: number(alloc, "SEED", seed, u64::MAX)?,
                n: number(alloc, "N", n, MAX_EVENTS)? as usize,
            })
        }
        _ => Err(refused(alloc, "COMMAND", name, "it is none")),
    }
}

/// The word of an argument that is required.
fn word<'a>(alloc: Global, found: &ArgMatches<'a>, name: &str) -> Result<&'a str, Refusal>
    ensures found { IfOk result (λ word. first_of name.now (rows_of (found_of found.now)) ≡ Some word.now) }
    ensures refused { IfErr result (RefusesUnless (is_some (first_of name.now (rows_of (found_of found.now))) ≡ true)) }
{
    match found.get_str(name) {
        Some(word) => Ok(word),
        None => Err(refused(alloc, name, "", "it is missing")),
    }
}

/// Those of endpoints that grant so many streams of each direction at first, and so many in all. If these aren't named, 8 at first, and 8
/// in all or as many as at first.
fn settings(alloc: Global, grant: Option<&str>, lifetime: Option<&str>) -> Result<Settings, Refusal>
    ensures asked { IfOk result (AreSettings (option_map (λ s. s.now) grant.entry) (option_map (λ s. s.now) lifetime.entry)) }
    ensures refused { IfErr result (RefusesUnless ((settings : Settings) × AreSettings (option_map (λ s. s.now) grant.entry) (option_map (λ s. s.now) lifetime.entry) settings)) }
{
    let first = number_or(alloc, "--grant", grant, USUAL_GRANT, MAX_GRANT)?;
    let usual = first.max(USUAL_GRANT);
    let all = number_or(alloc, "--lifetime", lifetime, usual, MAX_LIFETIME)?;
    if all < first {
        let word = lifetime.unwrap_or("");
        return Err(beyond(alloc, "--lifetime", word, "at least", first));
    }
    Ok(Settings {
        grant_bidi: first,
        grant_uni: first,
        lifetime_bidi: all,
        lifetime_uni: all,
        ..standard_settings()
    })
}

/// The number of an option, or the usual one where it isn't named.
fn number_or(
    alloc: Global,
    name: &str,
    word: Option<&str>,
    usual: u64,
    most: u64,
) -> Result<u64, Refusal>
    ensures number { IfOk result (IsNumberOr usual (option_map (λ s. s.now) word.entry) most) }
    ensures refused { IfErr result (RefusesUnless ((n : ℕ) × IsNumberOr usual (option_map (λ s. s.now) word.entry) most n)) }
{
    match word {
        Some(word) => number(alloc, name, word, most),
        None => Ok(usual),
    }
}

/// The number that the word spells in decimal digits alone, at most `most`. Leading zeros are allowed, a sign isn't.
fn number(alloc: Global, name: &str, word: &str, most: u64) -> Result<u64, Refusal>
    ensures number { IfOk result (IsNumber word.now most) }
    ensures refused { IfErr result (RefusesUnless ((n : ℕ) × IsNumber word.now most n)) }
{
    if word.is_empty() || !are_digits(word.as_bytes()) {
        return Err(refused(alloc, name, word, "no number"));
    }
    match word.parse() {
        Ok(number) if number <= most => Ok(number),
        _ => Err(beyond(alloc, name, word, "at most", most)),
    }
}

fn are_digits(word: &[u8]) -> bool
    ensures { result ≡ list_all is_ascii_digit word.now }
{
    word.iter().all(|byte| byte.is_ascii_digit())
}

fn frames_command<'a>(alloc: Global) -> Result<Command<'a>, AllocError>
    ensures { IfOk result (λ made. app_of made ≡ frames_app) }
{
    Command::new(alloc, "frames").arg(Arg::new(alloc, "HEX").required(true))
}

/// A subcommand that plays the script in a file.
fn script_command<'a>(alloc: Global, name: &'a str) -> Result<Command<'a>, AllocError>
    ensures { IfOk result (λ made. app_of made ≡ script_app name.entry.now) }
{
    Command::new(alloc, name)
        .arg(Arg::new(alloc, "FILE").required(true))?
        .arg(Arg::new(alloc, "OUT").long("qlog"))
}

fn play_command<'a>(alloc: Global) -> Result<Command<'a>, AllocError>
    ensures { IfOk result (λ made. app_of made ≡ play_app) }
{
    script_command(alloc, "play")?
        .arg(Arg::new(alloc, "G").long("grant"))?
        .arg(Arg::new(alloc, "L").long("lifetime"))?
        .arg(
            Arg::new(alloc, "drain")
                .long("drain")
                .action(ArgAction::SetTrue),
        )
}

fn random_command<'a>(alloc: Global) -> Result<Command<'a>, AllocError>
    ensures { IfOk result (λ made. app_of made ≡ random_app) }
{
    Command::new(alloc, "random")
        .arg(Arg::new(alloc, "SEED").required(true))?
        .arg(Arg::new(alloc, "N").required(true))
}

fn command<'a>(alloc: Global) -> Result<Command<'a>, AllocError>
    ensures { IfOk result (λ made. app_of made ≡ qstream) }
{
    Command::new(alloc, "qstream")
        .version(VERSION)
        .subcommand_required(true)
        .subcommand(frames_command(alloc)?)?
        .subcommand(play_command(alloc)?)?
        .subcommand(script_command(alloc, "udp")?)?
        .subcommand(random_command(alloc)?)
}
