//! The words of the command line.
ghost use Rattle.std.specs.Prelude.{◌≡◌, false, IfOk, map, string_bytes};
ghost use Rattle.clap.specs.Words.{app_of, found_of, rows_of, rule_of, subcommand_rows_of};
ghost use Rattle.clap.specs.declared.builder.command.Command.TheViews.{out-Command as fields_of};
ghost use Rattle.program_rim.specs.declared.words.WordsFault.TheVariants.{NoMemory};
ghost use Rattle.program_rim.specs.Words.{ReadsWords, check_app, check_of, mgcall_app, pieces_of, pieces_rule, request_in, run_app, workers_of, workers_rule};

use clap::error::ErrorKind;
use clap::{Arg, ArgMatches, Command};
use std::alloc::{AllocError, Global};

/// What the command line asks for.
#[derive(Clone, Copy)]
pub enum Request {
    /// Check a certificate, in so many pieces: 1 to 64.
    Check { pieces: u8 },
    /// Run a plan, by so many workers. Every number of 16 bits may be asked for; which are allowed, the run says.
    Run { workers: u16 },
}

/// Why no request was read.
#[derive(Clone, Copy)]
pub enum WordsFault {
    /// The words ask for nothing that the program does, or for help.
    Refused,
    /// There was no memory to read them.
    NoMemory,
}

impl From<AllocError> for WordsFault {
    ghost from_gives = { λ _ fault. fault ≡ NoMemory };

    fn from(_error: AllocError) -> Self {
        WordsFault::NoMemory
    }
}

fn pieces_argument<'a>(alloc: Global) -> Arg<'a>
    ensures rule { rule_of result ≡ pieces_rule }
    ensures own { result.global ≡ false }
{
    Arg::new(alloc, "pieces")
        .long("pieces")
        .value_parser(clap::value_parser!(u8).range(1..=64))
        .default_value("1")
}

fn check_command<'a>(alloc: Global) -> Result<Command<'a>, AllocError>
    ensures app { IfOk result (λ command. app_of command ≡ check_app) }
    ensures local { IfOk result (λ command. (fields_of command).has_globals ≡ false) }
{
    Command::new(alloc, "check").arg(pieces_argument(alloc))
}

fn workers_argument<'a>(alloc: Global) -> Arg<'a>
    ensures rule { rule_of result ≡ workers_rule }
    ensures own { result.global ≡ false }
{
    Arg::new(alloc, "workers")
        .long("workers")
        .value_parser(clap::value_parser!(u16))
        .default_value("1")
}

fn run_command<'a>(alloc: Global) -> Result<Command<'a>, AllocError>
    ensures app { IfOk result (λ command. app_of command ≡ run_app) }
    ensures local { IfOk result (λ command. (fields_of command).has_globals ≡ false) }
{
    Command::new(alloc, "run").arg(workers_argument(alloc))
}

fn mgcall_command<'a>(alloc: Global) -> Result<Command<'a>, AllocError>
    ensures { IfOk result (λ command. app_of command ≡ mgcall_app) }
{
    let check = check_command(alloc)?;
    let run = run_command(alloc)?;
    Command::new(alloc, "mgcall")
        .subcommand(check)?
        .subcommand(run)
}

/// The number that was given, or 0 where it is none of 8 bits.
fn pieces_in(matches: &ArgMatches<'_>) -> u8
    ensures { result ≡ pieces_of (rows_of (found_of matches.now)) }
{
    matches.get_one::<u8>("pieces").unwrap_or(0)
}

/// The number of workers that was given, or 0 where it is none of 16 bits.
fn workers_in(matches: &ArgMatches<'_>) -> u16
    ensures { result ≡ workers_of (rows_of (found_of matches.now)) }
{
    matches.get_one::<u16>("workers").unwrap_or(0)
}

fn check_request(pieces: u8) -> Option<Request>
    ensures { result ≡ check_of pieces }
{
    if 1 <= pieces && pieces <= 64 {
        return Some(Request::Check { pieces });
    }
    None
}

fn request_among(matches: &ArgMatches<'_>) -> Option<Request>
    ensures { result ≡ request_in (subcommand_rows_of matches.now) }
{
    match matches.subcommand() {
        Some(("check", found)) => check_request(pieces_in(found)),
        Some(("run", found)) => Some(Request::Run {
            workers: workers_in(found),
        }),
        _ => None,
    }
}

/// Reads the request off the words, the program's name first. Words that `clap` refuses, with its
/// help among them, are refused here.
pub fn read_words(alloc: Global, words: &[String]) -> Result<Request, WordsFault>
    ensures { ReadsWords (map string_bytes words.now) result }
{
    let command = mgcall_command(alloc)?;
    match command.try_get_matches_from(words) {
        Ok(matches) => request_among(&matches).ok_or(WordsFault::Refused),
        Err(error) => match error.kind() {
            ErrorKind::OutOfMemory => Err(WordsFault::NoMemory),
            _ => Err(WordsFault::Refused),
        },
    }
}
