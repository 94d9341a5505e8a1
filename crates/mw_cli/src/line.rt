//! What the command line asks for.

ghost use Rattle.std.specs.Prelude.{◌≡◌, ◌≤◌, ◌∷◌, [], false, ◌↔◌, codes, IfOk, IfErr, IfSome, IsTrue, None, map};
ghost use Rattle.clap.specs.Words.{app_of, kind_of, new_app, rule_of, subcommand_rows_of};
ghost use Rattle.mw_cli.specs.CommandLine.{AreListens, AreServes, Asks, AsksBatch, AsksIdle, AsksListen, AsksNoCrew, AsksNoIdle, AsksNoSide, AsksNoneUpTo, AsksServe, AsksSide, AsksUpTo, AsksWorkers, Faults, FaultsBatch, FaultsListen, FaultsServe, HasNoGlobals, IsAsked, IsCrew, IsNoText, IsRefused, IsUpTo, Reads, Sets, WritesNumber, WritesNone, WritesNoPort, bare_words, batch_words, flag_option, listen_words, number_option, program_words, serve_words, text_in, tile_option, usual_option, usual_workers};
ghost use Rattle.std.specs.String.{string_bytes};

use crate::fault::LineFault;
use crate::help::{LINES, SERVING, SESSION, SHARING};
use clap::error::ErrorKind;
use clap::{Arg, ArgAction, ArgMatches, Command, value_parser};
use mw_grid::side_ok;
use std::alloc::{Alloc, AllocError, Global};
use std::env::{Env, args};
use std::num::ParseIntError;
use std::thread::Threads;
use std::{io, thread};

/// What `--version` shows.
pub const VERSION: &str = "0.1.0";

/// What `--strict` does.
const STRICT: &str = "Ends with status 3 in the place of 0 where a request was refused";

/// What `--announce` does.
const ANNOUNCES: &str = "Prints `LISTENING 127.0.0.1 P` when connections can be made";

/// What the program is asked to do: a script from standard input to standard output, sessions over TCP on one table
/// of names, or sessions over TCP that share nothing.
#[derive(Clone, Copy, Debug, PartialEq, Eq)]
pub enum Job {
    Batch(BatchOptions),
    Listen(ListenOptions),
    Serve(ServeOptions),
}

/// The side of the tiles if one is asked for, how many workers compute them, and whether the exit status tells that a request was refused.
#[derive(Clone, Copy, Debug, PartialEq, Eq)]
pub struct BatchOptions {
    pub side: Option<u32>,
    pub workers: usize,
    pub strict: bool,
}

/// The port to listen on, how many workers compute, how many sessions are served, the side of the tiles, how many
/// seconds a session waits for its client, and whether a line tells that connections can be made.
#[derive(Clone, Copy, Debug, PartialEq, Eq)]
pub struct ListenOptions {
    pub port: u16,
    pub workers: usize,
    pub sessions: usize,
    pub side: Option<u32>,
    pub idle: Option<u32>,
    pub announce: bool,
}

/// The port to listen on, 0 for any; how many workers compute each session, how many sessions are served at once, the
/// side of the tiles, how many seconds a session waits for its client, how many clients may wait for a session, how many
/// seconds sessions go on once the service is to end, the port at which it says how it is, how many seconds a session may
/// compute, how many MiB it may take, and whether the end of standard input ends it.
#[derive(Clone, Copy, Debug, PartialEq, Eq)]
pub struct ServeOptions {
    pub port: u16,
    pub workers: usize,
    pub sessions: usize,
    pub side: Option<u32>,
    pub idle: Option<u32>,
    pub queue: Option<u32>,
    pub grace: u32,
    pub status: Option<u16>,
    pub time: Option<u32>,
    pub memory: Option<u32>,
    pub until_end: bool,
}

// `--NAME`, with a number of 32 bits behind it.
fn number_option<'a>(alloc: Global, name: &'a str, value: &'a str, help: &'a str) -> Arg<'a>
    ensures rule { rule_of result ≡ number_option name.now }
    ensures local { result.global ≡ false }
{
    Arg::new(alloc, name)
        .long(name)
        .value_name(value)
        .value_parser(value_parser!(u32))
        .help(help)
}

// An option with a number, and what that is where the option is left out.
fn usual_option<'a>(
    alloc: Global,
    name: &'a str,
    value: &'a str,
    help: &'a str,
    usual: &'a str,
) -> Arg<'a>
    ensures rule { rule_of result ≡ usual_option name.now usual.now }
    ensures local { result.global ≡ false }
{
    number_option(alloc, name, value, help).default_value(usual)
}

// `--NAME`, alone.
fn flag_option<'a>(alloc: Global, name: &'a str, help: &'a str) -> Arg<'a>
    ensures rule { rule_of result ≡ flag_option name.now }
    ensures local { result.global ≡ false }
{
    Arg::new(alloc, name)
        .long(name)
        .action(ArgAction::SetTrue)
        .help(help)
}

// `--idle`, with a number of seconds behind it.
fn idle_option<'a>(alloc: Global) -> Arg<'a>
    ensures rule { rule_of result ≡ number_option (codes "idle") }
    ensures local { result.global ≡ false }
{
    let help = "How many seconds a session waits for its client: 1 to 86400 [default: any time]";
    number_option(alloc, "idle", "S", help)
}

// `--tile`, with the side of the tiles behind it.
fn tile_option<'a>(alloc: Global) -> Arg<'a>
    ensures rule { rule_of result ≡ tile_option }
    ensures local { result.global ≡ false }
{
    let help =
        "The side of a tile: a multiple of 64 from 64 to 1024 [default: what suits the element]";
    number_option(alloc, "tile", "T", help)
}

// A job, before its options.
fn job_command<'a>(alloc: Global, name: &'a str, about: &'a str, examples: &'a str) -> Command<'a>
    ensures words { app_of result ≡ new_app name.now }
    ensures local { HasNoGlobals result }
{
    Command::new(alloc, name).about(about).after_help(examples)
}

// `batch`, and what may stand behind it.
fn batch_command<'a>(alloc: Global) -> Result<Command<'a>, AllocError>
    ensures { IfOk result (λ c. (app_of c ≡ batch_words) × HasNoGlobals c) }
{
    let crew = "How many workers compute: 1 to 64 [default: as many as processors, at most 16]";
    let about = "Runs a script from standard input to standard output";
    job_command(alloc, "batch", about, LINES)
        .arg(tile_option(alloc))?
        .arg(number_option(alloc, "workers", "W", crew))?
        .arg(flag_option(alloc, "strict", STRICT))
}

// `listen`, and what may stand behind it.
fn listen_command<'a>(alloc: Global) -> Result<Command<'a>, AllocError>
    ensures { IfOk result (λ c. (app_of c ≡ listen_words) × HasNoGlobals c) }
{
    let port = number_option(alloc, "port", "P", "The port: 1 to 65535").required(true);
    let crew = "How many workers compute: 1 to 64";
    let served = "How many sessions are served, each by a connection: 1 to 64";
    let about = "Serves sessions over TCP on 127.0.0.1, all of them on one table of names";
    job_command(alloc, "listen", about, SHARING)
        .arg(port)?
        .arg(usual_option(alloc, "workers", "W", crew, "2"))?
        .arg(usual_option(alloc, "sessions", "C", served, "1"))?
        .arg(tile_option(alloc))?
        .arg(idle_option(alloc))?
        .arg(flag_option(alloc, "announce", ANNOUNCES))
}

// `serve`, and what may stand behind it.
fn serve_command<'a>(alloc: Global) -> Result<Command<'a>, AllocError>
    ensures { IfOk result (λ c. (app_of c ≡ serve_words) × HasNoGlobals c) }
{
    let port = "The port, 0 for one that the system picks: 0 to 65535";
    let crew = "How many workers compute each session: 1 to 64";
    let served = "How many sessions are served at once, each by a connection: 1 to 1024";
    let until = "Ends the service at the end of standard input, once its sessions have ended";
    let grace = "How many seconds sessions may go on when the service ends: 1 to 86400";
    let queue =
        "How many clients may wait for a session, and the next is told ERR 60 BUSY: 1 to 1024 [default: any number]";
    let status =
        "The port where it tells in a line of JSON how it is, and its resident bytes: 1 to 65535 [default: none]";
    let time = "How many seconds a session may compute: 1 to 86400 [default: any time]";
    let memory =
        "How many MiB a session may take, and what goes over it is told ERR 50 MEMORY: 1 to 1048576 [default: all]";
    let about =
        "Serves sessions over TCP on 127.0.0.1, each on a table of its own, and says on which port";
    job_command(alloc, "serve", about, SERVING)
        .arg(usual_option(alloc, "port", "P", port, "0"))?
        .arg(usual_option(alloc, "workers", "W", crew, "1"))?
        .arg(usual_option(alloc, "sessions", "C", served, "16"))?
        .arg(tile_option(alloc))?
        .arg(idle_option(alloc))?
        .arg(flag_option(alloc, "until-end", until))?
        .arg(usual_option(alloc, "grace", "S", grace, "10"))?
        .arg(number_option(alloc, "queue", "N", queue))?
        .arg(number_option(alloc, "status", "P", status))?
        .arg(number_option(alloc, "time", "S", time))?
        .arg(number_option(alloc, "memory", "M", memory))
}

// The program, without its jobs.
fn program<'a>(alloc: Global) -> Command<'a>
    ensures { app_of result ≡ bare_words }
{
    Command::new(alloc, "morphd")
        .version(VERSION)
        .about("Flat mathematical morphology of images, by scripts")
        .after_help(SESSION)
        .subcommand_required(true)
}

// The command line as clap knows it.
fn command<'a>(alloc: Global) -> Result<Command<'a>, AllocError>
    ensures { IfOk result (λ c. app_of c ≡ program_words) }
{
    program(alloc)
        .subcommand(batch_command(alloc)?)?
        .subcommand(listen_command(alloc)?)?
        .subcommand(serve_command(alloc)?)
}

// The number that clap read for an option of the job; none where the option is left out.
fn number_of(matches: &ArgMatches<'_>, id: &str) -> Result<Option<u32>, ParseIntError>
    ensures { Reads (text_in id.now (subcommand_rows_of matches.now)) result }
{
    match matches.subcommand() {
        Some((_, given)) => given.try_get_one::<u32>(id),
        None => Ok(None),
    }
}

// The side of the tiles; none where it is left out.
#[tactic(auto, using(crate::proofs::CommandReads::asks_no_side, crate::proofs::CommandReads::asks_side, crate::proofs::CommandReads::unread_is_no_side, crate::proofs::CommandReads::no_other_side))]
fn side_of(matches: &ArgMatches<'_>) -> Result<Option<u32>, LineFault>
    ensures ok { IfOk result (AsksSide (text_in (codes "tile") (subcommand_rows_of matches.now))) }
    ensures err { IfErr result (λ e. (e ≡ LineFault.Tile) × AsksNoSide (text_in (codes "tile") (subcommand_rows_of matches.now))) }
{
    match number_of(matches, "tile") {
        Ok(None) => Ok(None),
        Ok(Some(side)) if side_ok(side) => Ok(Some(side)),
        _ => Err(LineFault::Tile),
    }
}

// As many workers as processors, from 1 to 16.
fn usual_workers(processors: usize) -> usize
    ensures { result ≡ usual_workers processors }
{
    processors.max(1).min(16)
}

// Whether a number is from 1 to the most that there may be.
fn is_up_to(number: u32, most: u32) -> bool
    ensures { IsTrue result ↔ IsUpTo most number }
{
    1 <= number && number <= most
}

// The number of an option; none where it is not from 1 to the most that there may be.
#[tactic(auto, using(crate::proofs::CommandReads::unread_is_none, crate::proofs::CommandReads::missing_is_none, crate::proofs::CommandReads::no_other))]
fn number_up_to(matches: &ArgMatches<'_>, id: &str, most: u32) -> Option<u32>
    ensures some { IfSome result (λ n. WritesNumber (text_in id.now (subcommand_rows_of matches.now)) n × IsUpTo most n) }
    ensures none { result ≡ None → WritesNone most (text_in id.now (subcommand_rows_of matches.now)) }
{
    match number_of(matches, id) {
        Ok(Some(number)) if is_up_to(number, most) => Some(number),
        _ => None,
    }
}

// How many workers compute a batch.
#[tactic(auto, using(crate::proofs::CommandReads::no_other_crew, crate::proofs::CommandReads::unread_is_no_crew, crate::proofs::CommandReads::asks_usual, crate::proofs::CommandReads::asks_written))]
fn workers_of(matches: &ArgMatches<'_>, processors: usize) -> Result<usize, LineFault>
    ensures ok { IfOk result (λ n. AsksWorkers processors (text_in (codes "workers") (subcommand_rows_of matches.now)) n × IsCrew n) }
    ensures err { IfErr result (λ e. (e ≡ LineFault.Workers) × AsksNoCrew processors (text_in (codes "workers") (subcommand_rows_of matches.now))) }
{
    match number_of(matches, "workers") {
        Ok(None) => Ok(usual_workers(processors)),
        Ok(Some(workers)) if is_up_to(workers, 64) => Ok(workers as usize),
        _ => Err(LineFault::Workers),
    }
}

// What a batch is asked to do.
fn batch_of(matches: &ArgMatches<'_>, processors: usize) -> Result<BatchOptions, LineFault>
    ensures ok { IfOk result (AsksBatch processors (subcommand_rows_of matches.now)) }
    ensures err { IfErr result (FaultsBatch processors (subcommand_rows_of matches.now)) }
{
    let workers = workers_of(matches, processors)?;
    let side = side_of(matches)?;
    Ok(BatchOptions {
        side,
        workers,
        strict: flag_of(matches, "strict"),
    })
}

// Whether a flag of the job is set.
fn flag_of(matches: &ArgMatches<'_>, id: &str) -> bool
    ensures { Sets (text_in id.now (subcommand_rows_of matches.now)) result }
{
    match matches.subcommand() {
        Some((_, given)) => given.get_flag(id),
        None => false,
    }
}

// The number of an option that may be left out; this fault where it is not from 1 to the most that there may be.
#[tactic(auto, using(crate::proofs::CommandReads::asks_none, crate::proofs::CommandReads::asks_number, crate::proofs::CommandReads::unread_is_no_number, crate::proofs::CommandReads::no_other_number))]
fn asked_up_to(
    matches: &ArgMatches<'_>,
    id: &str,
    most: u32,
    fault: LineFault,
) -> Result<Option<u32>, LineFault>
    ensures ok { IfOk result (AsksUpTo most (text_in id.now (subcommand_rows_of matches.now))) }
    ensures err { IfErr result (λ e. (e ≡ fault) × AsksNoneUpTo most (text_in id.now (subcommand_rows_of matches.now))) }
{
    match number_of(matches, id) {
        Ok(None) => Ok(None),
        Ok(Some(number)) if is_up_to(number, most) => Ok(Some(number)),
        _ => Err(fault),
    }
}

// How many seconds a session waits for its client; none where it waits any time.
fn idle_of(matches: &ArgMatches<'_>) -> Result<Option<u32>, LineFault>
    ensures ok { IfOk result (AsksIdle (text_in (codes "idle") (subcommand_rows_of matches.now))) }
    ensures err { IfErr result (λ e. (e ≡ LineFault.Idle) × AsksNoIdle (text_in (codes "idle") (subcommand_rows_of matches.now))) }
{
    asked_up_to(matches, "idle", 86400, LineFault::Idle)
}

// The port of the status; none where there is to be none.
#[tactic(auto, using(crate::proofs::CommandReads::asks_none, crate::proofs::CommandReads::asks_number, crate::proofs::CommandReads::unread_is_no_number, crate::proofs::CommandReads::no_other_number))]
fn status_of(matches: &ArgMatches<'_>) -> Result<Option<u16>, LineFault>
    ensures ok { IfOk result (AsksUpTo 65535 (text_in (codes "status") (subcommand_rows_of matches.now))) }
    ensures err { IfErr result (λ e. (e ≡ LineFault.Status) × AsksNoneUpTo 65535 (text_in (codes "status") (subcommand_rows_of matches.now))) }
{
    match number_of(matches, "status") {
        Ok(None) => Ok(None),
        Ok(Some(port)) if is_up_to(port, 65535) => Ok(Some(port as u16)),
        _ => Err(LineFault::Status),
    }
}

// The port, or 0 for any; none where it is over 65535.
#[tactic(auto, using(crate::proofs::CommandReads::unread_is_no_port, crate::proofs::CommandReads::missing_is_no_port, crate::proofs::CommandReads::no_other_port))]
fn port_of(matches: &ArgMatches<'_>) -> Option<u16>
    ensures some { IfSome result (λ n. WritesNumber (text_in (codes "port") (subcommand_rows_of matches.now)) n × (n ≤ 65535)) }
    ensures none { result ≡ None → WritesNoPort (text_in (codes "port") (subcommand_rows_of matches.now)) }
{
    match number_of(matches, "port") {
        Ok(Some(port)) if port <= 65535 => Some(port as u16),
        _ => None,
    }
}

// What a server is asked to do.
fn listen_of(matches: &ArgMatches<'_>) -> Result<ListenOptions, LineFault>
    ensures ok { IfOk result (AsksListen (subcommand_rows_of matches.now)) }
    ensures err { IfErr result (FaultsListen (subcommand_rows_of matches.now)) }
{
    let Some(port) = number_up_to(matches, "port", 65535) else {
        return Err(LineFault::Port);
    };
    let Some(workers) = number_up_to(matches, "workers", 64) else {
        return Err(LineFault::Workers);
    };
    let Some(sessions) = number_up_to(matches, "sessions", 64) else {
        return Err(LineFault::Sessions);
    };
    let side = side_of(matches)?;
    let idle = idle_of(matches)?;
    Ok(ListenOptions {
        port: port as u16,
        workers: workers as usize,
        sessions: sessions as usize,
        side,
        idle,
        announce: flag_of(matches, "announce"),
    })
}

// What a service is asked to do.
fn serve_of(matches: &ArgMatches<'_>) -> Result<ServeOptions, LineFault>
    ensures ok { IfOk result (AsksServe (subcommand_rows_of matches.now)) }
    ensures err { IfErr result (FaultsServe (subcommand_rows_of matches.now)) }
{
    let Some(port) = port_of(matches) else {
        return Err(LineFault::ServePort);
    };
    let Some(workers) = number_up_to(matches, "workers", 64) else {
        return Err(LineFault::Workers);
    };
    let Some(sessions) = number_up_to(matches, "sessions", 1024) else {
        return Err(LineFault::ServeSessions);
    };
    let side = side_of(matches)?;
    let idle = idle_of(matches)?;
    let queue = asked_up_to(matches, "queue", 1024, LineFault::Queue)?;
    let Some(grace) = number_up_to(matches, "grace", 86400) else {
        return Err(LineFault::Grace);
    };
    let status = status_of(matches)?;
    let time = asked_up_to(matches, "time", 86400, LineFault::Time)?;
    let memory = asked_up_to(matches, "memory", 1048576, LineFault::Memory)?;
    Ok(ServeOptions {
        port,
        workers: workers as usize,
        sessions: sessions as usize,
        side,
        idle,
        queue,
        grace,
        status,
        time,
        memory,
        until_end: flag_of(matches, "until-end"),
    })
}

// Whether the job is `listen`.
#[tactic(auto, using(crate::proofs::CommandReads::listens_named))]
fn is_listen(matches: &ArgMatches<'_>) -> bool
    ensures { IsTrue result ↔ AreListens (subcommand_rows_of matches.now) }
{
    matches.subcommand_matches("listen").is_some()
}

// Whether the job is `serve`.
#[tactic(auto, using(crate::proofs::CommandReads::serves_named))]
fn is_serve(matches: &ArgMatches<'_>) -> bool
    ensures { IsTrue result ↔ AreServes (subcommand_rows_of matches.now) }
{
    matches.subcommand_matches("serve").is_some()
}

// The job of words that clap took.
fn job_of(matches: &ArgMatches<'_>, processors: usize) -> Result<Job, LineFault>
    ensures ok { IfOk result (Asks processors (subcommand_rows_of matches.now)) }
    ensures err { IfErr result (Faults processors (subcommand_rows_of matches.now)) }
{
    if is_listen(matches) {
        return Ok(Job::Listen(listen_of(matches)?));
    }
    if is_serve(matches) {
        return Ok(Job::Serve(serve_of(matches)?));
    }
    Ok(Job::Batch(batch_of(matches, processors)?))
}

/// How many processors this process may use; 1 where the system does not say.
pub fn processors<R: Threads>(rt: &R) -> usize
    ensures { 1 ≤ result }
{
    match thread::available_parallelism(rt) {
        Ok(count) => count.get(),
        Err(_) => 1,
    }
}

/// The words of the process. Words that are not UTF-8 are refused as clap refuses a value.
pub fn words<R: Env + Alloc<A = Global>>(rt: &R) -> Result<Vec<String>, LineFault>
    ensures { IfErr result IsNoText }
{
    match args(rt) {
        Ok(words) => words.collect(rt.alloc()).map_err(|_| LineFault::NoMemory),
        Err(error) if error.kind() == io::ErrorKind::OutOfMemory => Err(LineFault::NoMemory),
        Err(_) => Err(not_text(rt.alloc())),
    }
}

fn not_text(alloc: Global) -> LineFault
    ensures { IsNoText result }
{
    let Ok(mut command) = command(alloc) else {
        return LineFault::NoMemory;
    };
    match command.error(ErrorKind::InvalidValue, "a word is not UTF-8") {
        Ok(error) => LineFault::Line(error),
        Err(_) => LineFault::NoMemory,
    }
}

// Whether clap found no memory.
fn is_memory(error: &clap::Error) -> bool
    ensures { IsTrue result ↔ (kind_of error.now ≡ ErrorKind.OutOfMemory) }
{
    error.kind() == ErrorKind::OutOfMemory
}

/// What the words ask for; the first of them is the program's name. Clap reads them first, then the
/// numbers are tested: the port, the workers, the sessions, the side of the tiles, the seconds that a session waits, and
/// then the queue, the seconds of grace, the port of the status, the seconds of computing and the memory of a session. Left out, the workers of a batch are as many as there are processors, and at most 16.
pub fn options(alloc: Global, words: &[String], processors: usize) -> Result<Job, LineFault>
    ensures job { IfOk result (IsAsked processors (map string_bytes words.now)) }
    ensures fault { IfErr result (IsRefused processors (map string_bytes words.now)) }
{
    let Ok(command) = command(alloc) else {
        return Err(LineFault::NoMemory);
    };
    match command.try_get_matches_from(words) {
        Ok(matches) => job_of(&matches, processors),
        Err(error) => {
            if is_memory(&error) {
                return Err(LineFault::NoMemory);
            }
            Err(LineFault::Line(error))
        }
    }
}
