//! The command line.
ghost use Rattle.std.specs.Prelude.{◌≡◌, ◌⊎◌, false, Some, IfErr, IfOk, MatchOption, map, option_map};
ghost use Rattle.std.specs.String.{string_bytes};
ghost use Rattle.bepd.specs.CommandLine.{IsAnswered, IsAskedBy, IsNamed, IsNoStatus, IsNotAsked, IsRequested, IsErrorAt, IsStatusBy, about_rule, ask_app, ask_command_at, ask_config_at, ask_folder_at, bepd_app, best_app, check_at, check_rule, command_rule, config_at, config_rule, dial_at, dial_rule, directory_at, folder_at, fresh_app, is_pair, is_true, json_at, json_rule, listen_at, listen_rule, no_input_at, no_input_rule, pair_app, quiet_at, quiet_rule, run_app, shared_at, shared_rule, status_app, status_config_at, syncthing_at, syncthing_rule, verbose_at, verbose_rule, watch_at, watch_rule};
ghost use Rattle.clap.specs.declared.builder.command.Command.{out-Command};
ghost use Rattle.clap.specs.Words.{app_of, kind_of, rule_of, subcommand_rows_of};

mod ask_help;
mod best_help;
mod new_help;
mod pair_help;
mod run_help;
mod status_help;

use ask_help::{ASK_ABOUT, ASK_COMMAND, ASK_CONFIG, ASK_FOLDER, ASK_LONG_ABOUT, ASK_STATUSES};
use bepd_new::NewWords;
use bepd_run::AskWords;
use best_help::{BEST_ABOUT, BEST_FOLDER, BEST_LONG_ABOUT, BEST_STATUSES};
use clap::error::ErrorKind;
use clap::{Arg, ArgAction, ArgMatches, Command, Error};
use new_help::{
    NEW_ABOUT, NEW_DIAL, NEW_DIRECTORY, NEW_FOLDER, NEW_LISTEN, NEW_LONG_ABOUT, NEW_STATUSES,
    NEW_SYNCTHING,
};
use pair_help::{PAIR_ABOUT, PAIR_LONG_ABOUT, PAIR_STATUSES};
pub(crate) use run_help::run_about;
use run_help::{
    RUN_ABOUT, RUN_CHECK, RUN_CONFIG, RUN_NO_INPUT, RUN_QUIET, RUN_STATUSES, RUN_VERBOSE,
};
use status_help::{
    STATUS_ABOUT, STATUS_CONFIG, STATUS_JSON, STATUS_LONG_ABOUT, STATUS_STATUSES, STATUS_WATCH,
};
use std::alloc::{AllocError, Global};
use std::io;

const PROGRAM_ABOUT: &str = "\
Keeps folders alike with peers over TCP; lists the best version of each name of a
folder, from the bytes that a Syncthing device sent, as a proxy recorded them; and
plays two peers in memory that sync a folder with each other, by commands.";

const PROGRAM_STATUSES: &str = "\
Exit status: 0 for this help and the version, 1 for a command line that is refused;
the help of a command has the others.

Examples: bepd run --config laptop.toml
          bepd ask --config laptop.toml scan docs
          bepd status --config laptop.toml --watch
          bepd best docs < docs.frames
          bepd pair < commands";

/// What is said of a node.
#[derive(Clone, Copy, Debug)]
pub(crate) struct RunWords<'a> {
    /// Its configuration.
    pub(crate) path: &'a str,
    /// Whether it reads no commands from the input.
    pub(crate) has_no_input: bool,
    /// Whether it tells a line for each name that is pulled or recorded, however many they are.
    pub(crate) is_verbose: bool,
}

/// What a command line asks for.
#[derive(Debug, Drop)]
pub(crate) enum Request<'a> {
    /// The listing of this folder.
    Best(&'a str),
    /// Two peers in memory, by commands.
    Pair,
    /// A node, which tells what happens.
    Run(RunWords<'a>),
    /// One that tells nothing.
    QuietRun(RunWords<'a>),
    /// What a node by the configuration in this file would do.
    Check(&'a str),
    /// A command for a node that runs.
    Ask(AskWords<'a>),
    /// A first configuration, by these words.
    New(NewWords<'a>),
    /// This text: the help or the version.
    Text(String),
    /// Nothing that the program does. The text says why.
    Refused(String),
    /// Memory ran out before this was clear.
    OutOfMemory,
}

/// What the words of a command line ask for, of which the first is the program's name. Words that could not be read are
/// refused. `about` is what the help of `run` says first.
pub(crate) fn request_of<'a>(
    alloc: Global,
    words: &'a io::Result<Vec<String>>,
    about: &'a Result<String, AllocError>,
) -> Request<'a>
    ensures { IsRequested words.now result }
{
    match words {
        Ok(words) => match command_of(alloc, words.as_slice(), about) {
            Ok(command) => command,
            Err(error) => request_at(alloc, &error),
        },
        Err(error) if error.kind() == io::ErrorKind::OutOfMemory => Request::OutOfMemory,
        Err(_) => request_at(alloc, &not_text(alloc, about)),
    }
}

/// What an error of the parse asks for: help and the version are errors there.
fn request_at<'a>(alloc: Global, error: &Error) -> Request<'a>
    ensures { IsAnswered (kind_of error.now) result }
{
    if error.kind() == ErrorKind::OutOfMemory {
        return Request::OutOfMemory;
    }
    match format!(in alloc; "{error}") {
        Ok(text) if error.use_stderr() => Request::Refused(text),
        Ok(text) => Request::Text(text),
        Err(_) => Request::OutOfMemory,
    }
}

/// The command in the words: `PROGRAM best FOLDER`, `PROGRAM pair`, `PROGRAM run --config FILE`, with `--check`, with `--quiet`,
/// `--no-input` and `--verbose` or without, `PROGRAM ask --config FILE COMMAND`, `PROGRAM status --config FILE`, with `--json` and
/// `--watch` or without, or `PROGRAM new DIRECTORY`.
fn command_of<'a>(
    alloc: Global,
    words: &'a [String],
    about: &'a Result<String, AllocError>,
) -> Result<Request<'a>, Error>
    ensures named { IfOk result (λ command. IsNamed (map string_bytes words.now) command) }
    ensures error { IfErr result (λ e. IsErrorAt (map string_bytes words.now) (kind_of e)) }
{
    let mut command = program(alloc, about)?;
    let matches = command.try_get_matches_from_mut(words)?;
    if is_pair(&matches) {
        return Ok(Request::Pair);
    }
    if let Some(path) = config_in(&matches) {
        if is_check(&matches) {
            return Ok(Request::Check(path));
        }
        let run = RunWords {
            path,
            has_no_input: has_no_input(&matches),
            is_verbose: is_verbose(&matches),
        };
        if is_quiet(&matches) {
            return Ok(Request::QuietRun(run));
        }
        return Ok(Request::Run(run));
    }
    if let Some(ask) = asked_in(&matches) {
        return Ok(Request::Ask(ask));
    }
    if let Some(status) = status_in(&matches) {
        return Ok(Request::Ask(status));
    }
    if let Some(directory) = directory_in(&matches) {
        return Ok(Request::New(NewWords {
            directory,
            is_for_syncthing: is_syncthing(&matches),
            dial: dial_in(&matches),
            listen: listen_in(&matches),
            folder: shared_in(&matches),
        }));
    }
    match folder_in(&matches) {
        Some(folder) => Ok(Request::Best(folder)),
        None => Err(error_in(
            &mut command,
            ErrorKind::MissingSubcommand,
            "a command is required",
        )),
    }
}

/// Whether the command is `pair`.
fn is_pair(matches: &ArgMatches<'_>) -> bool
    ensures { result ≡ is_pair (subcommand_rows_of matches.now) }
{
    matches.subcommand_matches("pair").is_some()
}

/// The value of FOLDER, where the command is `best`.
fn folder_in<'a>(matches: &ArgMatches<'a>) -> Option<&'a str>
    ensures { option_map (λ s. s.now) result ≡ folder_at (subcommand_rows_of matches.now) }
{
    matches.subcommand_matches("best")?.get_str("FOLDER")
}

/// The value of `--config`, where the command is `run`.
fn config_in<'a>(matches: &ArgMatches<'a>) -> Option<&'a str>
    ensures { option_map (λ s. s.now) result ≡ config_at (subcommand_rows_of matches.now) }
{
    matches.subcommand_matches("run")?.get_str("config")
}

/// Whether the command is `run` with `--check`.
fn is_check(matches: &ArgMatches<'_>) -> bool
    ensures { result ≡ is_true (check_at (subcommand_rows_of matches.now)) }
{
    is_true(check_in(matches))
}

/// Whether the value is `true`, which that of a flag is where it is given.
fn is_true(value: Option<&str>) -> bool
    ensures { result ≡ is_true (option_map (λ s. s.now) value.entry) }
{
    match value {
        Some(value) => value == "true",
        None => false,
    }
}

/// The value of `--check`, where the command is `run`.
fn check_in<'a>(matches: &ArgMatches<'a>) -> Option<&'a str>
    ensures { option_map (λ s. s.now) result ≡ check_at (subcommand_rows_of matches.now) }
{
    matches.subcommand_matches("run")?.get_str("check")
}

/// Whether the command is `run` with `--quiet`.
fn is_quiet(matches: &ArgMatches<'_>) -> bool
    ensures { result ≡ is_true (quiet_at (subcommand_rows_of matches.now)) }
{
    is_true(quiet_in(matches))
}

/// The value of `--quiet`, where the command is `run`.
fn quiet_in<'a>(matches: &ArgMatches<'a>) -> Option<&'a str>
    ensures { option_map (λ s. s.now) result ≡ quiet_at (subcommand_rows_of matches.now) }
{
    matches.subcommand_matches("run")?.get_str("quiet")
}

/// Whether the command is `run` with `--no-input`.
fn has_no_input(matches: &ArgMatches<'_>) -> bool
    ensures { result ≡ is_true (no_input_at (subcommand_rows_of matches.now)) }
{
    is_true(no_input_in(matches))
}

/// The value of `--no-input`, where the command is `run`.
fn no_input_in<'a>(matches: &ArgMatches<'a>) -> Option<&'a str>
    ensures { option_map (λ s. s.now) result ≡ no_input_at (subcommand_rows_of matches.now) }
{
    matches.subcommand_matches("run")?.get_str("no-input")
}

/// Whether the command is `run` with `--verbose`.
fn is_verbose(matches: &ArgMatches<'_>) -> bool
    ensures { result ≡ is_true (verbose_at (subcommand_rows_of matches.now)) }
{
    is_true(verbose_in(matches))
}

/// The value of `--verbose`, where the command is `run`.
fn verbose_in<'a>(matches: &ArgMatches<'a>) -> Option<&'a str>
    ensures { option_map (λ s. s.now) result ≡ verbose_at (subcommand_rows_of matches.now) }
{
    matches.subcommand_matches("run")?.get_str("verbose")
}

/// What is asked of a node, where the command is `ask`.
fn asked_in<'a>(matches: &ArgMatches<'a>) -> Option<AskWords<'a>>
    ensures { MatchOption result (IsNotAsked (subcommand_rows_of matches.now)) (λ words. IsAskedBy (subcommand_rows_of matches.now) words) }
{
    let config = ask_config_in(matches)?;
    let command = ask_command_in(matches)?;
    Some(AskWords {
        config,
        command,
        folder: ask_folder_in(matches),
        is_watched: false,
    })
}

/// The value of `--config`, where the command is `ask`.
fn ask_config_in<'a>(matches: &ArgMatches<'a>) -> Option<&'a str>
    ensures { option_map (λ s. s.now) result ≡ ask_config_at (subcommand_rows_of matches.now) }
{
    matches.subcommand_matches("ask")?.get_str("config")
}

/// The value of COMMAND, where the command is `ask`.
fn ask_command_in<'a>(matches: &ArgMatches<'a>) -> Option<&'a str>
    ensures { option_map (λ s. s.now) result ≡ ask_command_at (subcommand_rows_of matches.now) }
{
    matches.subcommand_matches("ask")?.get_str("COMMAND")
}

/// The value of FOLDER, where the command is `ask`.
fn ask_folder_in<'a>(matches: &ArgMatches<'a>) -> Option<&'a str>
    ensures { option_map (λ s. s.now) result ≡ ask_folder_at (subcommand_rows_of matches.now) }
{
    matches.subcommand_matches("ask")?.get_str("FOLDER")
}

/// What is asked of a node, where the command is `status`.
fn status_in<'a>(matches: &ArgMatches<'a>) -> Option<AskWords<'a>>
    ensures { MatchOption result (IsNoStatus (subcommand_rows_of matches.now)) (λ words. IsStatusBy (subcommand_rows_of matches.now) words) }
{
    let config = status_config_in(matches)?;
    Some(AskWords {
        config,
        command: "status",
        folder: is_json(matches).then_some("json"),
        is_watched: is_watched(matches),
    })
}

/// The value of `--config`, where the command is `status`.
fn status_config_in<'a>(matches: &ArgMatches<'a>) -> Option<&'a str>
    ensures { option_map (λ s. s.now) result ≡ status_config_at (subcommand_rows_of matches.now) }
{
    matches.subcommand_matches("status")?.get_str("config")
}

/// Whether the command is `status` with `--json`.
fn is_json(matches: &ArgMatches<'_>) -> bool
    ensures { result ≡ is_true (json_at (subcommand_rows_of matches.now)) }
{
    is_true(json_in(matches))
}

/// The value of `--json`, where the command is `status`.
fn json_in<'a>(matches: &ArgMatches<'a>) -> Option<&'a str>
    ensures { option_map (λ s. s.now) result ≡ json_at (subcommand_rows_of matches.now) }
{
    matches.subcommand_matches("status")?.get_str("json")
}

/// Whether the command is `status` with `--watch`.
fn is_watched(matches: &ArgMatches<'_>) -> bool
    ensures { result ≡ is_true (watch_at (subcommand_rows_of matches.now)) }
{
    is_true(watch_in(matches))
}

/// The value of `--watch`, where the command is `status`.
fn watch_in<'a>(matches: &ArgMatches<'a>) -> Option<&'a str>
    ensures { option_map (λ s. s.now) result ≡ watch_at (subcommand_rows_of matches.now) }
{
    matches.subcommand_matches("status")?.get_str("watch")
}

/// The value of DIRECTORY, where the command is `new`.
fn directory_in<'a>(matches: &ArgMatches<'a>) -> Option<&'a str>
    ensures { option_map (λ s. s.now) result ≡ directory_at (subcommand_rows_of matches.now) }
{
    matches.subcommand_matches("new")?.get_str("DIRECTORY")
}

/// Whether the command is `new` with `--syncthing`.
fn is_syncthing(matches: &ArgMatches<'_>) -> bool
    ensures { result ≡ is_true (syncthing_at (subcommand_rows_of matches.now)) }
{
    is_true(syncthing_in(matches))
}

/// The value of `--syncthing`, where the command is `new`.
fn syncthing_in<'a>(matches: &ArgMatches<'a>) -> Option<&'a str>
    ensures { option_map (λ s. s.now) result ≡ syncthing_at (subcommand_rows_of matches.now) }
{
    matches.subcommand_matches("new")?.get_str("syncthing")
}

/// The value of `--dial`, where the command is `new`.
fn dial_in<'a>(matches: &ArgMatches<'a>) -> Option<&'a str>
    ensures { option_map (λ s. s.now) result ≡ dial_at (subcommand_rows_of matches.now) }
{
    matches.subcommand_matches("new")?.get_str("dial")
}

/// The value of `--listen`, where the command is `new`.
fn listen_in<'a>(matches: &ArgMatches<'a>) -> Option<&'a str>
    ensures { option_map (λ s. s.now) result ≡ listen_at (subcommand_rows_of matches.now) }
{
    matches.subcommand_matches("new")?.get_str("listen")
}

/// The value of `--folder`, where the command is `new`.
fn shared_in<'a>(matches: &ArgMatches<'a>) -> Option<&'a str>
    ensures { option_map (λ s. s.now) result ≡ shared_at (subcommand_rows_of matches.now) }
{
    matches.subcommand_matches("new")?.get_str("folder")
}

/// The error for words that are not UTF-8.
fn not_text(alloc: Global, about: &Result<String, AllocError>) -> Error
    ensures { (kind_of result ≡ ErrorKind.InvalidValue) ⊎ (kind_of result ≡ ErrorKind.OutOfMemory) }
{
    match program(alloc, about) {
        Ok(mut command) => error_in(
            &mut command,
            ErrorKind::InvalidValue,
            "an argument is not UTF-8",
        ),
        Err(error) => Error::from(error),
    }
}

/// An error with the usage; out of memory for its text comes in its place.
fn error_in(command: &mut Command<'_>, kind: ErrorKind, message: &str) -> Error
    ensures { (kind_of result ≡ kind) ⊎ (kind_of result ≡ ErrorKind.OutOfMemory) }
{
    match command.error(kind, message) {
        Ok(error) => error,
        Err(error) => Error::from(error),
    }
}

/// The command `best`, and what it takes.
fn best_command<'a>(alloc: Global) -> Result<Command<'a>, AllocError>
    ensures { IfOk result (λ command.
        (app_of command ≡ best_app) × ((out-Command command).has_globals ≡ false)) }
{
    let folder = Arg::new(alloc, "FOLDER").required(true).help(BEST_FOLDER);
    Command::new(alloc, "best")
        .about(BEST_ABOUT)
        .long_about(BEST_LONG_ABOUT)
        .after_help(BEST_STATUSES)
        .arg(folder)
}

/// The command `pair`, which takes nothing.
fn pair_command<'a>(alloc: Global) -> Command<'a>
    ensures app { app_of result ≡ pair_app }
    ensures local { (out-Command result).has_globals ≡ false }
{
    Command::new(alloc, "pair")
        .about(PAIR_ABOUT)
        .long_about(PAIR_LONG_ABOUT)
        .after_help(PAIR_STATUSES)
}

/// `--config FILE`.
fn config_arg<'a>(alloc: Global, help: &'a str) -> Arg<'a>
    ensures rule { rule_of result ≡ config_rule }
    ensures local { result.global ≡ false }
{
    Arg::new(alloc, "config")
        .long("config")
        .value_name("FILE")
        .required(true)
        .help(help)
}

/// `--check`.
fn check_arg<'a>(alloc: Global) -> Arg<'a>
    ensures rule { rule_of result ≡ check_rule }
    ensures local { result.global ≡ false }
{
    Arg::new(alloc, "check")
        .long("check")
        .action(ArgAction::SetTrue)
        .help(RUN_CHECK)
}

/// `--quiet`.
fn quiet_arg<'a>(alloc: Global) -> Arg<'a>
    ensures rule { rule_of result ≡ quiet_rule }
    ensures local { result.global ≡ false }
{
    Arg::new(alloc, "quiet")
        .long("quiet")
        .action(ArgAction::SetTrue)
        .help(RUN_QUIET)
}

/// `--no-input`.
fn no_input_arg<'a>(alloc: Global) -> Arg<'a>
    ensures rule { rule_of result ≡ no_input_rule }
    ensures local { result.global ≡ false }
{
    Arg::new(alloc, "no-input")
        .long("no-input")
        .action(ArgAction::SetTrue)
        .help(RUN_NO_INPUT)
}

/// `--verbose`.
fn verbose_arg<'a>(alloc: Global) -> Arg<'a>
    ensures rule { rule_of result ≡ verbose_rule }
    ensures local { result.global ≡ false }
{
    Arg::new(alloc, "verbose")
        .long("verbose")
        .action(ArgAction::SetTrue)
        .help(RUN_VERBOSE)
}

/// The command `run`, and what it takes.
fn run_command<'a>(
    alloc: Global,
    about: &'a Result<String, AllocError>,
) -> Result<Command<'a>, AllocError>
    ensures { IfOk result (λ command.
        (app_of command ≡ run_app) × ((out-Command command).has_globals ≡ false)) }
{
    let Ok(about) = about else {
        return Err(AllocError);
    };
    let config = config_arg(alloc, RUN_CONFIG);
    let check = check_arg(alloc);
    let quiet = quiet_arg(alloc);
    let no_input = no_input_arg(alloc);
    let verbose = verbose_arg(alloc);
    Command::new(alloc, "run")
        .about(RUN_ABOUT)
        .long_about(about.as_str())
        .after_help(RUN_STATUSES)
        .arg(config)?
        .arg(check)?
        .arg(quiet)?
        .arg(no_input)?
        .arg(verbose)
}

/// COMMAND.
fn command_arg<'a>(alloc: Global) -> Arg<'a>
    ensures rule { rule_of result ≡ command_rule }
    ensures local { result.global ≡ false }
{
    Arg::new(alloc, "COMMAND").required(true).help(ASK_COMMAND)
}

/// FOLDER.
fn about_arg<'a>(alloc: Global) -> Arg<'a>
    ensures rule { rule_of result ≡ about_rule }
    ensures local { result.global ≡ false }
{
    Arg::new(alloc, "FOLDER").help(ASK_FOLDER)
}

/// The command `ask`, and what it takes.
fn ask_command<'a>(alloc: Global) -> Result<Command<'a>, AllocError>
    ensures { IfOk result (λ command.
        (app_of command ≡ ask_app) × ((out-Command command).has_globals ≡ false)) }
{
    let config = config_arg(alloc, ASK_CONFIG);
    let command = command_arg(alloc);
    let about = about_arg(alloc);
    Command::new(alloc, "ask")
        .about(ASK_ABOUT)
        .long_about(ASK_LONG_ABOUT)
        .after_help(ASK_STATUSES)
        .arg(config)?
        .arg(command)?
        .arg(about)
}

/// `--json`.
fn json_arg<'a>(alloc: Global) -> Arg<'a>
    ensures rule { rule_of result ≡ json_rule }
    ensures local { result.global ≡ false }
{
    Arg::new(alloc, "json")
        .long("json")
        .action(ArgAction::SetTrue)
        .help(STATUS_JSON)
}

/// `--watch`.
fn watch_arg<'a>(alloc: Global) -> Arg<'a>
    ensures rule { rule_of result ≡ watch_rule }
    ensures local { result.global ≡ false }
{
    Arg::new(alloc, "watch")
        .long("watch")
        .action(ArgAction::SetTrue)
        .help(STATUS_WATCH)
}

/// The command `status`, and what it takes.
fn status_command<'a>(alloc: Global) -> Result<Command<'a>, AllocError>
    ensures { IfOk result (λ command.
        (app_of command ≡ status_app) × ((out-Command command).has_globals ≡ false)) }
{
    let config = config_arg(alloc, STATUS_CONFIG);
    let json = json_arg(alloc);
    let watch = watch_arg(alloc);
    Command::new(alloc, "status")
        .about(STATUS_ABOUT)
        .long_about(STATUS_LONG_ABOUT)
        .after_help(STATUS_STATUSES)
        .arg(config)?
        .arg(json)?
        .arg(watch)
}

/// `--syncthing`.
fn syncthing_arg<'a>(alloc: Global) -> Arg<'a>
    ensures rule { rule_of result ≡ syncthing_rule }
    ensures local { result.global ≡ false }
{
    Arg::new(alloc, "syncthing")
        .long("syncthing")
        .action(ArgAction::SetTrue)
        .help(NEW_SYNCTHING)
}

/// `--dial HOST:PORT`.
fn dial_arg<'a>(alloc: Global) -> Arg<'a>
    ensures rule { rule_of result ≡ dial_rule }
    ensures local { result.global ≡ false }
{
    Arg::new(alloc, "dial")
        .long("dial")
        .value_name("HOST:PORT")
        .help(NEW_DIAL)
}

/// `--listen ADDRESS:PORT`.
fn listen_arg<'a>(alloc: Global) -> Arg<'a>
    ensures rule { rule_of result ≡ listen_rule }
    ensures local { result.global ≡ false }
{
    Arg::new(alloc, "listen")
        .long("listen")
        .value_name("ADDRESS:PORT")
        .help(NEW_LISTEN)
}

/// `--folder ID=PATH`.
fn shared_arg<'a>(alloc: Global) -> Arg<'a>
    ensures rule { rule_of result ≡ shared_rule }
    ensures local { result.global ≡ false }
{
    Arg::new(alloc, "folder")
        .long("folder")
        .value_name("ID=PATH")
        .help(NEW_FOLDER)
}

/// The command `new`, and what it takes.
fn fresh_command<'a>(alloc: Global) -> Result<Command<'a>, AllocError>
    ensures { IfOk result (λ command.
        (app_of command ≡ fresh_app) × ((out-Command command).has_globals ≡ false)) }
{
    let directory = Arg::new(alloc, "DIRECTORY")
        .required(true)
        .help(NEW_DIRECTORY);
    let syncthing = syncthing_arg(alloc);
    let dial = dial_arg(alloc);
    let listen = listen_arg(alloc);
    let shared = shared_arg(alloc);
    Command::new(alloc, "new")
        .about(NEW_ABOUT)
        .long_about(NEW_LONG_ABOUT)
        .after_help(NEW_STATUSES)
        .arg(directory)?
        .arg(syncthing)?
        .arg(dial)?
        .arg(listen)?
        .arg(shared)
}

/// The program with its commands.
fn program<'a>(
    alloc: Global,
    about: &'a Result<String, AllocError>,
) -> Result<Command<'a>, AllocError>
    ensures { IfOk result (λ command. app_of command ≡ bepd_app) }
{
    let best = best_command(alloc)?;
    let pair = pair_command(alloc);
    let run = run_command(alloc, about)?;
    let fresh = fresh_command(alloc)?;
    let ask = ask_command(alloc)?;
    let status = status_command(alloc)?;
    Command::new(alloc, "bepd")
        .bin_name("bepd")?
        .version("0.1.0")
        .override_usage("bepd <COMMAND>")
        .about(PROGRAM_ABOUT)
        .after_help(PROGRAM_STATUSES)
        .subcommand(best)?
        .subcommand(pair)?
        .subcommand(run)?
        .subcommand(fresh)?
        .subcommand(ask)?
        .subcommand(status)
}
