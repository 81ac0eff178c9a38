//! The command line of the broker: its subcommands and options, and what they mean.

ghost use Rattle.std.specs.Prelude.{◌≡◌, ◌||◌, IfOk, IfErr, IfSome, None, codes, false, map, string_bytes, true};
ghost use Rattle.clap.specs.Words.{app_of, found_of, kind_of, rows_of, rule_of, subcommand_of, takes};
ghost use Rattle.brokerd.specs.CommandLine.{program_app, backup_app, check_app, replay_app, serve_app, listen_rule};
ghost use Rattle.brokerd.specs.CommandLine.{all_rule, at_once_rule, check_rule, checked_rule, connections_rule};
ghost use Rattle.brokerd.specs.CommandLine.{db_rule};
ghost use Rattle.brokerd.specs.CommandLine.{after_restore_app, keep_rule, new_root_app, revoke_others_rule, to_rule};
ghost use Rattle.brokerd.specs.CommandLine.{tokens_rule, IsAfterRestore, IsBackup, IsCheck, IsKept, IsNewRoot};
ghost use Rattle.brokerd.specs.CommandLine.{IsServe, LacksKept};
ghost use Rattle.brokerd.specs.CommandLine.{export_app, import_app, salvage_rule, IsExport, IsImport};
ghost use Rattle.brokerd.specs.CommandLine.{log_file_rule, log_format_rule, log_rule, status_rule, stop_on_input_rule};
ghost use Rattle.brokerd.specs.CommandLine.{unchecked_rule, until_stopped_rule};
ghost use Rattle.brokerd.specs.CommandLine.{AsksBoth, IsCheckAsked};
ghost use Rattle.brokerd.specs.CommandLine.{IsMeant, IsCommandOf, IsCount, IsFormat, IsLogged, IsPlaces};
ghost use Rattle.brokerd.specs.CommandLine.{LacksCount, LacksFormat, LacksPlaces};

use clap::error::{Error, ErrorKind};
use clap::{Arg, ArgAction, ArgMatches};
use endpoints::VERSION;
use server::{LogFormat, Settings};
use std::alloc::{AllocError, Global};

/// How many connections are served if the command line does not say.
const CONNECTIONS: u32 = 1_000;

/// How many connections are served at once if the command line does not say.
const AT_ONCE: u32 = 1_024;

/// What the program is asked to do.
#[derive(Clone, Copy, Debug, PartialEq, Eq)]
pub(crate) enum Command<'a> {
    /// Run the lines of standard input, and write the replies to standard output.
    Replay,
    /// Tell whether a file is the database of a broker.
    Check {
        db: &'a str,
        /// Whether each row in trouble is told, and not the first alone.
        lists_all: bool,
    },
    /// Copy a database to a file of a folder, and keep so many of them there, or all.
    Backup {
        db: &'a str,
        to: &'a str,
        keep: Option<u32>,
    },
    /// Make one more root token of the broker of a file.
    NewRoot {
        db: &'a str,
        revokes_others: bool,
    },
    /// Drop what a restore must not bring back.
    AfterRestore {
        db: &'a str,
        revokes_tokens: bool,
    },
    /// Write the rows of a database to standard output.
    Export {
        db: &'a str,
    },
    /// Make a database of the rows that come from standard input.
    Import {
        db: &'a str,
        salvages: bool,
    },
    /// Serve the broker of a file, or one in memory.
    Serve {
        db: Option<&'a str>,
        settings: Settings<'a>,
        /// Whether the line asks for a check of the database, or for none, if it says so.
        check: Option<bool>,
    },
}

/// The command that the words name. The first is the name of the program. None if they name another subcommand, ask
/// both for a number of connections and for no end, ask both for a check and for none, or ask for a log in another
/// format. The error is one of `clap`: a wrong command line, help or the version that was asked for, or running out of
/// memory.
pub(crate) fn command_of<'a>(
    alloc: Global,
    words: &'a [String],
) -> Result<Option<Command<'a>>, Error>
    ensures ok { IfOk result (IsCommandOf (subcommand_of program_app
        (map string_bytes words.entry.now))) }
    ensures err { IfErr result (λ error. takes program_app (map string_bytes words.entry.now) ≡ true
        → kind_of error ≡ ErrorKind.OutOfMemory) }
{
    let matches = program(alloc)?.try_get_matches_from(words)?;
    match matches.subcommand() {
        Some((name, found)) => Ok(meant(name, found)),
        None => Ok(None),
    }
}

/// The command that a subcommand's name and what it was given mean; none if it is the name of another, or if what it
/// was given does not go together.
fn meant<'a>(name: &str, found: &ArgMatches<'a>) -> Option<Command<'a>>
    ensures { IsMeant name.now (rows_of (found_of found.now)) result }
{
    if name == "replay" {
        return Some(Command::Replay);
    }
    if name == "check" {
        return check_of(found);
    }
    if name == "backup" {
        return backup_of(found);
    }
    if name == "new-root" {
        return new_root_of(found);
    }
    if name == "after-restore" {
        return after_restore_of(found);
    }
    if name == "export" {
        return export_of(found);
    }
    if name == "import" {
        return import_of(found);
    }
    if name == "serve" {
        return serve_of(found);
    }
    None
}

/// The check that is asked for. None without a database, which `clap` does not let through.
fn check_of<'a>(found: &ArgMatches<'a>) -> Option<Command<'a>>
    ensures { IsCheck (rows_of (found_of found.now)) result }
{
    let db = found.get_str("db")?;
    let lists_all = found.get_flag("all");
    Some(Command::Check { db, lists_all })
}

/// The root token that is asked for. None without a database, which `clap` does not let through.
fn new_root_of<'a>(found: &ArgMatches<'a>) -> Option<Command<'a>>
    ensures { IsNewRoot (rows_of (found_of found.now)) result }
{
    let db = found.get_str("db")?;
    let revokes_others = found.get_flag("revoke-others");
    Some(Command::NewRoot { db, revokes_others })
}

/// What is asked for after a restore. None without a database, which `clap` does not let through.
fn after_restore_of<'a>(found: &ArgMatches<'a>) -> Option<Command<'a>>
    ensures { IsAfterRestore (rows_of (found_of found.now)) result }
{
    let db = found.get_str("db")?;
    let revokes_tokens = found.get_flag("tokens");
    Some(Command::AfterRestore { db, revokes_tokens })
}

/// The export that is asked for. None without a database, which `clap` does not let through.
fn export_of<'a>(found: &ArgMatches<'a>) -> Option<Command<'a>>
    ensures { IsExport (rows_of (found_of found.now)) result }
{
    let db = found.get_str("db")?;
    Some(Command::Export { db })
}

/// The import that is asked for. None without a database, which `clap` does not let through.
fn import_of<'a>(found: &ArgMatches<'a>) -> Option<Command<'a>>
    ensures { IsImport (rows_of (found_of found.now)) result }
{
    let db = found.get_str("db")?;
    let salvages = found.get_flag("salvage");
    Some(Command::Import { db, salvages })
}

/// The serving that is asked for. None without an address, which `clap` does not let through, for both so many
/// connections and no end, for both a check and none, or for a log in a format that there is not.
fn serve_of<'a>(found: &ArgMatches<'a>) -> Option<Command<'a>>
    ensures { IsServe (rows_of (found_of found.now)) result }
{
    let Some(address) = found.get_str("listen") else {
        return None;
    };
    let check = check_asked(found)?;
    Some(Command::Serve {
        db: found.get_str("db"),
        check,
        settings: Settings {
            address,
            connections: count(found)?,
            is_number_given: found.get_str("connections").is_some(),
            at_once: places(found)?,
            stops_on_input: found.get_flag("stop-on-input"),
            logs: is_logged(found),
            log_format: log_form(found)?,
            log_file: found.get_str("log-file"),
            status: found.get_str("status"),
            checks: check.unwrap_or(true),
        },
    })
}

/// The backup that is asked for. None without a database, a folder or a number where there should be one, which `clap`
/// does not let through.
fn backup_of<'a>(found: &ArgMatches<'a>) -> Option<Command<'a>>
    ensures { IsBackup (rows_of (found_of found.now)) result }
{
    let db = found.get_str("db")?;
    let to = found.get_str("to")?;
    let keep = kept(found)?;
    Some(Command::Backup { db, to, keep })
}

/// How many backups to keep, and in it none to keep all. None if that is no number, which `clap` does not let through.
fn kept(found: &ArgMatches<'_>) -> Option<Option<u32>>
    ensures some { IfSome result (IsKept (rows_of (found_of found.now))) }
    ensures none { (result ≡ None) → LacksKept (rows_of (found_of found.now)) }
{
    match found.try_get_one::<u32>("keep") {
        Ok(given) => Some(given),
        Err(_) => None,
    }
}

/// Whether requests are to be logged: a format or a file of the log asks for it, too.
fn is_logged(found: &ArgMatches<'_>) -> bool
    ensures { IsLogged (rows_of (found_of found.now)) result }
{
    let flag = found.get_flag("log");
    let has_format = found.get_str("log-format").is_some();
    let has_file = found.get_str("log-file").is_some();
    is_any(flag, has_format, has_file)
}

fn is_any(flag: bool, has_format: bool, has_file: bool) -> bool
    ensures { result ≡ (flag || has_format || has_file) }
{
    flag || has_format || has_file
}

/// How requests are to be written in the log. None if there is no such format.
fn log_form(found: &ArgMatches<'_>) -> Option<LogFormat>
    ensures some { IfSome result (IsFormat (rows_of (found_of found.now))) }
    ensures none { (result ≡ None) → LacksFormat (rows_of (found_of found.now)) }
{
    let Some(word) = found.get_str("log-format") else {
        return Some(LogFormat::Text);
    };
    if word == "text" {
        return Some(LogFormat::Text);
    }
    if word == "json" {
        return Some(LogFormat::Json);
    }
    None
}

/// How many connections to serve, and in it none to serve without an end. None if both were asked for.
fn count(found: &ArgMatches<'_>) -> Option<Option<u32>>
    ensures some { IfSome result (IsCount (rows_of (found_of found.now))) }
    ensures none { (result ≡ None) → LacksCount (rows_of (found_of found.now)) }
{
    let Ok(given) = found.try_get_one::<u32>("connections") else {
        return None;
    };
    if !found.get_flag("until-stopped") {
        return Some(Some(given.unwrap_or(CONNECTIONS)));
    }
    match given {
        Some(_) => None,
        None => Some(None),
    }
}

/// How many connections to serve at once. None if that is no number, which `clap` does not let through.
fn places(found: &ArgMatches<'_>) -> Option<u32>
    ensures some { IfSome result (IsPlaces (rows_of (found_of found.now))) }
    ensures none { (result ≡ None) → LacksPlaces (rows_of (found_of found.now)) }
{
    let Ok(given) = found.try_get_one::<u32>("at-once") else {
        return None;
    };
    Some(given.unwrap_or(AT_ONCE))
}

/// Whether the line asks for a check of the database, or for none, and in it nothing if it says neither. None if it
/// says both.
fn check_asked(found: &ArgMatches<'_>) -> Option<Option<bool>>
    ensures some { IfSome result (IsCheckAsked (rows_of (found_of found.now))) }
    ensures none { (result ≡ None) → AsksBoth (rows_of (found_of found.now)) }
{
    match (found.get_flag("check"), found.get_flag("unchecked")) {
        (true, true) => None,
        (true, false) => Some(Some(true)),
        (false, true) => Some(Some(false)),
        (false, false) => Some(None),
    }
}

/// The parser of the command line.
fn program<'a>(alloc: Global) -> Result<clap::Command<'a>, AllocError>
    ensures { IfOk result (λ c. app_of c ≡ program_app) }
{
    clap::Command::new(alloc, "brokerd")
        .about("A broker for secrets that speaks the HTTP API of HashiCorp Vault")
        .version(VERSION)
        .subcommand_required(true)
        .subcommand(replay(alloc))?
        .subcommand(check(alloc)?)?
        .subcommand(backup(alloc)?)?
        .subcommand(new_root(alloc)?)?
        .subcommand(after_restore(alloc)?)?
        .subcommand(export(alloc)?)?
        .subcommand(import(alloc)?)?
        .subcommand(serve(alloc)?)
}

fn replay<'a>(alloc: Global) -> clap::Command<'a>
    ensures { app_of result ≡ replay_app }
{
    clap::Command::new(alloc, "replay").about(
        "Runs the lines of standard input, and writes the replies to standard output",
    )
}

fn check<'a>(alloc: Global) -> Result<clap::Command<'a>, AllocError>
    ensures { IfOk result (λ c. app_of c ≡ check_app) }
{
    clap::Command::new(alloc, "check")
        .about("Tells whether a file is the database of a broker, and changes no row of it")
        .arg(checked(alloc))?
        .arg(all(alloc))
}

fn all<'a>(alloc: Global) -> Arg<'a>
    ensures rule { rule_of result ≡ all_rule }
    ensures local { result.global ≡ false }
{
    Arg::new(alloc, "all")
        .long("all")
        .action(ArgAction::SetTrue)
        .help("Tell of each row that keeps it from being one, and not of the first alone")
}

fn checked<'a>(alloc: Global) -> Arg<'a>
    ensures rule { rule_of result ≡ checked_rule }
    ensures local { result.global ≡ false }
{
    Arg::new(alloc, "db")
        .long("db")
        .value_name("FILE")
        .help("The database; no program may have it open")
        .required(true)
}

fn backup<'a>(alloc: Global) -> Result<clap::Command<'a>, AllocError>
    ensures { IfOk result (λ c. app_of c ≡ backup_app) }
{
    clap::Command::new(alloc, "backup")
        .about(
            "Copies a database, whose broker may run meanwhile, to a new file of a folder, and checks the copy",
        )
        .arg(backed_up(alloc))?
        .arg(to(alloc))?
        .arg(keep(alloc))
}

fn backed_up<'a>(alloc: Global) -> Arg<'a>
    ensures rule { rule_of result ≡ checked_rule }
    ensures local { result.global ≡ false }
{
    Arg::new(alloc, "db")
        .long("db")
        .value_name("FILE")
        .help("The database; its broker may run")
        .required(true)
}

fn to<'a>(alloc: Global) -> Arg<'a>
    ensures rule { rule_of result ≡ to_rule }
    ensures local { result.global ≡ false }
{
    Arg::new(alloc, "to")
        .long("to")
        .value_name("FOLDER")
        .help("The folder of the backups, made if it is not there")
        .required(true)
}

fn keep<'a>(alloc: Global) -> Arg<'a>
    ensures rule { rule_of result ≡ keep_rule }
    ensures local { result.global ≡ false }
{
    Arg::new(alloc, "keep")
        .long("keep")
        .value_name("N")
        .help(
            "How many of its backups stay in the folder, the newest ones, up to 100000; all if not given",
        )
        .value_parser(clap::value_parser!(u32).range(1..=100_000))
}

fn new_root<'a>(alloc: Global) -> Result<clap::Command<'a>, AllocError>
    ensures { IfOk result (λ c. app_of c ≡ new_root_app) }
{
    clap::Command::new(alloc, "new-root")
        .about("Makes one more root token of the broker of a file, and prints it")
        .arg(checked(alloc))?
        .arg(revoke_others(alloc))
}

fn revoke_others<'a>(alloc: Global) -> Arg<'a>
    ensures rule { rule_of result ≡ revoke_others_rule }
    ensures local { result.global ≡ false }
{
    Arg::new(alloc, "revoke-others")
        .long("revoke-others")
        .action(ArgAction::SetTrue)
        .help("Revoke every other token with the policy root; the tokens that it made live on")
}

fn after_restore<'a>(alloc: Global) -> Result<clap::Command<'a>, AllocError>
    ensures { IfOk result (λ c. app_of c ≡ after_restore_app) }
{
    clap::Command::new(alloc, "after-restore")
        .about("Drops all wrapped responses, which a restored file may have once more")
        .arg(checked(alloc))?
        .arg(tokens(alloc))
}

fn tokens<'a>(alloc: Global) -> Arg<'a>
    ensures rule { rule_of result ≡ tokens_rule }
    ensures local { result.global ≡ false }
{
    Arg::new(alloc, "tokens")
        .long("tokens")
        .action(ArgAction::SetTrue)
        .help("Revoke all tokens too, but those with the policy root and without an end")
}

fn export<'a>(alloc: Global) -> Result<clap::Command<'a>, AllocError>
    ensures { IfOk result (λ c. app_of c ≡ export_app) }
{
    clap::Command::new(alloc, "export")
        .about("Writes all rows of a database to standard output, as lines of JSON")
        .arg(checked(alloc))
}

fn import<'a>(alloc: Global) -> Result<clap::Command<'a>, AllocError>
    ensures { IfOk result (λ c. app_of c ≡ import_app) }
{
    clap::Command::new(alloc, "import")
        .about("Makes a database of what an export wrote, which is read from standard input")
        .arg(imported(alloc))?
        .arg(salvage(alloc))
}

fn imported<'a>(alloc: Global) -> Arg<'a>
    ensures rule { rule_of result ≡ checked_rule }
    ensures local { result.global ≡ false }
{
    Arg::new(alloc, "db")
        .long("db")
        .value_name("NEW")
        .help("The database that is made; no file of this name may be there, unless it is empty")
        .required(true)
}

fn salvage<'a>(alloc: Global) -> Arg<'a>
    ensures rule { rule_of result ≡ salvage_rule }
    ensures local { result.global ≡ false }
{
    Arg::new(alloc, "salvage")
        .long("salvage")
        .action(ArgAction::SetTrue)
        .help(
            "Leave out the rows that keep the others from being a broker's, and name each of them",
        )
}

fn serve<'a>(alloc: Global) -> Result<clap::Command<'a>, AllocError>
    ensures { IfOk result (λ c. app_of c ≡ serve_app) }
{
    clap::Command::new(alloc, "serve")
        .about("Serves connections from a broker; a new one is started, and its root token printed")
        .arg(listen(alloc))?
        .arg(db(alloc))?
        .arg(connections(alloc))?
        .arg(at_once(alloc))?
        .arg(until_stopped(alloc))?
        .arg(stop_on_input(alloc))?
        .arg(log(alloc))?
        .arg(log_format(alloc))?
        .arg(log_file(alloc))?
        .arg(status(alloc))?
        .arg(check_first(alloc))?
        .arg(unchecked(alloc))
}

fn listen<'a>(alloc: Global) -> Arg<'a>
    ensures rule { rule_of result ≡ listen_rule }
    ensures local { result.global ≡ false }
{
    Arg::new(alloc, "listen")
        .long("listen")
        .value_name("ADDR")
        .help("The address to listen on, such as 127.0.0.1:8200")
        .required(true)
}

fn db<'a>(alloc: Global) -> Arg<'a>
    ensures rule { rule_of result ≡ db_rule }
    ensures local { result.global ≡ false }
{
    Arg::new(alloc, "db").long("db").value_name("FILE").help(
        "The database that keeps the broker, made if it is not there; without it the broker is in memory",
    )
}

fn connections<'a>(alloc: Global) -> Arg<'a>
    ensures rule { rule_of result ≡ connections_rule }
    ensures local { result.global ≡ false }
{
    Arg::new(alloc, "connections")
        .long("connections")
        .value_name("N")
        .help("How many connections to serve before the program ends; 1000 if not given")
        .value_parser(clap::value_parser!(u32).range(1..))
}

fn at_once<'a>(alloc: Global) -> Arg<'a>
    ensures rule { rule_of result ≡ at_once_rule }
    ensures local { result.global ≡ false }
{
    Arg::new(alloc, "at-once")
        .long("at-once")
        .value_name("M")
        .help("How many connections to serve at once, up to 10000; 1024 if not given")
        .value_parser(clap::value_parser!(u32).range(1..=10_000))
}

fn until_stopped<'a>(alloc: Global) -> Arg<'a>
    ensures rule { rule_of result ≡ until_stopped_rule }
    ensures local { result.global ≡ false }
{
    Arg::new(alloc, "until-stopped")
        .long("until-stopped")
        .action(ArgAction::SetTrue)
        .help("Serve without an end, in place of --connections")
}

fn stop_on_input<'a>(alloc: Global) -> Arg<'a>
    ensures rule { rule_of result ≡ stop_on_input_rule }
    ensures local { result.global ≡ false }
{
    Arg::new(alloc, "stop-on-input")
        .long("stop-on-input")
        .action(ArgAction::SetTrue)
        .help("Stop when standard input ends, or a byte comes on it, once what was begun is done")
}

fn log<'a>(alloc: Global) -> Arg<'a>
    ensures rule { rule_of result ≡ log_rule }
    ensures local { result.global ≡ false }
{
    Arg::new(alloc, "log")
        .long("log")
        .action(ArgAction::SetTrue)
        .help("Log each request on standard error, by time, status, milliseconds, method and path")
}

fn log_format<'a>(alloc: Global) -> Arg<'a>
    ensures rule { rule_of result ≡ log_format_rule }
    ensures local { result.global ≡ false }
{
    Arg::new(alloc, "log-format")
        .long("log-format")
        .value_name("FORMAT")
        .help("Log each request as text or json; text if not given")
}

fn log_file<'a>(alloc: Global) -> Arg<'a>
    ensures rule { rule_of result ≡ log_file_rule }
    ensures local { result.global ≡ false }
{
    Arg::new(alloc, "log-file")
        .long("log-file")
        .value_name("FILE")
        .help("Log each request in this file, which is opened again when it was moved away")
}

fn status<'a>(alloc: Global) -> Arg<'a>
    ensures rule { rule_of result ≡ status_rule }
    ensures local { result.global ≡ false }
{
    Arg::new(alloc, "status")
        .long("status")
        .value_name("ADDR")
        .help("The address for operators, such as 127.0.0.1:8201: /health, /metrics, and a page")
}

fn check_first<'a>(alloc: Global) -> Arg<'a>
    ensures rule { rule_of result ≡ check_rule }
    ensures local { result.global ≡ false }
{
    Arg::new(alloc, "check")
        .long("check")
        .action(ArgAction::SetTrue)
        .help(
            "Check the database first, and serve it only if it is that of a broker, as without this option",
        )
}

fn unchecked<'a>(alloc: Global) -> Arg<'a>
    ensures rule { rule_of result ≡ unchecked_rule }
    ensures local { result.global ≡ false }
{
    Arg::new(alloc, "unchecked")
        .long("unchecked")
        .action(ArgAction::SetTrue)
        .help(
            "Serve the database without a check, though a row may keep it from being that of a broker",
        )
}
