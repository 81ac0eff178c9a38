//! The program `brokerd`: a broker for secrets.
#![tactic(auto)]

ghost use Rattle.std.specs.Prelude.{◌≡◌, ◌≢◌, IfOk};
ghost use Rattle.std.specs.IoError.{error_kind};
ghost use Rattle.std.specs.declared.io.ErrorKind.TheVariants.{OutOfMemory};
ghost use Rattle.std.specs.Process.{exit_status};
ghost use Rattle.clap.specs.Words.{kind_of};
ghost use Rattle.brokerd.specs.Exits.{status_after};

mod checking;
mod command;
mod maintaining;
mod transferring;

use backup::{Failure, Request, back_up, prune};
use broker_server::{ServeError, serve_file, serve_in_memory};
use checking::check;
use clap::error::{Error, ErrorKind};
use command::{Command, command_of};
use database_check::Defect;
use endpoints::{Reading, Writing};
use maintaining::{after_restore, new_root};
use replay::{Exit, replay};
use server::Settings;
use std::io::{Eprint, Print};
use std::process::ExitCode;
use std::{env, io};
use transferring::{export, import};

/// What can be done about a file that is not served since a row of it is in trouble.
const UNSOUND: &str =
    "nothing was changed. Restore a backup (brokerd backup made it), or mend it by brokerd export \
    and brokerd import --salvage, or serve it as it is with --unchecked";

fn main(rt: HostRuntime) -> anyhow::Result<ExitCode> {
    let alloc = rt.alloc();
    let words = match env::args(&rt).and_then(|words| Ok(words.collect::<Vec<String>>(alloc)?)) {
        Ok(words) => words,
        Err(error) => return refuse_words(&rt, &error),
    };
    match command_of(alloc, words.as_slice()) {
        Ok(Some(Command::Replay)) => {
            let mut reader = Reading::new(rt.reader());
            let mut writer = Writing::new(io::writer(&rt));
            let exit = replay(alloc, &mut reader, &mut writer);
            tell(&rt, exit)
        }
        Ok(Some(Command::Check { db, lists_all })) => check(&rt, db, lists_all),
        Ok(Some(Command::Backup { db, to, keep })) => save(
            &rt,
            &Request {
                db,
                folder: to,
                keep,
            },
        ),
        Ok(Some(Command::NewRoot { db, revokes_others })) => new_root(&rt, db, revokes_others),
        Ok(Some(Command::AfterRestore { db, revokes_tokens })) => {
            after_restore(&rt, db, revokes_tokens)
        }
        Ok(Some(Command::Export { db })) => export(&rt, db),
        Ok(Some(Command::Import { db, salvages })) => import(&rt, db, salvages),
        Ok(
            Some(
                Command::Serve {
                    db,
                    settings,
                    check,
                },
            ),
        ) => serve(&rt, db, &settings, check),
        Ok(None) => refuse_options(
            &rt,
            "--until-stopped takes the place of --connections, and --unchecked that of --check: give one of them; \
             --log-format is text or json",
        ),
        Err(error) => refuse(&rt, &error),
    }
}

/// Makes a backup, says on standard output which, and removes older ones. The status is 0, or 1 where there is no
/// backup, or an older one could not be removed.
fn save(rt: &HostRuntime, request: &Request<'_>) -> anyhow::Result<ExitCode> {
    let made = match back_up(rt, request) {
        Ok(made) => made,
        Err(failure) => return refuse_backup(rt, &failure),
    };
    println!(rt; "{made}")?;
    match prune(rt, request) {
        Ok(()) => Ok(ExitCode::SUCCESS),
        Err(failure) => refuse_backup(rt, &failure),
    }
}

/// Says on standard error why there is no backup, or why an older one is left, and answers the status.
fn refuse_backup<R: Eprint>(rt: &R, failure: &Failure) -> anyhow::Result<ExitCode>
    ensures { IfOk result (λ code. exit_status code ≡ 1) }
{
    eprintln!(rt; "{failure}")?;
    Ok(ExitCode::from(1))
}

/// Serves the broker of a file, or else one in memory.
fn serve(
    rt: &HostRuntime,
    db: Option<&str>,
    settings: &Settings<'_>,
    check: Option<bool>,
) -> anyhow::Result<ExitCode> {
    match db {
        Some(path) => serve_named(rt, path, settings),
        None => serve_in_memory_alone(rt, settings, check),
    }
}

/// Serves a broker in memory, of which there is nothing to check.
fn serve_in_memory_alone(
    rt: &HostRuntime,
    settings: &Settings<'_>,
    check: Option<bool>,
) -> anyhow::Result<ExitCode> {
    if let Some(is_check) = check {
        let option = if is_check { "--check" } else { "--unchecked" };
        eprintln!(rt; "brokerd: {option} needs a database: give --db too")?;
        return Ok(ExitCode::from(2));
    }
    match serve_in_memory(rt, settings) {
        Ok(()) => tell(rt, Exit::Done),
        Err(fault) => tell(rt, Exit::Faulted(fault.number())),
    }
}

/// Serves the broker of a file.
fn serve_named(rt: &HostRuntime, path: &str, settings: &Settings<'_>) -> anyhow::Result<ExitCode> {
    match serve_file(rt, path, settings) {
        Ok(()) => tell(rt, Exit::Done),
        Err(ServeError::Faulted(fault)) => tell(rt, Exit::Faulted(fault.number())),
        Err(ServeError::Unsound(defect)) => refuse_file(rt, path, &defect),
    }
}

/// Says on standard error which row keeps a file from being served, and what can be done, and answers the status.
fn refuse_file<R: Eprint>(rt: &R, path: &str, defect: &Defect) -> anyhow::Result<ExitCode>
    ensures { IfOk result (λ code. exit_status code ≡ 1) }
{
    eprintln!(rt; "{path}: {defect}")?;
    eprintln!(rt; "{path}: {UNSOUND}")?;
    Ok(ExitCode::from(1))
}

/// Says on standard error why options do not go together, and answers the status.
fn refuse_options<R: Eprint>(rt: &R, why: &str) -> anyhow::Result<ExitCode>
    ensures { IfOk result (λ code. exit_status code ≡ 2) }
{
    eprintln!(rt; "brokerd: {why}")?;
    Ok(ExitCode::from(2))
}

/// Says on standard error why the command did not end well, if so, and answers the status: 0, or 1 after a
/// fault, or 2 at a bad line.
pub(crate) fn tell<R: Eprint>(rt: &R, exit: Exit) -> anyhow::Result<ExitCode>
    ensures { IfOk result (λ code. exit_status code ≡ status_after exit) }
{
    match exit {
        Exit::Done => Ok(ExitCode::SUCCESS),
        Exit::Faulted(number) => {
            eprintln!(rt; "fault {number}")?;
            Ok(ExitCode::from(1))
        }
        Exit::BadLine(number) => {
            eprintln!(rt; "bad line {number}")?;
            Ok(ExitCode::from(2))
        }
    }
}

/// Says why the command line cannot be read. Running out of memory is a fault; a word that is not UTF-8
/// makes the command line bad.
fn refuse_words<R: Eprint>(rt: &R, error: &io::Error) -> anyhow::Result<ExitCode>
    ensures memory { error_kind error.now ≡ OutOfMemory
        → IfOk result (λ code. exit_status code ≡ 1) }
    ensures mistake { error_kind error.now ≢ OutOfMemory
        → IfOk result (λ code. exit_status code ≡ 2) }
{
    if error.kind() == io::ErrorKind::OutOfMemory {
        return tell(rt, Exit::Faulted(1));
    }
    eprintln!(rt; "brokerd: {error}")?;
    Ok(ExitCode::from(2))
}

/// Prints the text of a command line that names no command: on standard error with status 2, or, if help or the
/// version was asked for, on standard output with status 0. Running out of memory is a fault.
fn refuse<R: Eprint + Print>(rt: &R, error: &Error) -> anyhow::Result<ExitCode>
    ensures memory { kind_of error.now ≡ ErrorKind.OutOfMemory
        → IfOk result (λ code. exit_status code ≡ 1) }
    ensures help { kind_of error.now ≡ ErrorKind.DisplayHelp
        → IfOk result (λ code. exit_status code ≡ 0) }
    ensures version { kind_of error.now ≡ ErrorKind.DisplayVersion
        → IfOk result (λ code. exit_status code ≡ 0) }
    ensures mistake { kind_of error.now ≢ ErrorKind.OutOfMemory
        → kind_of error.now ≢ ErrorKind.DisplayHelp
        → kind_of error.now ≢ ErrorKind.DisplayVersion
        → IfOk result (λ code. exit_status code ≡ 2) }
{
    if error.kind() == ErrorKind::OutOfMemory {
        return tell(rt, Exit::Faulted(1));
    }
    error.print(rt)?;
    Ok(ExitCode::from(error.exit_code() as u8))
}
