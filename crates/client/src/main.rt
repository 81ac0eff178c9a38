//! The program `client`: asks a Vault server, and prints its reply.
#![tactic(auto)]

ghost use Rattle.std.specs.Prelude.{◌≡◌, ◌≢◌, IfOk};
ghost use Rattle.std.specs.IoError.{error_kind};
ghost use Rattle.std.specs.declared.io.ErrorKind.TheVariants.{OutOfMemory};
ghost use Rattle.std.specs.Process.{exit_status};
ghost use Rattle.clap.specs.Words.{kind_of};

mod environment;
mod inputs;
mod renewing;
mod server;
mod stopped;
mod tasks;

use api_client::tell;
use clap::error::{Error, ErrorKind};
use command_line::{NoCommand, arranged, example_of, line_of};
use endpoints::Writing;
use environment::{complete, has_server};
use std::alloc::Global;
use std::io::{Eprint, Print};
use std::process::ExitCode;
use std::{env, io};
use stopped::Stopped;
use tasks::run;

fn main(rt: HostRuntime) -> anyhow::Result<ExitCode> {
    let alloc = rt.alloc();
    match env::args(&rt).and_then(|words| Ok(words.collect::<Vec<String>>(alloc)?)) {
        Ok(words) => answer(&rt, words.as_slice()),
        Err(error) => refuse_words(&rt, &error),
    }
}

/// Does what the words of a command line ask for, or says why not.
fn answer(rt: &HostRuntime, typed: &[String]) -> anyhow::Result<ExitCode> {
    let mut words = match arranged(rt.alloc(), typed) {
        Ok(words) => words,
        Err(error) => return end(rt, error.into()),
    };
    match done(rt, &mut words) {
        Ok(status) => Ok(ExitCode::from(status)),
        Err(Stopped::Usage(error)) => {
            let status = refuse(rt, &error)?;
            if error.exit_code() != 0 {
                tell_example(rt, typed, has_server(words.as_slice()))?;
            }
            Ok(status)
        }
        Err(stopped) => end(rt, stopped),
    }
}

/// Does what words ask for that are in order, and answers the exit status.
fn done(rt: &HostRuntime, words: &mut Vec<String>) -> Result<u8, Stopped> {
    match complete(rt, words) {
        Ok(()) => run(rt, words.as_slice()),
        Err(stopped) => Err(help_or(rt.alloc(), words.as_slice(), stopped)),
    }
}

/// The help, or the version, if the words ask for it; else why they cannot be completed.
fn help_or(alloc: Global, words: &[String], stopped: Stopped) -> Stopped {
    let error = match line_of(alloc, words) {
        Ok(line) => {
            drop(line);
            return stopped;
        }
        Err(NoCommand::Fault(_fault)) => return stopped,
        Err(NoCommand::Usage(error)) => error,
    };
    if error.exit_code() == 0 {
        Stopped::Usage(error)
    } else {
        stopped
    }
}

/// Tells an example of the command that was typed, if there is memory for it.
fn tell_example(rt: &HostRuntime, typed: &[String], has_server: bool) -> anyhow::Result<()> {
    if let Ok(example) = example_of(rt.alloc(), typed, has_server) {
        eprintln!(rt; "{example}")?;
    }
    Ok(())
}

/// Says why the client ends without having asked.
fn end(rt: &HostRuntime, stopped: Stopped) -> anyhow::Result<ExitCode> {
    match stopped {
        Stopped::Usage(error) => refuse(rt, &error),
        Stopped::Mistake(text) => {
            eprintln!(rt; "client: {text}")?;
            Ok(ExitCode::from(2))
        }
        Stopped::Failure(failure) => {
            let status = tell(failure, &mut Writing::new(rt.stderr()));
            Ok(ExitCode::from(status))
        }
    }
}

/// Says why the command line cannot be read. Running out of memory is a fault; a word that is not UTF-8
/// makes the command line wrong.
fn refuse_words<R: Eprint>(rt: &R, error: &io::Error) -> anyhow::Result<ExitCode>
    ensures memory { error_kind error.now ≡ OutOfMemory
        → IfOk result (λ code. exit_status code ≡ 1) }
    ensures mistake { error_kind error.now ≢ OutOfMemory
        → IfOk result (λ code. exit_status code ≡ 2) }
{
    if error.kind() == io::ErrorKind::OutOfMemory {
        eprintln!(rt; "fault 1")?;
        return Ok(ExitCode::from(1));
    }
    eprintln!(rt; "client: {error}")?;
    Ok(ExitCode::from(2))
}

/// Prints the text of a command line that names no command: on standard error with status 2, or, if help or
/// the version was asked for, on standard output with status 0.
fn refuse<R: Eprint + Print>(rt: &R, error: &Error) -> anyhow::Result<ExitCode>
    ensures help { kind_of error.now ≡ ErrorKind.DisplayHelp
        → IfOk result (λ code. exit_status code ≡ 0) }
    ensures version { kind_of error.now ≡ ErrorKind.DisplayVersion
        → IfOk result (λ code. exit_status code ≡ 0) }
    ensures mistake { kind_of error.now ≢ ErrorKind.DisplayHelp
        → kind_of error.now ≢ ErrorKind.DisplayVersion
        → IfOk result (λ code. exit_status code ≡ 2) }
{
    error.print(rt)?;
    Ok(ExitCode::from(error.exit_code() as u8))
}
