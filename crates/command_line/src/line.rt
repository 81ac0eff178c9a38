//! Command lines that `clap` takes, and what they ask for.

ghost use Rattle.std.specs.Prelude.{◌≡◌, IfOk, MatchResult, Ok, Some, map, option_map, string_bytes};
ghost use Rattle.clap.specs.Words.{found_of, kind_of, rows_of, subcommand_rows_of};
ghost use Rattle.clap.specs.declared.error.kind.ErrorKind.TheVariants.{ValueValidation};
ghost use Rattle.command_line.specs.Meaning.{Agrees, IsNoCommand, IsNoLine, IsTold, command_in, line_read};
ghost use Rattle.command_line.specs.Meaning.{request_entered, words_entered};
ghost use Rattle.command_line.specs.Settings.{settings_in};
ghost use Rattle.command_line.specs.Tasks.{is_plain_entered, manner_in, task_entered};

use crate::body_words::BodyWord;
use crate::meaning::{all_values, request_in};
use crate::mistake::Mistake;
use crate::no_command::NoCommand;
use crate::no_request::NoRequest;
use crate::parser::client;
use crate::settings::Settings;
use crate::task::{Task, is_plain, is_plain_line, is_silent, task_of};
use crate::values::{is_given, settings_in};
use api_client::{Command, Manner, Request};
use broker_types::Fault;
use clap::ArgMatches;
use clap::error::{Error, ErrorKind};
use std::alloc::{AllocError, Global};
use std::marker::Model;

/// A command line that `clap` takes. Contracts see what was found: for the client, and for its command, with the name.
#[derive(Drop)]
pub struct Line<'a> {
    matches: ArgMatches<'a>,
}

impl<'a> Model for Line<'a> {
    ghost use Rattle.clap.specs.Words.{found_of, rows_of, subcommand_rows_of};
    ghost use Rattle.command_line.specs.Found.{Found};

    ghost Value = { Found };

    ghost view = { λ l. (rows_of (found_of l.matches), subcommand_rows_of l.matches) };
}

/// The line that words give; the first is the name of the program. There is none if `clap` refuses the words, or
/// answers them with help.
pub fn line_of<'a>(alloc: Global, words: &'a [String]) -> Result<Line<'a>, NoCommand>
    ensures { MatchResult result
        (λ line. line_read (map string_bytes words.now) ≡ Some line)
        (IsNoLine (map string_bytes words.now)) }
{
    let parser = client(alloc)?;
    let matches = parser.try_get_matches_from(words)?;
    Ok(Line { matches })
}

impl<'a> Line<'a> {
    /// The options of the client.
    pub fn settings(&self) -> Result<Settings<'a>, Mistake>
        ensures { result ≡ settings_in self.now.0 }
    {
        settings_in(&self.matches)
    }

    /// What is to be done.
    pub fn task(&self) -> Task
        ensures { result ≡ task_entered self.now.1 }
    {
        match entered(&self.matches) {
            Some((name, found)) => task_of(name, is_given(found, "keep")),
            None => Task::Ask,
        }
    }

    /// How its reply is printed: in the plain manner, unless one of the options is given that only commands of two
    /// words need, or the command is one of them.
    pub fn manner(&self) -> Result<Manner<'a>, Mistake>
        ensures { result ≡ manner_in self.now }
    {
        let settings = self.settings()?;
        Ok(Manner {
            plain: is_plain_line(&settings, self.is_plain()),
            field: settings.field,
            silent: is_silent(self.task()),
            exit_codes: settings.exit_codes,
        })
    }

    /// Whether the command is one of those that are one word.
    fn is_plain(&self) -> bool
        ensures { result ≡ is_plain_entered self.now.1 }
    {
        match entered(&self.matches) {
            Some((name, _)) => is_plain(name),
            None => false,
        }
    }

    /// The words that give the body, as they were typed.
    pub fn words(&self) -> Option<&[&'a str]>
        ensures { option_map (λ ws. map (λ w. w.now) ws.now) result ≡ words_entered self.now.1 }
    {
        match entered(&self.matches) {
            Some((_, found)) => all_values(found, "body"),
            None => None,
        }
    }

    /// The request of the command, its body by the words that give it.
    fn request(&self, alloc: Global, words: &[BodyWord<'_>]) -> Result<Request<'a>, NoRequest>
        ensures { Agrees (request_entered self.now.1 words.now) result }
    {
        match entered(&self.matches) {
            Some((name, found)) => request_in(alloc, name, found, words),
            None => Err(Mistake::Request.into()),
        }
    }

    /// The command of the line.
    fn command(&self, alloc: Global, words: &[BodyWord<'_>]) -> Result<Command<'a>, NoRequest>
        ensures { Agrees (command_in self.now words.now) result }
    {
        let settings = self.settings()?;
        let request = self.request(alloc, words)?;
        Ok(Command {
            address: settings.address,
            token: settings.token,
            wrap_ttl: settings.wrap_ttl,
            request,
        })
    }
}

/// The command that a line means. The words are those that give the body, each with the text that was read for it if it
/// names a file or standard input. There is none if an argument is not what it has to be.
pub fn command_of<'a>(
    alloc: Global,
    line: &Line<'a>,
    words: &[BodyWord<'_>],
) -> Result<Command<'a>, NoCommand>
    ensures { MatchResult result
        (λ command. command_in line.now words.now ≡ Ok command)
        (IsNoCommand (command_in line.now words.now)) }
{
    match line.command(alloc, words) {
        Ok(command) => Ok(command),
        Err(NoRequest::Mistaken(mistake)) => Err(usage(alloc, mistake.text())),
        Err(NoRequest::Fault(fault)) => Err(NoCommand::Fault(fault)),
    }
}

/// What the user is told of a mistake, with the usage.
pub fn usage(alloc: Global, text: &str) -> NoCommand
    ensures { IsTold result }
{
    match usage_error(alloc, text) {
        Ok(error) => error.into(),
        Err(_) => NoCommand::Fault(Fault::Memory),
    }
}

fn usage_error(alloc: Global, text: &str) -> Result<Error, AllocError>
    ensures { IfOk result (λ error. kind_of error ≡ ValueValidation) }
{
    client(alloc)?.error(ErrorKind::ValueValidation, text)
}

/// The name and the matches of the command.
fn entered<'a, 'm>(matches: &'m ArgMatches<'a>) -> Option<(&'a str, &'m ArgMatches<'a>)>
    ensures { option_map (λ p. (p.0.now, rows_of (found_of p.1.now))) result ≡ subcommand_rows_of matches.now }
{
    matches.subcommand()
}
