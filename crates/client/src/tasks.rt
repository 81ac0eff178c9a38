//! What a command line asks for, done.

use crate::inputs::body_words;
use crate::renewing::keep_renewing;
use crate::server::{Patience, ask, send};
use crate::stopped::Stopped;
use api_client::{Command, Failure, Manner, accessors_in, report, tell, token_line};
use command_line::{Line, Task, command_of, line_of, look_up, usage};
use endpoints::{Sink, Writing};
use std::rt::HostRuntime;

/// Does what the words ask for, and answers the exit status.
pub(crate) fn run(rt: &HostRuntime, words: &[String]) -> Result<u8, Stopped> {
    let line = line_of(rt.alloc(), words)?;
    answered(rt, &line)
}

/// Does what a line asks for, and answers the exit status.
fn answered(rt: &HostRuntime, line: &Line<'_>) -> Result<u8, Stopped> {
    let manner = match line.manner() {
        Ok(manner) => manner,
        Err(mistake) => return Err(usage(rt.alloc(), mistake.text()).into()),
    };
    let patience = match line.settings() {
        Ok(settings) => Patience::of(&settings),
        Err(mistake) => return Err(usage(rt.alloc(), mistake.text()).into()),
    };
    let mut command = command(rt, line)?;
    perform(rt, line.task(), &mut command, &manner, patience)
}

/// The command of a line, with what is read for its body.
fn command<'a>(rt: &HostRuntime, line: &Line<'a>) -> Result<Command<'a>, Stopped> {
    let words = body_words(rt, line)?;
    Ok(command_of(rt.alloc(), line, words.as_slice())?)
}

/// Does a task, and answers the exit status.
fn perform(
    rt: &HostRuntime,
    task: Task,
    command: &mut Command<'_>,
    manner: &Manner<'_>,
    patience: Patience,
) -> Result<u8, Stopped> {
    match task {
        Task::Ask | Task::Renew | Task::WritePolicy => Ok(send(rt, command, manner, patience)),
        Task::KeepRenewing => Ok(keep_renewing(rt, command, manner, patience)),
        Task::ListTokens if manner.field.is_some() => Ok(send(rt, command, manner, patience)),
        Task::ListTokens => list_tokens(rt, command, manner, patience),
    }
}

/// Prints a line for each token, and answers the exit status. A token that ends meanwhile is left out.
fn list_tokens(
    rt: &HostRuntime,
    command: &mut Command<'_>,
    manner: &Manner<'_>,
    patience: Patience,
) -> Result<u8, Stopped> {
    let mut out = Writing::new(rt.stdout());
    let mut err = Writing::new(rt.stderr());
    let reply = match ask(rt, command, patience, true) {
        Ok(reply) if reply.status == 200 => reply,
        answer => return Ok(report(rt.alloc(), manner, answer, &mut out, &mut err)),
    };
    let Some(accessors) = accessors_in(rt.alloc(), reply.body.as_slice())? else {
        return Ok(tell(Failure::BadReply, &mut err));
    };
    for accessor in accessors.as_slice() {
        command.request = look_up(rt.alloc(), accessor.as_str())?;
        let reply = match ask(rt, command, patience, true) {
            Ok(reply) if reply.status == 200 => reply,
            Ok(reply) if reply.status == 400 => continue,
            answer => return Ok(report(rt.alloc(), manner, answer, &mut out, &mut err)),
        };
        let Some(line) = token_line(rt.alloc(), accessor.as_str(), reply.body.as_slice())? else {
            return Ok(tell(Failure::BadReply, &mut err));
        };
        if out.push(line.as_bytes()).is_err() {
            return Ok(tell(Failure::Unwritten, &mut err));
        }
    }
    Ok(0)
}
