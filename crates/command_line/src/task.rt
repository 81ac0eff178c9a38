//! What the client does for a command, beside asking once.

ghost use Rattle.std.specs.Prelude.{◌≡◌};
ghost use Rattle.command_line.specs.Tasks.{is_plain, is_plain_line, is_silent, task_of};

use crate::settings::Settings;

/// What a command line asks the client to do.
#[derive(Clone, Copy, Debug, PartialEq, Eq)]
pub enum Task {
    /// One request, whose reply is printed.
    Ask,
    /// One request, whose reply is not printed.
    Renew,
    /// Renewals, until the token ends.
    KeepRenewing,
    /// All tokens, a line each.
    ListTokens,
    /// One request, with the text of a policy.
    WritePolicy,
}

/// What the command of this name asks for.
pub(crate) fn task_of(name: &str, keeps: bool) -> Task
    ensures { result ≡ task_of name.now keeps }
{
    if name == "token renew" {
        return if keeps {
            Task::KeepRenewing
        } else {
            Task::Renew
        };
    }
    if name == "token list" {
        return Task::ListTokens;
    }
    if name == "policy write" {
        return Task::WritePolicy;
    }
    Task::Ask
}

/// Whether the name is one word: that of a request to a path as it is, or of `unwrap`.
pub(crate) fn is_plain(name: &str) -> bool
    ensures { result ≡ is_plain name.now }
{
    name == "read" || name == "write" || name == "list" || name == "delete" || name == "unwrap"
}

/// Whether a line is printed in the plain manner: its command is one word, and none of these options is given.
pub(crate) fn is_plain_line(settings: &Settings<'_>, is_plain: bool) -> bool
    ensures { result ≡ is_plain_line settings.now is_plain }
{
    is_plain
        && settings.field.is_none()
        && settings.token_file.is_none()
        && settings.wait.is_none()
        && settings.timeout.is_none()
        && !settings.exit_codes
}

/// Whether the reply to a task is not printed.
pub(crate) fn is_silent(task: Task) -> bool
    ensures { result ≡ is_silent task }
{
    matches!(task, Task::Renew | Task::KeepRenewing)
}
