//! The tasks of the program, by the words that name them.

use crate::opening::Writes;

/// What the program is asked to do.
#[derive(Clone, Copy, Debug, PartialEq, Eq)]
pub(crate) enum Task {
    /// Run the lines of standard input over files that are closed and opened again.
    Reopened(Writes),
    /// Run them over files that stop, at each call in turn.
    Stopped(Writes),
    /// Run all but the last over files that stop, and the last over what is found then.
    Again(Writes),
    /// Open files in which their keys have rows of format 1, which stop, and run the last over what is found then.
    Upgraded(Writes),
    /// Say which tasks there are.
    Help,
}

/// The task that the words name. The first is the name of the program.
pub(crate) fn task_of(words: &[String]) -> Option<Task> {
    match words {
        [_, word] if word.as_str() == "--help" => Some(Task::Help),
        [_, word, writes] => task_over(word.as_str(), writes_of(writes.as_str())?),
        _ => None,
    }
}

/// The task that a word names, on a disk.
fn task_over(word: &str, writes: Writes) -> Option<Task> {
    match word {
        "reopened" => Some(Task::Reopened(writes)),
        "stopped" => Some(Task::Stopped(writes)),
        "again" => Some(Task::Again(writes)),
        "upgraded" => Some(Task::Upgraded(writes)),
        _ => None,
    }
}

/// The disk that a word names.
fn writes_of(word: &str) -> Option<Writes> {
    match word {
        "mixed" => Some(Writes::Mixed),
        "torn" => Some(Writes::Torn),
        _ => None,
    }
}
