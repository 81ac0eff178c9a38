//! The tasks of the program, and the stores over which they are run, by the words that name them.

/// Over what rows the lines are run.
#[derive(Clone, Copy, Debug, PartialEq, Eq)]
pub(crate) enum Over {
    /// A list.
    List,
    /// A database in memory.
    Sql,
}

/// What the program is asked to do.
#[derive(Clone, Copy, Debug, PartialEq, Eq)]
pub(crate) enum Task {
    /// Run the lines of standard input.
    Replay(Over),
    /// The same, and send a request that met a fault once more.
    Retry(Over),
    /// The same, and before each request let each call on the rows fail in turn.
    Failing(Over),
    /// The same, and let one call of every tenth request fail.
    Faulted(Over),
    /// Write random numbers to standard output, the same each time.
    Numbers,
    /// Say which tasks there are.
    Help,
}

/// The task that the words name. The first is the name of the program.
pub(crate) fn task_of(words: &[String]) -> Option<Task> {
    match words {
        [_, word] => short_task(word.as_str()),
        [_, word, over] => long_task(word.as_str(), over_of(over.as_str())?),
        _ => None,
    }
}

/// The task that one word names.
fn short_task(word: &str) -> Option<Task> {
    match word {
        "numbers" => Some(Task::Numbers),
        "--help" => Some(Task::Help),
        _ => Some(Task::Replay(over_of(word)?)),
    }
}

/// The task that a word and a store name.
fn long_task(word: &str, over: Over) -> Option<Task> {
    match word {
        "retry" => Some(Task::Retry(over)),
        "failing" => Some(Task::Failing(over)),
        "faulted" => Some(Task::Faulted(over)),
        _ => None,
    }
}

/// The rows that a word names.
fn over_of(word: &str) -> Option<Over> {
    match word {
        "list" => Some(Over::List),
        "sql" => Some(Over::Sql),
        _ => None,
    }
}
