//! The names of the families of metrics, with what they mean and their types.

ghost use Rattle.std.specs.Prelude.{◌≡◌};
ghost use Rattle.status.specs.Names.{help_text, metric_of, name_text};

use crate::family::Metric;

/// The name of a family of metrics.
#[derive(Clone, Copy, Debug, PartialEq, Eq)]
pub(crate) enum Name {
    BuildInfo,
    StartTime,
    ResidentMemory,
    ClockAhead,
    LinesDropped,
    Requests,
    RequestSeconds,
    Faults,
    Connections,
    ConnectionsLimit,
    ConnectionsAccepted,
    ConnectionsClosed,
    DatabaseBytes,
    DatabaseLogBytes,
    Commits,
    CommitSeconds,
    TokensAtStart,
    SecretsAtStart,
    ResponsesAtStart,
}

impl Name {
    /// The name.
    #[tactic(auto, unfolding(crate::specs::Names::name_text))]
    pub(crate) fn text(self) -> &'static str
        ensures { result.now ≡ name_text self }
    {
        match self {
            Name::BuildInfo => "dehluvima_build_info",
            Name::StartTime => "process_start_time_seconds",
            Name::ResidentMemory => "process_resident_memory_bytes",
            Name::ClockAhead => "dehluvima_clock_ahead_seconds",
            Name::LinesDropped => "dehluvima_log_lines_dropped_total",
            Name::Requests => "dehluvima_requests_total",
            Name::RequestSeconds => "dehluvima_request_seconds",
            Name::Faults => "dehluvima_faults_total",
            Name::Connections => "dehluvima_connections",
            Name::ConnectionsLimit => "dehluvima_connections_limit",
            Name::ConnectionsAccepted => "dehluvima_connections_accepted_total",
            Name::ConnectionsClosed => "dehluvima_connections_closed_total",
            Name::DatabaseBytes => "dehluvima_database_bytes",
            Name::DatabaseLogBytes => "dehluvima_database_log_bytes",
            Name::Commits => "dehluvima_commits_total",
            Name::CommitSeconds => "dehluvima_commit_seconds_total",
            Name::TokensAtStart => "dehluvima_tokens_at_start",
            Name::SecretsAtStart => "dehluvima_secrets_at_start",
            Name::ResponsesAtStart => "dehluvima_responses_at_start",
        }
    }

    /// What the family means.
    #[tactic(auto, unfolding(crate::specs::Names::help_text))]
    pub(crate) fn help(self) -> &'static str
        ensures { result.now ≡ help_text self }
    {
        match self {
            Name::BuildInfo => "The version of the program.",
            Name::StartTime => "When the program started, in seconds since 1970.",
            Name::ResidentMemory => "Bytes of memory that the program has.",
            Name::ClockAhead =>
                "Seconds by which the clock of the broker is ahead of the system's.",
            Name::LinesDropped => "Lines of the log that were dropped.",
            Name::Requests => "Requests, by the status of the reply; none after a fault.",
            Name::RequestSeconds => "Seconds from a request to its reply, by what it asks.",
            Name::Faults => "Faults, by their numbers.",
            Name::Connections => "Connections that are open.",
            Name::ConnectionsLimit => "Connections that may be open at once.",
            Name::ConnectionsAccepted => "Connections that were accepted.",
            Name::ConnectionsClosed => "Connections that were closed, by the reason.",
            Name::DatabaseBytes => "Bytes of the database.",
            Name::DatabaseLogBytes => "Bytes of the log of the database.",
            Name::Commits => "Transactions that were committed, each with a sync of the log.",
            Name::CommitSeconds => "Seconds that commits took, with their syncs.",
            Name::TokensAtStart => "Tokens at the start.",
            Name::SecretsAtStart => "Secrets at the start.",
            Name::ResponsesAtStart => "Wrapped responses that waited at the start.",
        }
    }

    /// The type of the family.
    #[tactic(auto, unfolding(crate::specs::Names::metric_of))]
    pub(crate) fn metric(self) -> Metric
        ensures { result ≡ metric_of self }
    {
        match self {
            Name::RequestSeconds => Metric::Histogram,
            Name::LinesDropped
            | Name::Requests
            | Name::Faults
            | Name::ConnectionsAccepted
            | Name::ConnectionsClosed
            | Name::Commits
            | Name::CommitSeconds => Metric::Counter,
            Name::BuildInfo
            | Name::StartTime
            | Name::ResidentMemory
            | Name::ClockAhead
            | Name::Connections
            | Name::ConnectionsLimit
            | Name::DatabaseBytes
            | Name::DatabaseLogBytes
            | Name::TokensAtStart
            | Name::SecretsAtStart
            | Name::ResponsesAtStart => Metric::Gauge,
        }
    }
}
