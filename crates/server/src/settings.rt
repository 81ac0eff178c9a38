//! What a command line may set of a server.

/// How a broker is served.
#[derive(Clone, Copy, Debug, PartialEq, Eq)]
pub struct Settings<'a> {
    /// The address to listen on, such as `127.0.0.1:8200`. With port 0 the system chooses one, which the log names.
    pub address: &'a str,
    /// How many connections are served; without a number as many as come.
    pub connections: Option<u32>,
    /// Whether that number was asked for, and is not the usual one.
    pub is_number_given: bool,
    /// How many are served at once at most.
    pub at_once: u32,
    /// Whether the end of standard input, or a byte on it, stops the serving.
    pub stops_on_input: bool,
    /// Whether each request is logged, on standard error if there is no file for it.
    pub logs: bool,
    /// How requests are written in the log.
    pub log_format: LogFormat,
    /// The file of the log.
    pub log_file: Option<&'a str>,
    /// The address on which operators are told of the server.
    pub status: Option<&'a str>,
    /// Whether a file is checked before it is served.
    pub checks: bool,
}

/// How a request is written in the log.
#[derive(Clone, Copy, Debug, PartialEq, Eq)]
pub enum LogFormat {
    /// A line for people.
    Text,
    /// A JSON object.
    Json,
}
