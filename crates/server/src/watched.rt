//! What operators are told of a server, beside what it counts.

ghost use Rattle.std.specs.Prelude.{IfErr};
ghost use Rattle.server.specs.Starting.{IsFaultOfNew};

use crate::database_files::DatabaseFiles;
use crate::log::Log;
use crate::settings::Settings;
use crate::starting::fault_of;
use crate::system_clock::moment_now;
use crate::telling::tell_address;
use broker_types::Moment;
use endpoints::VERSION;
use hub::ConnectionFault;
use status::{AtStart, Figures, State, Storage, Timed};
use std::alloc::{AllocError, Global};
use std::cell::Cell;
use std::net::SocketAddr;
use std::rc::Rc;
use std::rt::HostRuntime;
use std::{fs, io, net};

/// The bytes of a page of memory, on x86-64.
const PAGE: u64 = 4_096;

/// Where operators ask, and what they are told. Connections wait there until the program serves.
#[derive(Drop)]
pub struct Watched {
    listener: net::TcpListener,
    program: Program,
}

/// What operators are told of a program.
#[derive(Drop)]
pub(crate) struct Program {
    rt: HostRuntime,
    started: Moment,
    files: Option<DatabaseFiles>,
    at_start: Option<AtStart>,
    commits: Option<CountedCommits>,
}

/// Where it is counted how often something was committed, and how many microseconds that took in all.
#[derive(Drop)]
struct CountedCommits {
    times: Rc<Cell<u64>>,
    micros: Rc<Cell<u64>>,
}

/// What the server itself knows of the figures.
#[derive(Clone, Copy)]
pub(crate) struct Known {
    pub(crate) state: State,
    pub(crate) connections: usize,
    pub(crate) at_once: usize,
    pub(crate) last_fault: Option<u8>,
    /// The time of the broker's clock at the last request, in seconds.
    pub(crate) clock: Option<u64>,
}

impl Watched {
    /// Listens for operators.
    fn new(rt: &HostRuntime, address: &str, database: Option<&str>) -> io::Result<Watched> {
        Ok(Watched {
            listener: net::TcpListener::bind(rt, address)?,
            program: Program {
                rt: *rt,
                started: moment_now(rt),
                files: files(rt, database)?,
                at_start: None,
                commits: None,
            },
        })
    }

    /// So many were found at the start.
    pub fn found(&mut self, tokens: u64, secrets: u64, responses: u64) {
        self.program.at_start = Some(AtStart {
            tokens,
            secrets,
            responses,
        });
    }

    /// Commits are counted there, and the microseconds that they took in all.
    pub fn count_commits(&mut self, times: Rc<Cell<u64>>, micros: Rc<Cell<u64>>) {
        self.program.commits = Some(CountedCommits { times, micros });
    }

    /// Where it listens.
    pub(crate) fn address(&self) -> io::Result<SocketAddr> {
        self.listener.local_addr()
    }

    /// The listener, and what is told.
    pub(crate) fn into_parts(self) -> (net::TcpListener, Program) {
        (self.listener, self.program)
    }
}

impl Program {
    /// The allocator.
    pub(crate) fn alloc(&self) -> Global {
        self.rt.alloc()
    }

    /// What is to be told now.
    pub(crate) fn figures(&self, known: Known) -> Figures<'static> {
        let now = moment_now(&self.rt);
        let (database_bytes, log_bytes) = self.bytes();
        Figures {
            version: VERSION,
            started: self.started,
            now,
            state: known.state,
            storage: match self.files {
                Some(_) => Storage::File,
                None => Storage::Memory,
            },
            connections: known.connections as u64,
            at_once: known.at_once as u64,
            database_bytes,
            log_bytes,
            commits: self.commits(),
            clock_ahead: ahead(known.clock, now),
            at_start: self.at_start,
            resident_bytes: resident_bytes(&self.rt),
            last_fault: known.last_fault,
        }
    }

    /// The commits so far, where they are counted.
    fn commits(&self) -> Option<Timed> {
        let counted = self.commits.as_ref()?;
        Some(Timed {
            times: counted.times.get(),
            micros: counted.micros.get(),
        })
    }

    /// The bytes of the database and of its log.
    fn bytes(&self) -> (Option<u64>, Option<u64>) {
        match &self.files {
            Some(files) => (files.database_bytes(&self.rt), files.log_bytes(&self.rt)),
            None => (None, None),
        }
    }
}

/// Listens for operators, if that is asked for, of a broker in memory or in this file. It fails as a start does: if the
/// address cannot be listened on, or memory runs out.
pub fn begin_status(
    rt: &HostRuntime,
    settings: &Settings<'_>,
    log: &Option<Rc<Log>>,
    database: Option<&str>,
) -> Result<Option<Watched>, ConnectionFault>
    ensures { IfErr result IsFaultOfNew }
{
    let Some(address) = settings.status else {
        return Ok(None);
    };
    match Watched::new(rt, address, database) {
        Ok(watched) => Ok(Some(watched)),
        Err(error) => {
            tell_address(rt, log, address, &error);
            Err(fault_of(&error))
        }
    }
}

/// The files of this database.
fn files(rt: &HostRuntime, database: Option<&str>) -> Result<Option<DatabaseFiles>, AllocError> {
    match database {
        Some(path) => Ok(Some(DatabaseFiles::at(rt.alloc(), path)?)),
        None => Ok(None),
    }
}

/// By how many seconds the broker's clock is ahead.
fn ahead(clock: Option<u64>, now: Moment) -> Option<u64> {
    Some(clock?.saturating_sub(now.seconds()))
}

/// The bytes of memory that the program has, if the system tells them.
fn resident_bytes(rt: &HostRuntime) -> Option<u64> {
    let text = fs::read_to_string(rt, "/proc/self/statm").ok()?;
    let pages: u64 = text.as_str().split(' ').nth(1)?.parse().ok()?;
    pages.checked_mul(PAGE)
}
