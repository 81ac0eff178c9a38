//! The log, on standard error or in a file.

ghost use Rattle.std.specs.Prelude.{◌≡◌, ◌≤◌, length, IfErr};

use crate::hiding::Line;
use crate::log_file::LogFile;
use crate::log_line::{event_object, event_text, object_line, text_line};
use crate::notes::Noted;
use crate::settings::{LogFormat, Settings};
use crate::system_clock::moment_now;
use crate::time_text::TimeText;
use broker_types::Fault;
use libc::net::{POLLOUT, poll};
use libc::types::pollfd;
use std::alloc::AllocError;
use std::cell::Cell;
use std::fmt::Display;
use std::io::{Eprint, Print};
use std::rc::Rc;
use std::rt::HostRuntime;

/// The descriptor of standard error.
const STANDARD_ERROR: i32 = 2;

/// From so many bytes on the lines that wait are written at once.
const ENOUGH: usize = 16_384;

/// How many bytes of lines are written to standard error at once. A pipe that has room has it for 4,096 bytes (POSIX,
/// `PIPE_BUF`, as Linux has it): for these, and a line that tells how many were dropped.
const PIPE_ROOM: usize = 4_000;

/// The log: a line for each request, and for what becomes of the program. Lines of requests wait for `flush`, so that
/// one call of the system writes many. A log that nobody reads stops nobody, and neither does a full disk: lines for
/// which there is no room then, or no memory, are dropped and counted; the next that is written tells how many were.
#[derive(Drop)]
pub struct Log {
    rt: HostRuntime,
    format: LogFormat,
    /// None is standard error.
    file: Option<LogFile>,
    /// The lines that wait, each with its end.
    waiting: Cell<Vec<u8>>,
    /// How many they are.
    count: Cell<u64>,
    /// The time of the last line.
    time: Cell<Option<TimeText>>,
    /// How many lines were dropped since one was written.
    dropped: Cell<u64>,
    /// How many were dropped before.
    dropped_before: Cell<u64>,
}

impl Log {
    /// A log without a line.
    fn new(rt: HostRuntime, format: LogFormat, file: Option<LogFile>) -> Log {
        Log {
            rt,
            format,
            file,
            waiting: Cell::new(Vec::new(rt.alloc())),
            count: Cell::new(0),
            time: Cell::new(None),
            dropped: Cell::new(0),
            dropped_before: Cell::new(0),
        }
    }

    /// Logs a request. It is written by the next `flush`.
    pub(crate) fn request(&self, noted: &Noted) {
        let line = self.line_of(noted);
        self.keep(line);
    }

    fn line_of(&self, noted: &Noted) -> Result<Line, AllocError> {
        let alloc = self.rt.alloc();
        let time = self.time_now()?;
        let bytes = match self.format {
            LogFormat::Text => text_line(alloc, &time, noted)?,
            LogFormat::Json => object_line(alloc, &time, noted)?,
        };
        self.time.set(Some(time));
        Line::new(alloc, bytes)
    }

    /// Logs what becomes of the program, at once.
    pub fn tell<D: Display + Drop>(&self, what: D) {
        let line = self.told(what);
        self.keep(line);
        self.flush();
    }

    fn told<D: Display + Drop>(&self, what: D) -> Result<Line, AllocError> {
        let alloc = self.rt.alloc();
        let what = format!(in alloc; "{what}")?.into_bytes();
        let time = self.time_now()?;
        let bytes = match self.format {
            LogFormat::Text => event_text(alloc, &time, &what)?,
            LogFormat::Json => event_object(alloc, &time, &what)?,
        };
        Line::new(alloc, bytes)
    }

    /// The time now; that of the last line, if its second has not passed.
    fn time_now(&self) -> Result<TimeText, AllocError> {
        let now = moment_now(&self.rt);
        match self.time.replace(None) {
            Some(time) if time.moment() == now => Ok(time),
            _ => TimeText::new(self.rt.alloc(), now),
        }
    }

    // ---- writing

    /// How many lines were dropped.
    pub(crate) fn dropped(&self) -> u64 {
        self.dropped_before.get().saturating_add(self.dropped.get())
    }

    /// Whether lines wait.
    pub(crate) fn has_lines(&self) -> bool {
        self.count.get() > 0
    }

    /// Has the line wait, or counts it as dropped. When enough wait, they are written.
    fn keep(&self, line: Result<Line, AllocError>) {
        let mut waiting = self.waiting.replace(Vec::new(self.rt.alloc()));
        let is_kept = match line {
            Ok(line) => push_line(&mut waiting, &line).is_ok(),
            Err(AllocError) => false,
        };
        let is_enough = waiting.len() >= ENOUGH;
        self.waiting.set(waiting);
        if is_kept {
            self.count.set(self.count.get().saturating_add(1));
        } else {
            self.drop_lines(1);
        }
        if is_enough {
            self.flush();
        }
    }

    /// Writes the lines that wait. Those for which there is no room now are dropped.
    pub(crate) fn flush(&self) {
        let mut waiting = self.waiting.replace(Vec::new(self.rt.alloc()));
        let count = self.count.replace(0);
        if count > 0 {
            match &self.file {
                Some(file) => self.write_to(file, &waiting, count),
                None => self.write_to_error(&waiting),
            }
        }
        waiting.clear();
        self.waiting.set(waiting);
    }

    /// Appends so many lines to the file, or drops them.
    fn write_to(&self, file: &LogFile, lines: &[u8], count: u64) {
        let second = moment_now(&self.rt).seconds();
        let is_written = match self.after_dropped(lines) {
            Ok(Some(bytes)) => file.is_written(second, &bytes),
            Ok(None) => file.is_written(second, lines),
            Err(AllocError) => false,
        };
        self.note_written(is_written, count);
    }

    /// Writes lines to standard error, as many at once as a pipe has room for.
    fn write_to_error(&self, lines: &[u8]) {
        let mut rest = lines;
        for _ in 0..lines.len() {
            if rest.is_empty() {
                return;
            }
            let (some, others) = rest.split_at(end_of_lines(rest));
            let is_written = match self.after_dropped(some) {
                Ok(Some(bytes)) => self.is_error_written(&bytes),
                Ok(None) => self.is_error_written(some),
                Err(AllocError) => false,
            };
            self.note_written(is_written, count_of(some));
            rest = others;
        }
    }

    fn is_error_written(&self, bytes: &[u8]) -> bool {
        has_room() && self.rt.stderr().write_all(bytes).is_ok()
    }

    /// The lines after one that tells how many were dropped, if some were.
    fn after_dropped(&self, lines: &[u8]) -> Result<Option<Vec<u8>>, AllocError> {
        let dropped = self.dropped.get();
        if dropped == 0 {
            return Ok(None);
        }
        let mut bytes = Vec::new(self.rt.alloc());
        push_line(
            &mut bytes,
            &self.told(format_args!("{dropped} lines were dropped"))?,
        )?;
        bytes.extend_from_slice(lines)?;
        Ok(Some(bytes))
    }

    /// So many lines were written, or are dropped.
    fn note_written(&self, is_written: bool, count: u64) {
        if is_written {
            self.dropped_before.set(self.dropped());
            self.dropped.set(0);
        } else {
            self.drop_lines(count);
        }
    }

    fn drop_lines(&self, count: u64) {
        self.dropped.set(self.dropped.get().saturating_add(count));
    }
}

/// Adds the line and its end, or nothing.
fn push_line(lines: &mut Vec<u8>, line: &Line) -> Result<(), AllocError> {
    lines.reserve(line.as_slice().len().saturating_add(1))?;
    lines.extend_from_slice(line.as_slice())?;
    lines.push(b'\n')?;
    Ok(())
}

/// Where the last line ends of those that a pipe has room for, or else the first one, which is longer than that.
fn end_of_lines(lines: &[u8]) -> usize
    ensures { result ≤ length lines.now }
{
    let room = lines.len().min(PIPE_ROOM);
    let last = lines[..room].iter().rposition(|byte| *byte == b'\n');
    let end = match last {
        Some(last) => Some(last),
        None => lines.iter().position(|byte| *byte == b'\n'),
    };
    end.map_or(lines.len(), |end| end.saturating_add(1))
        .min(lines.len())
}

/// How many lines they are.
fn count_of(lines: &[u8]) -> u64 {
    lines.iter().filter(|byte| **byte == b'\n').count() as u64
}

/// The log, if there is to be one; its first line says that the program is starting. If it is a file that cannot be
/// written now, a line on standard error says so. The only error is running out of memory.
pub fn begin_log(rt: &HostRuntime, settings: &Settings<'_>) -> Result<Option<Rc<Log>>, Fault>
    ensures { IfErr result (λ fault. fault ≡ Fault.Memory) }
{
    if !settings.logs {
        return Ok(None);
    }
    let file = match settings.log_file {
        Some(path) => Some(LogFile::new(*rt, String::from_str(rt.alloc(), path)?)),
        None => None,
    };
    let log = Rc::new(rt.alloc(), Log::new(*rt, settings.log_format, file))?;
    log.tell("starting");
    if let Some(path) = settings.log_file
        && log.dropped() > 0
    {
        let _ = eprintln!(rt; "the log {path} cannot be written");
    }
    Ok(Some(log))
}

/// The same log once more.
pub fn shared(log: &Option<Rc<Log>>) -> Result<Option<Rc<Log>>, Fault>
    ensures { IfErr result (λ fault. fault ≡ Fault.Memory) }
{
    Ok(log.clone()?)
}

/// Whether standard error takes a line at once, and somebody can read it.
fn has_room() -> bool {
    let mut asked = [pollfd {
        fd: STANDARD_ERROR,
        events: POLLOUT,
        revents: 0,
    }];
    poll(&mut asked, 0) == 1 && asked[0].revents == POLLOUT
}
