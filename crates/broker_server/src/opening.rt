//! What is said before a large database is opened.

ghost use Rattle.std.specs.Prelude.{◌≡◌, IfOk, option_map, string_bytes};
ghost use Rattle.broker_server.specs.Opening.{megabytes, opening_text};

use broker_types::Fault;
use server::{DatabaseFiles, Log, tell};
use std::alloc::{AllocError, Global};
use std::rc::Rc;
use std::rt::HostRuntime;

/// From so many bytes on a database takes a second or more to open.
const LARGE: u64 = 20_000_000;

/// The bytes of a megabyte.
const MEGABYTE: u64 = 1_000_000;

/// Says on standard error, or in the log, that a database is opened, if it is large. Nobody has to read it. The only
/// error is running out of memory.
pub(crate) fn tell_opening(
    rt: &HostRuntime,
    path: &str,
    log: &Option<Rc<Log>>,
) -> Result<(), Fault> {
    let Some(line) = opening_line(rt.alloc(), path, bytes_of(rt, path)?)? else {
        return Ok(());
    };
    tell(rt, log, line);
    Ok(())
}

/// The bytes of a database and of its log; a file that is not there has none.
fn bytes_of(rt: &HostRuntime, path: &str) -> Result<u64, AllocError> {
    let files = DatabaseFiles::at(rt.alloc(), path)?;
    let database = files.database_bytes(rt).unwrap_or(0);
    Ok(database.saturating_add(files.log_bytes(rt).unwrap_or(0)))
}

/// The line that says that a database of so many bytes is opened, without its end; none if it is not large.
fn opening_line(alloc: Global, path: &str, bytes: u64) -> Result<Option<String>, AllocError>
    ensures { IfOk result (λ line. option_map string_bytes line ≡ opening_text path.now bytes) }
{
    if bytes < LARGE {
        return Ok(None);
    }
    let size = megabytes(bytes);
    Ok(Some(format!(in alloc; "opening {path}: {size} MB")?))
}

/// So many bytes in megabytes, rounded.
fn megabytes(bytes: u64) -> u64
    ensures { result ≡ megabytes bytes }
{
    bytes / MEGABYTE + (bytes % MEGABYTE + MEGABYTE / 2) / MEGABYTE
}
