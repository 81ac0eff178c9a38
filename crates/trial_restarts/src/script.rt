//! Scripts of replays, read from standard input.

use endpoints::Source;
use replay::{Exit, Script, Unread, read_script, read_to_end};
use std::alloc::Global;

/// The script that the lines of the source are, up to the first that is bad. It fails as a replay of them does if
/// memory runs out, a read fails, or the first line is bad.
pub(crate) fn script_of<R: Source>(alloc: Global, reader: &mut R) -> Result<Script, Exit> {
    let input = match read_to_end(alloc, reader) {
        Ok(input) => input,
        Err(Unread::Memory) => return Err(Exit::Faulted(1)),
        Err(Unread::Failed) => return Err(Exit::Faulted(5)),
    };
    match read_script(alloc, input.as_slice()) {
        Ok(Some(script)) => Ok(script),
        Ok(None) => Err(Exit::BadLine(1)),
        Err(_) => Err(Exit::Faulted(1)),
    }
}

/// The same, if no line is bad.
pub(crate) fn whole_script_of<R: Source>(alloc: Global, reader: &mut R) -> Result<Script, Exit> {
    let script = script_of(alloc, reader)?;
    if script.is_cut {
        Err(Exit::BadLine((script.events.len() as u64).saturating_add(2)))
    } else {
        Ok(script)
    }
}
