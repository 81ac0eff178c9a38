//! A log that is a file.

use std::alloc::Global;
use std::cell::Cell;
use std::fs;
use std::fs::File;
use std::io::Write;
use std::os::unix::fs::{MetadataExt, OpenOptionsExt};
use std::rt::HostRuntime;

/// A file to which lines are appended. It is opened anew if it was moved away, as for a rotation, which is looked at
/// once in each second in which a line is written. Only its owner can read it.
#[derive(Drop)]
pub(crate) struct LogFile {
    rt: HostRuntime,
    path: String,
    file: Cell<Option<File>>,
    /// The second in which it was looked at last.
    looked_at: Cell<Option<u64>>,
}

impl LogFile {
    /// The file of this name, which is not opened yet.
    pub(crate) fn new(rt: HostRuntime, path: String) -> LogFile {
        LogFile {
            rt,
            path,
            file: Cell::new(None),
            looked_at: Cell::new(None),
        }
    }

    /// Appends the bytes, in this second. Whether all were; if not, none is.
    pub(crate) fn is_written(&self, second: u64, bytes: &[u8]) -> bool {
        if self.looked_at.replace(Some(second)) != Some(second) {
            self.open_if_moved();
        }
        let Some(file) = self.file.replace(None) else {
            return false;
        };
        let is_written = is_appended(&file, bytes);
        self.file.set(Some(file));
        is_written
    }

    /// Opens the file that has the name now, unless it is the one that is open. What is no file, as a pipe, is not
    /// opened, since that can wait.
    fn open_if_moved(&self) {
        let named = fs::metadata(&self.rt, self.path.as_str());
        let file = match (self.file.replace(None), &named) {
            (Some(file), Ok(named)) if is_same(&file, named) => Some(file),
            (_, Ok(named)) if !named.is_file() => None,
            _ => File::options()
                .append(true)
                .create(true)
                .mode(0o600)
                .open(&self.rt, self.path.as_str())
                .ok(),
        };
        self.file.set(file);
    }
}

/// Whether the file is the one with this metadata.
fn is_same(file: &File, named: &fs::Metadata) -> bool {
    match file.metadata() {
        Ok(found) => found.dev() == named.dev() && found.ino() == named.ino(),
        Err(_) => false,
    }
}

/// Appends the bytes. If there is no room for all, what was written of them is taken back, so that each line is whole.
fn is_appended(mut file: &File, bytes: &[u8]) -> bool {
    match file.write(bytes) {
        Ok(count) if count == bytes.len() => true,
        Ok(count) => {
            if let Ok(found) = file.metadata() {
                let _ = file.set_len(found.len().saturating_sub(count as u64));
            }
            false
        }
        Err(_) => false,
    }
}
