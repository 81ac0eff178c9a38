//! What a backup is named, and which are older than those that are kept.

ghost use Rattle.std.specs.Prelude.{◌≡◌, ◌<◌, ◌&&◌, IfOk, count_by, map, string_bytes};
ghost use Rattle.std.specs.Char.{is_ascii_digit};
ghost use Rattle.std.specs.List.{list_all};
ghost use Rattle.backup.specs.Names.{is_backup, is_moment, is_newer, is_surplus, moment_text, named};

use broker_types::time_text;
use std::alloc::{AllocError, Global};

/// What the own name of a database ends with, mostly, and that of a backup always.
const ENDING: &str = ".db";

/// How many bytes a moment has in a name.
const MOMENT: usize = 16;

/// What the names of the backups of a file begin with: its own name, without its folder and without `.db`.
pub fn stem_of(path: &str) -> &str {
    let name = match path.rsplit_once('/') {
        Some((_, name)) => name,
        None => path,
    };
    name.strip_suffix(ENDING).unwrap_or(name)
}

/// The name of the backup of a file with this stem that was made so many seconds after the beginning of 1970: the stem,
/// and that moment as in `broker-20261201T022900Z.db`. It fails only if memory runs out.
pub fn backup_name(alloc: Global, stem: &str, seconds: u64) -> Result<String, AllocError>
    requires { seconds < 253_402_300_800 }
    ensures { IfOk result (λ name. string_bytes name ≡ named stem.now (moment_text seconds)) }
{
    let moment = moment_text(alloc, seconds)?;
    format!(in alloc; "{stem}-{moment}{ENDING}")
}

/// A moment as in `20261201T022900Z`: that of RFC 3339 without its signs.
fn moment_text(alloc: Global, seconds: u64) -> Result<String, AllocError>
    requires { seconds < 253_402_300_800 }
    ensures { IfOk result (λ moment. string_bytes moment ≡ moment_text seconds) }
{
    let time = time_text(alloc, seconds)?;
    let mut moment = String::new(alloc);
    for letter in time.as_str().chars() {
        if letter != '-' && letter != ':' {
            moment.push(letter)?;
        }
    }
    Ok(moment)
}

/// Whether this is the name of a backup of a file with this stem.
pub fn is_backup(stem: &str, name: &str) -> bool
    ensures { result ≡ is_backup stem.now name.now }
{
    let Some(rest) = name.as_bytes().strip_prefix(stem.as_bytes()) else {
        return false;
    };
    let Some(rest) = rest.strip_prefix(b"-".as_slice()) else {
        return false;
    };
    match rest.strip_suffix(ENDING.as_bytes()) {
        Some(moment) => is_moment(moment),
        None => false,
    }
}

/// Whether this is a moment as in `20261201T022900Z`.
fn is_moment(text: &[u8]) -> bool
    ensures { result ≡ is_moment text.now }
{
    text.len() == MOMENT
        && are_digits(&text[..8])
        && text[8] == b'T'
        && are_digits(&text[9..15])
        && text[15] == b'Z'
}

fn are_digits(text: &[u8]) -> bool
    ensures { result ≡ list_all is_ascii_digit text.now }
{
    text.iter().all(|byte| byte.is_ascii_digit())
}

/// Whether a backup of a file with this stem does not stay, where so many stay: as many of the names are of newer ones.
pub fn is_surplus(names: &[String], stem: &str, name: &str, keep: u32) -> bool
    ensures { result ≡ is_surplus (map string_bytes names.now) stem.now name.now keep }
{
    is_backup(stem, name) && keep as usize <= newer(names, stem, name)
}

/// How many of the names are of newer backups of a file with this stem.
fn newer(names: &[String], stem: &str, name: &str) -> usize
    ensures { result ≡ count_by (is_newer stem.now name.now) (map string_bytes names.now) }
{
    let mut count = 0usize;
    for other in names {
        if is_newer(stem, name, other.as_str()) {
            count += 1;
        }
    }
    count
}

/// Whether the other name is that of a newer backup of a file with this stem.
fn is_newer(stem: &str, name: &str, other: &str) -> bool
    ensures { result ≡ is_newer stem.now name.now other.now }
{
    is_backup(stem, other) && name < other
}
