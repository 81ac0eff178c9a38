//! What is read for a command: files, and standard input.

ghost use Rattle.std.specs.Prelude.{◌≡◌, ◌++◌, [], IfOk, OnOk, map, unwrap_or};
ghost use Rattle.command_line.specs.Meaning.{words_entered};

use crate::environment::mistake;
use crate::stopped::Stopped;
use api_client::Failure;
use broker_types::TextBuf;
use command_line::{BodyWord, Line, Origin, Task, first_line, origin_of, policy_mistake};
use std::fs::{self, File};
use std::io::{self, Read};
use std::os::unix::fs::PermissionsExt;
use std::rt::HostRuntime;

/// The greatest length of a body that is sent, in bytes.
const LONGEST_BODY: usize = 1_048_576;

/// The words that give the body, each with the text that is read for it if it names a file or standard input. It fails
/// if a file cannot be read, if standard input is named twice, if a text is not UTF-8 or longer than a body can be, or
/// if the text of a policy has not the form of one.
pub(crate) fn body_words<'a>(
    rt: &HostRuntime,
    line: &Line<'a>,
) -> Result<Vec<BodyWord<'a>>, Stopped>
    ensures { IfOk result (λ words. map (λ w. w.word.now) words.items ≡ unwrap_or (words_entered line.now.1) []) }
{
    let mut words = Vec::new(rt.alloc());
    let Some(typed) = line.words() else {
        return Ok(words);
    };
    read_words(rt, typed, line.task() == Task::WritePolicy, &mut words)?;
    Ok(words)
}

/// Adds words at the end, each with the text that is read for it.
fn read_words<'a>(
    rt: &HostRuntime,
    typed: &[&'a str],
    is_policy: bool,
    words: &mut Vec<BodyWord<'a>>,
) -> Result<(), Stopped>
    ensures { OnOk result (map (λ w. w.word.now) words.new.items
        ≡ map (λ w. w.word.now) words.old.items ++ map (λ t. t.now) typed.now) }
{
    let mut has_input = false;
    for word in typed {
        let word = match read_word(rt, *word, is_policy, &mut has_input) {
            Ok(word) => word,
            Err(stopped) => return Err(stopped),
        };
        if words.push(word).is_err() {
            return Err(Stopped::Failure(Failure::Memory));
        }
    }
    Ok(())
}

/// A word with the text that is read for it. Standard input is read once.
fn read_word<'a>(
    rt: &HostRuntime,
    word: &'a str,
    is_policy: bool,
    has_input: &mut bool,
) -> Result<BodyWord<'a>, Stopped>
    ensures { IfOk result (λ w. w.word.now ≡ word.now) }
{
    let origin = if is_policy {
        Some(policy_origin(word))
    } else {
        origin_of(word)
    };
    if let Some(Origin::Input) = origin {
        if *has_input {
            return Err(named_twice(rt));
        }
        *has_input = true;
    }
    let text = read(rt, word, origin)?;
    if is_policy && let Some(text) = &text {
        check_policy(rt, word, text.as_str())?;
    }
    Ok(BodyWord { word, text })
}

/// What the user is told who has standard input read twice.
fn named_twice(rt: &HostRuntime) -> Stopped {
    match String::from_str(
        rt.alloc(),
        "standard input is named twice: name it once, as in password=-",
    ) {
        Ok(text) => Stopped::Mistake(text),
        Err(error) => error.into(),
    }
}

/// Where the text of a policy comes from.
fn policy_origin<'a>(word: &'a str) -> Origin<'a> {
    if word == "-" {
        Origin::Input
    } else {
        Origin::File(word)
    }
}

/// The text that is read for a word, if it names where to read it.
fn read(
    rt: &HostRuntime,
    word: &str,
    origin: Option<Origin<'_>>,
) -> Result<Option<TextBuf>, Stopped> {
    match origin {
        Some(Origin::File(name)) => Ok(Some(TextBuf::new(file_text(rt, name)?))),
        Some(Origin::Input) => {
            let text = text_of(rt, "BODY on standard input", rt.reader())?;
            if word == "-" && text.starts_with('-') {
                return mistake(
                    rt.alloc(),
                    "BODY on standard input begins with -, and is no JSON",
                );
            }
            Ok(Some(TextBuf::new(text)))
        }
        None => Ok(None),
    }
}

/// Says what is wrong with the text of a policy, and where.
fn check_policy(rt: &HostRuntime, name: &str, text: &str) -> Result<(), Stopped> {
    match policy_mistake(rt.alloc(), text)? {
        Some(found) => Err(Stopped::Mistake(format!(in rt.alloc();
            "{name}:{}:{}: {}",
            found.line, found.column, found.what
        )?)),
        None => Ok(()),
    }
}

/// The client token in the first line of a file. There is a warning if other users can read or change the file.
pub(crate) fn token_in_file(rt: &HostRuntime, name: &str) -> Result<String, Stopped> {
    let text = file_text(rt, name)?;
    if let Ok(found) = fs::metadata(rt, name)
        && found.permissions().mode() & 0o077 != 0
    {
        let _ = eprintln!(rt;
            "client: warning: other users can read or change {name}: chmod 600 {name}"
        );
    }
    let token = first_line(text.as_str());
    if token.is_empty() {
        return Err(Stopped::Mistake(format!(in rt.alloc();
            "the first line of {name} is empty: it is the client token"
        )?));
    }
    Ok(String::from_str(rt.alloc(), token)?)
}

/// The text of a file.
fn file_text(rt: &HostRuntime, name: &str) -> Result<String, Stopped> {
    match File::open(rt, name) {
        Ok(file) => text_of(rt, name, file),
        Err(error) => unread(rt, name, &error),
    }
}

/// The text of a reader, which is at most a body.
fn text_of<I: Read + Drop>(rt: &HostRuntime, name: &str, input: I) -> Result<String, Stopped> {
    let mut bytes = Vec::new(rt.alloc());
    match input.take(LONGEST_BODY as u64 + 1).read_to_end(&mut bytes) {
        Ok(_) => {}
        Err(error) => return unread(rt, name, &error),
    }
    if bytes.len() > LONGEST_BODY {
        return Err(Stopped::Mistake(format!(in rt.alloc();
            "{name} is longer than 1048576 bytes"
        )?));
    }
    match String::from_utf8(bytes) {
        Ok(text) => Ok(text),
        Err(_) => Err(Stopped::Mistake(format!(in rt.alloc(); "{name} is not UTF-8")?)),
    }
}

/// Why something cannot be read: a fault where it is standard input, else a mistake that names the file.
fn unread<T>(rt: &HostRuntime, name: &str, error: &io::Error) -> Result<T, Stopped> {
    if error.kind() == io::ErrorKind::OutOfMemory {
        return Err(Stopped::Failure(Failure::Memory));
    }
    if name == "BODY on standard input" {
        return Err(Stopped::Failure(Failure::Unreached));
    }
    Err(Stopped::Mistake(format!(in rt.alloc(); "{name}: {error}")?))
}
