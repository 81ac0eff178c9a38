//! Command lines with the requests that they send, and lines that are no commands.

use api_client::request_of;
use command_line::{BodyWord, Line, NoCommand, arranged, command_of, example_of, line_of};
use std::alloc::{AllocError, Global};
use std::test::Fail;

/// The words of a command line. The first is the name of the program.
fn typed(alloc: Global, line: &[&str]) -> Result<Vec<String>, AllocError> {
    let mut words = Vec::new(alloc);
    words.push(String::from_str(alloc, "client")?)?;
    for word in line {
        words.push(String::from_str(alloc, word)?)?;
    }
    Ok(words)
}

/// The words of a command line, put in order.
fn words(alloc: Global, line: &[&str]) -> Result<Vec<String>, AllocError> {
    let typed = typed(alloc, line)?;
    arranged(alloc, typed.as_slice())
}

/// The words that give a body, none of which names a file or standard input.
fn body_words<'a>(alloc: Global, line: &Line<'a>) -> Result<Vec<BodyWord<'a>>, AllocError> {
    let mut words = Vec::new(alloc);
    let Some(typed) = line.words() else {
        return Ok(words);
    };
    for word in typed {
        words.push(BodyWord {
            word: *word,
            text: None,
        })?;
    }
    Ok(words)
}

/// Whether the words are a command that sends this.
fn sends(alloc: Global, line: &[&str], want: &str) -> Result<bool, Fail> {
    let line = words(alloc, line)?;
    let Ok(line) = line_of(alloc, line.as_slice()) else {
        return Ok(false);
    };
    let Ok(words) = body_words(alloc, &line) else {
        return Ok(false);
    };
    let Ok(command) = command_of(alloc, &line, words.as_slice()) else {
        return Ok(false);
    };
    let bytes = request_of(alloc, &command)?;
    Ok(bytes.as_slice() == want.as_bytes())
}

/// The first of these requests that its words do not send, if there is one.
fn first_unsent<'t>(alloc: Global, rows: &[(&[&str], &'t str)]) -> Result<Option<&'t str>, Fail> {
    for (line, want) in rows {
        if !sends(alloc, line, want)? {
            return Ok(Some(want));
        }
    }
    Ok(None)
}

/// Computes `arranged`, `client_app`, `line_read`, `command_in`, `sent`, `unwrap_object`, `Asks`.
#[test]
fn requests(rt: HostRuntime) -> Result<(), Fail> {
    let unsent = first_unsent(
        rt.alloc(),
        &[
            (
                &["--addr", "b", "--token", "hvs.x", "read", "cubbyhole/a b"],
                "GET /v1/cubbyhole/a%20b HTTP/1.1\r\nHost: b\r\nX-Vault-Token: hvs.x\r\nConnection: close\r\n\r\n",
            ),
            (
                &["--addr", "b", "--wrap-ttl", "60", "write", "cubbyhole/a"],
                "POST /v1/cubbyhole/a HTTP/1.1\r\nHost: b\r\nX-Vault-Wrap-TTL: 60\r\nConnection: close\r\n\
                Content-Length: 2\r\n\r\n{}",
            ),
            (
                &["--addr", "b", "--wrap-ttl", "60", "unwrap", "a\"b"],
                "POST /v1/sys/wrapping/unwrap HTTP/1.1\r\nHost: b\r\nX-Vault-Wrap-TTL: 60\r\nConnection: close\r\n\
                Content-Length: 16\r\n\r\n{\"token\":\"a\\\"b\"}",
            ),
            (
                &["kv", "get", "secret/app", "-addr=b", "--version", "3"],
                "GET /v1/secret/data/app?version=3 HTTP/1.1\r\nHost: b\r\nConnection: close\r\n\r\n",
            ),
            (
                &[
                    "--addr",
                    "b",
                    "kv",
                    "put",
                    "-cas",
                    "0",
                    "secret/app",
                    "k=v",
                    "n:=1",
                    "k=w",
                ],
                "POST /v1/secret/data/app HTTP/1.1\r\nHost: b\r\nConnection: close\r\n\
                Content-Length: 44\r\n\r\n{\"data\":{\"k\":\"w\",\"n\":1},\"options\":{\"cas\":0}}",
            ),
            (
                &[
                    "--addr", "b", "token", "create", "--policy", "a", "--policy", "b", "--ttl",
                    "1h",
                ],
                "POST /v1/auth/token/create HTTP/1.1\r\nHost: b\r\nConnection: close\r\n\
                Content-Length: 33\r\n\r\n{\"policies\":[\"a\",\"b\"],\"ttl\":\"1h\"}",
            ),
        ],
    )?;
    assert_eq!(rt; unsent, None);
    Ok(())
}

/// Whether the words are no command, and are told to the user.
fn is_usage(alloc: Global, line: &[&str]) -> Result<bool, Fail> {
    let line = words(alloc, line)?;
    match line_of(alloc, line.as_slice()) {
        Ok(line) => Ok(matches!(command_of(alloc, &line, &[]), Err(NoCommand::Usage(_)))),
        Err(error) => Ok(matches!(error, NoCommand::Usage(_))),
    }
}

/// The place of the first of these lines that is a command, or ends otherwise than by what is told to the user.
fn first_command(alloc: Global, lines: &[&[&str]]) -> Result<Option<usize>, Fail> {
    for (place, line) in lines.iter().enumerate() {
        if !is_usage(alloc, line)? {
            return Ok(Some(place));
        }
    }
    Ok(None)
}

/// Computes `line_read`, `command_in`, `IsNoLine`, `IsNoCommand`.
#[test]
fn wrong_command_lines(rt: HostRuntime) -> Result<(), Fail> {
    let first = first_command(
        rt.alloc(),
        &[
            &["read", "cubbyhole/a"],
            &["--addr", "b"],
            &["--addr", "", "read", "a"],
            &["--addr", "b", "--token", "a b", "read", "a"],
            &["--addr", "b", "read", "a//b"],
            &["--addr", "b", "read", "a", "b"],
            &["--addr", "b", "read", "unwrap", "--field"],
        ],
    )?;
    assert_eq!(rt; first, None);
    Ok(())
}

/// Whether this is the example for the words, of which the first is the name of the program.
fn has_example(alloc: Global, line: &[&str], has_server: bool, want: &str) -> Result<bool, Fail> {
    let words = typed(alloc, line)?;
    let example = example_of(alloc, words.as_slice(), has_server)?;
    Ok(example.as_str() == want)
}

/// Computes `command_words`, `example_of`.
#[test]
fn examples(rt: HostRuntime) -> Result<(), Fail> {
    let read = "Example: client read secret/data/app";
    assert!(rt; has_example(rt.alloc(), &["read", "a", "--field"], true, read)?);
    let lookup = "Example: VAULT_ADDR=http://127.0.0.1:8200 client token lookup --field ttl";
    assert!(rt; has_example(rt.alloc(), &["-wait", "3", "token", "show"], false, lookup)?);
    Ok(())
}
