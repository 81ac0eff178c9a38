//! Lines of the log, for people and for machines.

ghost use Rattle.std.specs.Prelude.{◌≡◌, ◌++◌, [], IfOk, OnOk, decimal, map};
ghost use Rattle.std.specs.Net.Text.{socket_text, socket_v4_text};
ghost use Rattle.server.specs.LogLine.{asked_text, event_object, event_text, identifier_text, method_member};
ghost use Rattle.server.specs.LogLine.{method_of, moment_of, object_line, path_member, plain_byte, shown_byte};
ghost use Rattle.server.specs.LogLine.{shown_path, shown_segment, status_text, text_line};

use crate::notes::Noted;
use crate::time_text::TimeText;
use broker_types::{Ask, Verb};
use itoa::Buffer;
use std::alloc::{AllocError, Global};
use std::net::{SocketAddr, SocketAddrV4};

/// What a request asked, as the log shows it.
#[derive(Drop)]
pub(crate) struct Asked {
    verb: Verb,
    /// The path, as it is shown.
    path: Vec<u8>,
}

impl Asked {
    ghost use Rattle.server.specs.LogLine.{asked_of};

    /// What the log shows of the request.
    pub(crate) fn new(alloc: Global, ask: &Ask<'_>) -> Result<Asked, AllocError>
        ensures { IfOk result (λ asked. asked_of asked ≡ (ask.now.verb, shown_path [] ask.now.path)) }
    {
        let path = shown(alloc, ask.path.as_str().as_bytes())?;
        Ok(Asked {
            verb: ask.verb,
            path,
        })
    }
}

/// A line of the log for people: the time, the status of the reply, the milliseconds that it took, the method and the
/// path; the address of the peer, the accessor of the token that was used, the identifier that the reply has for the
/// request, and the bytes that were read for it and those of the reply. There is `-` for what is not there: a reply
/// after a fault, a request that was refused before its path was read, a token. Nothing else of a request can be in it.
pub(crate) fn text_line(
    alloc: Global,
    time: &TimeText,
    noted: &Noted,
) -> Result<Vec<u8>, AllocError>
    ensures { IfOk result (λ line. line.items ≡ text_line (moment_of time.now) noted.now) }
{
    let mut line = Vec::with_capacity(alloc, 256)?;
    line.extend_from_slice(time.as_bytes())?;
    line.extend_from_slice(b" ")?;
    push_status(&mut line, noted.status, b"-")?;
    line.extend_from_slice(b" ")?;
    push_decimal(&mut line, noted.micros / 1_000)?;
    line.extend_from_slice(b"ms ")?;
    push_asked(&mut line, &noted.asked)?;
    line.extend_from_slice(b" peer=")?;
    push_address(alloc, &mut line, noted.traffic.peer)?;
    line.extend_from_slice(b" accessor=")?;
    push_identifier(&mut line, &noted.accessor, b"", b"-")?;
    line.extend_from_slice(b" request_id=")?;
    push_identifier(&mut line, &noted.request_id, b"", b"-")?;
    line.extend_from_slice(b" in=")?;
    push_decimal(&mut line, noted.traffic.bytes_in)?;
    line.extend_from_slice(b" out=")?;
    push_decimal(&mut line, noted.traffic.bytes_out)?;
    Ok(line)
}

/// The same for machines: a JSON object (RFC 8259), with `null` for what is not there, and the time that it took in
/// microseconds. No text in it has a byte that JSON escapes.
pub(crate) fn object_line(
    alloc: Global,
    time: &TimeText,
    noted: &Noted,
) -> Result<Vec<u8>, AllocError>
    ensures { IfOk result (λ line. line.items ≡ object_line (moment_of time.now) noted.now) }
{
    let mut line = Vec::with_capacity(alloc, 512)?;
    line.extend_from_slice(b"{\"time\":\"")?;
    line.extend_from_slice(time.as_bytes())?;
    line.extend_from_slice(b"\",\"status\":")?;
    push_status(&mut line, noted.status, b"null")?;
    line.extend_from_slice(b",\"micros\":")?;
    push_decimal(&mut line, noted.micros)?;
    push_method_member(&mut line, &noted.asked)?;
    push_path_member(&mut line, &noted.asked)?;
    line.extend_from_slice(b",\"peer\":\"")?;
    push_address(alloc, &mut line, noted.traffic.peer)?;
    line.extend_from_slice(b"\",\"accessor\":")?;
    push_identifier(&mut line, &noted.accessor, b"\"", b"null")?;
    line.extend_from_slice(b",\"request_id\":")?;
    push_identifier(&mut line, &noted.request_id, b"\"", b"null")?;
    line.extend_from_slice(b",\"bytes_in\":")?;
    push_decimal(&mut line, noted.traffic.bytes_in)?;
    line.extend_from_slice(b",\"bytes_out\":")?;
    push_decimal(&mut line, noted.traffic.bytes_out)?;
    line.extend_from_slice(b"}")?;
    Ok(line)
}

/// A line that tells people what became of the program.
pub(crate) fn event_text(
    alloc: Global,
    time: &TimeText,
    event: &[u8],
) -> Result<Vec<u8>, AllocError>
    ensures { IfOk result (λ line. line.items ≡ event_text (moment_of time.now) event.now) }
{
    let mut line = Vec::new(alloc);
    line.extend_from_slice(time.as_bytes())?;
    line.extend_from_slice(b" ")?;
    push_plain(&mut line, event)?;
    Ok(line)
}

/// The same for machines.
pub(crate) fn event_object(
    alloc: Global,
    time: &TimeText,
    event: &[u8],
) -> Result<Vec<u8>, AllocError>
    ensures { IfOk result (λ line. line.items ≡ event_object (moment_of time.now) event.now) }
{
    let mut line = Vec::new(alloc);
    line.extend_from_slice(b"{\"time\":\"")?;
    line.extend_from_slice(time.as_bytes())?;
    line.extend_from_slice(b"\",\"event\":\"")?;
    push_plain(&mut line, event)?;
    line.extend_from_slice(b"\"}")?;
    Ok(line)
}

// ---- the parts of a line

/// Adds the status of the reply, or what stands for none.
fn push_status(line: &mut Vec<u8>, status: Option<u16>, absent: &[u8]) -> Result<(), AllocError>
    ensures { OnOk result (line.new.items ≡ line.old.items ++ status_text absent.now status) }
{
    match status {
        Some(code) => push_decimal(line, u64::from(code)),
        None => line.extend_from_slice(absent),
    }
}

/// Adds a number.
fn push_decimal(line: &mut Vec<u8>, number: u64) -> Result<(), AllocError>
    ensures { OnOk result (line.new.items ≡ line.old.items ++ decimal number) }
{
    let mut digits = Buffer::new();
    line.extend_from_slice(digits.format(number).as_bytes())
}

/// Adds an address.
fn push_address(alloc: Global, line: &mut Vec<u8>, address: SocketAddr) -> Result<(), AllocError>
    ensures { OnOk result (line.new.items ≡ line.old.items ++ socket_text address) }
{
    match address {
        SocketAddr::V4(address) => push_v4(line, address),
        SocketAddr::V6(address) => {
            let text = format!(in alloc; "{address}")?;
            line.extend_from_slice(text.as_bytes())
        }
    }
}

/// Adds an address of IPv4. A format would take longer than all else in a line.
fn push_v4(line: &mut Vec<u8>, address: SocketAddrV4) -> Result<(), AllocError>
    ensures { OnOk result (line.new.items ≡ line.old.items ++ socket_v4_text address) }
{
    let [a, b, c, d] = address.ip().octets();
    push_decimal(line, u64::from(a))?;
    line.extend_from_slice(b".")?;
    push_decimal(line, u64::from(b))?;
    line.extend_from_slice(b".")?;
    push_decimal(line, u64::from(c))?;
    line.extend_from_slice(b".")?;
    push_decimal(line, u64::from(d))?;
    line.extend_from_slice(b":")?;
    push_decimal(line, u64::from(address.port()))
}

/// Adds an identifier between these marks, or what stands for none.
fn push_identifier(
    line: &mut Vec<u8>,
    identifier: &Option<[u8; 36]>,
    mark: &[u8],
    absent: &[u8],
) -> Result<(), AllocError>
    ensures { OnOk result (line.new.items ≡ line.old.items ++ identifier_text mark.now absent.now identifier.now) }
{
    let Some(identifier) = identifier else {
        return line.extend_from_slice(absent);
    };
    line.extend_from_slice(mark)?;
    line.extend_from_slice(identifier)?;
    line.extend_from_slice(mark)
}

/// Adds the member for the method.
fn push_method_member(line: &mut Vec<u8>, asked: &Option<Asked>) -> Result<(), AllocError>
    ensures { OnOk result (line.new.items ≡ line.old.items ++ method_member asked.now) }
{
    let Some(asked) = asked else {
        return line.extend_from_slice(b",\"method\":null");
    };
    line.extend_from_slice(b",\"method\":\"")?;
    line.extend_from_slice(method(asked.verb).as_bytes())?;
    line.extend_from_slice(b"\"")
}

/// Adds the member for the path.
fn push_path_member(line: &mut Vec<u8>, asked: &Option<Asked>) -> Result<(), AllocError>
    ensures { OnOk result (line.new.items ≡ line.old.items ++ path_member asked.now) }
{
    let Some(asked) = asked else {
        return line.extend_from_slice(b",\"path\":null");
    };
    line.extend_from_slice(b",\"path\":\"/v1/")?;
    line.extend_from_slice(&asked.path)?;
    line.extend_from_slice(b"\"")?;
    Ok(())
}

/// Adds what became of the program, without what JSON escapes.
fn push_plain(line: &mut Vec<u8>, event: &[u8]) -> Result<(), AllocError>
    ensures { OnOk result (line.new.items ≡ line.old.items ++ map plain_byte event.now) }
{
    for byte in event {
        line.push(plain_byte(*byte))?;
    }
    Ok(())
}

/// The byte; `?` in place of what JSON escapes, and of DEL.
fn plain_byte(byte: u8) -> u8
    ensures { result ≡ plain_byte byte }
{
    if byte < b' ' || byte == 0x7F || byte == b'"' || byte == b'\\' {
        b'?'
    } else {
        byte
    }
}

/// Adds the method and the path, if they were read.
fn push_asked(line: &mut Vec<u8>, asked: &Option<Asked>) -> Result<(), AllocError>
    ensures { OnOk result (line.new.items ≡ line.old.items ++ asked_text asked.now) }
{
    let Some(asked) = asked else {
        return line.extend_from_slice(b"- -");
    };
    line.extend_from_slice(method(asked.verb).as_bytes())?;
    line.extend_from_slice(b" /v1/")?;
    line.extend_from_slice(&asked.path)
}

/// The method of requests with the verb.
fn method(verb: Verb) -> &'static str
    ensures { result.now ≡ method_of verb }
{
    match verb {
        Verb::Get => "GET",
        Verb::List => "LIST",
        Verb::Write => "POST",
        Verb::Delete => "DELETE",
    }
}

/// The path, as it is shown.
fn shown(alloc: Global, path: &[u8]) -> Result<Vec<u8>, AllocError>
    ensures { IfOk result (λ shown. shown.items ≡ shown_path [] path.now) }
{
    let mut shown = Vec::new(alloc);
    let mut start = 0;
    for (i, byte) in path.iter().enumerate() {
        if *byte == b'/' {
            push_segment(&mut shown, &path[start..i])?;
            shown.push(b'/')?;
            start = i + 1;
        }
    }
    push_segment(&mut shown, &path[start..])?;
    Ok(shown)
}

/// Adds a segment of a path, as it is shown.
fn push_segment(shown: &mut Vec<u8>, segment: &[u8]) -> Result<(), AllocError>
    ensures { OnOk result (shown.new.items ≡ shown.old.items ++ shown_segment segment.now) }
{
    if segment.starts_with(b"hvs.") {
        return shown.extend_from_slice(b"hvs.*");
    }
    for byte in segment {
        shown.push(shown_byte(*byte))?;
    }
    Ok(())
}

/// The byte, as it is shown.
fn shown_byte(byte: u8) -> u8
    ensures { result ≡ shown_byte byte }
{
    if byte > b' ' && byte < 0x7F && byte != b'"' && byte != b'\\' {
        byte
    } else {
        b'?'
    }
}
