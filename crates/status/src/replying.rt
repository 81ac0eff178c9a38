//! Replies to requests of operators, as bytes of HTTP/1.1.

ghost use Rattle.std.specs.Prelude.{◌≡◌, ◌++◌, [], length, IfOk, OnOk, option_map};
ghost use Rattle.httpdate.specs.Date.{date_text, unix_secs};
ghost use Rattle.http_layer.specs.Reply.{date_line};
ghost use Rattle.status.specs.Replies.{allow_line, health_code, IsReplyTo, reply_head, reply_to, shown_code};
ghost use Rattle.status.specs.Replies.{sent_body, shown_text, status_line, type_line};

use crate::counters::Counters;
use crate::figures::{Figures, State};
use crate::health::health_text;
use crate::metrics::metrics_text;
use crate::numbers::put_whole;
use crate::page::page_text;
use crate::printing::put;
use crate::target::{Asked, Code, Shown, read_asked};
use broker_types::Moment;
use httpdate::HttpDate;
use std::alloc::{AllocError, Global};

/// The reply to the request whose head these bytes are; none if more of them are needed. GET and HEAD show `/health`,
/// `/v1/sys/health`, `/metrics` and `/`; another path is 404, another method 405. Bytes that are no head are refused as
/// `http_layer` does (400, 413, 501), and more than 2,048 of them with 431. After each reply the connection closes. The
/// only error is running out of memory.
pub fn reply(
    alloc: Global,
    head: &[u8],
    counters: &Counters,
    figures: &Figures<'_>,
) -> Result<Option<Vec<u8>>, AllocError>
    ensures { IfOk result (λ reply.
        IsReplyTo head.now counters.now figures.entry.now (option_map (λ bytes. bytes.items) reply)) }
{
    let asked = read_asked(head);
    let date = date_of(figures.now);
    let reply = reply_to(alloc, asked, counters, figures, date)?;
    Ok(reply)
}

fn date_of(moment: Moment) -> HttpDate
    ensures { unix_secs result ≡ moment }
{
    HttpDate::from_unix_secs(moment.seconds()).unwrap()
}

/// The reply to what is asked for.
fn reply_to(
    alloc: Global,
    asked: Asked,
    counters: &Counters,
    figures: &Figures<'_>,
    date: HttpDate,
) -> Result<Option<Vec<u8>>, AllocError>
    ensures { IfOk result (λ reply. option_map (λ bytes. bytes.items) reply
        ≡ reply_to asked counters.now figures.entry.now (date_text date)) }
{
    match asked {
        Asked::Unended => Ok(None),
        Asked::Nothing(code) => Ok(Some(reply_head(alloc, code, date, "", 0)?)),
        Asked::Shown(shown, sends_body) => {
            let body = shown_text(alloc, shown, counters, figures)?;
            let code = shown_code(shown, figures.state);
            Ok(Some(shown_reply(alloc, code, shown, sends_body, date, &body)?))
        }
    }
}

/// The reply that shows a text.
fn shown_reply(
    alloc: Global,
    code: Code,
    shown: Shown,
    sends_body: bool,
    date: HttpDate,
    body: &[u8],
) -> Result<Vec<u8>, AllocError>
    ensures { IfOk result (λ reply. reply.items
        ≡ reply_head code (date_text date) (type_line shown) (length body.now) ++ sent_body sends_body body.now) }
{
    let mut reply = reply_head(alloc, code, date, type_line(shown), body.len() as u64)?;
    if sends_body {
        reply.extend_from_slice(body)?;
    }
    Ok(reply)
}

/// What is shown.
fn shown_text(
    alloc: Global,
    shown: Shown,
    counters: &Counters,
    figures: &Figures<'_>,
) -> Result<Vec<u8>, AllocError>
    ensures { IfOk result (λ text. text.items ≡ shown_text shown counters.now figures.entry.now) }
{
    match shown {
        Shown::Health => health_text(alloc, figures),
        Shown::Metrics => metrics_text(alloc, counters, figures),
        Shown::Page => page_text(alloc, counters, figures),
    }
}

/// The head of a reply.
#[tactic(auto, unfolding(crate::specs::Replies::reply_head))]
fn reply_head(
    alloc: Global,
    code: Code,
    date: HttpDate,
    type_line: &str,
    len: u64,
) -> Result<Vec<u8>, AllocError>
    ensures { IfOk result (λ head. head.items ≡ reply_head code (date_text date) type_line.now len) }
{
    let mut head = Vec::with_capacity(alloc, 320)?;
    put(&mut head, status_line(code))?;
    put_date(&mut head, date)?;
    put(&mut head, allow_line(code))?;
    put(
        &mut head,
        "Cache-Control: no-store\r\nConnection: close\r\n",
    )?;
    put(&mut head, type_line)?;
    put(&mut head, "Content-Length: ")?;
    put_whole(&mut head, len)?;
    put(&mut head, "\r\n\r\n")?;
    Ok(head)
}

fn put_date(head: &mut Vec<u8>, date: HttpDate) -> Result<(), AllocError>
    ensures { OnOk result (head.new.items ≡ head.old.items ++ date_line (date_text date)) }
{
    put(head, "Date: ")?;
    head.extend_from_slice(&date.to_bytes())?;
    put(head, "\r\n")
}

fn status_line(code: Code) -> &'static str
    ensures { result.now ≡ status_line code }
{
    match code {
        Code::Success => "HTTP/1.1 200 OK\r\n",
        Code::BadRequest => "HTTP/1.1 400 Bad Request\r\n",
        Code::NotFound => "HTTP/1.1 404 Not Found\r\n",
        Code::MethodNotAllowed => "HTTP/1.1 405 Method Not Allowed\r\n",
        Code::ContentTooLarge => "HTTP/1.1 413 Content Too Large\r\n",
        Code::HeaderFieldsTooLarge => "HTTP/1.1 431 Request Header Fields Too Large\r\n",
        Code::NotImplemented => "HTTP/1.1 501 Not Implemented\r\n",
        Code::ServiceUnavailable => "HTTP/1.1 503 Service Unavailable\r\n",
    }
}

/// The methods that there are, if the method is why the request is refused.
fn allow_line(code: Code) -> &'static str
    ensures { result.now ≡ allow_line code }
{
    match code {
        Code::MethodNotAllowed => "Allow: GET, HEAD\r\n",
        Code::Success
        | Code::BadRequest
        | Code::NotFound
        | Code::ContentTooLarge
        | Code::HeaderFieldsTooLarge
        | Code::NotImplemented
        | Code::ServiceUnavailable => "",
    }
}

/// The type of what is shown.
fn type_line(shown: Shown) -> &'static str
    ensures { result.now ≡ type_line shown }
{
    match shown {
        Shown::Health => "Content-Type: application/json\r\n",
        Shown::Metrics => "Content-Type: text/plain; version=0.0.4; charset=utf-8\r\n",
        Shown::Page => "Content-Type: text/html; charset=utf-8\r\n",
    }
}

/// The status of what is shown.
fn shown_code(shown: Shown, state: State) -> Code
    ensures { result ≡ shown_code shown state }
{
    match shown {
        Shown::Health => health_code(state),
        Shown::Metrics | Shown::Page => Code::Success,
    }
}

/// 200 while requests are served, else 503.
fn health_code(state: State) -> Code
    ensures { result ≡ health_code state }
{
    match state {
        State::Serving => Code::Success,
        State::Opening | State::Stopping => Code::ServiceUnavailable,
    }
}
