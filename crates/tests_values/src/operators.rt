//! What operators see of a server. `tests/served/status.py` asks a running one.

use broker_types::Moment;
use status::{
    AtStart, Closing, Counters, Figures, Kind, State, Storage, Timed, health_text, metrics_text,
    page_text, reply,
};
use std::alloc::{AllocError, Global};
use std::process::Abort;
use std::test::Fail;

/// Figures of a server that serves a file since 2023-11-14T22:13:20Z, an hour and a second later.
fn figures(rt: &impl Abort, state: State) -> Figures<'static> {
    Figures {
        version: "1.2\"<3>",
        started: Moment::new(1_700_000_000).expect(rt, "a moment"),
        now: Moment::new(1_700_003_601).expect(rt, "a moment"),
        state,
        storage: Storage::File,
        connections: 3,
        at_once: 1_024,
        database_bytes: Some(4_096),
        log_bytes: None,
        commits: Some(Timed {
            times: 7,
            micros: 1_000_009,
        }),
        clock_ahead: Some(0),
        at_start: Some(AtStart {
            tokens: 2,
            secrets: 5,
            responses: 0,
        }),
        resident_bytes: Some(8_388_608),
        last_fault: Some(1),
    }
}

/// A connection that was accepted and one that was closed, four requests, a fault and two lines.
fn counters() -> Counters {
    let mut counters = Counters::new();
    counters.accepted();
    counters.closed(Closing::Idle);
    counters.answered(Some(200), Kind::Read, 500);
    counters.answered(Some(200), Kind::Read, 501);
    counters.answered(None, Kind::Write, 11_000_000);
    counters.answered(Some(418), Kind::Refused, 12);
    counters.faulted(1);
    counters.dropped(2);
    counters
}

/// The reply to the head while the server serves.
fn replied(alloc: Global, head: &[u8], figures: &Figures<'_>) -> Result<Vec<u8>, AllocError> {
    match reply(alloc, head, &counters(), figures)? {
        Some(bytes) => Ok(bytes),
        None => Ok(Vec::new(alloc)),
    }
}

fn has(text: &[u8], part: &[u8]) -> bool {
    text.windows(part.len()).any(|bytes| bytes == part)
}

/// What each line says was computed by hand, and all lines are valid for `promtool check metrics` of Prometheus 2.42.
#[test]
fn metrics_are_lines(rt: HostRuntime) -> Result<(), Fail> {
    let text = metrics_text(rt.alloc(), &counters(), &figures(&rt, State::Serving))?;
    let lines: [&[u8]; 22] = [
        b"# HELP dehluvima_requests_total Requests, by the status of the reply; none after a fault.\n\
        # TYPE dehluvima_requests_total counter\n",
        b"\ndehluvima_requests_total{status=\"200\"} 2\n",
        b"\ndehluvima_requests_total{status=\"403\"} 0\n",
        b"\ndehluvima_requests_total{status=\"none\"} 1\n",
        b"\ndehluvima_requests_total{status=\"other\"} 1\n",
        b"\n# TYPE dehluvima_request_seconds histogram\n",
        b"\ndehluvima_request_seconds_bucket{kind=\"read\",le=\"0.0005\"} 1\n",
        b"\ndehluvima_request_seconds_bucket{kind=\"read\",le=\"0.001\"} 2\n",
        b"\ndehluvima_request_seconds_bucket{kind=\"read\",le=\"+Inf\"} 2\n",
        b"\ndehluvima_request_seconds_bucket{kind=\"write\",le=\"10\"} 0\n",
        b"\ndehluvima_request_seconds_bucket{kind=\"write\",le=\"+Inf\"} 1\n",
        b"\ndehluvima_request_seconds_sum{kind=\"read\"} 0.001001\n",
        b"\ndehluvima_request_seconds_sum{kind=\"write\"} 11.000000\n",
        b"\ndehluvima_request_seconds_count{kind=\"refused\"} 1\n",
        b"\ndehluvima_connections_closed_total{reason=\"idle\"} 1\n",
        b"\ndehluvima_faults_total{fault=\"1\"} 1\n",
        b"\n# TYPE dehluvima_database_bytes gauge\ndehluvima_database_bytes 4096\n",
        b"\ndehluvima_commit_seconds_total 1.000009\n",
        b"\ndehluvima_secrets_at_start 5\n",
        b"\ndehluvima_build_info{version=\"1.2\\\"<3>\"} 1\n",
        b"\nprocess_start_time_seconds 1700000000\n",
        b"\n# TYPE dehluvima_log_lines_dropped_total counter\ndehluvima_log_lines_dropped_total 2\n",
    ];
    for line in lines {
        assert!(rt; has(&text, line));
    }
    assert!(rt; !has(&text, b"dehluvima_database_log_bytes"));
    Ok(())
}

/// The members are those of Vault's documentation and this project's, the text that of Python's `json`.
#[test]
fn health_is_an_object(rt: HostRuntime) -> Result<(), Fail> {
    let text = health_text(rt.alloc(), &figures(&rt, State::Serving))?;
    assert_eq!(rt;
        text.as_slice(),
        b"{\"cluster_id\":\"00000000-0000-0000-0000-000000000000\",\
    \"cluster_name\":\"dehluvima\",\"connections\":3,\"initialized\":true,\
    \"last_fault\":1,\"performance_standby\":false,\"replication_dr_mode\":\"disabled\",\
    \"replication_performance_mode\":\"disabled\",\"sealed\":false,\
    \"server_time_utc\":1700003601,\"since\":\"2023-11-14T22:13:20Z\",\"standby\":false,\
    \"state\":\"serving\",\"store\":\"file\",\"uptime\":3601,\
    \"version\":\"1.2\\\"<3>\"}\n"
            .as_slice()
    );
    Ok(())
}

#[test]
fn the_page_is_html(rt: HostRuntime) -> Result<(), Fail> {
    let text = page_text(rt.alloc(), &counters(), &figures(&rt, State::Stopping))?;
    assert!(rt;
        text.as_slice()
            .starts_with(b"<!DOCTYPE html>\n<html lang=\"en\">\n")
    );
    let parts: [&[u8]; 4] = [
        b"<h1>Dehluvima 1.2&quot;&lt;3&gt;: stopping</h1>\n\
        <p>Started 2023-11-14T22:13:20Z, 3601 seconds ago. Store: file. Last fault: 1.</p>\n<dl>\n",
        b"<div><dt>Bytes of the database.</dt><dd><b>4096</b></dd></div>\n",
        b"<dd>none <b>1</b></dd>",
        b"<dd>write in all <b>11.000000</b></dd><dd>write requests <b>1</b></dd>",
    ];
    for part in parts {
        assert!(rt; has(&text, part));
    }
    assert!(rt; !has(&text, b"0.0005"));
    Ok(())
}

#[test]
fn heads_are_answered(rt: HostRuntime) -> Result<(), Fail> {
    let alloc = rt.alloc();
    let figures = figures(&rt, State::Serving);
    let head = replied(
        alloc,
        b"HEAD /v1/sys/health?standbyok=true HTTP/1.1\r\nHost: a\r\n\r\n",
        &figures,
    )?;
    assert_eq!(rt;
        head.as_slice(),
        b"HTTP/1.1 200 OK\r\nDate: Tue, 14 Nov 2023 23:13:21 GMT\r\n\
        Cache-Control: no-store\r\nConnection: close\r\nContent-Type: application/json\r\n\
        Content-Length: 393\r\n\r\n"
            .as_slice()
    );
    let whole = replied(alloc, b"GET /health HTTP/1.0\r\n\r\n", &figures)?;
    assert!(rt; whole.as_slice().starts_with(&head));
    assert_eq!(rt; whole.len(), head.len() + 393);
    let page = replied(alloc, b"GET / HTTP/1.1\r\nHost: a\r\n\r\n", &figures)?;
    assert!(rt; has(&page, b"\r\nContent-Type: text/html; charset=utf-8\r\n"));
    let metrics = replied(alloc, b"GET /metrics HTTP/1.1\r\nHost: a\r\n\r\n", &figures)?;
    assert!(rt;
        has(
            &metrics,
            b"\r\nContent-Type: text/plain; version=0.0.4; charset=utf-8\r\n"
        )
    );
    Ok(())
}

#[test]
fn heads_are_refused(rt: HostRuntime) -> Result<(), Fail> {
    let alloc = rt.alloc();
    let serving = figures(&rt, State::Serving);
    let refused: [(&[u8], &[u8]); 5] = [
        (
            b"GET /v1/secret/data/a HTTP/1.0\r\n\r\n",
            b"HTTP/1.1 404 Not Found\r\n",
        ),
        (
            b"POST /metrics HTTP/1.0\r\n\r\n",
            b"HTTP/1.1 405 Method Not Allowed\r\n",
        ),
        (
            b"GET /health HTTP/1.1\r\n\r\n",
            b"HTTP/1.1 400 Bad Request\r\n",
        ),
        (b"GET health\r\n\r\n", b"HTTP/1.1 400 Bad Request\r\n"),
        (
            &[b'a'; 2_048],
            b"HTTP/1.1 431 Request Header Fields Too Large\r\n",
        ),
    ];
    for (head, line) in refused {
        let reply = replied(alloc, head, &serving)?;
        assert!(rt; reply.as_slice().starts_with(line));
        assert!(rt;
            has(
                &reply,
                b"\r\nConnection: close\r\nContent-Length: 0\r\n\r\n"
            )
        );
    }
    let other = replied(alloc, b"PUT / HTTP/1.0\r\n\r\n", &serving)?;
    assert!(rt; has(&other, b"\r\nAllow: GET, HEAD\r\n"));
    let stopping = replied(
        alloc,
        b"GET /health HTTP/1.0\r\n\r\n",
        &figures(&rt, State::Stopping),
    )?;
    assert!(rt;
        stopping
            .as_slice()
            .starts_with(b"HTTP/1.1 503 Service Unavailable\r\n")
    );
    let unended = replied(alloc, &[b'a'; 2_047], &serving)?;
    assert!(rt; unended.is_empty());
    Ok(())
}
