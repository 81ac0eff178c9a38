//! Streams of pieces over a store that fails.

use broker::{ListStore, Noticed, Store};
use broker_types::{Answer, Ask, Bytes, Fault, Moment, Words};
use hub::{Event, Hub, run};
use std::alloc::Global;
use std::test::Fail;

pub(crate) const NOT_FOUND: &str = "HTTP/1.1 404 Not Found\r\n\
    Date: Tue, 14 Nov 2023 22:13:20 GMT\r\n\
    Cache-Control: no-store\r\n\
    Content-Type: application/json\r\n\
    Content-Length: 14\r\n\r\n\
    {\"errors\":[]}\n";

pub(crate) const NOT_FOUND_CLOSING: &str = "HTTP/1.1 404 Not Found\r\n\
    Date: Tue, 14 Nov 2023 22:13:20 GMT\r\n\
    Cache-Control: no-store\r\n\
    Connection: close\r\n\
    Content-Type: application/json\r\n\
    Content-Length: 14\r\n\r\n\
    {\"errors\":[]}\n";

const MALFORMED: &str = "HTTP/1.1 400 Bad Request\r\n\
    Date: Tue, 14 Nov 2023 22:13:20 GMT\r\n\
    Cache-Control: no-store\r\n\
    Connection: close\r\n\
    Content-Type: application/json\r\n\
    Content-Length: 33\r\n\r\n\
    {\"errors\":[\"malformed request\"]}\n";

/// A store whose storage fails at each request.
#[derive(Drop)]
pub(crate) struct Broken {
    pub(crate) failed: bool,
}

impl Store for Broken {
    ghost use Rattle.std.specs.Prelude.{[], true};
    ghost use Rattle.records.specs.Transaction.{rows_in};

    ghost seen = { λ s. record { rows = rows_in []; mismatches = 0; has_failed = s.failed; is_open = true } };

    fn one(&mut self, _: Moment, _: &Words, _: &Ask<'_>) -> Result<Answer, Fault> {
        self.failed = true;
        Err(Fault::Storage)
    }

    fn failed(&self) -> bool {
        self.failed
    }

    fn noticed(&self) -> Noticed {
        Noticed::nothing()
    }
}

fn event(alloc: Global, conn: u64, piece: &str, word: u128) -> Result<Event, Fail> {
    Ok(Event {
        conn,
        piece: Bytes::new(Vec::from_slice(alloc, piece.as_bytes())?),
        moment: Moment::new(1_700_000_000).ok_or("the moment is in range")?,
        words: Words([word; 8]),
    })
}

/// The hub of a broker that was started at the moment.
pub(crate) fn started(alloc: Global, moment: Moment) -> Result<Hub<ListStore>, Fail> {
    let mut store = ListStore::new(alloc);
    let token = store.start(moment, &Words([0, 1, 2, 3, 4, 5, 6, 7]))?;
    drop(token);
    Ok(Hub::new(alloc, store))
}

/// Computes `history_at`, `history_after`, `put_history`, `TurnsOpen`, `NextConnections`, `OpenedAs`,
/// `closed_at`.
#[test]
fn pieces_of_two_connections(rt: HostRuntime) -> Result<(), Fail> {
    let alloc = rt.alloc();
    let rows = [
        (1, "GET /a HTTP/1.1\r\nHost: b\r\n\r", ""),
        (
            2,
            "\r\nGET /b HTTP/1.1\r\nHost: b\r\nConnection: close\r\n\r\nGET /",
            NOT_FOUND_CLOSING,
        ),
        (
            1,
            "\nGET /a HTTP/1.1\r\nHost: b\r\n\r\nGET /a HTTP/1.1\r\n\r\n",
            NOT_FOUND,
        ),
        (3, "", ""),
        (2, "GET /b HTTP/1.1\r\nHost: b\r\n\r\n", ""),
        (1, "", NOT_FOUND),
        (1, "", MALFORMED),
        (1, "GET /a HTTP/1.1\r\nHost: b\r\n\r\n", ""),
    ];
    let mut events = Vec::new(alloc);
    for (conn, piece, _) in rows {
        events.push(event(alloc, conn, piece, 0)?)?;
    }
    let mut hub = Hub::new(alloc, Broken { failed: false });
    let Ok(replies) = run(alloc, &mut hub, events.as_slice()) else {
        return Err(Fail::from("a fault"));
    };
    assert_eq!(rt; replies.len(), rows.len());
    for (i, (_, _, reply)) in rows.iter().enumerate() {
        assert_eq!(rt; replies[i].as_slice(), reply.as_bytes(), "event {i}");
    }
    Ok(())
}

/// Computes `close_history`, `FaultsAt`, `IsLater`, `Keeps`, `StopsTurns`.
#[test]
fn a_fault_closes_its_connection_alone(rt: HostRuntime) -> Result<(), Fail> {
    let alloc = rt.alloc();
    let outside = "GET /a HTTP/1.1\r\nHost: b\r\n\r\n";
    let asking = "GET /v1/cubbyhole/a HTTP/1.1\r\nHost: b\r\n\r\n";
    let mut events = Vec::new(alloc);
    for piece in [outside, asking, outside] {
        events.push(event(alloc, 1, piece, 0)?)?;
    }
    let mut hub = Hub::new(alloc, Broken { failed: false });
    match run(alloc, &mut hub, events.as_slice()) {
        Err((place, replies, fault)) => {
            assert_eq!(rt; place, 1);
            assert_eq!(rt; replies.len(), 1);
            assert_eq!(rt; replies[0].as_slice(), NOT_FOUND.as_bytes());
            assert_eq!(rt; fault, Fault::Storage);
        }
        Ok(_) => return Err(Fail::from("no fault")),
    }
    for (conn, reply) in [(1, ""), (2, NOT_FOUND)] {
        let next = event(alloc, conn, outside, 0)?;
        let bytes = hub.feed(next.conn, next.piece.as_slice(), next.moment, &next.words)?;
        assert_eq!(rt; bytes.as_slice(), reply.as_bytes(), "connection {conn}");
    }
    Ok(())
}

/// Feeds no bytes on the connection, which opens it.
fn open(hub: &mut Hub<Broken>, conn: u64) -> Result<(), Fail> {
    let moment = Moment::new(1_700_000_000).ok_or("the moment is in range")?;
    match hub.feed(conn, &[], moment, &Words([0; 8])) {
        Ok(_) => Ok(()),
        Err(_) => Err(Fail::from("a fault")),
    }
}

/// Computes `connections_in`, `LeavesClosed`, `close_history`, `IsNextNumber`. In whatever order connections close,
/// those that did are closed, and no others; nor is a number closed that was left out between them.
#[test]
fn connections_close_in_any_order(rt: HostRuntime) -> Result<(), Fail> {
    let alloc = rt.alloc();
    for order in [[1, 2, 3, 5], [5, 3, 2, 1], [2, 1, 5, 3], [3, 5, 1, 2]] {
        let mut hub = Hub::new(alloc, Broken { failed: false });
        for conn in order {
            open(&mut hub, conn)?;
        }
        for (i, conn) in order.iter().enumerate() {
            hub.close(*conn);
            for (j, other) in order.iter().enumerate() {
                assert_eq!(rt;
                    hub.is_closed(*other),
                    j <= i,
                    "{other} once {conn} is closed"
                );
            }
        }
        for unseen in [0, 4, 6] {
            assert!(rt; !hub.is_closed(unseen));
        }
        open(&mut hub, 4)?;
        assert!(rt; !hub.is_closed(4));
        assert_eq!(rt; hub.open_conn(), Some(6));
        hub.close(4);
        assert!(rt; hub.is_closed(4));
        assert!(rt; !hub.is_closed(0));
        assert_eq!(rt; hub.open_conn(), Some(6));
    }
    Ok(())
}
