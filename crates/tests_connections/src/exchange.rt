//! A request that writes and one that reads, with their replies, and a clock and words that are known.

use broker_types::{Moment, Words};
use hub::{Clock, WordSource};
use std::test::Fail;

pub(crate) const WRITE: &str = "PUT /v1/cubbyhole/a HTTP/1.1\r\nHost: b\r\n\
    X-Vault-Token: hvs.00000000-0000-0000-0000-000000000001\r\n\
    Content-Length: 9\r\n\r\n{\"k\":\"v\"}";

pub(crate) const READ: &str = "GET /v1/cubbyhole/a HTTP/1.1\r\nHost: b\r\n\
    X-Vault-Token: hvs.00000000-0000-0000-0000-000000000001\r\n\r\n";

pub(crate) const CLOSING: &str = "GET /b HTTP/1.1\r\nHost: b\r\nConnection: close\r\n\r\n";

pub(crate) const WRITTEN: &str = "HTTP/1.1 204 No Content\r\n\
    Date: Tue, 14 Nov 2023 22:13:20 GMT\r\n\
    Cache-Control: no-store\r\n\r\n";

pub(crate) const FOUND: &str = "HTTP/1.1 200 OK\r\n\
    Date: Tue, 14 Nov 2023 22:13:20 GMT\r\n\
    Cache-Control: no-store\r\n\
    Content-Type: application/json\r\n\
    Content-Length: 167\r\n\r\n\
    {\"auth\":null,\"data\":{\"k\":\"v\"},\"lease_duration\":0,\"lease_id\":\"\",\"renewable\":false,\
    \"request_id\":\"00000000-0000-0000-0000-000000000020\",\"warnings\":null,\"wrap_info\":null}\n";

/// A clock that stands still.
#[derive(Drop)]
pub(crate) struct Fixed(pub(crate) Moment);

impl Clock for Fixed {
    fn now(&mut self) -> Moment {
        self.0
    }
}

/// Eight words one after the other, each event's 16 above those of the event before.
#[derive(Drop)]
pub(crate) struct Counting {
    pub(crate) next: u128,
}

impl WordSource for Counting {
    fn words(&mut self) -> Words {
        let first = self.next;
        self.next = first.wrapping_add(16);
        Words([0, 1, 2, 3, 4, 5, 6, 7].map(|i| first.wrapping_add(i)))
    }
}

pub(crate) fn moment() -> Result<Moment, Fail> {
    Ok(Moment::new(1_700_000_000).ok_or("the moment is in range")?)
}
