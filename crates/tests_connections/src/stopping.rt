//! A script that is run over a store which fails at its second request.

use broker::{ListStore, Noticed, Store};
use broker_types::{Answer, Ask, Fault, Moment, Words};
use endpoints::Writing;
use hub::Hub;
use replay::{Exit, Script, read_script, run_script};
use std::alloc::Global;
use std::test::Fail;

/// A start, a write, a read of what was written, and a request that asks nothing of the store.
const LINES: &str = "{\"moment\":1700000000,\"words\":\"00000000000000000000000000000000\"}\n\
    {\"conn\":1,\"moment\":1700000000,\"words\":\"00000000000000000000000000000010\",\
    \"piece\":\"PUT /v1/cubbyhole/a HTTP/1.1\\r\\nHost: b\\r\\n\
    X-Vault-Token: hvs.00000000-0000-0000-0000-000000000001\\r\\n\
    Content-Length: 9\\r\\n\\r\\n{\\\"k\\\":\\\"v\\\"}\"}\n\
    {\"conn\":1,\"moment\":1700000000,\"words\":\"00000000000000000000000000000020\",\
    \"piece\":\"GET /v1/cubbyhole/a HTTP/1.1\\r\\nHost: b\\r\\n\
    X-Vault-Token: hvs.00000000-0000-0000-0000-000000000001\\r\\n\\r\\n\"}\n\
    {\"conn\":2,\"moment\":1700000000,\"words\":\"00000000000000000000000000000030\",\
    \"piece\":\"GET /a HTTP/1.1\\r\\nHost: b\\r\\n\\r\\n\"}\n";

const WRITTEN: &str = "HTTP/1.1 204 No Content\r\n\
    Date: Tue, 14 Nov 2023 22:13:20 GMT\r\n\
    Cache-Control: no-store\r\n\r\n";

/// A store in memory whose storage fails at its second request alone.
#[derive(Drop)]
struct Stumbling {
    store: ListStore,
    requests: usize,
    failed: bool,
}

impl Store for Stumbling {
    ghost use Rattle.broker.specs.StoreRows.{list_kept};

    ghost seen = { λ s. record (list_kept s.store) { has_failed = s.failed } };

    fn one(&mut self, moment: Moment, words: &Words, ask: &Ask<'_>) -> Result<Answer, Fault> {
        self.requests = self.requests.saturating_add(1);
        self.failed = self.requests == 2;
        if self.failed {
            return Err(Fault::Storage);
        }
        self.store.one(moment, words, ask)
    }

    fn failed(&self) -> bool {
        self.failed
    }

    fn noticed(&self) -> Noticed {
        Noticed::nothing()
    }
}

/// The hub of a broker that was started at the moment, over such a store.
fn started_stumbling(alloc: Global, moment: Moment, words: &Words) -> Result<Hub<Stumbling>, Fail> {
    let mut store = ListStore::new(alloc);
    let token = store.start(moment, words)?;
    drop(token);
    let store = Stumbling {
        store,
        requests: 0,
        failed: false,
    };
    Ok(Hub::new(alloc, store))
}

/// How the script ends over such a store.
fn exit_of(alloc: Global, script: &Script, written: &mut Vec<u8>) -> Result<Exit, Fail> {
    let mut writer = Writing::new(written);
    let mut hub = started_stumbling(alloc, script.start.moment, &script.start.words)?;
    Ok(run_script(alloc, &mut hub, script, &mut writer))
}

/// Computes `StopsRun`, `StoppedRun`.
#[test]
fn the_replies_before_a_fault_are_written(rt: HostRuntime) -> Result<(), Fail> {
    let alloc = rt.alloc();
    let Some(script) = read_script(alloc, LINES.as_bytes())? else {
        return Err(Fail::from("a bad line"));
    };
    let mut written = Vec::new(alloc);
    let exit = exit_of(alloc, &script, &mut written)?;
    assert_eq!(rt; exit, Exit::Faulted(2));
    assert_eq!(rt; written.as_slice(), WRITTEN.as_bytes());
    Ok(())
}
