//! A store that is served at an address, with the system's clock.

ghost use Rattle.std.specs.Prelude.{◌≡◌, None, IsTrue, IfErr};
ghost use Rattle.broker_types.specs.Broker.{Broker};
ghost use Rattle.broker_rows.specs.Representing.{Represents};
ghost use Rattle.server.specs.Starting.{IsAlwaysHonest, IsFaultOfNew};

use crate::listening::ListeningSockets;
use crate::log::Log;
use crate::notes::Notes;
use crate::noting::Noting;
use crate::service::Service;
use crate::serving::serve;
use crate::settings::Settings;
use crate::starting::fault_of;
use crate::system_clock::SystemClock;
use crate::telling::{tell, tell_address, tell_input, tell_output};
use crate::watched::Watched;
use broker::Store;
use broker_types::{Fault, TokenText};
use hub::{ConnectionFault, Hub, WordSource};
use std::cell::Cell;
use std::io;
use std::io::{Print, Write};
use std::net::TcpListener;
use std::rc::Rc;
use std::rt::HostRuntime;

/// Prints the root token on standard output, if there is one, and serves the store at the address of the settings, each
/// event with the moment of the system's clock and words of this source. It fails before it serves if the token cannot
/// be printed (a fault of writing), or the address not be listened on or standard input not be waited for (one of
/// reading); and as `serve` does. A store with the rows of a sound broker, in a storage that returns what was written,
/// has no damaged row.
pub fn serve_store<S: Store + Drop, D: WordSource + Drop>(
    rt: &HostRuntime,
    store: S,
    root: Option<TokenText>,
    settings: &Settings<'_>,
    log: Option<Rc<Log>>,
    words: D,
    watched: Option<Watched>,
) -> Result<(), ConnectionFault>
    ensures { IsAlwaysHonest S.seen → IsTrue (S.seen store).is_open → (b : Broker)
        → Represents None (S.seen store).rows b → IfErr result IsFaultOfNew }
{
    if let Some(root) = root
        && let Err(error) = print_root(rt, &root)
    {
        tell_output(rt, &log, &error);
        return Err(ConnectionFault::Write);
    }
    let notes = Notes::shared(rt, log.is_some())?;
    let are_all = flag(rt)?;
    let listening = match listen(rt, settings, &are_all, &notes, &log, watched) {
        Ok(listening) => listening,
        Err(error) => return Err(fault_of(&error)),
    };
    tell_end(rt, settings, &log);
    let hub = Hub::new(rt.alloc(), Noting::new(store, notes));
    let clock = SystemClock::new(rt);
    let mut service = Service { hub, clock, words };
    serve(rt, &mut service, listening)?;
    if are_all.get() {
        tell_ended(rt, settings, &log);
    }
    if let Some(log) = &log {
        log.tell("stopped");
    }
    Ok(())
}

/// Listens on the address, and waits for the end of standard input if it is to stop then.
fn listen(
    rt: &HostRuntime,
    settings: &Settings<'_>,
    are_all: &Rc<Cell<bool>>,
    notes: &Rc<Notes>,
    log: &Option<Rc<Log>>,
    watched: Option<Watched>,
) -> io::Result<ListeningSockets> {
    let listener = bind(rt, settings.address, log)?;
    let address = listener.local_addr()?;
    let mut listening = ListeningSockets::new(
        rt,
        listener,
        settings.connections,
        settings.at_once,
        Rc::clone(are_all)?,
        Rc::clone(notes)?,
        log.clone()?,
    )?;
    if settings.stops_on_input
        && let Err(error) = listening.stop_on_input()
    {
        tell_input(rt, log, &error);
        return Err(error);
    }
    if let Some(log) = log {
        log.tell(format_args!("listening on {address}"));
    }
    if let Some(watched) = watched {
        tell_operators(&mut listening, watched, log)?;
    }
    Ok(listening)
}

/// Has operators told of the server from now on.
fn tell_operators(
    listening: &mut ListeningSockets,
    watched: Watched,
    log: &Option<Rc<Log>>,
) -> io::Result<()> {
    let address = watched.address()?;
    listening.tell_operators(watched)?;
    if let Some(log) = log {
        log.tell(format_args!("status on {address}"));
    }
    Ok(())
}

/// Listens on the address, or says why that cannot be.
fn bind(rt: &HostRuntime, address: &str, log: &Option<Rc<Log>>) -> io::Result<TcpListener> {
    let listener = TcpListener::bind(rt, address);
    if let Err(error) = &listener {
        tell_address(rt, log, address, error);
    }
    listener
}

/// Prints the line of the root token.
fn print_root<R: Print>(rt: &R, root: &TokenText) -> io::Result<()> {
    let mut output = io::writer(rt);
    writeln!(output, "root token: {}", root.as_str())?;
    output.flush()
}

/// A flag that is not set.
fn flag(rt: &HostRuntime) -> Result<Rc<Cell<bool>>, Fault>
    ensures { IfErr result (λ fault. fault ≡ Fault.Memory) }
{
    Ok(Rc::new(rt.alloc(), Cell::new(false))?)
}

/// Says after how many connections the program ends, where nobody has said it on the command line.
fn tell_end(rt: &HostRuntime, settings: &Settings<'_>, log: &Option<Rc<Log>>) {
    if let Some(connections) = usual_number(settings) {
        tell(
            rt,
            log,
            format_args!(
                "the program ends after {connections} connections: --until-stopped serves without an end"
            ),
        );
    }
}

/// Says that it ends since so many connections were served.
fn tell_ended(rt: &HostRuntime, settings: &Settings<'_>, log: &Option<Rc<Log>>) {
    if let Some(connections) = usual_number(settings) {
        tell(
            rt,
            log,
            format_args!("the program ends: {connections} connections were served"),
        );
    }
}

/// How many connections are served, if that was not given.
fn usual_number(settings: &Settings<'_>) -> Option<u32> {
    if settings.is_number_given {
        return None;
    }
    settings.connections
}
