//! What an ask means: a command, with where it acts.

ghost use Rattle.std.specs.Prelude.{◌≡◌, ◌||◌, not, nat_lt, IfOk};
ghost use Rattle.broker_types.specs.Names.{Names, names_of};
ghost use Rattle.api_json.specs.Reads.{IsReadAs};
ghost use Rattle.broker_model.specs.Command.{command_for, place_of};
ghost use Rattle.broker_model.specs.ServedAsks as serving;
ghost use Rattle.broker_model.specs.ServedAsks.{needed_by};
ghost use Rattle.broker_model.specs.Step.{traits};
ghost use Rattle.broker_model.specs.Traits.{names_needed};
ghost use Rattle.broker_rows.specs.Operating.{ArePrinted, IsWellFormed};
ghost use Rattle.broker.specs.Meant.{meant, IsInRange, IsWellPlaced};

mod acting;

use broker_model::{
    CubbyholeCommand, IssuedCommand, LeaseCommand, MountCommand, Needs, PolicyCommand,
    SecretCommand, TokenCommand, WrappingCommand,
};
use broker_rows::identifier;
use broker_types::{Ask, RequestError, TextBuf, Words};
use mounts::{Operation, Route};
use secret_operations::{Place, read_cubbyhole_command, read_issued_command, read_secret_command};
use std::alloc::{AllocError, Global};
use system_operations::{
    read_lease_command, read_mount_command, read_policy_command, read_wrapping_command,
};
use token_operations::read_token_command;

/// The commands, part by part.
pub(crate) enum Command<'r> {
    /// At a path of the caller's cubbyhole.
    OnCubbyhole(&'r str, CubbyholeCommand),
    /// On tokens.
    OnToken(TokenCommand),
    /// At a place of secrets.
    OnSecret(Place<'r>, SecretCommand),
    /// At the name of a policy.
    OnPolicy(&'r str, PolicyCommand),
    /// At the name of a mount.
    OnMount(&'r str, MountCommand),
    /// On leases, below a prefix.
    OnLease(&'r str, LeaseCommand),
    /// At the place of a role.
    OnIssued(Place<'r>, IssuedCommand),
    /// On responses that wait.
    OnWrapping(WrappingCommand),
}

/// It is no derived one, which the prover would follow through each part of each command at each way out.
impl Drop for Command<'_> {
    fn drop(self) {
        match self {
            Command::OnCubbyhole(_path, _command) => {}
            Command::OnToken(_command) => {}
            Command::OnSecret(_place, _command) => {}
            Command::OnPolicy(_name, _command) => {}
            Command::OnMount(_name, _command) => {}
            Command::OnLease(_prefix, _command) => {}
            Command::OnIssued(_place, _command) => {}
            Command::OnWrapping(_command) => {}
        }
    }
}

/// Reads what an ask of this route means. What its body or its version brings is refused with 400, if it is wrong. The
/// only fault is running out of memory.
pub(crate) fn read_command<'r>(
    alloc: Global,
    ask: &Ask<'_>,
    route: &Route<'r>,
) -> Result<Command<'r>, RequestError>
    ensures reads { IsReadAs meant (command_for route.now ask.now) result }
    ensures placed { IsWellFormed route.now → IfOk result (λ command. IsWellPlaced (meant command)) }
    ensures in_range { IfOk result (λ command. IsInRange (meant command)) }
{
    let body = ask.body.as_slice();
    let parameter = route.parameter;
    match route.operation {
        Operation::Cubbyholes(operation) => {
            let command = read_cubbyhole_command(alloc, operation, body)?;
            Ok(Command::OnCubbyhole(parameter, command))
        }
        Operation::Tokens(operation) => {
            let command = read_token_command(alloc, operation, body)?;
            Ok(Command::OnToken(command))
        }
        Operation::Secrets(operation) => {
            let version = ask.version.as_slice();
            let command = read_secret_command(alloc, operation, version, body)?;
            Ok(Command::OnSecret(place_of(route), command))
        }
        Operation::Policies(operation) => {
            let command = read_policy_command(alloc, operation, body)?;
            Ok(Command::OnPolicy(parameter, command))
        }
        Operation::Mounts(operation) => {
            let command = read_mount_command(alloc, operation, body)?;
            Ok(Command::OnMount(parameter, command))
        }
        Operation::Leases(operation) => {
            let command = read_lease_command(alloc, operation, body)?;
            Ok(Command::OnLease(parameter, command))
        }
        Operation::Issued(operation) => {
            let command = read_issued_command(alloc, operation, body)?;
            Ok(Command::OnIssued(place_of(route), command))
        }
        Operation::Wrappings(operation) => {
            let command = read_wrapping_command(alloc, operation, &ask.token, body)?;
            Ok(Command::OnWrapping(command))
        }
    }
}

/// Where a route leads in a mount of an engine.
fn place_of<'r>(route: &Route<'r>) -> Place<'r>
    ensures { result ≡ place_of route.now }
{
    Place {
        mount: route.mount,
        path: route.parameter,
    }
}

/// Whether the reply to a command of an ask is wrapped: a wrap TTL asks for it. Of those on responses that wait only a
/// wrap is.
pub(crate) fn is_wrapped(ask: &Ask<'_>, command: &Command<'_>) -> bool
    ensures { result ≡ serving.is_wrapped ask.now (meant command.now) }
{
    match command {
        Command::OnWrapping(command) if !command.is_wrap() => false,
        _ => ask.wrap_ttl.count() > 0,
    }
}

/// Whether an ask has the wrap TTL that its command must have, or needs none, as all but a wrap.
pub(crate) fn has_wrap_ttl(ask: &Ask<'_>, command: &Command<'_>) -> bool
    ensures { result ≡ (not (traits (meant command.now)).must_wrap || nat_lt 0 ask.now.wrap_ttl) }
{
    match command {
        Command::OnWrapping(command) if command.is_wrap() => ask.wrap_ttl.count() > 0,
        _ => true,
    }
}

/// The identifiers that a command of an ask needs, which have to be new, as they are printed: first those of a new
/// wrapping token and of its accessor, if the reply is wrapped. It fails if memory runs out.
pub(crate) fn needed_identifiers(
    alloc: Global,
    words: &Words,
    ask: &Ask<'_>,
    command: &Command<'_>,
) -> Result<Vec<TextBuf>, AllocError>
    ensures { IfOk result (λ needed.
        ArePrinted needed.items (needed_by ask.now (names_of words.now) (meant command.now))) }
{
    let mut needed = broker_rows::needed(alloc, words, needs(command))?;
    if !is_wrapped(ask, command) {
        return Ok(needed);
    }
    let token = identifier(alloc, words.wrapping_token())?;
    let accessor = identifier(alloc, words.wrapping_accessor())?;
    needed.insert(0, accessor)?;
    needed.insert(0, token)?;
    Ok(needed)
}

/// Which identifiers a command itself needs.
fn needs(command: &Command<'_>) -> Needs
    ensures { (names : Names) → names_needed result names ≡ (traits (meant command.now)).own names }
{
    match command {
        Command::OnToken(command) => command.needs(),
        Command::OnIssued(_, command) => command.needs(),
        Command::OnWrapping(command) => command.needs(),
        _ => Needs::Nothing,
    }
}
