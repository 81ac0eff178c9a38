//! The routers of the table, made once.

ghost use Rattle.std.specs.Prelude.{◌≡◌, None, Some, true, IfOk, IfErr, OnOk, option_map};
ghost use Rattle.matchit.specs.Seek.{first};
ghost use Rattle.mounts.specs.declared.mount_type.MountType.TheVariants as mount;
ghost use Rattle.mounts.specs.Patterns as patterns;
ghost use Rattle.mounts.specs.RouteRow.{rows_in};
ghost use Rattle.mounts.specs.RouterProps as spec;
ghost use Rattle.mounts.specs.RouterProps.{router_props};
ghost use Rattle.mounts.specs.RouteTable as table;

use crate::mount_type::MountType;
use crate::pattern::Pattern;
use crate::table::{RouteRow, route_rows};
use broker_types::Fault;
use matchit::{InsertError, Router};
use std::alloc::Global;

/// The routers of all types of mounts: one search of one of them answers which pattern a path finds. They are made in
/// two parts, since what the prover follows at a way out grows faster than the number of routers that are made by then.
#[derive(Drop)]
pub struct Routers {
    fixed: FixedRouters,
    engines: EngineRouters,
}

/// Those of the mounts that are always there.
#[derive(Drop)]
struct FixedRouters {
    token: Router<Pattern>,
    system: Router<Pattern>,
    cubbyhole: Router<Pattern>,
    ghost token_made: { token ≡ spec.router_for mount.Token } by { Prim.hlevel router_props },
    ghost system_made: { system ≡ spec.router_for mount.System } by { Prim.hlevel router_props },
    ghost cubbyhole_made: { cubbyhole ≡ spec.router_for mount.Cubbyhole } by { Prim.hlevel router_props },
}

/// Those of the mounts of an engine.
#[derive(Drop)]
struct EngineRouters {
    kv: Router<Pattern>,
    issued: Router<Pattern>,
    ghost kv_made: { kv ≡ spec.router_for mount.Kv } by { Prim.hlevel router_props },
    ghost issued_made: { issued ≡ spec.router_for mount.Issued } by { Prim.hlevel router_props },
}

impl FixedRouters {
    fn new(alloc: Global) -> Result<FixedRouters, Fault>
        ensures memory { IfErr result (λ fault. fault ≡ Fault.Memory) }
    {
        Ok(FixedRouters {
            token: router_for(alloc, MountType::Token)?,
            system: router_for(alloc, MountType::System)?,
            cubbyhole: router_for(alloc, MountType::Cubbyhole)?,
        })
    }
}

impl EngineRouters {
    fn new(alloc: Global) -> Result<EngineRouters, Fault>
        ensures memory { IfErr result (λ fault. fault ≡ Fault.Memory) }
    {
        Ok(EngineRouters {
            kv: router_for(alloc, MountType::Kv)?,
            issued: router_for(alloc, MountType::Issued)?,
        })
    }
}

impl Routers {
    /// Makes the routers. The only error is running out of memory.
    pub fn new(alloc: Global) -> Result<Routers, Fault>
        ensures memory { IfErr result (λ fault. fault ≡ Fault.Memory) }
    {
        Ok(Routers {
            fixed: FixedRouters::new(alloc)?,
            engines: EngineRouters::new(alloc)?,
        })
    }

    /// The pattern that a path within a mount of this type finds.
    pub(crate) fn pattern_found(&self, mount_type: MountType, path: &str) -> Option<&'static str>
        ensures { option_map (λ s. s.now) result ≡ patterns.pattern_found (table.route_rows mount_type) path.now }
    {
        found_by(self.of(mount_type), path)
    }

    fn of(&self, mount_type: MountType) -> &Router<Pattern>
        ensures { result.now ≡ spec.router_for mount_type }
    {
        match mount_type {
            MountType::Token => &self.fixed.token,
            MountType::System => &self.fixed.system,
            MountType::Cubbyhole => &self.fixed.cubbyhole,
            MountType::Kv => &self.engines.kv,
            MountType::Issued => &self.engines.issued,
        }
    }
}

/// The text of the pattern that a path finds.
fn found_by(router: &Router<Pattern>, path: &str) -> Option<&'static str>
    ensures { option_map (λ s. s.now) result ≡ option_map (λ r. r.value) (first router.now path.now) }
{
    match router.at(path) {
        Ok(found) => Some(found.value.text()),
        Err(_) => None,
    }
}

/// The router of a type's patterns.
fn router_for(alloc: Global, mount_type: MountType) -> Result<Router<Pattern>, Fault>
    ensures found { IfOk result (λ router. router ≡ spec.router_for mount_type) }
    ensures memory { IfErr result (λ fault. fault ≡ Fault.Memory) }
{
    router_of(alloc, route_rows(mount_type))
}

/// The router of the patterns of rows.
fn router_of(alloc: Global, rows: &'static [RouteRow]) -> Result<Router<Pattern>, Fault>
    requires { patterns.fits (rows_in rows.now) ≡ true }
    ensures found { IfOk result (λ router. router ≡ patterns.router_of (rows_in rows.now)) }
    ensures memory { IfErr result (λ fault. fault ≡ Fault.Memory) }
{
    let mut router = Router::new(alloc);
    let mut before: Option<&str> = None;
    for row in rows {
        put(&mut router, before, row.1)?;
        before = Some(row.1);
    }
    Ok(router)
}

/// Puts a pattern into a router, unless it is that of the row before.
fn put(
    router: &mut Router<Pattern>,
    before: Option<&str>,
    pattern: &'static str,
) -> Result<(), Fault>
    requires { patterns.can_follow (option_map (λ s. s.now) before) pattern.now router.old ≡ true }
    ensures found { OnOk result
        (router.new ≡ patterns.with_next (option_map (λ s. s.now) before.entry) pattern.now router.old) }
    ensures memory { IfErr result (λ fault. fault ≡ Fault.Memory) }
{
    if is_again(before, pattern) {
        return Ok(());
    }
    match router.insert(pattern, Pattern { text: pattern }) {
        Ok(()) => Ok(()),
        Err(InsertError::OutOfMemory) => Err(Fault::Memory),
        Err(_) => unreachable!(),
    }
}

/// Whether the row before has the same pattern.
fn is_again(before: Option<&str>, pattern: &str) -> bool
    ensures { result ≡ patterns.is_again (option_map (λ s. s.now) before.entry) pattern.now }
{
    match before {
        Some(before) => before == pattern,
        None => false,
    }
}
