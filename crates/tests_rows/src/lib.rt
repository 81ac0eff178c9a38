//! Tests of the calls on rows of one part each: cubbyholes, tokens, leases, mounts, secrets, policies and responses
//! that wait. They are here because a crate with tests is proved once more for them.
#![tactic(auto)]

#[cfg(test)]
mod cubbyholes;
#[cfg(test)]
mod damaged;
#[cfg(test)]
mod leases_and_roles;
#[cfg(test)]
mod old_keys;
#[cfg(test)]
mod permissions;
#[cfg(test)]
mod routes;
#[cfg(test)]
mod secrets;
#[cfg(test)]
mod tokens;
mod unlisted;
#[cfg(test)]
mod waiting;
