//! Tests of values, rows and bodies: what each is as text or bytes, and what is read from these. Requests and replies
//! are in `tests/rows`. And what operators see of a server.
#![tactic(auto)]

#[cfg(test)]
mod bodies;
#[cfg(test)]
mod operators;
#[cfg(test)]
mod rows;
#[cfg(test)]
mod values;
