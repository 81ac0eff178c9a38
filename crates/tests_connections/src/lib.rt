//! Tests of connections and of stores: of their ends and what fails there, of turns, of many connections that are
//! served at once, of runs that a fault ends, of stores in a database, of rows that are remembered, and of files in
//! memory. Requests with their replies are in `tests/rows`.
#![tactic(auto)]

#[cfg(test)]
mod damaged_rows;
#[cfg(test)]
mod ends;
#[cfg(test)]
mod exchange;
#[cfg(test)]
mod failing_ends;
#[cfg(test)]
mod memory;
#[cfg(test)]
mod ram_files;
#[cfg(test)]
mod remembered;
#[cfg(test)]
mod serving;
#[cfg(test)]
mod stopping;
#[cfg(test)]
mod stores;
#[cfg(test)]
mod streams;
#[cfg(test)]
mod turning;
