//! Tests of rows as lines.
#![tactic(auto)]

#[cfg(test)]
mod lines;
