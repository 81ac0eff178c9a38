//! Tests of the client's command lines: the request that each sends, and those that are no commands. Replies and
//! exchanges are in `tests/fuzz_client.py`, `tests/hostile/refused_client.py` and `tests/serve.sh`.
#![tactic(auto)]

#[cfg(test)]
mod commands;
