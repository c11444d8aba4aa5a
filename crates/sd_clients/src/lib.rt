//! Tests of the daemon with a client in a second thread of one process, of what no run of its program shows.
#![tactic(auto)]

#[cfg(test)]
mod dialogue;
