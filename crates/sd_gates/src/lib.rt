//! Tests of sessions in threads of their own: a session's part at its line, and jobs.
#![tactic(auto)]

#[cfg(test)]
mod gates;
#[cfg(test)]
mod holding;
#[cfg(test)]
mod jobs;
#[cfg(test)]
mod lives;
#[cfg(test)]
mod loads;
#[cfg(test)]
mod making;
#[cfg(test)]
mod own;
#[cfg(test)]
mod player;
#[cfg(test)]
mod settled;
#[cfg(test)]
mod settling;
#[cfg(test)]
mod strays;
#[cfg(test)]
mod telling;
