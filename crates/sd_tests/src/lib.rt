//! Tests of libraries by their public calls, of what no run of a program shows. There are vectors of fields and
//! checksums; what a driver of any kind promises, a box and an enum of drivers; the device in memory beside a plain
//! model, and the spool in memory, with each call failing and a stop after each call; a drive of files at its
//! greatest count of failures; the queue that threads share, with one owner, with its seats in threads of their own,
//! and joined again; and what an operator does to the drive of a line, beside a world.
#![tactic(auto)]

#[cfg(test)]
mod calls;
#[cfg(test)]
mod driver;
#[cfg(test)]
mod fields;
#[cfg(test)]
mod files;
#[cfg(test)]
mod lanes;
#[cfg(test)]
mod listed;
#[cfg(test)]
mod making;
#[cfg(test)]
mod memory;
#[cfg(test)]
mod operating;
#[cfg(test)]
mod owner;
#[cfg(test)]
mod pieces;
#[cfg(test)]
mod player;
#[cfg(test)]
mod seats;
#[cfg(test)]
mod spools;
#[cfg(test)]
mod sums;
#[cfg(test)]
mod table;
