//! Tests of the commands: rows, streams, faults, statuses. No code, so that a test is proved alone.
#![tactic(auto)]

#[cfg(test)]
mod batches;
#[cfg(test)]
mod endings;
#[cfg(test)]
mod epochs;
#[cfg(test)]
mod faults;
#[cfg(test)]
mod followed;
#[cfg(test)]
mod memory;
#[cfg(test)]
mod rows;
#[cfg(test)]
mod shortfalls;
#[cfg(test)]
mod streams;
#[cfg(test)]
mod workers;
