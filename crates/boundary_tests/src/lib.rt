//! Tests of the boundary between epochs, and of what proposals that are frozen then lack.
//! It has no code, so that a test is proved alone.
#![tactic(auto)]

#[cfg(test)]
mod cases;
#[cfg(test)]
mod epochs;
#[cfg(test)]
mod lacks;
#[cfg(test)]
mod lacks_table;
#[cfg(test)]
mod lines;
#[cfg(test)]
mod proposals;
#[cfg(test)]
mod records;
#[cfg(test)]
mod state;
#[cfg(test)]
mod steps;
