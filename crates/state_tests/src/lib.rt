//! Tests of the state between two boundaries. It has no code, so that a test is proved alone.
#![tactic(auto)]

#[cfg(test)]
mod lines;
#[cfg(test)]
mod records;
#[cfg(test)]
mod state;
