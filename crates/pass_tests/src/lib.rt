//! Tests of what an action changes and of a count in pulses, as calls.
//! It has no code, so that each test is proved alone.
//! The rows of pass_replay show what the count, the tallies and the pass come to.
#![tactic(auto)]

#[cfg(test)]
mod enactment;
#[cfg(test)]
mod pulses;
