//! Tests of the readers of lines. It has no code, so that a test is proved alone.
#![tactic(auto)]

#[cfg(test)]
mod actions;
#[cfg(test)]
mod kinds;
