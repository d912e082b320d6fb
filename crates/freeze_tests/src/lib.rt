//! Tests of what an epoch freezes, without code, so that a test is proved alone.
#![tactic(auto)]

#[cfg(test)]
mod frozen;
