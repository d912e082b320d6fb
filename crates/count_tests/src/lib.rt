//! Tests of a count that is shared among workers. It has no code, so that a test is proved alone.
#![tactic(auto)]

#[cfg(test)]
mod shares;
