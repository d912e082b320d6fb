//! Tests of the ledger and of its drafts. It has no code, so that a test is proved alone.
#![tactic(auto)]

#[cfg(test)]
mod genesis;
