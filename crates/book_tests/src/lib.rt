//! Tests of the books: each call that needs memory once, and the results of their rows.
//! The crate has no code, so that a test is proved alone.
#![tactic(auto)]

#[cfg(test)]
mod chains;
#[cfg(test)]
mod committee;
#[cfg(test)]
mod outputs;
#[cfg(test)]
mod pools;
#[cfg(test)]
mod proposals;
#[cfg(test)]
mod registrations;
#[cfg(test)]
mod representatives;
#[cfg(test)]
mod stakes;
#[cfg(test)]
mod views;
