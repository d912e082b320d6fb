//! Tests of the readers of actions and records. It has no code, so that a test is proved alone.
//! tests/ of the repository has tables of what is refused.
#![tactic(auto)]

#[cfg(test)]
mod actions;
#[cfg(test)]
mod fields;
#[cfg(test)]
mod follow;
#[cfg(test)]
mod notes;
#[cfg(test)]
mod outputs;
#[cfg(test)]
mod printed;
#[cfg(test)]
mod records;
