//! Tests of the plain types. It has no code, so that a test is proved alone.
#![tactic(auto)]

#[cfg(test)]
mod actions;
#[cfg(test)]
mod balances;
#[cfg(test)]
mod fractions;
#[cfg(test)]
mod ids;
#[cfg(test)]
mod limits;
#[cfg(test)]
mod lists;
#[cfg(test)]
mod names;
#[cfg(test)]
mod parameters;
#[cfg(test)]
mod totals;
