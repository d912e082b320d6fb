//! Tests of the lines that are read and of the texts that are written. It has no code, so that a
//! test is proved alone.
#![tactic(auto)]

#[cfg(test)]
mod lines;
#[cfg(test)]
mod texts;
