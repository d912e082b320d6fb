//! Tests of the benchmark: its words, the bytes of its stream and its text.
//! It has no code, so that a test is proved alone.
#![tactic(auto)]

#[cfg(test)]
mod made;
#[cfg(test)]
mod streams;
#[cfg(test)]
mod texts;
#[cfg(test)]
mod words;
