//! A state that is sound to be resumed, read from the lines of its checkpoint.
#![tactic(auto)]

mod all;
mod head;
mod read;
mod rest;
mod sound;
mod text;

pub use read::read_sound;
