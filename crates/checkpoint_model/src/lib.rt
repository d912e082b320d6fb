//! Checkpoints: their text, when a World is sound to be resumed, and the text of a resume.
#![tactic(auto)]
