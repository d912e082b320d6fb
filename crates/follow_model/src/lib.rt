//! Streams with rollbacks: the records that remain, their World, and the text of a followed stream.
#![tactic(auto)]
