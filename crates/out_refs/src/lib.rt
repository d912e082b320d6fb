//! A list of references to outputs that knows its first repeated reference.
#![tactic(auto)]

mod out_refs;
mod repeats;

pub use out_refs::OutRefs;
