//! The laws that each certificate of a run is right, and that a check answers yes to it.
#![tactic(auto)]

mod laws;

pub use laws::{
    certificates_are_cut, certificates_are_right, certificates_fit, certified_are_answered_yes,
};
