//! What the texts of checkpoints, certificates and shortfalls share.
//! Lines without a number, actions as JSON, and the form and the order of the formats.
#![tactic(auto)]
