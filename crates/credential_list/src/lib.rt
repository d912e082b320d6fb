//! A list of credentials that can be searched.
#![tactic(auto)]

mod list;

pub use list::CredentialList;
