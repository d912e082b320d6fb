//! Worked rows: the definitions' results for record streams, computed by the checker.
//! Start here to change a rule.
#![tactic(auto)]
