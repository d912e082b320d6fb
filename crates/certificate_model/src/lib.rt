//! Certificates: the text of a frozen epoch and its pass, which snapshots fit, checkers' answers.
#![tactic(auto)]
