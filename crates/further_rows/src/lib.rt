//! Worked rows of the further commands: the checker computes what their definitions give.
#![tactic(auto)]
