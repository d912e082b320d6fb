//! The laws over the texts of runs: pulses show only in counted numbers, and what these are;
//! a refused record changed nothing; the pots move by their flows, line by line.
#![tactic(auto)]

mod laws;

pub use laws::{counted_is_shown, pots_move, pulses_do_not_show_in_text, refusals_change_nothing};
