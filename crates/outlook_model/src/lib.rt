//! What the next two boundaries would report if no further record came: today's votes counted.
#![tactic(auto)]
