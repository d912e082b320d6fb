//! What is asked about one proposal.
ghost use Rattle.std.specs.Prelude.{◌≡◌, find};
ghost use Rattle.gov_ids.specs.Same.{same_action};

use gov_actions::Tally;
use gov_ids::ActionId;
use ratify::Outcome;

/// The counts and needs of each role on a proposal by the frozen votes and stake, and what the next
/// boundary makes of it; none if it was proposed since. (CIP-1694, Ratification)
pub fn tally_of(ahead: &Outcome, id: &ActionId) -> Option<Tally>
    ensures { result ≡ find (λ t. same_action t.id id.now) ahead.now.tallies }
{
    tally_among(ahead.tallies.as_slice(), id)
}

/// The tally of a proposal among these, none where there is none.
fn tally_among(tallies: &[Tally], id: &ActionId) -> Option<Tally>
    ensures { result ≡ find (λ t. same_action t.id id.now) tallies.now }
{
    for tally in tallies {
        if tally.id == *id {
            return Some(*tally);
        }
    }
    None
}
