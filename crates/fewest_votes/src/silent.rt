ghost use Rattle.std.specs.Prelude.{◌≡◌};
ghost use Rattle.gov_ids.specs.Orders.{voter_cmp};
ghost use Rattle.maps.specs.Maps.{IsMap};
ghost use Rattle.shortfall_model.specs.Silent.{is_silent};

use gov_actions::Proposal;
use gov_ids::{Credential, Voter};

// Whether a DRep did not vote on a proposal.
pub(crate) fn is_silent(a: &Proposal, drep: &Credential) -> bool
    requires { IsMap voter_cmp a.now.votes }
    ensures { result ≡ is_silent a.now drep.now }
{
    let votes = a.votes.as_slice();
    let voter = Voter::Drep(*drep);
    match votes.binary_search_by_key(&voter, |vote| vote.0) {
        Ok(_) => false,
        Err(_) => true,
    }
}
