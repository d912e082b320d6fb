ghost use Rattle.std.specs.Prelude.{◌≡◌};
ghost use Rattle.ledger_model.specs.ProposalRules.{is_known_voter, is_unseated};

use gov_ids::Voter;
use live_ledger::Draft;

/// Whether a voter may vote at all: a hot key, a registered DRep or a registered pool.
/// (CIP-1694, Votes)
pub fn is_known_voter(d: &Draft, voter: &Voter) -> bool
    ensures { result ≡ is_known_voter d.now.ledger voter.now }
{
    match voter {
        Voter::Committee(key) => d.names_hot(key),
        Voter::Drep(c) => d.drep(c).is_some(),
        Voter::Pool(p) => d.pool(p).is_some(),
    }
}

/// Whether a voter votes for the committee by a hot key that no member of it has. (Own)
pub fn is_unseated(d: &Draft, voter: &Voter) -> bool
    ensures { result ≡ is_unseated d.now.ledger voter.now }
{
    match voter {
        Voter::Committee(key) => !d.seats_hot(key),
        Voter::Drep(_) | Voter::Pool(_) => false,
    }
}
