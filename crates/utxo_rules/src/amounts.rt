ghost use Rattle.std.specs.Prelude.{◌≡◌, ◌≤◌, ◌*◌, [], ◌∷◌, length, sum_by};
ghost use Rattle.utxo_rules.specs.Spent.{IsSpent};

use crate::holdings::{NOTHING, Spent, both, held_in};
use gov_ids::{Account, OutRef};
use live_ledger::LiveLedger;
use tx_records::{ProposalRecord, TxOutput};

/// What the unspent outputs at these references hold; a reference that has none counts as nothing.
pub fn spent_by(s: &LiveLedger, refs: &[OutRef]) -> Spent
    ensures { IsSpent s.now.ledger refs.now result }
{
    let mut spent = NOTHING;
    for at in refs {
        spent = both(spent, spent_at(s, at));
    }
    spent
}

/// What the unspent output at a reference holds, or nothing where there is none.
fn spent_at(s: &LiveLedger, at: &OutRef) -> Spent
    ensures { IsSpent s.now.ledger (at.now ∷ []) result }
{
    match s.outputs().get(at) {
        Some(output) => held_in(output),
        None => NOTHING,
    }
}

/// What these outputs hold, in lovelace.
pub fn lovelace_made(outputs: &[TxOutput]) -> u128
    ensures sum { result ≡ sum_by (λ o. o.lovelace) outputs.now }
    ensures fits { result ≤ length outputs.now * u64.MAX }
{
    let mut sum = 0;
    for output in outputs {
        sum += u128::from(output.lovelace);
    }
    sum
}

/// What these withdrawals take, in lovelace.
pub fn lovelace_withdrawn(withdrawals: &[(Account, u64)]) -> u128
    ensures sum { result ≡ sum_by (λ x. x.1) withdrawals.now }
    ensures fits { result ≤ length withdrawals.now * u64.MAX }
{
    let mut sum = 0;
    for (_, lovelace) in withdrawals {
        sum += u128::from(*lovelace);
    }
    sum
}

/// What these proposals deposit, in lovelace.
pub fn lovelace_proposed(proposals: &[ProposalRecord]) -> u128
    ensures sum { result ≡ sum_by (λ p. p.deposit) proposals.now }
    ensures fits { result ≤ length proposals.now * u64.MAX }
{
    let mut sum = 0;
    for proposal in proposals {
        sum += u128::from(proposal.deposit);
    }
    sum
}
