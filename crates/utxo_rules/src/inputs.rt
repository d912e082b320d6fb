ghost use Rattle.std.specs.Prelude.{◌≡◌, ◌<◌, ◌≤◌, ◌^◌, true, [], ◌∷◌, IfOk, is_none, length};
ghost use Rattle.ledger_model.specs.Ledger.{output_at};
ghost use Rattle.ledger_model.specs.Checks.{answer_of, breaks, per_place};
ghost use Rattle.ledger_model.specs.UtxoRules.{id_checks, input_checks};
ghost use Rattle.rule_checks.specs.Places.{answer_at};
ghost use Rattle.tx_records.specs.TxLimits.{is_within_limits};
ghost use Rattle.tx_records.specs.declared.rules.TheConstants.{INPUT_MISSING, INPUT_REPEATED};
ghost use Rattle.utxo_rules.specs.Repeated.{input_checks_by, is_at};
ghost use Rattle.utxo_rules.specs.Spent.{IsSpent, without_value};

use crate::holdings::{NOTHING, Spent, both, held_in};
use gov_ids::OutRef;
use live_ledger::LiveLedger;
use rule_checks::{Check, answer_at, first_of};
use tx_records::rules::{INPUT_MISSING, INPUT_REPEATED, NO_INPUTS, NOT_WITNESSED, TX_ID_USED};
use tx_records::{Rule, Tx};

/// The rules on the id, the witnesses and the presence of inputs.
pub fn id_checks(s: &LiveLedger, tx: &Tx) -> [Check; 3]
    ensures { result ≡ id_checks s.now.ledger tx.now }
{
    [
        Check::plain(TX_ID_USED, s.outputs().used(&tx.id)),
        Check::plain(NOT_WITNESSED, !tx.witnessed),
        Check::plain(NO_INPUTS, tx.inputs.is_empty()),
    ]
}

/// The first broken rule on the id, the witnesses and the presence of inputs.
pub fn check_id(s: &LiveLedger, tx: &Tx) -> Result<(), Rule>
    ensures { result ≡ answer_of (id_checks s.now.ledger tx.now) }
{
    first_of(&id_checks(s, tx))
}

/// Whether no unspent output is at a reference.
pub fn is_missing(s: &LiveLedger, at: &OutRef) -> bool
    ensures { result ≡ is_none (output_at s.now.ledger at.now) }
{
    s.outputs().get(at).is_none()
}

/// The rules on an input, by whether no unspent output is at its reference, and it is repeated.
pub fn input_checks(missing: bool, repeated: bool) -> [Check; 2]
    ensures { result ≡ breaks INPUT_MISSING missing ∷ breaks INPUT_REPEATED repeated ∷ [] }
{
    [
        Check::plain(INPUT_MISSING, missing),
        Check::plain(INPUT_REPEATED, repeated),
    ]
}

/// What an input at an index holds, or the first rule that it breaks, with its index.
fn held_at(
    s: &LiveLedger,
    repeated: Option<usize>,
    place: usize,
    at: &OutRef,
) -> Result<Spent, Rule>
    requires { place < 2 ^ 32 }
    ensures rule { without_value result ≡
        answer_at place (answer_of (input_checks_by s.now.ledger (is_at repeated place) at.now)) }
    ensures held { IfOk result (IsSpent s.now.ledger (at.now ∷ [])) }
{
    let output = s.outputs().get(at);
    let checks = input_checks(output.is_none(), repeated == Some(place));
    answer_at(first_of(&checks), place)?;
    match output {
        Some(output) => Ok(held_in(output)),
        None => Ok(NOTHING),
    }
}

/// What these inputs hold, or the first rule that one of them breaks.
/// The rules are tried up to the first repeated input, which breaks one of them.
fn held_by(s: &LiveLedger, repeated: Option<usize>, refs: &[OutRef]) -> Result<Spent, Rule>
    requires { length refs.now ≤ 2 ^ 32 }
    ensures rule { without_value result ≡
        answer_of (per_place (λ i at. input_checks_by s.now.ledger (is_at repeated i) at) refs.now) }
    ensures held { IfOk result (IsSpent s.now.ledger refs.now) }
{
    let mut held = NOTHING;
    for (place, at) in refs.iter().enumerate() {
        held = both(held, held_at(s, repeated, place, at)?);
    }
    Ok(held)
}

/// What the inputs hold, or the first broken rule on an input. Each is looked up once.
pub fn check_inputs(s: &LiveLedger, tx: &Tx) -> Result<Spent, Rule>
    requires { is_within_limits tx.now ≡ true }
    ensures rule { without_value result ≡
        answer_of (per_place (input_checks s.now.ledger tx.now) tx.now.inputs) }
    ensures held { IfOk result (IsSpent s.now.ledger tx.now.inputs) }
{
    let repeated = tx.inputs.first_repeated();
    held_by(s, repeated, tx.inputs.as_slice())
}
