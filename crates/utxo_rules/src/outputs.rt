ghost use Rattle.std.specs.Prelude.{◌≡◌, ◌++◌, true, OnOk, option_to_list};
ghost use Rattle.ledger_model.specs.Checks.{answer_of, per_place};
ghost use Rattle.ledger_model.specs.UtxoRules.{least_lovelace, output_checks};
ghost use Rattle.rule_checks.specs.Told.{told_with};
ghost use Rattle.tx_records.specs.TxLimits.{is_within_limits};

use live_ledger::LiveLedger;
use no_memory::NoMemory;
use rule_checks::{Check, ItemRules, Told, answer_at, check_each, first_of, tell_each};
use tx_records::rules::{OUTPUT_TOO_SMALL, OUTPUT_WRONG_NETWORK};
use tx_records::{Rule, Tx, TxOutput};

/// Bytes that each output counts besides its own.
/// (The constant overhead of cardano-ledger's least lovelace of an output, since Babbage)
const OVERHEAD: u128 = 160;

/// The rules on each output.
#[derive(Drop)]
struct Outputs<'a> {
    s: &'a LiveLedger,
    tx: &'a Tx,
}

impl<'a> Outputs<'a> {
    /// The rules on the output at a place.
    fn checks_at(&self, place: usize, output: &TxOutput) -> [Check; 2]
        ensures { result ≡ output_checks self.now.s.now.ledger self.now.tx.now place output.now }
    {
        let least = least_lovelace(self.s, output);
        let too_small = u128::from(output.lovelace) < least;
        let elsewhere = output.address.network != self.s.network();
        [
            Check::keeping(OUTPUT_TOO_SMALL, least, too_small),
            Check::plain(OUTPUT_WRONG_NETWORK, elsewhere),
        ]
    }
}

impl<'a> ItemRules for Outputs<'a> {
    ghost use Rattle.ledger_model.specs.UtxoRules.{output_checks};

    type Item = TxOutput;

    ghost checks = { λ r i output. output_checks r.s.now.ledger r.tx.now i output };

    fn check(&self, place: usize, output: &TxOutput) -> Result<(), Rule> {
        first_of(&self.checks_at(place, output))
    }

    fn tell(&self, place: usize, output: &TxOutput, told: &mut Told) -> Result<(), NoMemory> {
        told.add_at(place, &self.checks_at(place, output))
    }
}

/// The rules on each output and on the collateral return, whose index is after the last output.
pub fn check_outputs(s: &LiveLedger, tx: &Tx) -> Result<(), Rule>
    requires { is_within_limits tx.now ≡ true }
    ensures { result ≡ answer_of (per_place
        (output_checks s.now.ledger tx.now) (tx.now.outputs ++ option_to_list tx.now.collateral_return)) }
{
    let rules = Outputs { s, tx };
    check_each(&rules, tx.outputs.as_slice())?;
    match &tx.collateral_return {
        Some(output) => {
            let place = tx.outputs.len();
            answer_at(rules.check(place, output), place)
        }
        None => Ok(()),
    }
}

/// Adds every broken rule on an output or on the collateral return.
pub fn tell_outputs(s: &LiveLedger, tx: &Tx, told: &mut Told) -> Result<(), NoMemory>
    requires { is_within_limits tx.now ≡ true }
    ensures { OnOk result (told.new ≡ told_with (per_place
        (output_checks s.now.ledger tx.now) (tx.now.outputs ++ option_to_list tx.now.collateral_return)) told.old) }
{
    let rules = Outputs { s, tx };
    tell_each(&rules, tx.outputs.as_slice(), told)?;
    match &tx.collateral_return {
        Some(output) => rules.tell(tx.outputs.len(), output, told),
        None => Ok(()),
    }
}

/// The least that an output may hold, in lovelace.
fn least_lovelace(s: &LiveLedger, output: &TxOutput) -> u128
    ensures { result ≡ least_lovelace s.now.ledger output.now }
{
    (OVERHEAD + u128::from(output.bytes)) * u128::from(s.params().coins_per_utxo_byte)
}
