ghost use Rattle.std.specs.Prelude.{◌≡◌, true, OnOk};
ghost use Rattle.ledger_model.specs.Checks.{answer_of};
ghost use Rattle.ledger_model.specs.UtxoRules.{fee_checks, is_outside, least_fee, treasury_checks, unless_failed};
ghost use Rattle.rule_checks.specs.Told.{told_with};

use live_ledger::LiveLedger;
use no_memory::NoMemory;
use rule_checks::{Check, Told, first_of};
use tx_records::rules::{FEE_TOO_SMALL, OUTSIDE_VALIDITY, TREASURY_VALUE_WRONG, TX_TOO_LARGE};
use tx_records::{Rule, Scripts, Tx};

/// The rules on size, time and fee.
pub fn fee_checks(s: &LiveLedger, tx: &Tx) -> [Check; 3]
    ensures { result ≡ fee_checks s.now.ledger tx.now }
{
    let most = s.params().max_tx_size;
    let slot = u128::from(s.slot());
    let least = least_fee(s, tx);
    [
        Check::keeping(TX_TOO_LARGE, u128::from(most), tx.size > most),
        Check::keeping(OUTSIDE_VALIDITY, slot, is_outside(s, tx)),
        Check::keeping(FEE_TOO_SMALL, least, u128::from(tx.fee) < least),
    ]
}

/// The first broken rule on size, time and fee.
pub fn check_fee(s: &LiveLedger, tx: &Tx) -> Result<(), Rule>
    ensures { result ≡ answer_of (fee_checks s.now.ledger tx.now) }
{
    first_of(&fee_checks(s, tx))
}

/// Whether the last slot is outside the transaction's interval.
fn is_outside(s: &LiveLedger, tx: &Tx) -> bool
    ensures { result ≡ is_outside s.now.ledger tx.now }
{
    let slot = s.slot();
    tx.from.is_some_and(|from| slot < from) || tx.until.is_some_and(|until| slot >= until)
}

/// The least fee, in lovelace.
fn least_fee(s: &LiveLedger, tx: &Tx) -> u128
    ensures { result ≡ least_fee s.now.ledger tx.now }
{
    let params = s.params();
    let fixed = params.min_fee_b;
    let script_fee = tx.script_fee;
    u128::from(params.min_fee_a) * u128::from(tx.size) + u128::from(fixed) + u128::from(script_fee)
}

/// The rule on the treasury value.
fn treasury_checks(s: &LiveLedger, tx: &Tx) -> [Check; 1]
    ensures { result ≡ treasury_checks s.now.ledger tx.now }
{
    let treasury = s.state().treasury;
    let is_wrong = tx.treasury.is_some_and(|said| said != treasury);
    [Check::keeping(TREASURY_VALUE_WRONG, u128::from(treasury), is_wrong)]
}

/// The rule on the treasury value, which a transaction whose scripts failed need not keep.
pub fn check_treasury(s: &LiveLedger, tx: &Tx) -> Result<(), Rule>
    ensures { result ≡ answer_of (unless_failed tx.now.scripts (treasury_checks s.now.ledger tx.now)) }
{
    if matches!(tx.scripts, Scripts::Failed) {
        return Ok(());
    }
    first_of(&treasury_checks(s, tx))
}

/// Adds the rule on the treasury value, if the scripts did not fail and it is broken.
pub fn tell_treasury(s: &LiveLedger, tx: &Tx, told: &mut Told) -> Result<(), NoMemory>
    ensures { OnOk result (told.new ≡ told_with
        (unless_failed tx.now.scripts (treasury_checks s.now.ledger tx.now)) told.old) }
{
    if matches!(tx.scripts, Scripts::Failed) {
        return Ok(());
    }
    told.add(&treasury_checks(s, tx))
}
