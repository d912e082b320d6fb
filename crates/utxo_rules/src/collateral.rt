ghost use Rattle.std.specs.Prelude.{◌≡◌, true, false, IfOk, OnErr};
ghost use Rattle.ledger_model.specs.Checks.{answer_of, first_among, per_place};
ghost use Rattle.ledger_model.specs.UtxoRules.{collateral_assets_checks, collateral_checks, collateral_list_checks};
ghost use Rattle.ledger_model.specs.UtxoRules.{collateral_sum_checks, has_scripts, is_collateral_uneven, returned_assets};
ghost use Rattle.maps.specs.Words.{is_empty};
ghost use Rattle.rule_checks.specs.Answered.{IsAnswered};
ghost use Rattle.tx_records.specs.TxLimits.{is_within_limits};
ghost use Rattle.utxo_rules.specs.Repeated.{collateral_checks_by, is_at};

use crate::amounts::spent_by;
use crate::asset_sums::{lowest_taken, taken_by};
use gov_ids::{AssetId, CredKind, OutRef};
use live_ledger::LiveLedger;
use no_memory::NoMemory;
use rule_checks::{Check, ItemRules, Told, as_fault, check_each, first_of};
use std::alloc::Global;
use tx_records::rules::{
    COLLATERAL_ASSETS_WRONG, COLLATERAL_MISSING, COLLATERAL_NOT_KEY, COLLATERAL_TOO_SMALL,
    NO_COLLATERAL, TOO_MANY_COLLATERAL,
};
use tx_records::{Rule, Scripts, Tx, TxFault};

/// Whether a transaction has scripts.
fn has_scripts(tx: &Tx) -> bool
    ensures { result ≡ has_scripts tx.now.scripts }
{
    !matches!(tx.scripts, Scripts::Absent)
}

/// The rules on the list of collateral.
pub fn collateral_list_checks(s: &LiveLedger, tx: &Tx) -> [Check; 2]
    ensures { result ≡ collateral_list_checks s.now.ledger tx.now }
{
    let most = s.params().max_collateral_inputs;
    let too_many = tx.collateral.len() > usize::from(most);
    [
        Check::keeping(TOO_MANY_COLLATERAL, u128::from(most), too_many),
        Check::plain(NO_COLLATERAL, has_scripts(tx) && tx.collateral.is_empty()),
    ]
}

/// The first broken rule on the list of collateral.
pub fn check_collateral_list(s: &LiveLedger, tx: &Tx) -> Result<(), Rule>
    ensures { result ≡ answer_of (collateral_list_checks s.now.ledger tx.now) }
{
    first_of(&collateral_list_checks(s, tx))
}

/// The rules on each collateral input, where at most the one at this place is repeated.
#[derive(Drop)]
pub struct Collateral<'a> {
    pub s: &'a LiveLedger,
    pub tx: &'a Tx,
    pub repeated: Option<usize>,
}

impl<'a> Collateral<'a> {
    /// The rules on the collateral input at a place.
    fn checks_at(&self, place: usize, at: &OutRef) -> [Check; 2]
        ensures { result ≡ collateral_checks_by self.now.s.now.ledger self.now.tx.now
            (is_at self.now.repeated place) at.now }
    {
        let output = self.s.outputs().get(at);
        let is_script = output.is_some_and(|output| matches!(
            output.address.payment.kind,
            CredKind::Script
        ));
        let is_repeated = self.repeated == Some(place);
        [
            Check::plain(COLLATERAL_MISSING, output.is_none() || is_repeated),
            Check::plain(COLLATERAL_NOT_KEY, has_scripts(self.tx) && is_script),
        ]
    }
}

impl<'a> ItemRules for Collateral<'a> {
    ghost use Rattle.utxo_rules.specs.Repeated.{collateral_checks_by, is_at};

    type Item = OutRef;

    ghost checks = { λ r i at. collateral_checks_by r.s.now.ledger r.tx.now (is_at r.repeated i) at };

    fn check(&self, place: usize, at: &OutRef) -> Result<(), Rule> {
        first_of(&self.checks_at(place, at))
    }

    fn tell(&self, place: usize, at: &OutRef, told: &mut Told) -> Result<(), NoMemory> {
        told.add_at(place, &self.checks_at(place, at))
    }
}

/// The first broken rule on a collateral input, up to the first repeated one.
pub fn check_collateral(s: &LiveLedger, tx: &Tx) -> Result<(), Rule>
    requires { is_within_limits tx.now ≡ true }
    ensures { result ≡ answer_of (per_place (collateral_checks s.now.ledger tx.now) tx.now.collateral) }
{
    let repeated = tx.collateral.first_repeated();
    check_each(&Collateral { s, tx, repeated }, tx.collateral.as_slice())
}

/// The rule on what the collateral holds: without the return, it must cover its part of the fee.
pub fn collateral_sum_checks(s: &LiveLedger, tx: &Tx) -> [Check; 1]
    requires { is_within_limits tx.now ≡ true }
    ensures { result ≡ collateral_sum_checks s.now.ledger tx.now }
{
    let sum = spent_by(s, tx.collateral.as_slice()).lovelace;
    let returned = tx
        .collateral_return
        .as_ref()
        .map_or(0, |output| u128::from(output.lovelace));
    let left = sum.saturating_sub(returned);
    let wanted = u128::from(tx.fee) * u128::from(s.params().collateral_percentage);
    let too_small = has_scripts(tx) && (sum < returned || left * 100 < wanted);
    [Check::keeping(COLLATERAL_TOO_SMALL, left, too_small)]
}

/// The same, as an answer.
pub fn check_collateral_sum(s: &LiveLedger, tx: &Tx) -> Result<(), Rule>
    requires { is_within_limits tx.now ≡ true }
    ensures { result ≡ answer_of (collateral_sum_checks s.now.ledger tx.now) }
{
    first_of(&collateral_sum_checks(s, tx))
}

/// The rule on the assets of the collateral, all of which come back with its return.
pub fn collateral_assets_checks(
    alloc: Global,
    s: &LiveLedger,
    tx: &Tx,
) -> Result<[Check; 1], NoMemory>
    ensures checks { IfOk result (λ checks. checks ≡ collateral_assets_checks s.now.ledger tx.now) }
    ensures memory { OnErr result (is_empty (returned_assets tx.now) ≡ false) }
{
    let is_wrong = has_scripts(tx) && is_collateral_uneven(alloc, s, tx)?;
    Ok([Check::plain(COLLATERAL_ASSETS_WRONG, is_wrong)])
}

/// The same, as an answer.
pub fn check_collateral_assets(alloc: Global, s: &LiveLedger, tx: &Tx) -> Result<(), TxFault>
    ensures rule { IsAnswered (first_among (collateral_assets_checks s.now.ledger tx.now)) result }
    ensures memory { result ≡ Err TxFault.NoMemory → is_empty (returned_assets tx.now) ≡ false }
{
    let checks = collateral_assets_checks(alloc, s, tx)?;
    as_fault(first_of(&checks))
}

/// Whether the collateral holds more or less of an asset than its return gives back.
/// It takes memory where the return has assets.
fn is_collateral_uneven(alloc: Global, s: &LiveLedger, tx: &Tx) -> Result<bool, NoMemory>
    ensures uneven { IfOk result (λ uneven. uneven ≡ is_collateral_uneven s.now.ledger tx.now) }
    ensures memory { OnErr result (is_empty (returned_assets tx.now) ≡ false) }
{
    let refs = tx.collateral.as_slice();
    let returned = returned_assets(tx);
    if returned.is_empty() {
        return Ok(lowest_taken(s, refs).is_some());
    }
    let mut balance = taken_by(alloc, s, refs, returned.len())?;
    balance.give(returned)?;
    Ok(balance.first_uneven().is_some())
}

/// The assets that the collateral return gives back; none without a return.
fn returned_assets(tx: &Tx) -> &[(AssetId, u64)]
    ensures { result.now ≡ returned_assets tx.now }
{
    match &tx.collateral_return {
        Some(output) => output.assets.as_slice(),
        None => &[],
    }
}
