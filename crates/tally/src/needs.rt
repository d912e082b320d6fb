ghost use Rattle.std.specs.Prelude.{◌≡◌};
ghost use Rattle.gov_model.specs.Need.{committee_need, drep_need, need_of, own_threshold, pool_need};
ghost use Rattle.gov_model.specs.Snapshot.{Snapshot};
ghost use Rattle.gov_model.specs.Thresholds.{P5, greater_of, update_threshold, zero_share};
ghost use Rattle.pparams.specs.Marks.{economic, governance, network, technical};
ghost use Rattle.snapshots.specs.Frozen.{frozen_copy_of};
ghost use Rattle.tally.specs.Greatest.{raised};

use crate::committee::active_members;
use coin_frac::Unit;
use gov_actions::{Action, EnactState, Need, Role};
use pparams::{Params, Update};
use snapshots::Frozen;

/// What a role must reach on an action: by the parameters and the committee of `now`,
/// and by the hot keys and the epoch of the freeze.
/// (CIP-1694, Ratification; RATIFY of the formal specification)
pub fn need(f: &Frozen, now: &EnactState, a: &Action, role: Role) -> Need
    ensures { (s : Snapshot) → f.now ≡ frozen_copy_of s → result ≡ need_of role s now.now a.now }
{
    match role {
        Role::Committee => committee_need(f, now, a),
        Role::Drep => drep_need(now, a),
        Role::Pool => pool_need(now, a),
    }
}

// What the committee must reach.
fn committee_need(f: &Frozen, now: &EnactState, a: &Action) -> Need
    ensures { (s : Snapshot) → f.now ≡ frozen_copy_of s → result ≡ committee_need s now.now a.now }
{
    match a {
        Action::NoConfidence { .. } | Action::UpdateCommittee { .. } => Need::Nothing,
        Action::Info => Need::Never,
        Action::NewConstitution { .. }
        | Action::HardForkInitiation { .. }
        | Action::ParameterChange { .. }
        | Action::TreasuryWithdrawals { .. } => own_threshold(f, now),
    }
}

// The committee's own threshold; never, where there is none or too few members are active.
fn own_threshold(f: &Frozen, now: &EnactState) -> Need
    ensures { (s : Snapshot) → f.now ≡ frozen_copy_of s → result ≡ own_threshold s now.now now.now.committee }
{
    let Some(committee) = &now.committee else {
        return Need::Never;
    };
    let active = active_members(f, committee.members.as_slice());
    if active < u64::from(now.params.committee_min_size) {
        Need::Never
    } else {
        Need::Share(committee.threshold)
    }
}

// What the DReps must reach: P1 to P6 of CIP-1694.
fn drep_need(now: &EnactState, a: &Action) -> Need
    ensures { result ≡ drep_need now.now a.now }
{
    let thresholds = &now.params.drep_voting_thresholds;
    match a {
        Action::NoConfidence { .. } => Need::Share(thresholds[0]),
        Action::UpdateCommittee { .. } => {
            let place = if now.committee.is_some() { 1 } else { 2 };
            Need::Share(thresholds[place])
        }
        Action::NewConstitution { .. } => Need::Share(thresholds[3]),
        Action::HardForkInitiation { .. } => Need::Share(thresholds[4]),
        Action::ParameterChange { update, .. } => Need::Share(update_threshold(
            &now.params,
            update,
        )),
        Action::TreasuryWithdrawals { .. } => Need::Share(thresholds[9]),
        Action::Info => Need::Never,
    }
}

// What the pools must reach: Q1 to Q5 of CIP-1694; nothing where they do not vote.
fn pool_need(now: &EnactState, a: &Action) -> Need
    ensures { result ≡ pool_need now.now a.now }
{
    let thresholds = &now.params.pool_voting_thresholds;
    match a {
        Action::NoConfidence { .. } => Need::Share(thresholds[0]),
        Action::UpdateCommittee { .. } => {
            let place = if now.committee.is_some() { 1 } else { 2 };
            Need::Share(thresholds[place])
        }
        Action::HardForkInitiation { .. } => Need::Share(thresholds[3]),
        Action::ParameterChange { update, .. } if update.security() => Need::Share(thresholds[4]),
        Action::ParameterChange { .. }
        | Action::NewConstitution { .. }
        | Action::TreasuryWithdrawals { .. } => Need::Nothing,
        Action::Info => Need::Never,
    }
}

// The greatest of P5a to P5d over the touched groups, the first of equal ones; 0/1 without a group.
fn update_threshold(params: &Params, update: &Update) -> Unit
    ensures { result ≡ update_threshold params.now update.now }
{
    let groups = update.groups();
    let thresholds = group_thresholds(params);
    let mut greatest = raised(None, groups.network, thresholds.0);
    greatest = raised(greatest, groups.economic, thresholds.1);
    greatest = raised(greatest, groups.technical, thresholds.2);
    greatest = raised(greatest, groups.governance, thresholds.3);
    greatest.unwrap_or(zero_share())
}

// P5a to P5d of CIP-1694: for network, economic, technical and governance parameters.
fn group_thresholds(params: &Params) -> (Unit, Unit, Unit, Unit)
    ensures p5a { result.0 ≡ P5 params.now network }
    ensures p5b { result.1 ≡ P5 params.now economic }
    ensures p5c { result.2 ≡ P5 params.now technical }
    ensures p5d { result.3 ≡ P5 params.now governance }
{
    let thresholds = &params.drep_voting_thresholds;
    (thresholds[5], thresholds[6], thresholds[7], thresholds[8])
}

// The greatest so far, after one more threshold, which counts if its group is touched.
fn raised(greatest: Option<Unit>, touched: bool, threshold: Unit) -> Option<Unit>
    ensures { result ≡ raised greatest touched threshold }
{
    if !touched {
        return greatest;
    }
    match greatest {
        Some(first) => Some(greater_of(first, threshold)),
        None => Some(threshold),
    }
}

// The greater of two, or the first of equal ones.
fn greater_of(a: Unit, b: Unit) -> Unit
    ensures { result ≡ greater_of a b }
{
    let left = u128::from(a.num()) * u128::from(b.den());
    let right = u128::from(b.num()) * u128::from(a.den());
    if left < right { b } else { a }
}

fn zero_share() -> Unit
    ensures { result ≡ zero_share }
{
    Unit::new(0, 1).unwrap()
}
