//! Actions, by the number of their type.
use crate::numbers::Numbers;
use crate::stop::Result;
use coin_frac::Unit;
use credential_list::CredentialList;
use gov_actions::Action;
use gov_ids::Account;
use listed::Listed;
use pparams::Update;
use std::alloc::Global;

fn amount(n: &mut Numbers) -> Option<u64> {
    if n.is_there() { Some(n.next()) } else { None }
}

fn wide(n: &mut Numbers) -> Option<u32> {
    if n.is_there() {
        Some(n.next_u32())
    } else {
        None
    }
}

fn narrow(n: &mut Numbers) -> Option<u16> {
    if n.is_there() {
        Some(n.next_u16())
    } else {
        None
    }
}

fn dreps_thresholds(n: &mut Numbers) -> Option<[Unit; 10]> {
    if n.is_there() {
        Some(n.dreps_thresholds())
    } else {
        None
    }
}

fn pools_thresholds(n: &mut Numbers) -> Option<[Unit; 5]> {
    if n.is_there() {
        Some(n.pools_thresholds())
    } else {
        None
    }
}

// A parameter of each group, security parameters and others, and the thresholds of the later pass.
fn update(n: &mut Numbers) -> Update {
    Update {
        max_tx_size: wide(n),
        max_collateral_inputs: narrow(n),
        key_deposit: amount(n),
        min_fee_a: amount(n),
        n_opt: narrow(n),
        drep_voting_thresholds: dreps_thresholds(n),
        pool_voting_thresholds: pools_thresholds(n),
        committee_min_size: narrow(n),
        committee_max_term_length: wide(n),
        gov_action_deposit: amount(n),
        ..Update::EMPTY
    }
}

fn targets(alloc: Global, n: &mut Numbers) -> Result<Vec<(Account, u64)>> {
    let mut all = Vec::new(alloc);
    for _ in 0..n.next() {
        let to = n.account();
        all.push((to, n.next()))?;
    }
    Ok(all)
}

fn committee(alloc: Global, n: &mut Numbers) -> Result<Action> {
    let previous = n.previous();
    let mut remove = Vec::new(alloc);
    for _ in 0..n.next() {
        remove.push(n.key())?;
    }
    Ok(Action::UpdateCommittee {
        previous,
        remove: CredentialList::from_vec(alloc, remove)?,
        add: Listed::from_vec(n.pairs(alloc)?),
        threshold: n.unit(),
    })
}

pub(crate) fn action(alloc: Global, n: &mut Numbers) -> Result<Action> {
    Ok(match n.next() {
        0 => Action::NoConfidence {
            previous: n.previous(),
        },
        1 => committee(alloc, n)?,
        2 => Action::NewConstitution {
            previous: n.previous(),
            document: [n.next_byte(); 32],
            script: n.script(),
        },
        3 => Action::HardForkInitiation {
            previous: n.previous(),
            version: (n.next_u32(), n.next_u32()),
        },
        4 => Action::ParameterChange {
            previous: n.previous(),
            update: update(n),
            policy: None,
        },
        5 => Action::TreasuryWithdrawals {
            targets: Listed::from_vec(targets(alloc, n)?),
            policy: None,
        },
        _ => Action::Info,
    })
}
