//! Proposals with their votes. Each id occurs once, and the voters on a proposal are in order.
ghost use Rattle.std.specs.Prelude.{◌≡◌, ◌↔◌, true, not, IfOk};
ghost use Rattle.std.specs.Bool.{IsTrue};
ghost use Rattle.std.specs.List.{All, list_all};
ghost use Rattle.gov_actions.specs.declared.action.Proposal.{Proposal};
ghost use Rattle.gov_ids.specs.Orders.{voter_cmp};
ghost use Rattle.gov_ids.specs.Same.{same_action};
ghost use Rattle.gov_model.specs.Laws.{HaveDistinctIds};
ghost use Rattle.maps.specs.Maps.{IsMap};

use crate::actions::action;
use crate::numbers::Numbers;
use crate::stop::{Result, Stop};
use gov_actions::{Proposal, Vote};
use gov_ids::{ActionId, PoolId, Voter};
use listed::Listed;
use std::alloc::Global;

fn voter(n: &mut Numbers) -> Voter {
    match n.next() {
        0 => Voter::Committee(n.key()),
        1 => Voter::Drep(n.key()),
        _ => Voter::Pool(PoolId([n.next_byte(); 28])),
    }
}

fn vote(n: &mut Numbers) -> Vote {
    match n.next() {
        0 => Vote::Yes,
        1 => Vote::No,
        _ => Vote::Abstain,
    }
}

fn votes(alloc: Global, n: &mut Numbers) -> Result<Listed<(Voter, Vote)>> {
    let mut all = Listed::new(alloc);
    for _ in 0..n.next() {
        let voter = voter(n);
        all.push((voter, vote(n)))?;
    }
    Ok(all)
}

fn is_in_order(votes: &[(Voter, Vote)]) -> bool
    ensures { IsTrue result ↔ IsMap voter_cmp votes.now }
{
    votes.is_sorted_by(|(voter, _), (next, _)| voter < next)
}

fn proposal(alloc: Global, n: &mut Numbers) -> Result<Proposal> {
    let (id, deposit, account, expires_after) = (n.id(), n.next(), n.account(), n.next());
    let action = action(alloc, n)?;
    match votes(alloc, n) {
        Ok(votes) => Ok(Proposal {
            id,
            action,
            deposit,
            account,
            expires_after,
            votes,
        }),
        Err(stop) => {
            drop(action);
            Err(stop)
        }
    }
}

fn none(alloc: Global) -> Listed<Proposal>
    ensures distinct { HaveDistinctIds result }
    ensures voters { All (λ (a : Proposal). IsMap voter_cmp a.votes) result }
{
    Listed::new(alloc)
}

fn is_same(a: ActionId, b: ActionId) -> bool
    ensures { result ≡ same_action a b }
{
    a == b
}

fn is_new(proposals: &[Proposal], id: ActionId) -> bool
    ensures { result ≡ list_all (λ (p : Proposal). not (same_action id p.id)) proposals.now }
{
    proposals.iter().all(|p| !is_same(id, p.id))
}

fn check_new(proposals: &Listed<Proposal>, id: ActionId) -> Result<()>
    ensures { IfOk result (λ _. list_all (λ (p : Proposal). not (same_action id p.id)) proposals.now ≡ true) }
{
    if is_new(proposals.as_slice(), id) {
        Ok(())
    } else {
        Err(Stop)
    }
}

fn check_order(votes: &Listed<(Voter, Vote)>) -> Result<()>
    ensures { IfOk result (λ _. IsMap voter_cmp votes.now) }
{
    if is_in_order(votes.as_slice()) {
        Ok(())
    } else {
        Err(Stop)
    }
}

fn check_next(first: &Proposal, rest: &Listed<Proposal>) -> Result<()>
    ensures new { IfOk result (λ _. list_all (λ (p : Proposal). not (same_action first.now.id p.id)) rest.now ≡ true) }
    ensures order { IfOk result (λ _. IsMap voter_cmp first.now.votes) }
{
    check_new(rest, first.id)?;
    check_order(&first.votes)
}

// Adds a proposal before the others, if its id is new and its voters are in order.
fn before(first: Proposal, rest: Listed<Proposal>) -> Result<Listed<Proposal>>
    requires distinct { HaveDistinctIds rest }
    requires voters { All (λ (a : Proposal). IsMap voter_cmp a.votes) rest }
    ensures distinct { IfOk result HaveDistinctIds }
    ensures voters { IfOk result (All (λ (a : Proposal). IsMap voter_cmp a.votes)) }
{
    match check_next(&first, &rest) {
        Ok(()) => inserted(first, rest),
        Err(stop) => {
            drop((first, rest));
            Err(stop)
        }
    }
}

// Adds a proposal with a new id, whose voters are in order, before the others.
fn inserted(first: Proposal, rest: Listed<Proposal>) -> Result<Listed<Proposal>>
    requires new { list_all (λ (p : Proposal). not (same_action first.id p.id)) rest ≡ true }
    requires order { IsMap voter_cmp first.votes }
    requires distinct { HaveDistinctIds rest }
    requires voters { All (λ (a : Proposal). IsMap voter_cmp a.votes) rest }
    ensures distinct { IfOk result HaveDistinctIds }
    ensures voters { IfOk result (All (λ (a : Proposal). IsMap voter_cmp a.votes)) }
{
    let mut all = rest;
    all.insert(0, first)?;
    Ok(all)
}

// A row lists the proposals from the last to the first.
pub(crate) fn proposals(alloc: Global, n: &mut Numbers) -> Result<Listed<Proposal>>
    ensures distinct { IfOk result HaveDistinctIds }
    ensures voters { IfOk result (All (λ (a : Proposal). IsMap voter_cmp a.votes)) }
{
    let mut all = none(alloc);
    for _ in 0..n.next() {
        all = before(proposal(alloc, n)?, all)?;
    }
    Ok(all)
}
