ghost use Rattle.std.specs.Prelude.{◌≡◌, None, true, IfOk};
ghost use Rattle.gov_ids.specs.Orders.{credential_cmp};
ghost use Rattle.dormant_laws.specs.of_run_model.Freeze.{entries_of};
ghost use Rattle.dormant_laws.specs.of_run_model.Genesis.{genesis_fault, hot_of_genesis, ledger_of_genesis, state_of_genesis};
ghost use Rattle.stake_book.specs.Stakes.{accounts_of};
ghost use Rattle.view_map.specs.View.{frozen_of};
ghost use Rattle.tx_records.specs.GenesisLimits.{is_within_limits};
ghost use Rattle.live_ledger.specs.Starts.{StartsAs};

use super::LiveLedger;
use super::parts::no_snapshots;
use crate::fault::GenesisFault;
use coin_frac::NoMemory;
use draft_changes::of_ledger_books::Books;
use drep_book::DrepBook;
use genesis_books::of_cert_pool::PoolBook;
use genesis_books::of_committee_book::HotBook;
use genesis_books::{broken_rule, first_committee, first_holdings, first_keys};
use gov_actions::{EnactState, LastIds};
use hash_seed::HashSeed;
use listed::Boxed;
use proposal_store::ProposalStore;
use stake_book::StakeBook;
use std::alloc::Global;
use tx_records::Genesis;

impl LiveLedger {
    /// The ledger of a genesis that breaks no genesis rule, with its own account entries frozen.
    /// The seed is of its hash tables; no clause depends on it.
    /// Errors: the first rule that it breaks, or `NoMemory`, which may come at any time.
    pub fn from_genesis(
        alloc: Global,
        seed: HashSeed,
        genesis: &Genesis,
    ) -> Result<LiveLedger, GenesisFault>
        requires within { is_within_limits genesis.now ≡ true }
        ensures { StartsAs result genesis.now }
    {
        if let Some(rule) = broken_rule(alloc, genesis)? {
            return Err(GenesisFault::Broken(rule));
        }
        let state = first_state(alloc, genesis)?;
        match first_books(alloc, seed, genesis) {
            Ok((stake, pools, dreps, hot)) => {
                let books = Books {
                    network: genesis.network,
                    length: genesis.epoch_length,
                    supply: genesis.supply,
                    slot: genesis.slot,
                    epoch: genesis.slot / u64::from(genesis.epoch_length),
                    stake,
                    pools,
                    dreps,
                    hot,
                    proposals: ProposalStore::new(alloc, seed),
                    snapshots: no_snapshots(alloc),
                    state,
                    pending: None,
                    reserves: genesis.reserves,
                    fees: 0,
                    donations: 0,
                };
                let books = boxed(alloc, books)?;
                Ok(LiveLedger { alloc, books })
            }
            Err(error) => {
                // dropped in one call: a `?` would prove it part by part
                drop(state);
                Err(error.into())
            }
        }
    }
}

/// These books in a box.
fn boxed(alloc: Global, books: Books) -> Result<Box<Books>, NoMemory>
    ensures { IfOk result (λ boxed. boxed.value ≡ books) }
{
    Ok(Box::new(alloc, books)?)
}

/// The books of a genesis: of accounts and outputs, of pools, of DReps and of hot keys.
fn first_books(
    alloc: Global,
    seed: HashSeed,
    genesis: &Genesis,
) -> Result<(StakeBook, PoolBook, DrepBook, HotBook), NoMemory>
    requires unbroken { genesis_fault genesis.now ≡ None }
    ensures outputs { IfOk result (λ first. first.0.outputs.outputs ≡ (ledger_of_genesis genesis.now).outputs) }
    ensures used { IfOk result (λ first. first.0.outputs.used ≡ (ledger_of_genesis genesis.now).used) }
    ensures accounts { IfOk result (λ first. accounts_of first.0 ≡ (ledger_of_genesis genesis.now).accounts) }
    ensures frozen { IfOk result (λ first. frozen_of credential_cmp first.0.accounts ≡
        entries_of (ledger_of_genesis genesis.now)) }
    ensures pools { IfOk result (λ first. first.1 ≡ (ledger_of_genesis genesis.now).pools) }
    ensures dreps { IfOk result (λ first. first.2.dreps ≡ (ledger_of_genesis genesis.now).dreps) }
    ensures dormant { IfOk result (λ first. first.2.dormant ≡ 0) }
    ensures hot { IfOk result (λ first. first.3 ≡ hot_of_genesis genesis.now.committee) }
{
    let (stake, pools) = first_holdings(alloc, seed, genesis)?;
    match first_keys(alloc, genesis) {
        Ok((dreps, hot)) => Ok((stake, pools, dreps, hot)),
        Err(error) => {
            drop((stake, pools));
            Err(error)
        }
    }
}

/// What can be enacted, at the start, in a box.
fn first_state(alloc: Global, genesis: &Genesis) -> Result<Boxed<EnactState>, NoMemory>
    ensures { IfOk result (λ state. state ≡ state_of_genesis genesis.now) }
{
    let state = EnactState {
        params: genesis.params,
        version: genesis.version,
        committee: first_committee(alloc, &genesis.committee)?,
        document: genesis.document,
        script: genesis.script,
        last: LastIds {
            committee: None,
            constitution: None,
            hardfork: None,
            parameters: None,
        },
        treasury: genesis.treasury,
    };
    Ok(Boxed::new(alloc, state)?)
}
