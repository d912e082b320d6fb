ghost use Rattle.std.specs.Prelude.{◌≡◌};
ghost use Rattle.gov_ids.specs.Orders.{credential_cmp, pool_cmp};
ghost use Rattle.gov_model.specs.Hot.{is_member};
ghost use Rattle.ledger_model.specs.Ledger.{is_from_version_eleven, params_of};
ghost use Rattle.ledger_model.specs.Supply.{pots_of};
ghost use Rattle.live_ledger.specs.Kept.{IsLiveLedger};
ghost use Rattle.maps.specs.Maps.{IsMap, value_at};
ghost use Rattle.proposal_store.specs.Added.{is_proposed};
ghost use Rattle.stake_book.specs.Stakes.{registrations};
ghost use Rattle.view_map.specs.View.{frozen_of};

mod commit;
mod genesis;
mod parts;

use book_records::{DrepState, Pool};
use draft_changes::of_ledger_books::Books;
use drep_book::DrepBook;
use genesis_books::of_cert_pool::PoolBook;
use genesis_books::of_committee_book::{HotBook, is_member};
use gov_actions::EnactState;
use gov_ids::{Credential, PoolId};
use pparams::Params;
use proposal_store::ProposalStore;
use stake_book::StakeBook;
use std::alloc::Global;
use std::marker::Model;
use tx_records::Pots;
use utxo_set::UtxoSet;

/// The ledger after some records: its pots hold the supply, and its maps are maps.
/// Its expiries are within the dormant bound. (LState of the formal specification)
#[derive(Drop)]
pub struct LiveLedger {
    alloc: Global,
    // boxed: to move the ledger moves a pointer
    // its snapshots and pending update are empty: the holder of the ledger keeps these
    books: Box<Books>,
}

impl Model for LiveLedger {
    ghost use Rattle.std.specs.Coded.{codes};
    ghost use Rattle.live_ledger.specs.Standing.{Standing};

    ghost Value = { Standing };

    ghost coded = { Prim.hlevel codes };

    ghost use Rattle.live_ledger.specs.Kept.{IsLiveLedger, ledger_view, standing_view};

    ghost view = { standing_view };

    ghost invariant = { λ a. IsLiveLedger (ledger_view a) };
}

impl LiveLedger {
    /// The network: 0 for the test networks, 1 for mainnet.
    pub fn network(&self) -> u8
        ensures { result ≡ self.now.ledger.network }
    {
        self.books.network
    }

    /// Slots in an epoch.
    pub fn epoch_length(&self) -> u32
        ensures { result ≡ self.now.ledger.epoch_length }
    {
        self.books.length
    }

    /// The supply, in lovelace.
    pub fn supply(&self) -> u64
        ensures { result ≡ self.now.ledger.supply }
    {
        self.books.supply
    }

    /// The last slot.
    pub fn slot(&self) -> u64
        ensures { result ≡ self.now.ledger.slot }
    {
        self.books.slot
    }

    /// The epoch of the last slot. (NewEpochState of the formal specification)
    pub fn epoch(&self) -> u64
        ensures { result ≡ self.now.ledger.epoch }
    {
        self.books.epoch
    }

    /// The reserves, in lovelace. (Acnt of the formal specification)
    pub fn reserves(&self) -> u64
        ensures { result ≡ self.now.ledger.reserves }
    {
        self.books.reserves
    }

    /// The fee pot, in lovelace. (UTxOState of the formal specification)
    pub fn fees(&self) -> u64
        ensures { result ≡ self.now.ledger.fees }
    {
        self.books.fees
    }

    /// The donation pot, in lovelace. (UTxOState of the formal specification)
    pub fn donations(&self) -> u64
        ensures { result ≡ self.now.ledger.donations }
    {
        self.books.donations
    }

    /// Parameters, version, committee, constitution, last enacted ids and the treasury in lovelace.
    /// (EnactState of the formal specification)
    pub fn state(&self) -> &EnactState
        ensures { result.now ≡ self.now.ledger.state }
    {
        self.books.state.get()
    }

    /// The protocol parameters. (PParams of the formal specification)
    pub fn params(&self) -> &Params
        ensures { result.now ≡ params_of self.now.ledger }
    {
        &self.books.state.get().params
    }

    /// Whether the protocol version is 11.0 or later.
    pub fn is_from_version_eleven(&self) -> bool
        ensures { result ≡ is_from_version_eleven self.now.ledger }
    {
        self.books.state.get().version.0 >= 11
    }

    /// The unspent outputs and the used transaction ids.
    /// (UTxOState of the formal specification; that used ids are kept: Own)
    pub fn outputs(&self) -> &UtxoSet
        ensures outputs { result.now.outputs ≡ self.now.ledger.outputs }
        ensures used { result.now.used ≡ self.now.ledger.used }
    {
        self.books.stake.outputs()
    }

    /// Outputs and used ids, the accounts with their stakes, and the entries of the last freeze.
    /// (UTxOState and DState of the formal specification)
    pub fn stake(&self) -> &StakeBook
        ensures outputs { result.now.outputs.outputs ≡ self.now.ledger.outputs }
        ensures used { result.now.outputs.used ≡ self.now.ledger.used }
        ensures accounts { registrations result.now.accounts.live ≡ self.now.ledger.accounts }
        ensures frozen { frozen_of credential_cmp result.now.accounts ≡ self.now.frozen }
    {
        &self.books.stake
    }

    /// The hot keys and resignations of cold keys. (GState of the formal specification)
    pub fn hot(&self) -> &HotBook
        ensures { result.now ≡ self.now.ledger.hot }
    {
        &self.books.hot
    }

    /// Whether a cold key is a member of the committee; false if there is no committee.
    /// It is found by binary search. (CIP-1694, The constitutional committee)
    pub fn is_member(&self, cold: &Credential) -> bool
        ensures { result ≡ is_member self.now.ledger.state.committee cold.now }
    {
        is_member(self.books.state.get().committee.as_ref(), cold)
    }

    /// The registered pools with their terms and retirements. (PState of the formal specification)
    pub fn pools(&self) -> &PoolBook
        ensures { result.now ≡ self.now.ledger.pools }
    {
        &self.books.pools
    }

    /// A registered pool, or none. (PState of the formal specification)
    pub fn pool(&self, p: &PoolId) -> Option<Pool>
        ensures value { result ≡ value_at pool_cmp self.now.ledger.pools p.now }
        ensures in_order { IsMap pool_cmp self.now.ledger.pools }
    {
        self.books.pools.get(p)
    }

    /// The live proposals with their votes, in order of submission.
    /// (GovState of the formal specification)
    pub fn proposals(&self) -> &ProposalStore
        ensures { result.now ≡ self.now.ledger.proposals }
    {
        &self.books.proposals
    }

    /// Whether a live proposal adds a cold key to the committee. It scans no proposals.
    /// (GOVCERT of the formal specification)
    pub fn is_proposed(&self, cold: &Credential) -> bool
        ensures { result ≡ is_proposed cold.now self.now.ledger.proposals }
    {
        self.books.proposals.adds(cold)
    }

    /// The registered DReps and the dormant count.
    /// (GState of the formal specification; how the count acts: Own)
    pub fn dreps(&self) -> &DrepBook
        ensures dreps { result.now.dreps ≡ self.now.ledger.dreps }
        ensures dormant { result.now.dormant ≡ self.now.ledger.dormant }
        ensures kept { IsLiveLedger self.now.ledger }
    {
        &self.books.dreps
    }

    /// A registered DRep, or none. (GState of the formal specification)
    pub fn drep(&self, c: &Credential) -> Option<DrepState>
        ensures value { result ≡ value_at credential_cmp self.now.ledger.dreps c.now }
        ensures in_order { IsMap credential_cmp self.now.ledger.dreps }
    {
        self.books.dreps.get(c)
    }

    /// The seven pots, in lovelace. They hold the supply: deposits are the supply less the others.
    /// (The preservation of value of the formal specification)
    pub fn pots(&self) -> Pots
        ensures { result ≡ pots_of self.now.ledger }
    {
        let b = &*self.books;
        let outputs = b.stake.outputs().total();
        let rewards = b.stake.balances();
        let treasury = b.state.get().treasury;
        let others = outputs + rewards + b.fees + b.donations + treasury + b.reserves;
        Pots {
            outputs,
            deposits: b.supply - others,
            rewards,
            fees: b.fees,
            donations: b.donations,
            treasury,
            reserves: b.reserves,
        }
    }
}
