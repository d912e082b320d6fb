ghost use Rattle.std.specs.Prelude.{◌≡◌, ◌<◌, option_map};
ghost use Rattle.ledger_model.specs.Supply.{pots_of};
ghost use Rattle.drep_pulser.specs.Pulsers.{IsPulserOf, done_by};
ghost use Rattle.snapshots.specs.Frozen.{frozen_copy_of};
ghost use Rattle.run_model.specs.SoundWorld.{IsSoundWorld};
ghost use Rattle.live_ledger.specs.of_stake_book.Stakes.{registrations};

mod begin;
mod commit;
mod genesis;
mod parts;
mod steps;

use drep_book::DrepBook;
use drep_pulser::Pulser;
use epoch_start::of_cert_pool::PoolBook;
use epoch_start::of_committee_book::HotBook;
use gov_actions::EnactState;
use listed::Boxed;
use live_ledger::LiveLedger;
use live_ledger::of_proposal_store::ProposalStore;
use live_ledger::of_stake_book::StakeBook;
use snapshots::{Frozen, Snapshots};
use std::alloc::Global;
use std::marker::Model;
use tx_records::{Pots, Rewards};

/// The whole state after some records: what transactions see, and what epochs add to it.
/// Its pots hold the supply, its maps are maps, what was frozen is kept, and its count is of that.
/// (EpochState and NewEpochState of the formal specification)
pub struct LedgerState {
    alloc: Global,
    live: LiveLedger,
    snapshots: Snapshots,
    pending: Option<Rewards>,
    frozen: Boxed<Frozen>,
    pulser: Pulser,
}

// The drop is here once: a derived one is proved again, part by part, in each crate above.
impl Drop for LedgerState {
    fn drop(self) {
        let LedgerState {
            alloc: _,
            live,
            snapshots,
            pending,
            frozen,
            pulser,
        } = self;
        drop(live);
        drop((snapshots, pending, frozen, pulser));
    }
}

impl Model for LedgerState {
    ghost use Rattle.std.specs.Coded.{codes};
    ghost use Rattle.run_model.specs.World.{World};

    ghost Value = { World };

    ghost coded = { Prim.hlevel codes };

    ghost use Rattle.ledger_state.specs.Held.{IsHeld, world_view};

    ghost view = { world_view };

    ghost invariant = { IsHeld };
}

impl LedgerState {
    /// The ledger that transactions see and change, with the entries of the last freeze.
    /// (LState of the formal specification)
    pub fn live(&self) -> &LiveLedger
        ensures ledger { result.now.ledger ≡ self.now.ledger }
        ensures frozen { result.now.frozen ≡ self.now.frozen.entries }
        ensures sound { IsSoundWorld self.now }
    {
        &self.live
    }

    /// The network: 0 for the test networks, 1 for mainnet.
    pub fn network(&self) -> u8
        ensures { result ≡ self.now.ledger.network }
    {
        self.live.network()
    }

    /// Slots in an epoch.
    pub fn epoch_length(&self) -> u32
        ensures { result ≡ self.now.ledger.epoch_length }
    {
        self.live.epoch_length()
    }

    /// The supply, in lovelace.
    pub fn supply(&self) -> u64
        ensures { result ≡ self.now.ledger.supply }
    {
        self.live.supply()
    }

    /// The last slot.
    pub fn slot(&self) -> u64
        ensures { result ≡ self.now.ledger.slot }
    {
        self.live.slot()
    }

    /// The current epoch. (NewEpochState of the formal specification)
    pub fn epoch(&self) -> u64
        ensures { result ≡ self.now.ledger.epoch }
    {
        self.live.epoch()
    }

    /// The reserves, in lovelace. (Acnt of the formal specification)
    pub fn reserves(&self) -> u64
        ensures { result ≡ self.now.ledger.reserves }
    {
        self.live.reserves()
    }

    /// The fee pot, in lovelace. (UTxOState of the formal specification)
    pub fn fees(&self) -> u64
        ensures { result ≡ self.now.ledger.fees }
    {
        self.live.fees()
    }

    /// The donation pot, in lovelace. (UTxOState of the formal specification)
    pub fn donations(&self) -> u64
        ensures { result ≡ self.now.ledger.donations }
    {
        self.live.donations()
    }

    /// Parameters, version, committee, constitution, last enacted ids, the treasury in lovelace.
    /// (EnactState of the formal specification)
    pub fn state(&self) -> &EnactState
        ensures { result.now ≡ self.now.ledger.state }
    {
        self.live.state()
    }

    /// The unspent outputs, the used transaction ids and the accounts.
    /// (UTxOState and DState of the formal specification)
    pub fn stake(&self) -> &StakeBook
        ensures outputs { result.now.outputs.outputs ≡ self.now.ledger.outputs }
        ensures used { result.now.outputs.used ≡ self.now.ledger.used }
        ensures accounts { registrations result.now.accounts.live ≡ self.now.ledger.accounts }
    {
        self.live.stake()
    }

    /// The registered pools with their terms and retirements. (PState of the formal specification)
    pub fn pools(&self) -> &PoolBook
        ensures { result.now ≡ self.now.ledger.pools }
    {
        self.live.pools()
    }

    /// The registered DReps and the dormant count.
    /// (GState of the formal specification; how the count acts is own)
    pub fn dreps(&self) -> &DrepBook
        ensures dreps { result.now.dreps ≡ self.now.ledger.dreps }
        ensures dormant { result.now.dormant ≡ self.now.ledger.dormant }
    {
        self.live.dreps()
    }

    /// The hot keys and resignations of cold keys. (GState of the formal specification)
    pub fn hot(&self) -> &HotBook
        ensures { result.now ≡ self.now.ledger.hot }
    {
        self.live.hot()
    }

    /// The live proposals with their votes, in order of submission.
    /// (GovState of the formal specification)
    pub fn proposals(&self) -> &ProposalStore
        ensures { result.now ≡ self.now.ledger.proposals }
    {
        self.live.proposals()
    }

    /// The seven pots, in lovelace; together they are the supply.
    /// (The preservation of value of the formal specification)
    pub fn pots(&self) -> Pots
        ensures { result ≡ pots_of self.now.ledger }
    {
        self.live.pots()
    }

    /// The stakes of the pools at the last three boundaries, and the fee pot at the last one.
    /// (Snapshots of the formal specification)
    pub fn snapshots(&self) -> &Snapshots
        ensures { result.now ≡ record {
          mark = self.now.mark;
          set = self.now.set;
          go = self.now.go;
          fees = self.now.noted_fees;
        } }
    {
        &self.snapshots
    }

    /// The reward update that the next boundary applies, if there is one.
    /// (RewardUpdate of the formal specification)
    pub fn pending(&self) -> Option<&Rewards>
        ensures { option_map (λ u. u.now) result ≡ self.now.pending }
    {
        self.pending.as_ref()
    }

    /// What was frozen when the epoch began, except account entries, which the stake book keeps.
    /// (EPOCH of the formal specification)
    pub fn frozen(&self) -> &Frozen
        ensures { result.now ≡ frozen_copy_of self.now.frozen }
    {
        self.frozen.get()
    }

    /// The count of the frozen entries. (The DRep pulser of cardano-ledger)
    pub fn pulser(&self) -> &Pulser
        ensures counts { IsPulserOf self.now.frozen result.now }
        ensures done { done_by result.now ≡ self.now.counted }
    {
        &self.pulser
    }
}
