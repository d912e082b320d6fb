ghost use Rattle.std.specs.Prelude.{◌≡◌, IfOk, true};
ghost use Rattle.ledger_model.specs.Broken.{is_allowed};
ghost use Rattle.ledger_model.specs.Transaction.{ledger_after_tx};
ghost use Rattle.live_ledger.specs.of_draft_changes.Changed.{laid_over};
ghost use Rattle.live_ledger.specs.Drafts.{draft_of};
ghost use Rattle.run_model.specs.World.{on_ledger};
ghost use Rattle.tx_records.specs.TxLimits.{is_within_limits};

use super::LedgerState;
use coin_frac::NoMemory;
use live_ledger::of_draft_changes::Changes;
use tx_records::Tx;

impl LedgerState {
    /// The state after an allowed transaction with these changes; all that epochs add stays.
    /// `NoMemory`: there is no state. (UTXO and LEDGER of the formal specification)
    pub fn commit(self, changes: Changes, tx: &Tx) -> Result<LedgerState, NoMemory>
        requires within { is_within_limits tx.now ≡ true }
        requires allowed { is_allowed self.ledger tx.now ≡ true }
        requires drafted { laid_over changes self.ledger ≡ draft_of self.ledger tx.now }
        ensures { IfOk result (λ s. s ≡ on_ledger (λ l. ledger_after_tx l tx.now) self) }
    {
        let LedgerState {
            alloc,
            live,
            snapshots,
            pending,
            frozen,
            pulser,
        } = self;
        match live.commit(changes, tx) {
            Ok(live) => Ok(LedgerState {
                alloc,
                live,
                snapshots,
                pending,
                frozen,
                pulser,
            }),
            Err(error) => {
                drop((snapshots, pending, frozen, pulser));
                Err(error)
            }
        }
    }
}
