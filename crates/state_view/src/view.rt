//! What a print shows of a ledger.
ghost use Rattle.std.specs.Prelude.{◌≡◌};
ghost use Rattle.state_print.specs.Views.{shown_of_view};
ghost use Rattle.text_model.specs.Shown.{shown_of};

use ledger_state::LedgerState;
use state_print::StateView;

/// What a print of the state shows of the ledger, lent.
pub fn view_of(ledger: &LedgerState) -> StateView<'_>
    ensures { shown_of_view result ≡ shown_of ledger.now }
{
    let stake = ledger.stake();
    // each entry has what its account holds
    let _kept = stake.book();
    StateView {
        slot: ledger.slot(),
        epoch: ledger.epoch(),
        state: ledger.state(),
        hot: ledger.hot(),
        dreps: ledger.dreps(),
        pools: ledger.pools(),
        stake,
        proposals: ledger.proposals(),
        snapshots: ledger.snapshots(),
        pending: ledger.pending(),
        pots: ledger.pots(),
    }
}
